//! A child that is a real program, and the real clock.
use crate::{ChildSpawner, SystemClock};
use arimaa_outside::{Clock, Heard, Port, Spawner};
use std::process::Processes;

// `cat` is sent a line and says it again, and a program that there isn't is not started.
#[test]
fn cat_says_again_what_it_is_sent(rt: HostRuntime) {
    let mut spawner = ChildSpawner::new(&rt, rt.alloc());
    let mut line = Vec::new(rt.alloc());
    match spawner.open("cat") {
        Ok(mut link) => {
            assert!(rt; link.send(b"x").is_ok());
            assert!(rt; matches!(link.receive(&mut line), Ok(Heard::Line)));
            assert!(rt; line.as_slice() == b"x".as_slice());
            spawner.close(link);
        }
        Err(_) => assert!(rt; false),
    }
    assert!(rt; spawner.open("./no-such-engine").is_err());
}

// Moments never fall.
#[test]
fn moments_never_fall(rt: HostRuntime) {
    let mut clock = SystemClock::new(&rt);
    let first = clock.moment();
    assert!(rt; first <= clock.moment());
}
