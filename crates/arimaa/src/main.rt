//! `arimaa`: proved answers about the board game Arimaa.
#![tactic(auto)]

use arimaa_child::{ChildSpawner, SystemClock};
use arimaa_cli::run;
use arimaa_outside::{CommandWords, Status, StdSink, StdSource};
use std::alloc::{AllocError, Global};
use std::io;
use std::process::{ExitCode, Processes};
use std::rt::Env;
use std::thread::Threads;
use std::time::Clock;

// Runs the command that the words ask for, on standard input and standard output, with engines as
// child processes and the time of the system.
fn answer<R: Threads + Sync + Env + AllocGlobal + Input + Print + Processes + Clock>(
    rt: &R,
    alloc: Global,
) -> Result<Status, AllocError> {
    let words = CommandWords::of_program(rt)?;
    let mut input = StdSource::new(rt.reader());
    let mut output = StdSink::new(io::writer(rt));
    let mut spawner = ChildSpawner::new(rt, alloc);
    let mut clock = SystemClock::new(rt);
    Ok(run(
        rt,
        alloc,
        &words,
        &mut input,
        &mut output,
        &mut spawner,
        &mut clock,
    ))
}

fn main(rt: HostRuntime) -> ExitCode {
    let status = match answer(&rt, rt.alloc()) {
        Ok(status) => status,
        Err(_) => Status::Memory,
    };
    ExitCode::from(status.code())
}
