//! Measures a region: `time` prints placings a second, and `room` takes the largest region.
#![tactic(auto)]

mod placings;

use arimaa_region::Region;
use placings::{place_all, positions};
use std::rt::Runtime;
use std::time::{Duration, Instant};
use std::{env, io};

// How many operations a second that were, if so many took this time.
fn a_second(count: usize, time: Duration) -> u128 {
    (count as u128).wrapping_mul(1_000_000_000) / time.as_nanos().max(1)
}

// Times placing so many positions into an empty segment, and then finding each of them there.
fn measure(rt: &(impl Runtime + AllocGlobal), count: u32) -> io::Result<()> {
    let positions = positions(rt.alloc(), count)?;
    let mut region = Region::with_room(rt.alloc(), 262_144)?;
    let _mark = region.mark();
    let start = Instant::now(rt)?;
    place_all(&mut region, positions.as_slice());
    let placed = start.elapsed(rt)?;
    let start = Instant::now(rt)?;
    place_all(&mut region, positions.as_slice());
    let found = start.elapsed(rt)?;
    let live = region.live();
    let new = a_second(positions.len(), placed);
    let there = a_second(positions.len(), found);
    rt.println(format_args!("{live} live: {new} new and {there} found a second"))
}

fn main(rt: HostRuntime) -> io::Result<()> {
    let word = env::args(&rt)?.nth(1);
    match word.as_ref().map_or("", |word| word.as_str()) {
        "time" => {
            for count in [1_000, 30_000, 262_144] {
                measure(&rt, count)?;
            }
            Ok(())
        }
        "room" => {
            let region = Region::with_room(rt.alloc(), 1_048_576)?;
            let live = region.live();
            println!(rt; "{live} live")
        }
        _ => println!(rt; "usage: arimaa_region_bench time | room"),
    }
}
