//! `arimaa_meet`: lets each of some programs play each other one, four matches at a time, and
//! writes one report.
#![tactic(auto)]

#[cfg(test)]
mod tests;

use arimaa_child::{ChildSpawner, SystemClock};
use arimaa_meet::run_meet;
use arimaa_outside::{CommandWords, Status, StdSink};
use std::alloc::{AllocError, Global};
use std::io;
use std::process::{ExitCode, OpenProcess, Processes};
use std::rt::Env;
use std::thread::Threads;
use std::time::Clock;

// Plays the meet that the words ask for, with engines as child processes and the time of the
// system, and writes the report to standard output.
fn answer<
    R: Sync
        + Env
        + AllocGlobal
        + Print
        + Processes<Started: Send + OpenProcess<Stdin: Send, Stdout: Send, Stderr: Send>>
        + Clock
        + Threads,
>(rt: &R, alloc: Global) -> Result<Status, AllocError> {
    let words = CommandWords::of_program(rt)?;
    let mut output = StdSink::new(io::writer(rt));
    let mut spawners = Vec::from_array(
        alloc,
        [
            ChildSpawner::new(rt, alloc),
            ChildSpawner::new(rt, alloc),
            ChildSpawner::new(rt, alloc),
            ChildSpawner::new(rt, alloc),
        ],
    )?;
    let mut clocks = Vec::from_array(
        alloc,
        [
            SystemClock::new(rt),
            SystemClock::new(rt),
            SystemClock::new(rt),
            SystemClock::new(rt),
        ],
    )?;
    Ok(run_meet(rt, alloc, &words, &mut output, &mut spawners, &mut clocks))
}

fn main(rt: HostRuntime) -> ExitCode {
    let status = match answer(&rt, rt.alloc()) {
        Ok(status) => status,
        Err(_) => Status::Memory,
    };
    ExitCode::from(status.code())
}
