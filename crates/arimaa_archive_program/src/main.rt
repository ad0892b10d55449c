//! `arimaa_archive`: judges the records of an archive on several threads, and writes one report.
#![tactic(auto)]

#[cfg(test)]
mod tests;

use arimaa_archive::run_archive;
use arimaa_outside::{CommandWords, Status, StdSink, StdSource};
use std::alloc::{AllocError, Global};
use std::io;
use std::process::ExitCode;
use std::rt::Env;
use std::thread::Threads;

// Judges the archive on standard input, and writes the report to standard output.
fn answer<R: Threads + Sync + Env + AllocGlobal + Input + Print>(
    rt: &R,
    alloc: Global,
) -> Result<Status, AllocError> {
    let words = CommandWords::of_program(rt)?;
    let mut input = StdSource::new(rt.reader());
    let mut output = StdSink::new(io::writer(rt));
    Ok(run_archive(rt, alloc, &words, &mut input, &mut output))
}

fn main(rt: HostRuntime) -> ExitCode {
    let status = match answer(&rt, rt.alloc()) {
        Ok(status) => status,
        Err(_) => Status::Memory,
    };
    ExitCode::from(status.code())
}
