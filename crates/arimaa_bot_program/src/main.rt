//! `arimaa_bot_program`: an engine of the Arimaa Engine Interface that plays proved wins, over
//! standard input and standard output.
#![tactic(auto)]

#[cfg(test)]
mod tests;

use arimaa_bot::{BotEnd, run_bot};
use arimaa_outside::{CommandWords, StdPort};
use std::alloc::{AllocError, Global};
use std::io;
use std::io::BufReader;
use std::process::ExitCode;
use std::rt::Env;
use std::thread::Threads;

// Plays with the controller on standard input and standard output.
fn play<R: Threads + Sync + Env + AllocGlobal + Input + Print>(
    rt: &R,
    alloc: Global,
) -> Result<BotEnd, AllocError> {
    let words = CommandWords::of_program(rt)?;
    match BufReader::new(alloc, rt.reader()) {
        Ok(reader) => {
            let mut port = StdPort::new(reader, io::writer(rt));
            Ok(run_bot(rt, alloc, &words, &mut port))
        }
        Err(_) => Err(AllocError),
    }
}

fn main(rt: HostRuntime) -> ExitCode {
    let end = match play(&rt, rt.alloc()) {
        Ok(end) => end,
        Err(_) => BotEnd::Memory,
    };
    ExitCode::from(end.code())
}
