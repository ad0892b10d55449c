//! A port over a reader and a writer of the system.
ghost use Rattle.std.specs.Prelude.{◌≡◌, ◌≤◌, None, Ok, IsErrOf, vec_len};
ghost use Rattle.arimaa_outside.specs.Counts.{NeverFall, no_counts};
ghost use Rattle.arimaa_outside.specs.Faults.{HasRisen};
ghost use Rattle.arimaa_outside.specs.StdPort.{counts_of};

use crate::port::{LINE_LIMIT, Port};
use crate::port_fault::PortFault;
use crate::receipt::Heard;
use std::io::{Read, Write};

// The most bytes that are read for one line: the longest line, a carriage return and a line feed.
const READ_LIMIT: usize = LINE_LIMIT + 2;

/// A port that reads lines from any reader and writes lines to any writer, which it flushes after
/// each. It tells neither the lines that were sent nor its answers, and counts its faults, its
/// stops and its lines. It reads byte by byte, so that it takes nothing beyond a line: give it a
/// reader with a buffer.
#[derive(Drop)]
pub struct StdPort<R, W> {
    reader: R,
    writer: W,
    faults: u64,
    stops: u64,
    lines: u64,
}

impl<R: Read, W: Write> StdPort<R, W> {
    /// A port that has counted nothing yet. It takes no memory.
    pub fn new(reader: R, writer: W) -> Self
        ensures { counts_of result ≡ no_counts }
    {
        StdPort {
            reader,
            writer,
            faults: 0,
            stops: 0,
            lines: 0,
        }
    }

    /// How many calls have failed.
    pub fn faults(&self) -> u64
        ensures { result ≡ (counts_of self.now).faults }
    {
        self.faults
    }

    /// How often nothing more came or a line was too long.
    pub fn stops(&self) -> u64
        ensures { result ≡ (counts_of self.now).stops }
    {
        self.stops
    }

    /// How many lines were heard.
    pub fn lines(&self) -> u64
        ensures { result ≡ (counts_of self.now).lines }
    {
        self.lines
    }

    // Counts a call that has failed.
    fn fail(&mut self) -> PortFault
        ensures answer { result ≡ PortFault.Failed }
        ensures risen { HasRisen self.old.faults self.new.faults }
        ensures never_falls { NeverFall (counts_of self.old) (counts_of self.new) }
    {
        self.faults = self.faults.saturating_add(1);
        PortFault::Failed
    }

    // What was read: a line, which loses its end, or that nothing more comes, or a line that is too
    // long.
    fn heard(&mut self, line: &mut Vec<u8>) -> Heard
        ensures faults { self.new.faults ≡ self.old.faults }
        ensures limit { result ≡ Heard.Line → vec_len line.new ≤ LINE_LIMIT }
        ensures line { result ≡ Heard.Line → HasRisen self.old.lines self.new.lines }
        ensures ended { result ≡ Heard.Ended → HasRisen self.old.stops self.new.stops }
        ensures long { result ≡ Heard.Long → HasRisen self.old.stops self.new.stops }
        ensures stops_never_fall { self.old.stops ≤ self.new.stops }
        ensures lines_never_fall { self.old.lines ≤ self.new.lines }
    {
        if line.is_empty() {
            self.stops = self.stops.saturating_add(1);
            return Heard::Ended;
        }
        cut_end(line);
        if line.len() > LINE_LIMIT {
            self.stops = self.stops.saturating_add(1);
            Heard::Long
        } else {
            self.lines = self.lines.saturating_add(1);
            Heard::Line
        }
    }
}

// Takes the line feed off a line, and a carriage return before it.
fn cut_end(line: &mut Vec<u8>) {
    if line.last() == Some(&b'\n') {
        line.pop();
        if line.last() == Some(&b'\r') {
            line.pop();
        }
    }
}

// Reads bytes up to a line feed, to the end, or to the limit.
fn read_line<R: Read>(reader: &mut R, line: &mut Vec<u8>) -> Result<(), PortFault> {
    let mut byte = [0];
    for _ in 0..READ_LIMIT {
        match reader.read(&mut byte) {
            Err(_) => return Err(PortFault::Failed),
            Ok(0) => return Ok(()),
            Ok(_) => {
                if line.push(byte[0]).is_err() {
                    return Err(PortFault::Memory);
                }
            }
        }
        if byte[0] == b'\n' {
            return Ok(());
        }
    }
    Ok(())
}

// Writes a line and its line feed.
fn write_line<W: Write>(writer: &mut W, line: &[u8]) -> bool {
    writer.write_all(line).is_ok() && writer.write_all(b"\n").is_ok() && writer.flush().is_ok()
}

impl<R: Read, W: Write> Port for StdPort<R, W> {
    ghost sent = { λ _. None };

    ghost answers = { λ _. None };

    ghost counts = { counts_of };

    fn send(&mut self, line: &[u8]) -> Result<(), PortFault>
        ensures sound { ¬ IsErrOf result PortFault.Failed → self.new.faults ≡ self.old.faults }
        ensures failed { IsErrOf result PortFault.Failed
            → HasRisen self.old.faults self.new.faults }
        ensures never_falls { NeverFall (counts_of self.old) (counts_of self.new) }
    {
        if write_line(&mut self.writer, line) {
            Ok(())
        } else {
            Err(self.fail())
        }
    }

    fn receive(&mut self, line: &mut Vec<u8>) -> Result<Heard, PortFault>
        ensures limit { result ≡ Ok Heard.Line → vec_len line.new ≤ LINE_LIMIT }
        ensures line { result ≡ Ok Heard.Line → HasRisen self.old.lines self.new.lines }
        ensures ended { result ≡ Ok Heard.Ended → HasRisen self.old.stops self.new.stops }
        ensures long { result ≡ Ok Heard.Long → HasRisen self.old.stops self.new.stops }
        ensures sound { ¬ IsErrOf result PortFault.Failed → self.new.faults ≡ self.old.faults }
        ensures failed { IsErrOf result PortFault.Failed
            → HasRisen self.old.faults self.new.faults }
        ensures never_falls { NeverFall (counts_of self.old) (counts_of self.new) }
    {
        line.clear();
        match read_line(&mut self.reader, line) {
            Ok(()) => Ok(self.heard(line)),
            Err(PortFault::Memory) => Err(PortFault::Memory),
            Err(PortFault::Failed) => Err(self.fail()),
        }
    }
}
