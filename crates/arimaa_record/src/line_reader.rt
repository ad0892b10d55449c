//! The reader of lines.
ghost use Rattle.std.specs.Prelude.{◌≡◌, ◌↔◌, ◌≤◌, ◌<◌, true, false, IfOk, OnErr, IsErrOf, length};
ghost use Rattle.std.specs.Borrow.{sem};
ghost use Rattle.std.specs.Io.BufRead.{Rests};
ghost use Rattle.arimaa_outside.specs.Faults.{HasRisen};
ghost use Rattle.arimaa_outside.specs.declared.source.ReadAll.TheVariants.{Fault, TooLong};
ghost use Rattle.arimaa_record.specs.contracts.line_reader.LineReader.{the_row};
ghost use Rattle.arimaa_record.specs.LineReader.{Advances, Gathers, IsNew, IsNext, Takes, IsPiece, given_bytes, given_line};

use crate::buffer::Buffer;
use crate::lines::{line_len, without_return};
use arimaa_outside::{INPUT_LIMIT, ReadAll, Source};
use std::alloc::{AllocError, Global};

/// Reads the lines of an input one after another. It holds the line in hand, and beyond it at most
/// 4,096 bytes that it has taken from the input.
#[derive(Drop)]
pub struct LineReader {
    held: Buffer,
    // the line in hand, without its line feed
    line: Vec<u8>,
    // how many bytes were taken over all calls
    taken: usize,
    is_ended: bool,
    has_failed: bool,
}

impl LineReader {
    /// A reader that has taken nothing.
    ///
    /// # Errors
    ///
    /// Where there is no memory for a buffer of 4,096 bytes.
    pub fn new(alloc: Global) -> Result<LineReader, AllocError>
        ensures { IfOk result IsNew }
    {
        let held = Buffer::new(alloc)?;
        Ok(LineReader {
            held,
            line: Vec::new(alloc),
            taken: 0,
            is_ended: false,
            has_failed: false,
        })
    }

    /// The next line without its end, or none at the end of the input.
    ///
    /// A line ends with a line feed, and the last may lack it. A carriage return directly before
    /// the line feed, or at the end of the input, belongs to the line's end. All calls are to be
    /// given the same input. After the end each call answers none, and reads no more.
    ///
    /// # Errors
    ///
    /// `Fault` where a read fails. `TooLong` once more than `INPUT_LIMIT` bytes were taken over all
    /// calls, and then at each call. `Memory` where there is no room for the line. No call may
    /// follow one that answered `Fault` or `Memory`, which lose a part of a line.
    pub fn next<I: Source>(&mut self, input: &mut I) -> Result<Option<&[u8]>, ReadAll>
        requires { self.old.has_failed ≡ false }
        ensures* next { sem 𝓛 (Rests the_row self.entry (λ new. IsNext self.old new
            (I.remaining input.old) (I.remaining input.new) (given_bytes result))) }
        ensures fault { IsErrOf result ReadAll.Fault
            → HasRisen (I.faults input.old) (I.faults input.new) }
        ensures sound { ¬ IsErrOf result ReadAll.Fault
            → I.faults input.new ≡ I.faults input.old }
        ensures never_falls { I.faults input.old ≤ I.faults input.new }
    {
        if self.is_ended {
            return Ok(None);
        }
        match self.advance(input) {
            Ok(true) => Ok(Some(without_return(&self.line))),
            Ok(false) => Ok(None),
            Err(error) => Err(error),
        }
    }

    // Brings the next line in hand, with its carriage return, and answers whether there is one.
    fn advance<I: Source>(&mut self, input: &mut I) -> Result<bool, ReadAll>
        requires sound { self.old.has_failed ≡ false }
        requires open_input { self.old.is_ended ≡ false }
        ensures advances { Advances self.old self.new (I.remaining input.old)
            (I.remaining input.new) (given_line self.new.line.items result) }
        ensures fault { IsErrOf result ReadAll.Fault
            → HasRisen (I.faults input.old) (I.faults input.new) }
        ensures sound { ¬ IsErrOf result ReadAll.Fault
            → I.faults input.new ≡ I.faults input.old }
        ensures never_falls { I.faults input.old ≤ I.faults input.new }
    {
        let _held = self.held.as_slice();
        if self.taken > INPUT_LIMIT {
            return Err(ReadAll::TooLong);
        }
        match self.gather(input) {
            Ok(ended) => {
                self.is_ended = ended;
                Ok(!ended || !self.line.is_empty())
            }
            Err(error) => {
                self.has_failed = error != ReadAll::TooLong;
                Err(error)
            }
        }
    }

    // Gathers the bytes of the next line, and passes the line feed that ends it. Answers whether
    // the input has ended instead.
    fn gather<I: Source>(&mut self, input: &mut I) -> Result<bool, ReadAll>
        requires limit { self.old.taken ≤ INPUT_LIMIT }
        ensures gathers { IfOk result (Gathers self.old self.new (I.remaining input.old)
            (I.remaining input.new)) }
        ensures lost { OnErr result (Takes self.old self.new (I.remaining input.old)
            (I.remaining input.new)) }
        ensures too_long { IsErrOf result ReadAll.TooLong ↔ (INPUT_LIMIT < self.new.taken) }
        ensures ended { self.new.is_ended ≡ self.old.is_ended }
        ensures failed { self.new.has_failed ≡ self.old.has_failed }
        ensures fault { IsErrOf result ReadAll.Fault
            → HasRisen (I.faults input.old) (I.faults input.new) }
        ensures sound { ¬ IsErrOf result ReadAll.Fault
            → I.faults input.new ≡ I.faults input.old }
        ensures never_falls { I.faults input.old ≤ I.faults input.new }
    {
        self.line.clear();
        'pieces: loop {
            if move_piece(&mut self.held, &mut self.line)? {
                return Ok(false);
            }
            let count = self.held.fill(input)?;
            self.taken += count;
            if self.taken > INPUT_LIMIT {
                return Err(ReadAll::TooLong);
            }
            if count == 0 {
                return Ok(true);
            }
        }
    }
}

// Moves the bytes before the first line feed to the end of the line, and passes the feed, or else
// moves them all. Answers whether there is a line feed.
fn move_piece(held: &mut Buffer, line: &mut Vec<u8>) -> Result<bool, AllocError>
    ensures moved { IfOk result (IsPiece held.old held.new line.old.items line.new.items) }
    ensures kept { OnErr result (held.new ≡ held.old) }
    ensures room { length held.new ≤ 4096 }
{
    let bytes = held.as_slice();
    let len = line_len(bytes);
    let size = bytes.len();
    line.extend_from_slice(&bytes[..len])?;
    if len < size {
        held.pass(len + 1);
        Ok(true)
    } else {
        held.pass(len);
        Ok(false)
    }
}
