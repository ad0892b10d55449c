//! A source over a reader of the system.
ghost use Rattle.std.specs.Prelude.{◌≡◌, ◌≤◌, IfOk, None, OnErr, OnOk, length};
ghost use Rattle.std.specs.Io.KnownBytes.{ReadConsumes};
ghost use Rattle.arimaa_outside.specs.Faults.{HasRisen};

use crate::failure::Failed;
use crate::source::Source;
use std::io::Read;

/// A source over any reader. It doesn't tell what is left, and counts each error of the reader.
#[derive(Drop)]
pub struct StdSource<R> {
    reader: R,
    faults: u64,
}

impl<R: Read> StdSource<R> {
    /// No read has failed yet.
    pub fn new(reader: R) -> Self
        ensures { ⟦<StdSource<R> as Source>⟧.faults result ≡ 0 }
    {
        StdSource { reader, faults: 0 }
    }
}

impl<R: Read> Source for StdSource<R> {
    ghost remaining = { λ _. None };

    ghost faults = { λ s. s.faults };

    // Where the reader itself tells what it has left, the bytes are the next of those.
    fn read(&mut self, buf: &mut [u8]) -> Result<usize, Failed>
        ensures reader { ReadConsumes (R.remaining self.old.reader)
            (R.remaining self.new.reader) result buf.new }
        ensures bound { IfOk result (λ n. n ≤ length buf.new) }
        ensures sound { OnOk result (self.new.faults ≡ self.old.faults) }
        ensures failed { OnErr result (HasRisen self.old.faults self.new.faults) }
        ensures never_falls { self.old.faults ≤ self.new.faults }
    {
        match self.reader.read(buf) {
            Ok(count) => Ok(count),
            Err(_) => {
                self.faults = self.faults.saturating_add(1);
                Err(Failed)
            }
        }
    }
}
