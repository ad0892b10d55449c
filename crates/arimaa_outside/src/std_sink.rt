//! A sink over a writer of the system.
ghost use Rattle.std.specs.Prelude.{◌≡◌, ◌<◌, ◌≤◌, IfOk, None, OnErr, OnOk, length};
ghost use Rattle.std.specs.Io.KnownBytes.{WriteAppends};
ghost use Rattle.arimaa_outside.specs.Faults.{HasRisen};

use crate::failure::Failed;
use crate::sink::Sink;
use std::io::Write;

/// A sink over any writer. It doesn't tell what was written, and counts each error of the writer,
/// and each time that the writer takes nothing of some bytes. What a writer holds back is not
/// flushed.
#[derive(Drop)]
pub struct StdSink<W> {
    writer: W,
    faults: u64,
}

impl<W: Write> StdSink<W> {
    /// No write has failed yet.
    pub fn new(writer: W) -> Self
        ensures { ⟦<StdSink<W> as Sink>⟧.faults result ≡ 0 }
    {
        StdSink { writer, faults: 0 }
    }
}

impl<W: Write> Sink for StdSink<W> {
    ghost contents = { λ _. None };

    ghost faults = { λ s. s.faults };

    // Where the writer itself tells what it holds, the bytes taken are added to those.
    fn write(&mut self, bytes: &[u8]) -> Result<usize, Failed>
        ensures writer { WriteAppends (W.contents self.old.writer)
            (W.contents self.new.writer) result bytes.now }
        ensures bound { IfOk result (λ n. n ≤ length bytes.now) }
        ensures progress { IfOk result (λ n. 0 < length bytes.now → 0 < n) }
        ensures sound { OnOk result (self.new.faults ≡ self.old.faults) }
        ensures failed { OnErr result (HasRisen self.old.faults self.new.faults) }
        ensures never_falls { self.old.faults ≤ self.new.faults }
    {
        match self.writer.write(bytes) {
            Ok(count) if count > 0 || bytes.is_empty() => Ok(count),
            _ => {
                self.faults = self.faults.saturating_add(1);
                Err(Failed)
            }
        }
    }
}
