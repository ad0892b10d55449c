//! Bytes that go out, and all of them written.
ghost use Rattle.std.specs.Prelude.{◌≡◌, ◌≢◌, ◌<◌, ◌≤◌, ℕ, List, Option, IfOk, OnErr, OnOk, length, take};
ghost use Rattle.std.specs.Io.KnownBytes.{append_known};
ghost use Rattle.arimaa_outside.specs.Faults.{HasRisen};
ghost use Rattle.arimaa_outside.specs.Writing.{EndsWith};
ghost use Rattle.arimaa_outside.specs.declared.status.Status.TheVariants.{WriteFault};

use crate::failure::Failed;
use crate::status::Status;

/// What takes bytes.
pub trait Sink {
    /// The bytes written so far, or `None` where the sink doesn't tell.
    ghost contents: { Self → Option (List ℕ) };

    /// How many writes have failed.
    ghost faults: { Self → ℕ };

    /// Takes the first of the bytes, at least one if there are any, and answers how many.
    ///
    /// # Errors
    ///
    /// `Failed` raises the count of faults, and has written nothing.
    fn write(&mut self, bytes: &[u8]) -> Result<usize, Failed>
        ensures bound { IfOk result (λ n. n ≤ length bytes.now) }
        ensures progress { IfOk result (λ n. 0 < length bytes.now → 0 < n) }
        ensures added { IfOk result
            (λ n. contents self.new ≡ append_known (contents self.old) (take n bytes.now)) }
        ensures kept { OnErr result (contents self.new ≡ contents self.old) }

        ensures sound { OnOk result (faults self.new ≡ faults self.old) }
        ensures failed { OnErr result (HasRisen (faults self.old) (faults self.new)) }
        ensures never_falls { faults self.old ≤ faults self.new };
}

/// Writes all of the bytes. It takes no memory.
///
/// # Errors
///
/// `Failed` at the first write that fails. The bytes before it are written.
pub fn write_all<S: Sink>(sink: &mut S, bytes: &[u8]) -> Result<(), Failed>
    ensures whole { OnOk result
        (S.contents sink.new ≡ append_known (S.contents sink.old) bytes.now) }
    ensures part { OnErr result ((n : ℕ) × (n < length bytes.now)
        × (S.contents sink.new ≡ append_known (S.contents sink.old) (take n bytes.now))) }

    ensures sound { OnOk result (S.faults sink.new ≡ S.faults sink.old) }
    ensures failed { OnErr result (HasRisen (S.faults sink.old) (S.faults sink.new)) }
    ensures never_falls { S.faults sink.old ≤ S.faults sink.new }
{
    let mut written = 0;
    while written < bytes.len() {
        written += sink.write(&bytes[written..])?;
    }
    Ok(())
}

/// Writes the text of an answer, and gives the status that its call ends with: that of the answer,
/// or `WriteFault` where a write failed. The bytes before that write are written then.
pub fn write_answer<S: Sink>(sink: &mut S, status: Status, text: &[u8]) -> Status
    ensures ends { EndsWith result (S.contents sink.old) (S.contents sink.new) status text.now }
    ensures fault { result ≢ status → HasRisen (S.faults sink.old) (S.faults sink.new) }
    ensures unfailed { result ≢ WriteFault → S.faults sink.new ≡ S.faults sink.old }
    ensures never_falls { S.faults sink.old ≤ S.faults sink.new }
{
    match write_all(sink, text) {
        Ok(()) => status,
        Err(_) => Status::WriteFault,
    }
}
