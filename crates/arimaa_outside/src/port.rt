//! Lines that go out to an engine and come in from it.
ghost use Rattle.std.specs.Prelude.{◌≡◌, ◌≤◌, ◌∷◌, [], ℕ, List, Option, IfOk, IsErrOf, Ok, OnErr, OnOk, vec_len};
ghost use Rattle.arimaa_outside.specs.Answers.{receive_answer, send_answer};
ghost use Rattle.arimaa_outside.specs.Counts.{Counts, NeverFall};
ghost use Rattle.arimaa_outside.specs.Faults.{HasRisen};
ghost use Rattle.arimaa_outside.specs.ToldLines.{told_after};
ghost use Rattle.arimaa_outside.specs.declared.port_answer.PortAnswer.{PortAnswer};

use crate::port_fault::PortFault;
use crate::receipt::Heard;

/// The most bytes of a line that is received: 65,536, without its line end.
pub const LINE_LIMIT: usize = 65_536;

/// What takes lines and gives lines.
pub trait Port {
    /// The lines sent so far, in order, or `None` where the port doesn't tell.
    ghost sent: { Self → Option (List (List ℕ)) };

    /// What it answered to each call so far, in order, or `None` where the port doesn't tell.
    ghost answers: { Self → Option (List PortAnswer) };

    /// How many calls have failed, how often nothing more came or a line was too long, and how many
    /// lines were heard.
    ghost counts: { Self → Counts };

    /// Sends a line, which is given without its line end.
    ///
    /// # Errors
    ///
    /// `Failed` raises the count of faults. The line is not among those sent. `Memory` where no
    /// memory is left, and then nothing was sent.
    fn send(&mut self, line: &[u8]) -> Result<(), PortFault>
        ensures sent { OnOk result (sent self.new ≡ told_after (sent self.old) (line.now ∷ [])) }
        ensures kept { OnErr result (sent self.new ≡ sent self.old) }
        ensures answer { answers self.new ≡ told_after (answers self.old) (send_answer result) }

        ensures sound { ¬ IsErrOf result PortFault.Failed
            → (counts self.new).faults ≡ (counts self.old).faults }
        ensures failed { IsErrOf result PortFault.Failed
            → HasRisen (counts self.old).faults (counts self.new).faults }
        ensures never_falls { NeverFall (counts self.old) (counts self.new) };

    /// Waits for the next line. After `Line`, `line` holds that line and nothing else, without its
    /// line feed and without a carriage return before it. Otherwise what `line` holds is left open.
    ///
    /// # Errors
    ///
    /// `Failed` raises the count of faults. `Memory` where there is no room for the line.
    fn receive(&mut self, line: &mut Vec<u8>) -> Result<Heard, PortFault>
        ensures kept { sent self.new ≡ sent self.old }
        ensures answer { answers self.new
            ≡ told_after (answers self.old) (receive_answer result line.new.items) }
        ensures limit { result ≡ Ok Heard.Line → vec_len line.new ≤ LINE_LIMIT }

        ensures line { result ≡ Ok Heard.Line
            → HasRisen (counts self.old).lines (counts self.new).lines }
        ensures ended { result ≡ Ok Heard.Ended
            → HasRisen (counts self.old).stops (counts self.new).stops }
        ensures long { result ≡ Ok Heard.Long
            → HasRisen (counts self.old).stops (counts self.new).stops }
        ensures sound { ¬ IsErrOf result PortFault.Failed
            → (counts self.new).faults ≡ (counts self.old).faults }
        ensures failed { IsErrOf result PortFault.Failed
            → HasRisen (counts self.old).faults (counts self.new).faults }
        ensures never_falls { NeverFall (counts self.old) (counts self.new) };
}
