//! Engines that are started, and links to them.
ghost use Rattle.std.specs.Prelude.{◌≡◌, ◌∷◌, [], List, Option, IfOk, IsErrOf, OnErr};
ghost use Rattle.arimaa_outside.specs.Counts.{Counts, NeverFall, no_counts, sum_of_counts};
ghost use Rattle.arimaa_outside.specs.Faults.{HasRisen};
ghost use Rattle.arimaa_outside.specs.OpenAnswers.{TookBackFewer, TookBackNoMore, open_answer};
ghost use Rattle.arimaa_outside.specs.ToldLines.{told_after, told_before};
ghost use Rattle.arimaa_outside.specs.declared.open_answer.OpenAnswer.{OpenAnswer};

use crate::port::Port;
use crate::port_fault::PortFault;

/// What starts programs and takes the links to them back.
pub trait Spawner {
    /// The link to a program.
    type Link: Port;

    /// The links that it will hand out, in order, or `None` where the spawner doesn't tell.
    ghost waiting: { Self → Option (List Self.Link) };

    /// The links that it took back, in order, or `None` where the spawner doesn't tell.
    ghost back: { Self → Option (List Self.Link) };

    /// What it answered to each call of `open` so far and for which program, in order, or `None`
    /// where the spawner doesn't tell.
    ghost answers: { Self → Option (List OpenAnswer) };

    /// The counts of the links that it took back, together, and how many calls of `open` have
    /// failed, among the faults.
    ghost counts: { Self → Counts };

    /// Starts a program, and hands out a link to it that has counted nothing yet.
    ///
    /// # Errors
    ///
    /// `Failed` raises the count of faults, and hands out no link. `Memory` where no memory is
    /// left.
    fn open(&mut self, program: &str) -> Result<Self::Link, PortFault>
        ensures link { IfOk result
            (λ link. waiting self.old ≡ told_before (link ∷ []) (waiting self.new)) }
        ensures fresh { IfOk result (λ link. Self.Link.counts link ≡ no_counts) }
        ensures kept { OnErr result (waiting self.new ≡ waiting self.old) }
        ensures answer { answers self.new
            ≡ told_after (answers self.old) (open_answer program.now result) }
        ensures back { back self.new ≡ back self.old }

        // A spawner never took back more links than it handed out.
        ensures balance { TookBackNoMore (back self.old) (answers self.old) }

        ensures sound { ¬ IsErrOf result PortFault.Failed → counts self.new ≡ counts self.old }
        ensures failed { IsErrOf result PortFault.Failed
            → HasRisen (counts self.old).faults (counts self.new).faults }
        ensures never_falls { NeverFall (counts self.old) (counts self.new) };

    /// Takes a link back, and adds its counts to the spawner's, which end at 2^64 - 1.
    fn close(&mut self, link: Self::Link)
        requires { TookBackFewer (back self.old) (answers self.old) }
        ensures back { back self.new ≡ told_after (back self.old) (link ∷ []) }
        ensures waiting { waiting self.new ≡ waiting self.old }
        ensures answers { answers self.new ≡ answers self.old }
        ensures counts { counts self.new ≡ sum_of_counts (counts self.old) (Self.Link.counts link) }
        ensures never_falls { NeverFall (counts self.old) (counts self.new) };
}
