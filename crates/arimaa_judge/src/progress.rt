//! The judgement of a record after some of its lines.
ghost use Rattle.std.specs.Prelude.{◌≡◌, ◌≤◌, ◌<◌, ◌+◌, ◌^◌, [], OnOk, is_some};
ghost use Rattle.arimaa_judge.specs.Judgement.{HasEnding, HasFitBoards, HasLawfulTurns, HasTurnCount};
ghost use Rattle.arimaa_judge.specs.Progress.{IsAtBegin, LeadsOn, LeadsTo};

use crate::judgement::Judged;
use crate::record_state::RecordState;
use crate::rule::Rule;
use std::alloc::{AllocError, Global};

/// How far the judgement of a record has come.
#[derive(Drop)]
pub struct Progress {
    // the state of the record after its lines so far, or before the first bad one
    state: RecordState,
    // the number of lines so far, or that of the first bad one
    number: u64,
    // the rule that the first bad line breaks
    broken: Option<Rule>,
}

impl Progress {
    /// Before the first line.
    pub fn before_lines() -> Progress
        ensures { IsAtBegin result }
    {
        Progress {
            state: RecordState::before_lines(),
            number: 0,
            broken: None,
        }
    }

    /// Whether a line was bad.
    pub fn is_bad(&self) -> bool
        ensures { result ≡ is_some self.now.broken }
    {
        self.broken.is_some()
    }

    /// Takes a line. After the first bad line all stays.
    pub fn take_line(&mut self, alloc: Global, line: &[u8]) -> Result<(), AllocError>
        requires { self.old.number + 1 < 2 ^ 64 }
        ensures leads { OnOk result (LeadsOn self.old line.now self.new) }
        ensures number { self.new.number ≤ self.old.number + 1 }
    {
        if self.broken.is_none() {
            self.number += 1;
            self.broken = self.state.take_line(alloc, line)?;
        }
        Ok(())
    }

    /// The judgement of a record that ends so.
    pub fn judged(self, alloc: Global) -> Judged
        ensures leads { LeadsTo self [] result }
        ensures fit { HasFitBoards result }
        ensures lawful { HasLawfulTurns result }
        ensures counted { HasTurnCount result }
        ensures ended { HasEnding result }
    {
        match self.broken {
            Some(rule) => Judged::Bad {
                line: self.number,
                label: self.state.due(),
                rule,
            },
            None => self.state.judged(alloc),
        }
    }
}
