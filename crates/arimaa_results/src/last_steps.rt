//! What the end of the turn answers after one more step, one step after another.
ghost use Rattle.std.specs.Prelude.{◌≡◌, ◌++◌, [], List, IfNone, IsOk};
ghost use Rattle.std.specs.List.{flat_map};
ghost use Rattle.std.specs.Option.{option_to_list};
ghost use Rattle.arimaa_board.specs.declared.position.Position.{Position};
ghost use Rattle.arimaa_results.specs.Ahead.{brings, given_by};
ghost use Rattle.arimaa_results.specs.LastSteps.{brings_in_order};
ghost use Rattle.arimaa_step.specs.Next.{next_answer, next_state};

use crate::next_states::take_first;
use arimaa_board::{Position, Step};
use arimaa_model::TurnFault;
use arimaa_step::{AcceptedSteps, TurnState};
use std::marker::Model;

/// What the end of the turn answers after the steps that end a move, in the order of the steps.
/// Neither their pieces nor the states after them are made.
///
/// A contract sees the list of the answers that are left.
#[derive(Drop)]
pub(crate) struct LastSteps<'a> {
    state: &'a TurnState,
    // the steps that are left
    steps: AcceptedSteps,
}

impl<'a> Model for LastSteps<'a> {
    ghost use Rattle.std.specs.Prelude.{List, Result};
    ghost use Rattle.arimaa_board.specs.declared.position.Position.{Position};
    ghost use Rattle.arimaa_model.specs.declared.fault.TurnFault.{TurnFault};
    ghost use Rattle.arimaa_results.specs.NextStates.{ends_of, pairs_left, AreAllEnding};

    ghost Value = { List (Result Position TurnFault) };

    ghost view = { λ x. ends_of (pairs_left x.state.now x.steps) };

    ghost invariant = { λ x. AreAllEnding x.state.now x.steps };
}

impl<'a> LastSteps<'a> {
    /// All of them. They give what one more step brings about.
    pub(crate) fn of(state: &'a TurnState) -> LastSteps<'a>
        ensures { (barred : List Position)
            → flat_map (given_by barred) result ≡ brings barred 1 state.now }
    {
        LastSteps {
            state,
            steps: state.ending(),
        }
    }

    /// Those after a step of a state, and the state `after` it, in order: where it is a single
    /// step, those that commute with it and come before it are left out.
    pub(crate) fn in_order(before: &TurnState, step: &Step, after: &'a TurnState) -> LastSteps<'a>
        requires accepted { IsOk (next_answer before.now step.now) }
        requires after { after.now ≡ next_state before.now step.now }
        ensures { (barred : List Position)
            → flat_map (given_by barred) result ≡ brings_in_order barred before.now step.now }
    {
        LastSteps {
            state: after,
            steps: before.ending_in_order(step, after),
        }
    }

    /// The next one, if one is left.
    #[inline(always)]
    pub(crate) fn advance(&mut self) -> Option<Result<Position, TurnFault>>
        ensures next { self.old ≡ option_to_list result ++ self.new }
        ensures end { IfNone result (self.old ≡ []) }
    {
        let Some((from, dir)) = take_first(&mut self.steps) else {
            return None;
        };
        Some(self.state.finish_by(from, dir))
    }
}
