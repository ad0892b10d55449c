//! What keeps a turn, a word or a takeback from changing a game.
ghost use Rattle.std.specs.Prelude.{◌≡◌};
ghost use Rattle.arimaa_game.specs.Faults.{fault_of};

use arimaa_model::{ApplyFault, StepFault, TurnFault};
use thiserror::Error;

/// Why a turn, a closing word or a takeback is refused: the first of these that applies.
#[derive(Clone, Copy, Debug, PartialEq, Eq, Drop, Error)]
pub enum GameFault {
    /// The game has ended.
    #[error("the game has ended")]
    Over,
    /// No turn stands that could be taken back. Only a takeback has this fault.
    #[error("no turn stands")]
    NoTurn,
    /// The step at this place, from 1, is refused.
    #[error("step {place} of the turn is refused: {fault:?}")]
    Step { place: u8, fault: StepFault },
    /// A removal mark is missing, wrong or out of place. Only a turn with marks has this fault.
    #[error("a removal mark is wrong")]
    Mark,
    /// The steps are no turn.
    #[error("the steps are no turn: {0:?}")]
    Turn(TurnFault),
    /// The position that the turn would bring about stands at least twice in the history.
    #[error("the position would stand for the third time")]
    Repeat,
    /// The memory for one more position is wanting.
    #[error("out of memory")]
    Memory,
}

// The fault of a turn that cannot be applied.
pub(crate) fn fault_of(fault: ApplyFault) -> GameFault
    ensures { result ≡ fault_of fault }
{
    match fault {
        ApplyFault::Step { place, fault } => GameFault::Step { place, fault },
        ApplyFault::Turn(fault) => GameFault::Turn(fault),
    }
}
