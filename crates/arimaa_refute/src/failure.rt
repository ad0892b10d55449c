//! Why no escapes were found.
ghost use Rattle.std.specs.Prelude.{◌≡◌};
ghost use Rattle.arimaa_refute.specs.declared.failure.Failure.TheVariants.{Memory};

use arimaa_board::Position;
use std::alloc::AllocError;

// Why a question could not be answered.
#[derive(Clone, Copy, Debug)]
pub(crate) enum Reason {
    // Its cost is above the budget, of which all was counted.
    Spent { counted: u64 },
    // Its crowd is above the room.
    Crowded,
}

// Why no escapes were found.
#[derive(Clone, Copy, Debug)]
pub(crate) enum Failure {
    // The question whether this position is won within so many turns could not be answered.
    Stopped {
        position: Position,
        depth: u8,
        reason: Reason,
    },
    // Out of memory.
    Memory,
}

impl From<AllocError> for Failure {
    ghost from_gives = { λ _ failure. failure ≡ Memory };

    fn from(_error: AllocError) -> Failure {
        Failure::Memory
    }
}
