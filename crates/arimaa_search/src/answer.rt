//! What a worker answers.
use arimaa_board::Position;

/// The answer to the question whether the attacker wins a position within so many turns.
#[derive(Clone, Copy, Debug, PartialEq, Eq)]
pub enum Asked {
    /// It wins.
    Yes,
    /// It does not.
    No,
    /// A question would be opened when the whole budget was spent.
    Spent {
        /// The position that was asked about. Its cost at this depth is above the budget.
        position: Position,
        /// The number of turns.
        depth: u8,
        /// The questions opened: the whole budget.
        counted: u64,
    },
    /// The region has too few places for the positions that would be held at once.
    Crowded {
        /// The position that was asked about. Its crowd at this depth is above the room.
        position: Position,
        /// The number of turns.
        depth: u8,
    },
}
