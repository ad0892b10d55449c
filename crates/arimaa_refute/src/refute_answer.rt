//! What a maker of escapes answers.
use crate::escapes::Escapes;
use arimaa_board::Position;

/// The answer to the question whether a position is held for so many turns.
#[derive(Drop)]
pub enum Refuted {
    /// The attacker does not win it within them, and these are its own escapes.
    Held(Escapes),
    /// The attacker wins it within them.
    Wins,
    /// The cost of this question is above the budget.
    Spent {
        /// The position that was asked about.
        position: Position,
        /// The number of turns.
        depth: u8,
        /// The questions opened: the whole budget.
        counted: u64,
    },
    /// The crowd of this question is above the room.
    Crowded {
        /// The position that was asked about.
        position: Position,
        /// The number of turns.
        depth: u8,
    },
}
