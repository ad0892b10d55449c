//! A question that could not be answered.
use arimaa_board::Position;

/// Why a question could not be answered.
#[derive(Clone, Copy, Debug, PartialEq, Eq)]
pub(crate) enum Reason {
    /// Its cost is above the budget, of which all was counted.
    Spent { counted: u64 },
    /// Its crowd is above the room.
    Crowded,
}

/// The question whether the attacker wins a position within so many turns, with the reason why it
/// could not be answered.
#[derive(Clone, Copy, Debug, PartialEq, Eq)]
pub(crate) struct Stop {
    pub(crate) position: Position,
    pub(crate) depth: u8,
    pub(crate) reason: Reason,
}
