//! The entries of a strategy, as they are written down.
use arimaa_board::{Noted, Position};

/// What the attacker plays at a position.
///
/// It is only what is written. Whether the turn is one of the position, with the right marks, and
/// whether the rank is exact, are questions of the rules.
#[derive(Drop)]
pub struct Entry {
    /// A position with the attacker to move.
    pub position: Position,
    /// Within how many turns of both sides the attacker is said to win it.
    pub rank: u8,
    /// The turn, with the removal mark after each of its steps, if any.
    pub turn: Noted,
}
