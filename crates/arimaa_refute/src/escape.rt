//! Escapes, as they are written down.
use arimaa_board::{Noted, Position};

/// What the defender plays at a position so as not to lose it by force.
///
/// It is only what is written. Whether the turn is one of the position, with the right marks, and
/// whether the attacker can't win within the depth, are questions of the rules.
#[derive(Drop)]
pub struct Escape {
    /// A position with the defender to move.
    pub position: Position,
    /// Within how many turns of both sides, from 1 to 20, the attacker is said not to win it.
    pub depth: u8,
    /// The turn, with the removal mark after each of its steps, if any.
    pub turn: Noted,
}
