//! Keys for positions in a map and in a set.
ghost use Rattle.std.specs.Prelude.{◌≡◌, IsTrue, ◌↔◌};
ghost use Rattle.arimaa_board.specs.declared.piece.Color.TheVariants.{Gold};
ghost use Rattle.arimaa_history.specs.Keys.{is_gold, key_of, position_at};

use arimaa_board::{Color, Position};

/// A position as a map files it: the planes of its board, and whether Gold is to move.
#[derive(Clone, Copy, PartialEq, Eq, PartialOrd, Ord, Hash, Drop)]
pub struct Key {
    planes: [u64; 4],
    gold: bool,
}

// Whether a side is Gold.
fn is_gold(side: Color) -> bool
    ensures { result ≡ is_gold side }
{
    match side {
        Color::Gold => true,
        Color::Silver => false,
    }
}

impl Key {
    /// The key of a position. Two positions have the same key only where they are the same.
    pub fn of(position: &Position) -> Key
        ensures value { result ≡ key_of position.now }
        ensures back { position_at result ≡ position.now }
    {
        Key {
            planes: position.board.planes(),
            gold: is_gold(position.side),
        }
    }
}
