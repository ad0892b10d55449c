//! Positions, and placing them.
ghost use Rattle.std.specs.Prelude.{◌≡◌, ◌<◌, length};

use arimaa_board::{Board, Color, Piece, Position, Square};
use arimaa_region::Region;
use std::alloc::{AllocError, Global};

// The position with one piece in each of the rows 2 to 7, in the columns that are the digits of a
// number to the base 8.
fn position(n: u32) -> Position {
    let mut board = Board::empty();
    for row in 1..7u8 {
        let column = (n >> (3 * (row - 1)) & 7) as u8;
        if let Some(square) = Square::new(8 * row + column) {
            board.put(square, Piece::from_code(row));
        }
    }
    Position {
        board,
        side: Color::Gold,
    }
}

/// So many positions, all different where there are at most 262,144.
pub fn positions(alloc: Global, count: u32) -> Result<Vec<Position>, AllocError> {
    let mut all = Vec::with_capacity(alloc, count as usize)?;
    for n in 0..count {
        all.push(position(n))?;
    }
    Ok(all)
}

/// Places each position in the top segment.
pub fn place_all(region: &mut Region, positions: &[Position])
    requires { 0 < length region.old.segments }
    ensures { length region.new.segments ≡ length region.old.segments }
{
    for position in positions {
        let _ = region.place(*position);
    }
}
