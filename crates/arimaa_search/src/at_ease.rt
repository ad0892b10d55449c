//! Whether the side to move has a turn, told by masks where no strength has to be compared.
ghost use Rattle.std.specs.Prelude.{◌≡◌, ◌<◌, ◌↔◌, ◌&&◌, length, IsTrue};
ghost use Rattle.std.specs.Bool.{OnTrue};
ghost use Rattle.arimaa_board.specs.declared.piece.Kind.TheVariants.{Rabbit};
ghost use Rattle.arimaa_board.specs.Board.{at, holds};
ghost use Rattle.arimaa_board.specs.Masks.{IsMaskOf};
ghost use Rattle.arimaa_board.specs.Piece.{piece_of};
ghost use Rattle.arimaa_model.specs.Moves.{is_back};
ghost use Rattle.arimaa_model.specs.Results.{next, results};
ghost use Rattle.arimaa_search.specs.AtEase.{is_at_ease, goes_at_ease};

use arimaa_board::{Board, Color, Dir, Position, Square, entering, neighbours};
use arimaa_history::Barred;
use arimaa_model::is_back;
use arimaa_results::any_result;

// The pieces of a side that aren't frozen, however strong they are: those with a friend beside
// them, and those without an enemy beside them.
fn at_ease(board: &Board, side: Color) -> u64
    ensures { IsMaskOf (is_at_ease board.now side) result }
{
    let own = board.of(side);
    let beset = neighbours(board.of(side.other()));
    own & (neighbours(own) | !beset)
}

// The rabbits of a side, where a step in a direction goes backward.
fn kept_back(board: &Board, side: Color, dir: Dir) -> u64
    ensures { IsMaskOf (λ n. is_back side dir && holds (piece_of side Rabbit) (at board.now n))
        result }
{
    if is_back(side, dir) {
        board.rabbits(side)
    } else {
        0
    }
}

// Those of the pieces at ease that may step in a direction.
fn going(board: &Board, side: Color, able: u64, dir: Dir) -> u64
    requires { IsMaskOf (is_at_ease board.now side) able }
    ensures { IsMaskOf (goes_at_ease board.now side dir) result }
{
    able & !kept_back(board, side, dir) & entering(!board.occupied(), dir)
}

// Whether a piece at ease may step. Then there is a turn of one step.
fn has_step(p: &Position) -> bool
    ensures { OnTrue result (0 < length (results p.now)) }
{
    let board = &p.board;
    let _corner = board.at(Square::C3);
    let able = at_ease(board, p.side);
    let north = going(board, p.side, able, Dir::North);
    let east = going(board, p.side, able, Dir::East);
    let south = going(board, p.side, able, Dir::South);
    let west = going(board, p.side, able, Dir::West);
    north | east | south | west != 0
}

/// Whether the side to move has a turn whose result isn't barred.
///
/// Where no position is barred, a step of a piece at ease tells so at once: in nearly every position
/// there is one. No memory is taken.
pub(crate) fn has_next(p: &Position, barred: &Barred) -> bool
    ensures { IsTrue result ↔ (0 < length (next barred.now p.now)) }
{
    barred.as_slice().is_empty() && has_step(p) || any_result(p, barred)
}
