//! The position after both setups.
ghost use Rattle.std.specs.Prelude.{◌≡◌};
ghost use Rattle.arimaa_board.specs.declared.piece.Color.TheVariants as colors;
ghost use Rattle.arimaa_board.specs.Board.{put};
ghost use Rattle.arimaa_board.specs.Fit.{IsFit};
ghost use Rattle.arimaa_game.specs.Setups.{HoldsSetups, position_after_setups, with_pairs};

use arimaa_board::{Board, Color, Piece, Position, Setup, Square};

// Puts pieces on their squares.
fn place(board: &mut Board, pairs: &[(Square, Piece)])
    ensures { board.new ≡ with_pairs board.old pairs.now }
{
    for (square, piece) in pairs {
        board.put(*square, Some(*piece));
    }
}

// The position after both setups, Gold to move.
pub(crate) fn position_after(gold: &Setup, silver: &Setup) -> Position
    requires gold { gold.now.color ≡ colors.Gold }
    requires silver { silver.now.color ≡ colors.Silver }
    ensures value { result ≡ position_after_setups gold.now silver.now }
    ensures holds { HoldsSetups gold.now silver.now result.board }
    ensures fit { IsFit result.board }
{
    let mut board = Board::empty();
    place(&mut board, gold.pairs());
    place(&mut board, silver.pairs());
    Position {
        board,
        side: Color::Gold,
    }
}
