//! Steps, removal marks and entries, read from the bytes of one item.
ghost use Rattle.std.specs.Prelude.{◌≡◌, ℕ, ◌<◌, ◌≢◌, IfNone, IfSome};
ghost use Rattle.arimaa_board.specs.declared.piece.Piece.{Piece as PieceValue};
ghost use Rattle.arimaa_board.specs.declared.position.Step.{Step as StepValue};
ghost use Rattle.arimaa_board.specs.declared.square.Dir.{Dir as DirValue};
ghost use Rattle.arimaa_board.specs.Piece.{letter_of};
ghost use Rattle.arimaa_notation.specs.Written.{column_of, row_of, letter_of_dir, text_of_step, text_of_mark, text_of_entry};

use arimaa_board::{Dir, Piece, Square, Step};

// The square of a column from 'a' to 'h' and a row from '1' to '8'.
fn read_square(column: u8, row: u8) -> Option<Square>
    ensures some { IfSome result (λ s. (s < 64) × (column ≡ column_of s) × (row ≡ row_of s)) }
    ensures none { IfNone result ((s : ℕ) → s < 64 → column ≡ column_of s → row ≢ row_of s) }
{
    if b'a' <= column && column <= b'h' && b'1' <= row && row <= b'8' {
        Some(Square::from_number((column - b'a') + 8 * (row - b'1')))
    } else {
        None
    }
}

// The direction of a letter.
fn read_dir(letter: u8) -> Option<Dir>
    ensures some { IfSome result (λ d. letter ≡ letter_of_dir d) }
    ensures none { IfNone result ((d : DirValue) → letter ≢ letter_of_dir d) }
{
    match letter {
        b'n' => Some(Dir::North),
        b'e' => Some(Dir::East),
        b's' => Some(Dir::South),
        b'w' => Some(Dir::West),
        _ => None,
    }
}

// The piece of a letter.
fn read_piece(letter: u8) -> Option<Piece>
    ensures some { IfSome result (λ p. letter ≡ letter_of p) }
    ensures none { IfNone result ((p : PieceValue) → letter ≢ letter_of p) }
{
    Piece::from_letter(letter)
}

// The step of an item of four bytes, as `Ed2n`.
pub fn read_step(item: &[u8]) -> Option<Step>
    ensures some { IfSome result (λ s. (item.now ≡ text_of_step s) × (s.from < 64)) }
    ensures none { IfNone result ((s : StepValue) → s.from < 64 → item.now ≢ text_of_step s) }
{
    let [letter, column, row, dir] = item else {
        return None;
    };
    let piece = read_piece(*letter)?;
    let from = read_square(*column, *row)?;
    let dir = read_dir(*dir)?;
    Some(Step { piece, from, dir })
}

// The removal mark of an item of four bytes, as `cc3x`.
pub fn read_mark(item: &[u8]) -> Option<(Piece, Square)>
    ensures some { IfSome result (λ m. (item.now ≡ text_of_mark m) × (m.1 < 64)) }
    ensures none { IfNone result ((m : PieceValue × ℕ) → m.1 < 64 → item.now ≢ text_of_mark m) }
{
    let [letter, column, row, b'x'] = item else {
        return None;
    };
    let piece = read_piece(*letter)?;
    let square = read_square(*column, *row)?;
    Some((piece, square))
}

// The entry of an item of three bytes, as `Ra1`.
pub fn read_entry(item: &[u8]) -> Option<(Square, Piece)>
    ensures some { IfSome result (λ e. (item.now ≡ text_of_entry e) × (e.0 < 64)) }
    ensures none { IfNone result ((e : ℕ × PieceValue) → e.0 < 64 → item.now ≢ text_of_entry e) }
{
    let [letter, column, row] = item else {
        return None;
    };
    let piece = read_piece(*letter)?;
    let square = read_square(*column, *row)?;
    Some((square, piece))
}
