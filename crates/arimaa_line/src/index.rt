//! Where the line of a position lies in a table.
ghost use Rattle.std.specs.Prelude.{◌≡◌, ℕ, ◌+◌, ◌*◌, ◌<◌, ◌≤◌, ◌%◌, ◌^◌};
ghost use Rattle.arimaa_board.specs.Words.{code_at};
ghost use Rattle.arimaa_line.specs.Index.{piece_share, side_share, place_of};

use arimaa_board::{Color, Position};

// What a piece of this code on this square adds.
fn piece_share(square: u8, code: u64) -> u64
    requires square { square < 64 }
    requires code { code < 16 }
    ensures value { result ≡ piece_share square code }
    ensures small { result < 2 ^ 21 }
{
    let v = 16 * square as u64 + code;
    v * v + 257 * v
}

// The code of a square in the words of a board.
fn code_at(words: &[u64; 4], square: u8) -> u64
    requires { square < 64 }
    ensures value { result ≡ code_at words.now square }
    ensures small { result < 16 }
{
    (words[square as usize / 16] >> (4 * (square % 16))) % 16
}

// What the side to move adds.
fn side_share(side: Color) -> u64
    ensures value { result ≡ side_share side }
    ensures small { result ≤ 517 }
{
    match side {
        Color::Gold => 0,
        Color::Silver => 517,
    }
}

/// The place of a position's line among that many lines.
///
/// For a piece of code c on square s let v = 16s + c. The place is the sum over all pieces of
/// v * v + 257 * v, plus 517 where Silver is to move, modulo the number of lines. So it is always
/// below that number.
pub fn index_of(position: &Position, lines: u32) -> u32
    requires { 1 ≤ lines }
    ensures place { result ≡ place_of position.now lines }
    ensures below { result < lines }
{
    let words = position.board.words();
    let mut sum = side_share(position.side);
    let mut rest = position.board.occupied();
    while rest != 0 {
        let square = rest.trailing_zeros() as u8;
        sum += piece_share(square, code_at(&words, square));
        rest &= rest - 1;
    }
    (sum % lines as u64) as u32
}
