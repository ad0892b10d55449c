//! The written form of turns and setups.
ghost use Rattle.std.specs.Prelude.{◌≡◌, ℕ, ◌+◌, ◌-◌, ◌<◌, ◌≤◌, [], ◌∷◌, ◌++◌, length, fold};
ghost use Rattle.std.specs.Str.{IsAscii};
ghost use Rattle.arrayvec.specs.ArrayString.{array_string_len};
ghost use Rattle.arimaa_notation.specs.Written.{column_of, row_of, letter_of_dir, text_of_step, text_of_mark, text_of_entry, text_of_turn, text_of_setup, items_of_step, with_item};
ghost use Rattle.arimaa_notation.specs.Grammar.{IsOnBoard, IsTurnText, IsSetupText};

use arimaa_board::{Dir, Noted, NotedStep, Piece, Setup, Square, Step};
use arrayvec::ArrayString;

// The letter of a direction.
fn dir_letter(dir: Dir) -> u8
    ensures value { result ≡ letter_of_dir dir }
    ensures ascii { result < 128 }
{
    match dir {
        Dir::North => b'n',
        Dir::East => b'e',
        Dir::South => b's',
        Dir::West => b'w',
    }
}

// The column letter of a square.
fn column(square: Square) -> u8
    ensures value { result ≡ column_of square }
    ensures ascii { result < 128 }
{
    b'a' + square.number() % 8
}

// The row digit of a square.
fn row(square: Square) -> u8
    ensures value { result ≡ row_of square }
    ensures ascii { result < 128 }
    ensures on_board { square < 64 }
{
    b'1' + square.number() / 8
}

// Letter, square and direction.
fn step_text(step: &Step) -> [u8; 4]
    ensures value { result ≡ text_of_step step.now }
    ensures ascii { IsAscii result }
    ensures on_board { step.now.from < 64 }
{
    [
        step.piece.letter(),
        column(step.from),
        row(step.from),
        dir_letter(step.dir),
    ]
}

// Letter, square and an x.
fn mark_text(piece: Piece, square: Square) -> [u8; 4]
    ensures value { result ≡ text_of_mark (piece, square) }
    ensures ascii { IsAscii result }
    ensures on_board { square < 64 }
{
    [piece.letter(), column(square), row(square), b'x']
}

// Letter and square.
fn entry_text(square: Square, piece: Piece) -> [u8; 3]
    ensures value { result ≡ text_of_entry (square, piece) }
    ensures ascii { IsAscii result }
    ensures on_board { square < 64 }
{
    [piece.letter(), column(square), row(square)]
}

// Adds a byte below 128 at the end.
fn push_byte<const CAP: usize>(text: &mut ArrayString<CAP>, byte: u8)
    requires ascii { byte < 128 }
    requires room { array_string_len text.old < CAP }
    ensures { text.new.bytes ≡ text.old.bytes ++ byte ∷ [] }
{
    text.push(char::from(byte));
}

// Adds an item at the end, and a space before it where it is not the first.
fn push_item<const CAP: usize>(text: &mut ArrayString<CAP>, item: &[u8])
    requires ascii { IsAscii item.now }
    requires room { array_string_len text.old + length item.now < CAP }
    ensures { text.new.bytes ≡ with_item text.old.bytes item.now }
{
    if !text.is_empty() {
        push_byte(text, b' ');
    }
    for byte in item {
        push_byte(text, *byte);
    }
}

// Adds a step, and its mark where it has one.
fn push_noted(text: &mut ArrayString<39>, noted: &NotedStep)
    requires { array_string_len text.old < 30 }
    ensures items { text.new.bytes ≡ fold with_item text.old.bytes (items_of_step noted.now) }
    ensures on_board { IsOnBoard noted.now }
{
    push_item(text, &step_text(&noted.step));
    if let Some((piece, square)) = noted.mark {
        push_item(text, &mark_text(piece, square));
    }
}

/// The steps of a turn in order, each with its mark directly after it, with one space between.
///
/// A step is letter, square and direction, as `Ed2n`, and a mark is letter, square and `x`, as
/// `cc3x`. So a turn has at most eight items of four bytes, 39 bytes in all.
pub fn turn_text(turn: &Noted) -> ArrayString<39>
    requires { 0 < length turn.now }
    ensures text { result.bytes ≡ text_of_turn turn.now }
    ensures reads_back { IsTurnText result.bytes turn.now }
{
    let mut text = ArrayString::new();
    for noted in turn.steps() {
        push_noted(&mut text, noted);
    }
    text
}

/// The sixteen entries of a setup in order of square, with one space between.
///
/// An entry is letter and square, as `Ra1`. So a setup has 63 bytes.
pub fn setup_text(setup: &Setup) -> ArrayString<63>
    ensures text { result.bytes ≡ text_of_setup setup.now }
    ensures reads_back { IsSetupText result.bytes setup.now.color setup.now }
{
    let mut text = ArrayString::new();
    for (square, piece) in setup.pairs() {
        push_item(&mut text, &entry_text(*square, *piece));
    }
    text
}
