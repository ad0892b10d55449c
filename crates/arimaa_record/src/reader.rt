//! The reader of lines.
ghost use Rattle.std.specs.Prelude.{◌≡◌, ◌↔◌, ◌==◌, List, ℕ, [], ◌∷◌, codes, slice_index, IsTrue, Ok, Err, Some, IfNone, IfSome};
ghost use Rattle.arimaa_board.specs.declared.ending.Word.{Word as ClosingWord};
ghost use Rattle.arimaa_notation.specs.Items.{items_of, IsFirstItem};
ghost use Rattle.arimaa_record.specs.declared.line.RecordLine.{RecordLine as LineValue};
ghost use Rattle.arimaa_record.specs.declared.fault.LineFault.{LineFault as FaultValue};
ghost use Rattle.arimaa_record.specs.Grammar.{text_of_word, takeback_word, IsBlankLine, IsLabelled, IsStartForm, IsNoWord, IsNoOtherContent, IsLineText, IsLineFault, IsLineReading};

use crate::fault::LineFault;
use crate::label::{Label, read_label};
use crate::line::RecordLine;
use arimaa_board::{Word, read_board};
use arimaa_notation::{NoteFault, first_item, read_setup, read_turn, trim};

/// What a line of a record says. The bytes are those of the line without its end.
///
/// Items are separated by one or more blanks, which may also stand at both ends. A line without
/// items is `Blank`, and so is a comment, whose first item begins with `#` and which may hold any
/// bytes. Else the line is `start`, a label, and a board's text, which is the rest of the line; or
/// it begins with a label, and after it come entries of a setup, or the steps of a turn with their
/// removal marks, or `resigns` or `time`, or `takeback`, or nothing.
///
/// `Text` is answered where the line has none of these forms, `Steps` where a turn has more than
/// four steps, `BadStart` where the board's text is refused, and `BadSetup` where the entries are
/// no setup of the label's side.
pub fn read_line(bytes: &[u8]) -> Result<RecordLine, LineFault>
    ensures line { (l : LineValue) → (result ≡ Ok l) ↔ IsLineText bytes.now l }
    ensures fault { (f : FaultValue) → (result ≡ Err f) ↔ IsLineFault bytes.now f }
    ensures reading { IsLineReading bytes.now result }
{
    reading(bytes)
}

/// Whether a line says nothing: it has only blanks, or it is a comment.
pub fn is_blank_line(line: &[u8]) -> bool
    ensures { IsTrue result ↔ IsBlankLine line.now }
{
    match front(line) {
        None => true,
        Some(item) => is_comment(item),
    }
}

// The first item of a line.
fn front(line: &[u8]) -> Option<&[u8]>
    ensures none { IfNone result (items_of line.now ≡ []) }
    ensures some { IfSome result (λ item. (later : List (List ℕ))
        × (items_of line.now ≡ item.now ∷ later)) }
{
    match first_item(line) {
        None => None,
        Some((item, _)) => Some(item),
    }
}

// Whether an item begins a comment.
fn is_comment(item: &[u8]) -> bool
    ensures { result ≡ (slice_index item.now 0 == 35) }
{
    match item {
        [first, ..] => *first == b'#',
        [] => false,
    }
}

// Whether an item is the word that begins a start line.
fn is_start(item: &[u8]) -> bool
    ensures { IsTrue result ↔ (item.now ≡ codes "start") }
{
    match item {
        b"start" => true,
        _ => false,
    }
}

// The word of an item that ends a game.
fn word_of(item: &[u8]) -> Option<Word>
    ensures { (w : ClosingWord) → (result ≡ Some w) ↔ (item.now ≡ text_of_word w) }
{
    match item {
        b"resigns" => Some(Word::Resigns),
        b"time" => Some(Word::Time),
        _ => None,
    }
}

// Whether a text has no item.
fn is_without_items(text: &[u8]) -> bool
    ensures { IsTrue result ↔ (items_of text.now ≡ []) }
{
    match first_item(text) {
        None => true,
        Some(_) => false,
    }
}

// The word that is this item, where no item follows it.
fn only_word(item: &[u8], rest: &[u8]) -> Option<Word>
    ensures { (w : ClosingWord) → (result ≡ Some w)
        ↔ (item.now ∷ items_of rest.now ≡ text_of_word w ∷ []) }
{
    let word = word_of(item)?;
    if is_without_items(rest) {
        Some(word)
    } else {
        None
    }
}

// Whether an item is the word that takes a turn back.
fn is_takeback(item: &[u8]) -> bool
    ensures { IsTrue result ↔ (item.now ≡ takeback_word) }
{
    match item {
        b"takeback" => true,
        _ => false,
    }
}

// Whether this item is the word that takes a turn back, and no item follows it.
fn is_only_takeback(item: &[u8], rest: &[u8]) -> bool
    ensures { IsTrue result ↔ (item.now ∷ items_of rest.now ≡ takeback_word ∷ []) }
{
    if is_takeback(item) {
        is_without_items(rest)
    } else {
        false
    }
}

// What a line says, or what is wrong with it.
fn reading(bytes: &[u8]) -> Result<RecordLine, LineFault>
    ensures { IsLineReading bytes.now result }
{
    let Some((item, rest)) = first_item(bytes) else {
        return Ok(RecordLine::Blank);
    };
    if is_comment(item) {
        return Ok(RecordLine::Blank);
    }
    if is_start(item) {
        return read_start(rest);
    }
    match read_label(item) {
        Some(label) => read_content(label, rest),
        None => Err(LineFault::Text),
    }
}

// What a line says that begins with the word `start`, before this text.
fn read_start(text: &[u8]) -> Result<RecordLine, LineFault>
    ensures { (bytes : List ℕ) → IsFirstItem bytes (codes "start") text.now
        → IsLineReading bytes result }
{
    let Some((item, rest)) = first_item(text) else {
        return Err(LineFault::Text);
    };
    match read_label(item) {
        Some(label) => board_of_start(label, trim(rest)),
        None => Err(LineFault::Text),
    }
}

// What a start line of this label and board text says.
fn board_of_start(label: Label, text: &[u8]) -> Result<RecordLine, LineFault>
    ensures { (bytes : List ℕ) → IsStartForm bytes label text.now → IsLineReading bytes result }
{
    let Label { number, side } = label;
    match read_board(text) {
        Ok(board) => Ok(RecordLine::Start {
            number,
            side,
            board,
        }),
        Err(fault) => Err(LineFault::BadStart {
            number,
            side,
            fault,
        }),
    }
}

// What a line says that begins with a label, before this text. Its first item tells an entry from a
// step by its length.
fn read_content(label: Label, text: &[u8]) -> Result<RecordLine, LineFault>
    ensures { (bytes : List ℕ) → IsLabelled bytes label (items_of text.now)
        → IsLineReading bytes result }
{
    let Label { number, side } = label;
    let Some((item, rest)) = first_item(text) else {
        return Ok(RecordLine::Bare { number, side });
    };
    if let Some(word) = only_word(item, rest) {
        return Ok(RecordLine::Closing { number, side, word });
    }
    if is_only_takeback(item, rest) {
        return Ok(RecordLine::Takeback { number, side });
    }
    if item.len() == 3 {
        read_entries(label, text)
    } else {
        read_steps(label, text)
    }
}

// What a line says that begins with a label, where this text after it is not nothing and no word.
fn read_entries(label: Label, text: &[u8]) -> Result<RecordLine, LineFault>
    ensures { (bytes : List ℕ) → IsLabelled bytes label (items_of text.now)
        → IsNoWord (items_of text.now) → IsLineReading bytes result }
{
    let Label { number, side } = label;
    match read_setup(text, side) {
        Ok(setup) => Ok(RecordLine::Setup {
            number,
            side,
            setup,
        }),
        Err(fault) => match fault {
            NoteFault::Setup => Err(LineFault::BadSetup { number, side }),
            _ => read_steps(label, text),
        },
    }
}

// What a line says that begins with a label, where this text after it is no setup's and no word.
fn read_steps(label: Label, text: &[u8]) -> Result<RecordLine, LineFault>
    ensures { (bytes : List ℕ) → IsLabelled bytes label (items_of text.now)
        → IsNoOtherContent (items_of text.now) → IsLineReading bytes result }
{
    let Label { number, side } = label;
    match read_turn(text) {
        Ok(noted) => Ok(RecordLine::Turn {
            number,
            side,
            noted,
        }),
        Err(fault) => match fault {
            NoteFault::Steps => Err(LineFault::Steps { number, side }),
            _ => Err(LineFault::Text),
        },
    }
}
