//! The written form of records.
ghost use Rattle.std.specs.Prelude.{◌≡◌, ◌<◌, length, ◌∷◌, ◌++◌, IfOk, OnOk};
ghost use Rattle.arimaa_notation.specs.Written.{items_of_turn, text_of_turn};
ghost use Rattle.arimaa_notation.specs.Grammar.{IsTurnText};
ghost use Rattle.arimaa_record.specs.Label.{text_of_label, letter_of_side};
ghost use Rattle.arimaa_record.specs.Grammar.{text_of_word, IsLineText};
ghost use Rattle.arimaa_record.specs.Lines.{lines_of};
ghost use Rattle.arimaa_record.specs.Record.{AreLines};
ghost use Rattle.arimaa_record.specs.Written.{with_spaces_before, text_of_line, ended_line, text_of_record, IsWritable};
ghost use Rattle.std.specs.List.{AllByRecursion};

use crate::label::Label;
use crate::line::RecordLine;
use crate::record::Record;
use arimaa_board::{Color, Noted, Word, board_text};
use arimaa_notation::{setup_text, turn_text};
use std::alloc::{AllocError, Global};

// The letter that a side is written with.
fn side_letter(side: Color) -> u8
    ensures { result ≡ letter_of_side side }
{
    match side {
        Color::Gold => b'g',
        Color::Silver => b's',
    }
}

/// Adds a label: its number in decimal digits, and directly after it `g` or `s`.
pub fn push_label(alloc: Global, text: &mut Vec<u8>, label: Label) -> Result<(), AllocError>
    ensures { OnOk result (text.new.items ≡ text.old.items ++ text_of_label label) }
{
    let number = label.number.to_string(alloc)?;
    text.extend_from_slice(number.as_bytes())?;
    text.push(side_letter(label.side))?;
    Ok(())
}

// Adds a space and these bytes.
fn push_part(text: &mut Vec<u8>, part: &[u8]) -> Result<(), AllocError>
    ensures { OnOk result (text.new.items ≡ text.old.items ++ 32 ∷ part.now) }
{
    text.push(b' ')?;
    text.extend_from_slice(part)
}

// Adds a space and the steps of a turn, if it has any.
fn push_turn(text: &mut Vec<u8>, noted: &Noted) -> Result<(), AllocError>
    ensures text { OnOk result
        (text.new.items ≡ text.old.items ++ with_spaces_before (items_of_turn noted.now)) }
    ensures reads_back { OnOk result
        (0 < length noted.now → IsTurnText (text_of_turn noted.now) noted.now) }
{
    if noted.steps().is_empty() {
        return Ok(());
    }
    push_part(text, turn_text(noted).as_bytes())
}

// The word that ends a game.
fn word_text(word: Word) -> &'static [u8]
    ensures { result.now ≡ text_of_word word }
{
    match word {
        Word::Resigns => b"resigns",
        Word::Time => b"time",
    }
}

// Adds what a line says.
fn push_content(alloc: Global, text: &mut Vec<u8>, line: &RecordLine) -> Result<(), AllocError>
    ensures text { OnOk result (text.new.items ≡ text.old.items ++ text_of_line line.now) }
    ensures reads_back { OnOk result
        (IsWritable line.now → IsLineText (text_of_line line.now) line.now) }
{
    match line {
        RecordLine::Blank => Ok(()),
        RecordLine::Start {
            number,
            side,
            board,
        } => {
            text.extend_from_slice(b"start ")?;
            push_label(alloc, text, Label::new(*number, *side))?;
            push_part(text, &board_text(board))
        }
        RecordLine::Setup {
            number,
            side,
            setup,
        } => {
            push_label(alloc, text, Label::new(*number, *side))?;
            push_part(text, setup_text(setup).as_bytes())
        }
        RecordLine::Turn {
            number,
            side,
            noted,
        } => {
            push_label(alloc, text, Label::new(*number, *side))?;
            push_turn(text, noted)
        }
        RecordLine::Closing { number, side, word } => {
            push_label(alloc, text, Label::new(*number, *side))?;
            push_part(text, word_text(*word))
        }
        RecordLine::Bare { number, side } => { push_label(alloc, text, Label::new(*number, *side)) }
        RecordLine::Takeback { number, side } => {
            push_label(alloc, text, Label::new(*number, *side))?;
            push_part(text, b"takeback")
        }
    }
}

/// Adds a line in its written form, and the line feed that ends it. Where no memory is left, a
/// beginning of the line may have been added.
pub fn push_line(alloc: Global, text: &mut Vec<u8>, line: &RecordLine) -> Result<(), AllocError>
    ensures text { OnOk result (text.new.items ≡ text.old.items ++ ended_line line.now) }
    ensures reads_back { OnOk result
        (IsWritable line.now → IsLineText (text_of_line line.now) line.now) }
{
    push_content(alloc, text, line)?;
    text.push(b'\n')?;
    Ok(())
}

/// The written form of a record: each line's label, a space, and its items with one space between,
/// ended by a line feed. A start line is `start`, a space, its label, a space, and the board's
/// text. A blank line is written as an empty one, so comments are lost.
///
/// It is read back as the same record where each line is `IsWritable`: labels are in range, start
/// boards are fit, each turn has a step, and each setup is of its label's side.
pub fn record_text(alloc: Global, record: &Record) -> Result<Vec<u8>, AllocError>
    ensures text { IfOk result (λ text. text.items ≡ text_of_record «record».now) }
    ensures reads_back { IfOk result (λ text. AllByRecursion IsWritable «record».now
        → AreLines (lines_of text.items) «record».now) }
{
    let mut text = Vec::new(alloc);
    for line in record.lines() {
        push_line(alloc, &mut text, line)?;
    }
    Ok(text)
}
