//! Texts that several commands write.
ghost use Rattle.std.specs.Prelude.{◌≡◌, ◌++◌, IfOk, OnOk};
ghost use Rattle.arimaa_record.specs.Label.{letter_of_side};
ghost use Rattle.arimaa_cli.specs.Texts.{bad_line_text, crowded_text, question_text, refused_text, spent_text};

use crate::answer::push_number;
use arimaa_board::{Color, Position, board_text};
use std::alloc::{AllocError, Global};

// The letter of a side.
fn letter_of(side: Color) -> u8
    ensures { result ≡ letter_of_side side }
{
    match side {
        Color::Gold => b'g',
        Color::Silver => b's',
    }
}

// Adds a question about a position: the side to move, the board, and the number of turns.
pub(crate) fn push_question(out: &mut Vec<u8>, p: &Position, depth: u8) -> Result<(), AllocError>
    ensures { OnOk result (out.new.items ≡ out.old.items ++ question_text p.now depth) }
{
    out.push(letter_of(p.side))?;
    out.push(b' ')?;
    out.extend_from_slice(&board_text(&p.board))?;
    out.push(b' ')?;
    push_number(out, u64::from(depth))
}

// The line about a question for which there is too little room.
pub(crate) fn crowded_text(alloc: Global, p: &Position, depth: u8) -> Result<Vec<u8>, AllocError>
    ensures { IfOk result (λ text. text.items ≡ crowded_text p.now depth) }
{
    let mut text = Vec::from_slice(alloc, b"crowded ")?;
    push_question(&mut text, p, depth)?;
    text.push(b'\n')?;
    Ok(text)
}

// The line of a question that costs more than the budget, of which all was counted.
pub(crate) fn spent_text(
    alloc: Global,
    p: &Position,
    depth: u8,
    counted: u64,
) -> Result<Vec<u8>, AllocError>
    ensures { IfOk result (λ text. text.items ≡ spent_text p.now depth counted) }
{
    let mut text = Vec::from_slice(alloc, b"spent ")?;
    push_question(&mut text, p, depth)?;
    text.push(b' ')?;
    push_number(&mut text, counted)?;
    text.push(b'\n')?;
    Ok(text)
}

// The text about a line that is none of those that come after a word.
pub(crate) fn bad_line_text(alloc: Global, word: &[u8], line: u64) -> Result<Vec<u8>, AllocError>
    ensures { IfOk result (λ text. text.items ≡ bad_line_text word.now line) }
{
    let mut text = Vec::from_slice(alloc, word)?;
    text.push(b' ')?;
    push_number(&mut text, line)?;
    text.extend_from_slice(b" text\n")?;
    Ok(text)
}

// The text about a first faulty entry, with the word for its fault.
pub(crate) fn refused_text(alloc: Global, entry: u64, why: &[u8]) -> Result<Vec<u8>, AllocError>
    ensures { IfOk result (λ text. text.items ≡ refused_text entry why.now) }
{
    let mut text = Vec::from_slice(alloc, b"refused ")?;
    push_number(&mut text, entry)?;
    text.push(b' ')?;
    text.extend_from_slice(why)?;
    text.push(b'\n')?;
    Ok(text)
}
