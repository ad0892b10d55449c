//! The texts that tell a judgement. Each line ends with a line feed.
ghost use Rattle.std.specs.Prelude.{◌≡◌, ◌++◌, IfOk, OnOk};
ghost use Rattle.std.specs.Fmt.{decimal};
ghost use Rattle.arimaa_judge.specs.Texts.{side_word, cause_word, state_line, text_of_lawful, text_of_bad};

use crate::rule::Rule;
use arimaa_board::Color;
use arimaa_model::{Cause, Ending};
use arimaa_record::{Label, push_label};
use std::alloc::{AllocError, Global};

// The word for a side.
fn side_word(side: Color) -> &'static [u8]
    ensures { result.now ≡ side_word side }
{
    match side {
        Color::Gold => b"gold",
        Color::Silver => b"silver",
    }
}

// The word for the cause of an ending.
fn cause_word(cause: Cause) -> &'static [u8]
    ensures { result.now ≡ cause_word cause }
{
    match cause {
        Cause::Goal => b"goal",
        Cause::Elimination => b"elimination",
        Cause::Immobile => b"immobile",
        Cause::Repetition => b"repetition",
        Cause::Resign => b"resign",
        Cause::Time => b"time",
    }
}

// Adds a number in decimal digits.
fn push_number(alloc: Global, text: &mut Vec<u8>, number: u64) -> Result<(), AllocError>
    ensures { OnOk result (text.new.items ≡ text.old.items ++ decimal number) }
{
    let digits = number.to_string(alloc)?;
    text.extend_from_slice(digits.as_bytes())
}

/// Adds a line that tells how a game stands: `winner`, the side and the cause where it has ended,
/// and else `next` and the label that is due. Where no memory is left, a beginning of the line may
/// have been added.
pub fn push_state(
    alloc: Global,
    text: &mut Vec<u8>,
    ending: Option<Ending>,
    next: Label,
) -> Result<(), AllocError>
    ensures { OnOk result (text.new.items ≡ text.old.items ++ state_line ending next) }
{
    match ending {
        Some(ending) => {
            text.extend_from_slice(b"winner ")?;
            text.extend_from_slice(side_word(ending.winner))?;
            text.push(b' ')?;
            text.extend_from_slice(cause_word(ending.cause))?;
        }
        None => {
            text.extend_from_slice(b"next ")?;
            push_label(alloc, text, next)?;
        }
    }
    text.push(b'\n')?;
    Ok(())
}

/// The text about a lawful record: `lawful` and the number of its turns that stand, and a line that
/// tells how the game stands.
pub fn lawful_text(
    alloc: Global,
    turns: u64,
    ending: Option<Ending>,
    next: Label,
) -> Result<Vec<u8>, AllocError>
    ensures { IfOk result (λ text. text.items ≡ text_of_lawful turns ending next) }
{
    let mut text = Vec::from_slice(alloc, b"lawful ")?;
    push_number(alloc, &mut text, turns)?;
    text.push(b'\n')?;
    push_state(alloc, &mut text, ending, next)?;
    Ok(text)
}

/// The text about a bad record: `bad`, the number of its first bad line, the label that is due
/// there, and the word of the first rule that it breaks.
pub fn bad_text(alloc: Global, line: u64, label: Label, rule: Rule) -> Result<Vec<u8>, AllocError>
    ensures { IfOk result (λ text. text.items ≡ text_of_bad line label rule) }
{
    let mut text = Vec::from_slice(alloc, b"bad ")?;
    push_number(alloc, &mut text, line)?;
    text.push(b' ')?;
    push_label(alloc, &mut text, label)?;
    text.push(b' ')?;
    text.extend_from_slice(rule.word())?;
    text.push(b'\n')?;
    Ok(text)
}
