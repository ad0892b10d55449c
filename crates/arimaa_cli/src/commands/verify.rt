//! The command `verify`: whether escapes show that a side doesn't win from the position that a
//! lawful record ends with.
ghost use Rattle.std.specs.Prelude.{◌≡◌, ◌+◌, ◌≤◌, ℕ, List, IfOk, IfSome, length, option_map};
ghost use Rattle.arimaa_board.specs.declared.position.Position.{Position as Place};
ghost use Rattle.arimaa_cli.specs.Commands.Check.{IsRoomGiven};
ghost use Rattle.arimaa_cli.specs.Commands.Prove.{IsOpenAt};
ghost use Rattle.arimaa_cli.specs.Commands.Verify.{IsEscapesAnswer, IsTextAnswer, IsVerifyAnswer, answer_of, flaw_word};

use super::check::{Checking, room_of};
use super::position::position_of;
use crate::answer::{Answer, Text};
use crate::parts::parts_of;
use crate::record::{Game, Record, record_of};
use crate::texts::{bad_line_text, crowded_text, refused_text};
use arimaa_refute::{EscapeFault, Flaw, Verified, read_escapes, verify};
use arimaa_region::Region;
use std::alloc::{AllocError, Global};

// The word for a flaw.
fn flaw_word(flaw: Flaw) -> &'static [u8]
    ensures { result.now ≡ flaw_word flaw }
{
    match flaw {
        Flaw::Twice => b"twice",
        Flaw::Decided => b"decided",
        Flaw::Turn => b"turn",
        Flaw::Lost => b"lost",
        Flaw::Reply => b"reply",
        Flaw::Root => b"root",
    }
}

// The answer by what the checker finds.
fn answer_of(alloc: Global, found: Verified) -> Result<Answer, AllocError>
    ensures { IfOk result (λ answer. answer ≡ answer_of found) }
{
    match found {
        Verified::Accepted => Ok(Answer::Done(Text::new(Vec::from_slice(alloc, b"accepted\n")?))),
        Verified::Refused { entry, why } => {
            Ok(Answer::Answered(Text::new(refused_text(alloc, entry, flaw_word(why))?)))
        }
        Verified::Crowded { position } => {
            Ok(Answer::Crowded(Text::new(crowded_text(alloc, &position, 1)?)))
        }
    }
}

// What it answers about the text of escapes that comes after a line of this number, at the position
// that a game stands at.
fn escapes_answer(
    alloc: Global,
    asked: &Checking,
    game: &Game,
    line: u64,
    text: &[u8],
) -> Result<Answer, AllocError>
    requires some { (p : Place) × IsOpenAt game.now p }
    requires room { IsRoomGiven asked.now.room }
    requires few { line + length text.now ≤ usize.MAX }
    ensures { (p : Place) → IsOpenAt game.now p
        → IfOk result (IsEscapesAnswer asked.now game.now.history p line text.now) }
{
    match read_escapes(alloc, text, asked.attacker) {
        Err(EscapeFault::Memory) => Err(AllocError),
        Err(EscapeFault::Text { line: bad }) => {
            Ok(Answer::Answered(Text::new(bad_line_text(alloc, b"escapes", line + bad)?)))
        }
        Ok(escapes) => {
            let mut region = Region::with_room(alloc, room_of(asked.room))?;
            let found = verify(
                &game.history,
                asked.attacker,
                asked.depth,
                &escapes,
                &mut region,
            );
            answer_of(alloc, found)
        }
    }
}

// What it answers about the game of a lawful record, the number of the line after the record, and,
// if that line says escapes, what comes after it.
fn text_answer(
    alloc: Global,
    asked: &Checking,
    game: &Game,
    line: u64,
    text: Option<&[u8]>,
) -> Result<Answer, AllocError>
    requires room { IsRoomGiven asked.now.room }
    requires few { IfSome text (λ x. line + length x.now ≤ usize.MAX) }
    ensures { let given = option_map (λ x. x.now) text.entry in
        IfOk result (IsTextAnswer asked.now line given game.now) }
{
    match position_of(game) {
        Err(why) => Ok(Answer::Answered(Text::new(Vec::from_slice(alloc, why)?))),
        Ok(_) => match text {
            None => Ok(Answer::Answered(Text::new(Vec::from_slice(alloc, b"no escapes\n")?))),
            Some(text) => escapes_answer(alloc, asked, game, line, text),
        },
    }
}

// What it answers over an input of these bytes.
pub(crate) fn answer(alloc: Global, asked: &Checking, bytes: &[u8]) -> Result<Answer, AllocError>
    requires { IsRoomGiven asked.now.room }
    ensures { IfOk result (IsVerifyAnswer asked.now bytes.now) }
{
    let parts = parts_of(bytes, b"escapes");
    match record_of(alloc, parts.front)? {
        Record::Bad(text) => Ok(Answer::Answered(text)),
        Record::Lawful(game) => text_answer(alloc, asked, &game, parts.line, parts.text),
    }
}
