//! The command `check`: whether a strategy wins from the position that a lawful record ends with.
ghost use Rattle.std.specs.Prelude.{◌≡◌, ◌+◌, ◌≤◌, None, Some, IfOk, IfSome, IsSome, length, option_map};
ghost use Rattle.arimaa_model.specs.Game.{present};
ghost use Rattle.arimaa_cli.specs.Commands.Check.{IsCheckAnswer, IsRoomGiven, IsStrategyAnswer, accepted_text, answer_of, room_of, why_word};
ghost use Rattle.arimaa_cli.specs.Commands.Prove.{closing_word};

use super::prove::{closing_word, ended_text};
use crate::answer::{Answer, Text, push_number};
use crate::parts::parts_of;
use crate::record::{Game, Record, record_of};
use crate::texts::{bad_line_text, crowded_text, refused_text};
use arimaa_board::Color;
use arimaa_region::Region;
use arimaa_strategy::{Checked, StrategyFault, Why, check, read_strategy};
use std::alloc::{AllocError, Global};

/// The most positions that room may be asked for.
pub const MOST_ROOM: u32 = 1_048_576;

/// The positions that there is room for where the words ask for none.
pub const USUAL_ROOM: u32 = 262_144;

/// What `check` is asked, whether a strategy wins for a side in at most so many turns, and
/// `verify`, whether escapes show that the side doesn't win so.
#[derive(Clone, Copy, Debug)]
pub struct Checking {
    /// The side that plays the strategy, or whose win the escapes are from.
    pub attacker: Color,
    /// The most turns that may be made, of both sides together, from 0 to `MOST_TURNS`.
    pub depth: u8,
    /// The most replies to a position that may be listed, from 1 to `MOST_ROOM`; where it is none,
    /// `USUAL_ROOM`.
    pub room: Option<u32>,
}

// The room that is given, or the usual one.
pub(super) fn room_of(room: Option<u32>) -> u32
    requires { IsRoomGiven room }
    ensures value { result ≡ room_of room }
    ensures some { 1 ≤ result }
    ensures most { result ≤ MOST_ROOM }
{
    room.unwrap_or(USUAL_ROOM)
}

// The word for a reason.
fn why_word(why: Why) -> &'static [u8]
    ensures { result.now ≡ why_word why }
{
    match why {
        Why::Twice => b"twice",
        Why::Decided => b"decided",
        Why::Turn => b"turn",
        Why::Lost => b"lost",
        Why::Reply => b"reply",
        Why::Rank => b"rank",
        Why::Root => b"root",
        Why::Deep => b"deep",
    }
}

// The text about an accepted strategy.
fn accepted_text(alloc: Global, rank: u8) -> Result<Vec<u8>, AllocError>
    ensures { IfOk result (λ text. text.items ≡ accepted_text rank) }
{
    let mut text = Vec::from_slice(alloc, b"accepted ")?;
    push_number(&mut text, u64::from(rank))?;
    text.push(b'\n')?;
    Ok(text)
}

// The answer by what the checker finds.
fn answer_of(alloc: Global, found: Checked) -> Result<Answer, AllocError>
    ensures { IfOk result (λ answer. answer ≡ answer_of found) }
{
    match found {
        Checked::Accepted { rank } => Ok(Answer::Done(Text::new(accepted_text(alloc, rank)?))),
        Checked::Refused { entry, why } => {
            Ok(Answer::Answered(Text::new(refused_text(alloc, entry, why_word(why))?)))
        }
        Checked::Crowded { position } => {
            Ok(Answer::Crowded(Text::new(crowded_text(alloc, &position, 1)?)))
        }
    }
}

// What it answers about the text of a strategy that comes after a line of this number, at the
// position that a game stands at.
fn text_answer(
    alloc: Global,
    asked: &Checking,
    game: &Game,
    line: u64,
    text: &[u8],
) -> Result<Answer, AllocError>
    requires open_yet { closing_word game.now.ending ≡ None }
    requires some { IsSome (present game.now.history) }
    requires room { IsRoomGiven asked.now.room }
    requires few { line + length text.now ≤ usize.MAX }
    ensures { IfOk result (IsStrategyAnswer asked.now game.now line (Some text.now)) }
{
    match read_strategy(alloc, text, asked.attacker) {
        Err(StrategyFault::Memory) => Err(AllocError),
        Err(StrategyFault::Text { line: bad }) => {
            Ok(Answer::Answered(Text::new(bad_line_text(alloc, b"strategy", line + bad)?)))
        }
        Ok(strategy) => {
            let mut region = Region::with_room(alloc, room_of(asked.room))?;
            let found = check(
                &game.history,
                asked.attacker,
                asked.depth,
                &strategy,
                &mut region,
            );
            answer_of(alloc, found)
        }
    }
}

// What it answers about the game of a lawful record, the number of the line after the record, and,
// if that line says strategy, what comes after it.
fn strategy_answer(
    alloc: Global,
    asked: &Checking,
    game: &Game,
    line: u64,
    text: Option<&[u8]>,
) -> Result<Answer, AllocError>
    requires room { IsRoomGiven asked.now.room }
    requires few { IfSome text (λ x. line + length x.now ≤ usize.MAX) }
    ensures { let given = option_map (λ x. x.now) text.entry in
        IfOk result (IsStrategyAnswer asked.now game.now line given) }
{
    if let Some(word) = closing_word(game.ending) {
        return Ok(Answer::Answered(Text::new(Vec::from_slice(alloc, ended_text(word))?)));
    }
    if game.history.last().is_none() {
        return Ok(Answer::Answered(Text::new(Vec::from_slice(alloc, b"no position\n")?)));
    }
    match text {
        None => Ok(Answer::Answered(Text::new(Vec::from_slice(alloc, b"no strategy\n")?))),
        Some(text) => text_answer(alloc, asked, game, line, text),
    }
}

// What it answers over an input of these bytes.
pub(crate) fn answer(alloc: Global, asked: &Checking, bytes: &[u8]) -> Result<Answer, AllocError>
    requires { IsRoomGiven asked.now.room }
    ensures { IfOk result (IsCheckAnswer asked.now bytes.now) }
{
    let parts = parts_of(bytes, b"strategy");
    match record_of(alloc, parts.front)? {
        Record::Bad(text) => Ok(Answer::Answered(text)),
        Record::Lawful(game) => strategy_answer(alloc, asked, &game, parts.line, parts.text),
    }
}
