//! The command `refute`: what is played so that a side doesn't win from the position that a lawful
//! record ends with.
ghost use Rattle.std.specs.Prelude.{◌≡◌, ◌≤◌, IfOk};
ghost use Rattle.arimaa_pool.specs.Limits.{AreWithinLimits};
ghost use Rattle.arimaa_cli.specs.Commands.Refute.{IsRefuteAnswer, held_text, answer_of_refuted};
ghost use Rattle.arimaa_cli.specs.Records.{IsAnswerAbout};

use super::position::position_of;
use super::prove::Asked;
use crate::answer::{Answer, Text};
use crate::record::{Game, Record};
use crate::texts::{crowded_text, spent_text};
use arimaa_refute::{Escapes, Refuted, escapes_text, refute};
use std::alloc::{AllocError, Global};

// The lines of a position that isn't won: its escapes.
fn held_text(alloc: Global, escapes: &Escapes) -> Result<Vec<u8>, AllocError>
    ensures { IfOk result (λ text. text.items ≡ held_text escapes.now) }
{
    let mut text = Vec::from_slice(alloc, b"held\nescapes\n")?;
    text.extend_from_slice(&escapes_text(alloc, escapes)?)?;
    Ok(text)
}

// What the maker of escapes finds, as the answer that it is.
fn told(alloc: Global, found: &Refuted) -> Result<Answer, AllocError>
    ensures { IfOk result (λ a. a ≡ answer_of_refuted found.now) }
{
    match found {
        Refuted::Held(escapes) => Ok(Answer::Done(Text::new(held_text(alloc, escapes)?))),
        Refuted::Wins => Ok(Answer::Answered(Text::new(Vec::from_slice(alloc, b"wins\n")?))),
        Refuted::Spent {
            position,
            depth,
            counted,
        } => {
            let text = spent_text(alloc, position, *depth, *counted)?;
            Ok(Answer::Spent(Text::new(text)))
        }
        Refuted::Crowded { position, depth } => {
            Ok(Answer::Crowded(Text::new(crowded_text(alloc, position, *depth)?)))
        }
    }
}

// What it answers about the game of a lawful record.
fn game_answer(alloc: Global, asked: &Asked, game: &Game) -> Result<Answer, AllocError>
    requires depth { asked.now.depth ≤ 20 }
    requires settings { AreWithinLimits asked.now.settings }
    ensures { IfOk result (IsRefuteAnswer asked.now game.now) }
{
    match position_of(game) {
        Err(why) => Ok(Answer::Answered(Text::new(Vec::from_slice(alloc, why)?))),
        Ok(_) => {
            let found = refute(
                alloc,
                &game.history,
                asked.attacker,
                asked.depth,
                asked.settings.lines,
                asked.settings.budget,
                asked.settings.room,
            )?;
            told(alloc, &found)
        }
    }
}

// What it answers about a record.
pub(crate) fn answer(alloc: Global, asked: &Asked, found: Record) -> Result<Answer, AllocError>
    requires depth { asked.now.depth ≤ 20 }
    requires settings { AreWithinLimits asked.now.settings }
    ensures { IfOk result (IsAnswerAbout (IsRefuteAnswer asked.now) found) }
{
    match found {
        Record::Bad(text) => Ok(Answer::Answered(text)),
        Record::Lawful(game) => game_answer(alloc, asked, &game),
    }
}
