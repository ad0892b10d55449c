//! The command `judge`: how a lawful record's game stands.
ghost use Rattle.std.specs.Prelude.{IfOk};
ghost use Rattle.arimaa_cli.specs.Commands.Judge.{IsJudgeAnswer};

use crate::answer::{Answer, Text};
use crate::record::Game;
use arimaa_judge::lawful_text;
use std::alloc::{AllocError, Global};

// What it answers about the game of a lawful record: the number of its turns, and how it stands.
pub(crate) fn answer(alloc: Global, game: &Game) -> Result<Answer, AllocError>
    ensures { IfOk result (IsJudgeAnswer game.now) }
{
    let text = lawful_text(alloc, game.turns, game.ending, game.next)?;
    Ok(Answer::Done(Text::new(text)))
}
