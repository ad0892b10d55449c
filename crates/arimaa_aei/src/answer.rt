//! What an engine says.
ghost use Rattle.std.specs.Prelude.{◌≡◌};
ghost use Rattle.arimaa_aei.specs.Answers.{alone, said_by, speech_of_line, spoken_of};

use crate::words::{AnswerWord, read_answer_word};
use arimaa_notation::{first_item, trim};

/// What a line from an engine says. The texts are parts of the line, without blanks at their ends.
#[derive(Clone, Copy, Debug)]
pub enum Answer<'a> {
    /// `protocol-version`: the version of the protocol that the engine speaks.
    Version(&'a [u8]),
    /// `id`: the engine's name, author or version.
    Id(&'a [u8]),
    /// `aeiok`: the session has begun.
    AeiOk,
    /// `readyok`: the engine is ready.
    ReadyOk,
    /// `bestmove`: the setup or the turn that the engine makes.
    BestMove(&'a [u8]),
    /// `info`: what the engine thinks.
    Info(&'a [u8]),
    /// `log`: a line for the controller's log.
    Log(&'a [u8]),
    /// Anything else.
    Other,
}

/// What an engine's line says, without its line end. The first item decides; `aeiok` and `readyok`
/// stand alone, and after the other words the rest of the line is the text. Every other line, the
/// empty one too, is `Other`.
#[tactic(auto, unfolding(crate::specs::Answers::speech_of_line))]
pub fn read_answer(line: &[u8]) -> Answer<'_>
    ensures { spoken_of result ≡ speech_of_line line.now }
{
    let Some((word, rest)) = first_item(line) else {
        return Answer::Other;
    };
    match read_answer_word(word) {
        None => Answer::Other,
        Some(word) => said_by(word, trim(rest)),
    }
}

// What a first word says with the text after it.
fn said_by(word: AnswerWord, text: &[u8]) -> Answer<'_>
    ensures { spoken_of result ≡ said_by (Some word) text.now }
{
    match word {
        AnswerWord::Version => Answer::Version(text),
        AnswerWord::Id => Answer::Id(text),
        AnswerWord::AeiOk => if_alone(text, Answer::AeiOk),
        AnswerWord::ReadyOk => if_alone(text, Answer::ReadyOk),
        AnswerWord::BestMove => Answer::BestMove(text),
        AnswerWord::Info => Answer::Info(text),
        AnswerWord::Log => Answer::Log(text),
    }
}

// What is said where no text follows the word.
fn if_alone<'a>(text: &[u8], said: Answer<'a>) -> Answer<'a>
    ensures { spoken_of result ≡ alone text.now (spoken_of said.entry) }
{
    if text.is_empty() { said } else { Answer::Other }
}
