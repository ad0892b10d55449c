//! The written form of an engine's lines.
ghost use Rattle.std.specs.Prelude.{◌≡◌, ◌≢◌, IfOk};
ghost use Rattle.arimaa_aei.specs.Answers.{Other, speech_of_line, spoken_of};
ghost use Rattle.arimaa_aei.specs.Words.{text_of_answer_word};
ghost use Rattle.arimaa_aei.specs.Written.{IsTrimmed, text_of_spoken, with_text};

use crate::answer::Answer;
use crate::line::word_with_text;
use crate::words::{AnswerWord, answer_word_text};
use std::alloc::{AllocError, Global};

/// The line of an answer, without a line feed. Where the answer carries a text, it stands after one
/// space. A text without blanks at its ends is read back.
pub fn answer_bytes(alloc: Global, answer: &Answer) -> Result<Vec<u8>, AllocError>
    requires { spoken_of answer.now ≢ Other }
    ensures text { IfOk result (λ line. line.items ≡ text_of_spoken (spoken_of answer.now)) }
    ensures reads_back { IfOk result (λ line. IsTrimmed (spoken_of answer.now)
        → speech_of_line line.items ≡ spoken_of answer.now) }
{
    let (word, text) = parts(answer);
    word_with_text(alloc, answer_word_text(word), text)
}

// The first word of an answer's line, and its text, which is empty where the answer carries none.
fn parts<'a>(answer: &Answer<'a>) -> (AnswerWord, &'a [u8])
    requires { spoken_of answer.now ≢ Other }
    ensures { with_text (text_of_answer_word result.0) result.1.now
        ≡ text_of_spoken (spoken_of answer.now) }
{
    match *answer {
        Answer::Version(text) => (AnswerWord::Version, text),
        Answer::Id(text) => (AnswerWord::Id, text),
        Answer::AeiOk => (AnswerWord::AeiOk, b""),
        Answer::ReadyOk => (AnswerWord::ReadyOk, b""),
        Answer::BestMove(text) => (AnswerWord::BestMove, text),
        Answer::Info(text) => (AnswerWord::Info, text),
        Answer::Log(text) => (AnswerWord::Log, text),
        Answer::Other => unreachable!(),
    }
}
