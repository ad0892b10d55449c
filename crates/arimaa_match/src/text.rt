//! The text of a match that has ended.
ghost use Rattle.std.specs.Prelude.{◌≡◌, ◌++◌, ◌∷◌, [], IfOk, OnOk};
ghost use Rattle.arimaa_judge.specs.Texts.{side_word};
ghost use Rattle.arimaa_match.specs.Parts.{IsNoMemory};
ghost use Rattle.arimaa_match.specs.Records.{IsAcceptedMatch, IsLawfulMatch};
ghost use Rattle.arimaa_match.specs.Texts.{HasEnded, end_line, fault_word, match_cause_word, text_of_match};

use crate::ending::{MatchCause, MatchDone, MatchEnd};
use arimaa_board::{Cause, Color};
use arimaa_engine::EngineFault;
use arimaa_record::record_text;
use std::alloc::{AllocError, Global};

// The word for a side.
fn side_text(side: Color) -> &'static [u8]
    ensures { result.now ≡ side_word side }
{
    match side {
        Color::Gold => b"gold",
        Color::Silver => b"silver",
    }
}

// The word for why a side has won.
fn cause_text(cause: MatchCause) -> &'static [u8]
    ensures { result.now ≡ match_cause_word cause }
{
    match cause {
        MatchCause::Rules(Cause::Goal) => b"goal",
        MatchCause::Rules(Cause::Elimination) => b"elimination",
        MatchCause::Rules(Cause::Immobile) => b"immobile",
        MatchCause::Rules(Cause::Repetition) => b"repetition",
        MatchCause::Rules(Cause::Resign) | MatchCause::Resign => b"resign",
        MatchCause::Rules(Cause::Time) | MatchCause::Time => b"time",
        MatchCause::Illegal => b"illegal",
    }
}

// The word for an engine's fault.
fn fault_text(fault: &EngineFault) -> &'static [u8]
    requires { IsNoMemory fault.now }
    ensures { result.now ≡ fault_word fault.now }
{
    match fault {
        EngineFault::Failed => b"failed",
        EngineFault::Ended => b"ended",
        EngineFault::Long => b"long",
        EngineFault::Silent => b"silent",
        EngineFault::Version(_) => b"version",
        EngineFault::Memory => b"",
    }
}

// Adds these three parts, a space before the last, and a line feed.
fn push_end(text: &mut Vec<u8>, first: &[u8], side: Color, last: &[u8]) -> Result<(), AllocError>
    ensures { OnOk result (text.new.items
        ≡ text.old.items ++ ((first.now ++ side_word side ++ 32 ∷ last.now) ++ 10 ∷ [])) }
{
    text.extend_from_slice(first)?;
    text.extend_from_slice(side_text(side))?;
    text.push(b' ')?;
    text.extend_from_slice(last)?;
    text.push(b'\n')?;
    Ok(())
}

// Adds how a match has ended.
fn push_ending(text: &mut Vec<u8>, ending: &MatchEnd) -> Result<(), AllocError>
    requires { HasEnded ending.now }
    ensures { OnOk result (text.new.items ≡ text.old.items ++ end_line ending.now) }
{
    match ending {
        MatchEnd::Won { winner, cause } => {
            push_end(text, b"# winner ", *winner, cause_text(*cause))
        }
        MatchEnd::Limit => text.extend_from_slice(b"# limit\n"),
        MatchEnd::Engine { side, fault } => {
            push_end(text, b"# engine ", *side, fault_text(fault))
        }
    }
}

/// The text of a match: its record, and then a comment that says how it has ended.
///
/// The comment is `# winner`, the side and the cause; `# limit`; or `# engine`, the side and the
/// fault. So the text is a record itself.
pub fn match_text(alloc: Global, done: &MatchDone) -> Result<Vec<u8>, AllocError>
    requires { HasEnded done.now.ending }
    ensures text { IfOk result (λ text. text.items ≡ text_of_match done.now) }

    // The judge's answer on the record of a match whose lines it accepts.
    ensures lawful { OnOk result (IsAcceptedMatch done.now → IsLawfulMatch done.now) }
{
    let mut text = record_text(alloc, &done.written)?;
    push_ending(&mut text, &done.ending)?;
    Ok(text)
}
