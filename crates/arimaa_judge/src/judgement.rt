//! The judge.
ghost use Rattle.std.specs.Prelude.{◌≡◌, ◌≤◌, ◌<◌, ℕ, List, [], IfOk, IfSome, IsErrOf, OnErr, OnOk, length, option_map};
ghost use Rattle.std.specs.Io.KnownBytes.{prepend_known};
ghost use Rattle.arimaa_outside.specs.Faults.{HasRisen};
ghost use Rattle.arimaa_outside.specs.declared.source.TheConstants.{INPUT_LIMIT};
ghost use Rattle.arimaa_judge.specs.Judgement.{IsJudged, HasFitBoards, HasLawfulTurns, HasTurnCount, HasEnding};

use crate::progress::Progress;
use crate::rule::Rule;
use crate::stop::JudgeStop;
use arimaa_history::History;
use arimaa_model::Ending;
use arimaa_outside::Source;
use arimaa_record::{Label, LineReader, first_line};
use std::alloc::{AllocError, Global};

/// What a record is.
#[derive(Drop)]
pub enum Judged {
    /// Each line is fine where it stands.
    Lawful {
        /// The positions of the game as it stands; none as long as a setup is due.
        history: History,
        /// The number of turn lines that stand: those that were not taken back.
        turns: u64,
        /// How the game has ended, if it has: by a closing word, or else by the rules.
        ending: Option<Ending>,
        /// The label of the setup or turn that is due next.
        next: Label,
    },
    /// A line breaks a rule.
    Bad {
        /// The first such line, counted from 1 over all lines.
        line: u64,
        /// The label that is due there.
        label: Label,
        /// The first rule that it breaks.
        rule: Rule,
    },
}

/// Judges a record, whose lines are taken in order. It fails for want of memory only.
///
/// A record is bad at its first line that breaks a rule, and no line after that one is read. Empty
/// lines and comments break none, and are counted like the others.
pub fn judge(alloc: Global, bytes: &[u8]) -> Result<Judged, AllocError>
    ensures judged { IfOk result (λ judged. IsJudged bytes.now judged) }
    ensures fit { IfOk result HasFitBoards }
    ensures lawful { IfOk result HasLawfulTurns }
    ensures counted { IfOk result HasTurnCount }
    ensures ended { IfOk result HasEnding }
{
    let mut progress = Progress::before_lines();
    let mut rest = bytes;
    'lines: while let Some((line, after)) = first_line(rest) {
        progress.take_line(alloc, line)?;
        if progress.is_bad() {
            return Ok(progress.judged(alloc));
        }
        rest = after;
    }
    Ok(progress.judged(alloc))
}

/// Judges a record that is read from a source line by line, to its end. So it is held in the memory
/// of its history and of one line.
///
/// After the first bad line the rest is read and counted too, and says no more: a read that fails
/// there, or an input that is too long, is answered in place of the bad line.
///
/// # Errors
///
/// `Fault` where a read failed, `TooLong` once more than `INPUT_LIMIT` bytes came, `Memory` where
/// there is no room for the history, a buffer or a line. What was taken before an error is lost.
pub fn judge_from<I: Source>(alloc: Global, input: &mut I) -> Result<Judged, JudgeStop>
    ensures judged { IfOk result (λ judged. IfSome (I.remaining input.old)
        (λ bytes. IsJudged bytes judged)) }
    ensures end { OnOk result (I.remaining input.new
        ≡ option_map (λ _. []) (I.remaining input.old)) }
    ensures limit { OnOk result (IfSome (I.remaining input.old)
        (λ bytes. length bytes ≤ INPUT_LIMIT)) }
    ensures fit { IfOk result HasFitBoards }
    ensures lawful { IfOk result HasLawfulTurns }
    ensures counted { IfOk result HasTurnCount }
    ensures ended { IfOk result HasEnding }

    ensures too_long { IsErrOf result JudgeStop.TooLong
        → IfSome (I.remaining input.old) (λ bytes. INPUT_LIMIT < length bytes) }
    ensures fault { IsErrOf result JudgeStop.Fault
        → HasRisen (I.faults input.old) (I.faults input.new) }
    ensures lost { OnErr result ((lost : List ℕ)
        × (I.remaining input.old ≡ prepend_known lost (I.remaining input.new))) }

    // No answer but `Fault` comes after a read that failed.
    ensures sound { ¬ IsErrOf result JudgeStop.Fault
        → I.faults input.new ≡ I.faults input.old }
    ensures never_falls { I.faults input.old ≤ I.faults input.new }
{
    let mut reader = LineReader::new(alloc)?;
    let mut progress = Progress::before_lines();
    'lines: while let Some(line) = reader.next(input)? {
        progress.take_line(alloc, line)?;
    }
    Ok(progress.judged(alloc))
}
