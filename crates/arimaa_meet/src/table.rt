//! The table of a meet.
ghost use Rattle.std.specs.Prelude.{◌≡◌, ◌++◌, ◌≤◌, OnOk, count_by};
ghost use Rattle.std.specs.Fmt.{decimal};
ghost use Rattle.arimaa_meet.specs.Scores.{is_fault_of, is_limit_of, is_loss_of, is_win_of, score_of};
ghost use Rattle.arimaa_meet.specs.Report.{text_of_score, text_of_table};
ghost use Rattle.arimaa_meet.specs.declared.words.TheConstants.{MOST_PROGRAMS as MOST};

use crate::match_count::Counted;
use itoa::Buffer;
use std::alloc::AllocError;

// The row of a program in the table.
#[derive(Clone, Copy, Debug, PartialEq, Eq)]
struct Score {
    // The matches that it has won.
    wins: usize,
    // The matches that it has lost.
    losses: usize,
    // Its matches that reached the limit of the game.
    limits: usize,
    // The matches in which its engine failed.
    faults: usize,
}

// How many matches a program has won.
fn wins(matches: &[Counted], program: usize) -> usize
    ensures { result ≡ count_by (is_win_of program) matches.now }
{
    matches.iter().filter(|one| one.is_win_of(program)).count()
}

// How many matches a program has lost.
fn losses(matches: &[Counted], program: usize) -> usize
    ensures { result ≡ count_by (is_loss_of program) matches.now }
{
    matches.iter().filter(|one| one.is_loss_of(program)).count()
}

// How many matches of a program reached the limit of the game.
fn limits(matches: &[Counted], program: usize) -> usize
    ensures { result ≡ count_by (is_limit_of program) matches.now }
{
    matches
        .iter()
        .filter(|one| one.is_limit_of(program))
        .count()
}

// In how many matches a program's engine failed.
fn faults(matches: &[Counted], program: usize) -> usize
    ensures { result ≡ count_by (is_fault_of program) matches.now }
{
    matches
        .iter()
        .filter(|one| one.is_fault_of(program))
        .count()
}

// The row of a program.
fn count_score(matches: &[Counted], program: usize) -> Score
    ensures { result ≡ score_of program matches.now }
{
    Score {
        wins: wins(matches, program),
        losses: losses(matches, program),
        limits: limits(matches, program),
        faults: faults(matches, program),
    }
}

// Adds a word and a number.
pub(crate) fn push_count(text: &mut Vec<u8>, word: &[u8], number: usize) -> Result<(), AllocError>
    ensures { OnOk result (text.new.items ≡ text.old.items ++ (word.now ++ decimal number)) }
{
    text.extend_from_slice(word)?;
    text.extend_from_slice(Buffer::new().format(number).as_bytes())
}

// Adds the row of a program.
fn push_score(text: &mut Vec<u8>, program: usize, score: Score) -> Result<(), AllocError>
    ensures { OnOk result (text.new.items ≡ text.old.items ++ text_of_score program score) }
{
    push_count(text, b"program ", program)?;
    push_count(text, b" wins ", score.wins)?;
    push_count(text, b" losses ", score.losses)?;
    push_count(text, b" limits ", score.limits)?;
    push_count(text, b" faults ", score.faults)?;
    text.push(b'\n')?;
    Ok(())
}

// Adds the table: the row of each program, in order.
pub(crate) fn push_table(
    text: &mut Vec<u8>,
    programs: usize,
    matches: &[Counted],
) -> Result<(), AllocError>
    requires { programs ≤ MOST }
    ensures { OnOk result (text.new.items
        ≡ text.old.items ++ text_of_table programs matches.now) }
{
    for place in 0..programs {
        let program = place + 1;
        push_score(text, program, count_score(matches, program))?;
    }
    Ok(())
}
