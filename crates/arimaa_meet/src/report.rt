//! The report of a meet.
ghost use Rattle.std.specs.Prelude.{◌≡◌, ◌++◌, ◌<◌, ◌≤◌, ◌^◌, List, IfOk, OnOk, length};
ghost use Rattle.std.specs.List.{AllZip};
ghost use Rattle.arimaa_meet.specs.Matches.{MeetMatch};
ghost use Rattle.arimaa_meet.specs.Report.{line_of_pair, text_of_report};
ghost use Rattle.arimaa_meet.specs.Shares.{IsTold};
ghost use Rattle.arimaa_meet.specs.declared.pairs.TheConstants.{MOST_PAIRS as MOST};
ghost use Rattle.arimaa_meet.specs.declared.words.TheConstants.{MOST_PROGRAMS};

use crate::match_report::Told;
use crate::pairs::Pair;
use crate::table::{push_count, push_table};
use std::alloc::{AllocError, Global};

// Adds a match, by its number: a line with its programs, and its text.
fn push_match(text: &mut Vec<u8>, number: usize, told: &Told) -> Result<(), AllocError>
    ensures { OnOk result (text.new.items ≡ text.old.items
        ++ (line_of_pair number told.now.counted.pair ++ told.now.text.items)) }
{
    let Pair { gold, silver } = told.counted.pair;
    push_count(text, b"match ", number)?;
    push_count(text, b" ", gold)?;
    push_count(text, b" ", silver)?;
    text.push(b'\n')?;
    text.extend_from_slice(&told.text)
}

// The report: the matches, counted from 1, and then the table of so many programs.
pub(crate) fn report(alloc: Global, programs: usize, told: &[Told]) -> Result<Vec<u8>, AllocError>
    requires programs { programs ≤ MOST_PROGRAMS }
    requires few { length told.now ≤ MOST }
    ensures { IfOk result (λ text. (matches : List MeetMatch) → AllZip IsTold matches told.now
        → text.items ≡ text_of_report programs matches) }
{
    let mut text = Vec::new(alloc);
    let mut counted = Vec::new(alloc);
    'matches: for place in 0..told.len() {
        push_match(&mut text, place + 1, &told[place])?;
        counted.push(told[place].counted)?;
    }
    push_table(&mut text, programs, &counted)?;
    Ok(text)
}
