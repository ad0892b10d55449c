//! The reader of strategies.
ghost use Rattle.std.specs.Prelude.{◌≡◌, ◌⊎◌, ℕ, List, Ok, Err, IfOk};
ghost use Rattle.arimaa_record.specs.Lines.{lines_of};
ghost use Rattle.arimaa_forced.specs.declared.entry.Entry.{Entry as EntryValue};
ghost use Rattle.arimaa_strategy.specs.Text.{IsStrategyText, IsFirstBadLine, IsStrategyReading};

use crate::entry_line::read_entry;
use crate::fault::StrategyFault;
use crate::strategy::Strategy;
use arimaa_board::Color;
use arimaa_record::{first_line, is_blank_line};
use std::alloc::Global;

/// The strategy of a text, with the attacker to move in each entry.
///
/// A line of an entry is its rank, from 0 to 99, blanks, a board's text, blanks, and a turn with
/// its removal marks. Lines of blanks alone, and comments, which begin with `#`, are passed over. A
/// line may end with a carriage return before its line feed.
///
/// `Text` names the first other line, counted from 1 over all lines. `Memory` is answered where no
/// memory was left before it, or before the end.
pub fn read_strategy(
    alloc: Global,
    bytes: &[u8],
    attacker: Color,
) -> Result<Strategy, StrategyFault>
    ensures entries { IfOk result (λ s. IsStrategyText bytes.now attacker s) }
    ensures fault { (n : ℕ) → result ≡ Err (StrategyFault.Text n)
        → IsFirstBadLine attacker (lines_of bytes.now) n }
    ensures no_other { (s : List EntryValue) → IsStrategyText bytes.now attacker s
        → (result ≡ Ok s) ⊎ (result ≡ Err StrategyFault.Memory) }
    ensures no_other_fault { (n : ℕ) → IsFirstBadLine attacker (lines_of bytes.now) n
        → (result ≡ Err (StrategyFault.Text n)) ⊎ (result ≡ Err StrategyFault.Memory) }
{
    reading(alloc, bytes, attacker)
}

// The strategy of a text, or its first bad line.
fn reading(alloc: Global, bytes: &[u8], attacker: Color) -> Result<Strategy, StrategyFault>
    ensures { IsStrategyReading bytes.now attacker result }
{
    let mut strategy = Strategy::new(alloc);
    let mut number: u64 = 0;
    let mut text = bytes;
    while let Some((line, rest)) = first_line(text) {
        number += 1;
        if !is_blank_line(line) {
            match read_entry(line, attacker) {
                Some(entry) => strategy.push(entry)?,
                None => return Err(StrategyFault::Text { line: number }),
            }
        }
        text = rest;
    }
    Ok(strategy)
}
