//! The reader of escapes.
ghost use Rattle.std.specs.Prelude.{◌≡◌, ◌⊎◌, ℕ, List, Ok, Err, IfOk};
ghost use Rattle.std.specs.List.{AllByRecursion};
ghost use Rattle.arimaa_record.specs.Lines.{lines_of};
ghost use Rattle.arimaa_refute.specs.declared.escape.Escape.{Escape as EscapeValue};
ghost use Rattle.arimaa_refute.specs.Checks.{IsFrom};
ghost use Rattle.arimaa_refute.specs.Text.{IsEscapesText, IsFirstBadLine, IsEscapesReading};

use crate::escape_line::read_escape;
use crate::escapes::Escapes;
use crate::fault::EscapeFault;
use arimaa_board::Color;
use arimaa_record::{first_line, is_blank_line};
use std::alloc::Global;

/// The escapes of a text from this attacker, with the defender to move in each.
///
/// A line of an escape is its depth, from 1 to 20, blanks, a board's text, blanks, and a turn with
/// its removal marks. Lines of blanks alone, and comments, which begin with `#`, are passed over. A
/// line may end with a carriage return before its line feed.
///
/// `Text` names the first other line, counted from 1 over all lines. `Memory` is answered where no
/// memory was left before it, or before the end.
pub fn read_escapes(alloc: Global, bytes: &[u8], attacker: Color) -> Result<Escapes, EscapeFault>
    ensures entries { IfOk result (λ c. IsEscapesText bytes.now attacker c) }
    ensures from { IfOk result (λ c. AllByRecursion (IsFrom attacker) c) }
    ensures fault { (n : ℕ) → result ≡ Err (EscapeFault.Text n)
        → IsFirstBadLine attacker (lines_of bytes.now) n }
    ensures no_other { (c : List EscapeValue) → IsEscapesText bytes.now attacker c
        → (result ≡ Ok c) ⊎ (result ≡ Err EscapeFault.Memory) }
    ensures no_other_fault { (n : ℕ) → IsFirstBadLine attacker (lines_of bytes.now) n
        → (result ≡ Err (EscapeFault.Text n)) ⊎ (result ≡ Err EscapeFault.Memory) }
{
    reading(alloc, bytes, attacker)
}

// The escapes of a text, or its first bad line.
fn reading(alloc: Global, bytes: &[u8], attacker: Color) -> Result<Escapes, EscapeFault>
    ensures { IsEscapesReading bytes.now attacker result }
{
    let mut escapes = Escapes::new(alloc);
    let mut number: u64 = 0;
    let mut text = bytes;
    while let Some((line, rest)) = first_line(text) {
        number += 1;
        if !is_blank_line(line) {
            match read_escape(line, attacker) {
                Some(escape) => escapes.push(escape)?,
                None => return Err(EscapeFault::Text { line: number }),
            }
        }
        text = rest;
    }
    Ok(escapes)
}
