//! The reader of setups.
ghost use Rattle.std.specs.Prelude.{◌≡◌, ◌≢◌, ℕ, ◌↔◌, length, Ok, Err, slice_set};
ghost use Rattle.arimaa_board.specs.Setup.{Lineup};
ghost use Rattle.arimaa_notation.specs.Items.{items_of};
ghost use Rattle.arimaa_notation.specs.Grammar.{IsSetupText, IsSetupReading, IsFirstBadEntry, AreNoSetup};
ghost use Rattle.std.specs.Result.{result_ok};
ghost use Rattle.arimaa_notation.specs.Readers.{setup_of_text};

use crate::fault::NoteFault;
use crate::items::first_item;
use crate::letters::read_entry;
use arimaa_board::{Color, Piece, Setup, Square};

/// The setup of a side whose sixteen entries a text has, in any order.
///
/// An entry is letter and square, as `Ra1`. Items are separated by one or more blanks, which may
/// also stand at both ends. The first item that is no entry is the first fault. `Setup` is
/// answered where every item is an entry, and they are not exactly the side's sixteen pieces on
/// its sixteen home squares.
pub fn read_setup(bytes: &[u8], color: Color) -> Result<Setup, NoteFault>
    ensures setup { (s : Lineup) → (result ≡ Ok s) ↔ IsSetupText bytes.now color s }
    ensures token { (n : ℕ)
        → (result ≡ Err (NoteFault.Token n)) ↔ IsFirstBadEntry (items_of bytes.now) n }
    ensures no_setup { (result ≡ Err NoteFault.Setup) ↔ AreNoSetup (items_of bytes.now) color }
    ensures no_steps { result ≢ Err NoteFault.Steps }
    ensures value { result_ok result ≡ setup_of_text color bytes.now }
{
    reading(bytes, color)
}

// The setup of a text, or its first fault.
fn reading(bytes: &[u8], color: Color) -> Result<Setup, NoteFault>
    ensures { IsSetupReading (items_of bytes.now) color result }
{
    let mut entries = [(Square::C3, Piece::ALL[0]); 16];
    let mut count: usize = 0;
    let mut text = bytes;
    while let Some((item, rest)) = first_item(text) {
        let Some(entry) = read_entry(item) else {
            return Err(NoteFault::Token(count as u64 + 1));
        };
        keep(&mut entries, count, &entry);
        count += 1;
        text = rest;
    }
    if count != 16 {
        return Err(NoteFault::Setup);
    }
    match Setup::new(color, &entries) {
        Some(setup) => Ok(setup),
        None => Err(NoteFault::Setup),
    }
}

// Sets the entry of this place, counted from 0, if there is such a place.
fn keep(entries: &mut [(Square, Piece); 16], place: usize, entry: &(Square, Piece))
    ensures { entries.new ≡ slice_set entries.old place entry.now }
{
    if place < 16 {
        entries[place] = *entry;
    }
}
