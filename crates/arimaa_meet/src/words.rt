//! The words that ask for a meet.
ghost use Rattle.std.specs.Prelude.{◌↔◌, IfNone, IfSome, IsTrue};
ghost use Rattle.arimaa_meet.specs.Words.{AreProgramsFrom, AsksForMeet, AsksForNoMeet, IsProgram};

use arimaa_outside::CommandWords;
use arimaa_time::{Control, read_control};

/// The fewest programs of a meet.
pub const FEWEST_PROGRAMS: usize = 2;

/// The most programs of a meet.
pub const MOST_PROGRAMS: usize = 8;

/// A meet that is asked for.
#[derive(Drop)]
pub struct Asked {
    /// The time control of each match.
    pub control: Control,
    /// How many programs there are, from `FEWEST_PROGRAMS` to `MOST_PROGRAMS`. The program of a
    /// number, from 1, is the word in that place, after the time control.
    pub programs: usize,
}

// Whether a word may name a program.
fn is_program(word: &[u8]) -> bool
    ensures { IsTrue result ↔ IsProgram word.now }
{
    match word {
        [] => false,
        [first, ..] => *first != b'-',
    }
}

// Whether all words but the first may name programs.
fn are_programs(words: &CommandWords) -> bool
    ensures { IsTrue result ↔ AreProgramsFrom 1 words.now }
{
    for place in 1..words.len() {
        match words.get(place) {
            Some(word) => {
                if !is_program(word.as_bytes()) {
                    return false;
                }
            }
            None => return false,
        }
    }
    true
}

// The meet that the words ask for: a time control, and then programs.
pub(crate) fn read_meet(words: &CommandWords) -> Option<Asked>
    ensures form { IfSome result (AsksForMeet words.now) }
    ensures none { IfNone result (AsksForNoMeet words.now) }
{
    let text = words.get(0)?;
    let programs = words.len() - 1;
    if programs < FEWEST_PROGRAMS {
        return None;
    }
    if programs > MOST_PROGRAMS {
        return None;
    }
    if !are_programs(words) {
        return None;
    }
    match read_control(text.as_bytes()) {
        Ok(control) => Some(Asked { control, programs }),
        Err(_) => None,
    }
}
