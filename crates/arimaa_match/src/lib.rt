//! A match between two engines.
//!
//! A match is the fold of what the two ports answer and of the moments that the clock gives: its
//! record, its end, its log and the lines that the engines are sent follow from them, whatever the
//! ports and the clock are.
#![tactic(auto)]

mod ending;
mod game;
mod laws;
mod log;
mod play;
mod programs;
mod quits;
mod side_fault;
mod talk;
mod text;
mod thought;
mod umpire;

pub use ending::{MatchCause, MatchDone, MatchEnd};
pub use laws::told_once;
pub use log::{Booked, Bookings};
pub use play::play_match;
pub use programs::play_programs;
pub use text::match_text;

#[cfg(test)]
mod tests;
