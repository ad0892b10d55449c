//! Meets: each of some programs plays each other one, and one report stands in the order of the
//! matches, with a table at its end.
#![tactic(auto)]

mod calls;
mod gather;
mod laws;
mod match_count;
mod match_report;
mod meet;
mod pairs;
mod report;
mod table;
mod words;
mod workers;

pub use calls::run_meet;
pub use laws::{matches_agree, reports_agree};
pub use pairs::{MOST_PAIRS, Pair};
pub use words::{Asked, FEWEST_PROGRAMS, MOST_PROGRAMS};
