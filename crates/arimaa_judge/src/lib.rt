//! The judge of records: whether a record is lawful, and the first rule that a bad one breaks.
//!
//! A record is a list of lines, which are taken in order. Each has to break no rule in the state of
//! the record before it; if it breaks none, it changes that state.
#![tactic(auto)]

mod game_fault;
mod judgement;
mod laws;
mod progress;
mod record_state;
mod rule;
mod stop;
mod text;

pub use arimaa_history::History;
pub use arimaa_model::Ending;
pub use arimaa_record::Label;
pub use judgement::{Judged, judge, judge_from};
pub use laws::{bad_lines_are_there, judgements_agree};
pub use rule::Rule;
pub use stop::JudgeStop;
pub use text::{bad_text, lawful_text, push_state};

#[cfg(test)]
mod tests;
