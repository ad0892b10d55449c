//! Archives of game records: many records of one input, judged on several threads, with one report
//! in their order.
//!
//! A line `game` begins a record, which ends before the next such line. Each record is judged by
//! itself, its lines counted from 1.
#![tactic(auto)]

mod calls;
mod laws;
mod parts;
mod record_judgement;
mod report;
mod shares;
mod words;

pub use arimaa_judge::{Ending, Label, Rule};
pub use arimaa_pool::{Gate, NoGate};
pub use calls::run_archive;
pub use laws::{archive_answers_agree, records_keep_lines, workers_agree};
pub use parts::Part;
pub use record_judgement::Told;
pub use shares::judge_many;
pub use words::{MOST_WORKERS, USUAL_WORKERS};
