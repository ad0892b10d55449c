//! Time controls of Arimaa matches: their values, and the text that organisers write.
//!
//! The text is `M/R/P/L/G/T`: the time for a turn, the reserve at the start, the percentage of
//! unused time that is kept, the cap of the reserve, the game limit and the limit of one turn, as
//! in `0:30/5/100/5/8/4`. No call takes memory.
#![tactic(auto)]

mod control;
mod fault;
mod fields;
mod reader;
mod spans;
#[cfg(test)]
mod tests;
mod units;
mod writer;

pub use control::{Control, GameLimit};
pub use fault::ControlFault;
pub use reader::read_control;
pub use writer::control_text;
