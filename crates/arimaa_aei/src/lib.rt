//! The lines of the Arimaa Engine Interface, version 1: what a controller sends, and what an engine
//! says.
#![tactic(auto)]

mod answer;
mod answer_text;
mod command;
mod command_reader;
mod command_text;
mod line;
mod words;

pub use answer::{Answer, read_answer};
pub use answer_text::answer_bytes;
pub use command::{Command, CommandFault, OptionName};
pub use command_reader::read_command;
pub use command_text::command_bytes;

#[cfg(test)]
mod tests;
