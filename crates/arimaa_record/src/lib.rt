//! Records of games: what each of their lines says, and how it is written.
#![tactic(auto)]

mod buffer;
mod fault;
mod label;
mod laws;
mod line;
mod line_reader;
mod lines;
mod reader;
mod record;
mod writer;

pub use arimaa_notation::read_number;
pub use fault::{LineFault, RecordFault};
pub use label::{Label, MOST_LABEL, read_label};
pub use laws::lines_apart;
pub use line::RecordLine;
pub use line_reader::LineReader;
pub use lines::first_line;
pub use reader::{is_blank_line, read_line};
pub use record::{Record, read_record};
pub use writer::{push_label, push_line, record_text};

#[cfg(test)]
mod line_tests;
#[cfg(test)]
mod tests;
