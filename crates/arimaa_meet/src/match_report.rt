//! What is told of a match.
use crate::match_count::Counted;

/// A match that was played: its text, as the command `play` writes it, and what it counts in the
/// table.
#[derive(Drop)]
pub(crate) struct Told {
    pub(crate) text: Vec<u8>,
    pub(crate) counted: Counted,
}
