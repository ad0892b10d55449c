//! What a spawner answered.
use crate::bytes::Bytes;

/// What a spawner answered to one call of `open`, which named this program. Want of memory is no
/// answer.
#[derive(Drop)]
pub enum OpenAnswer {
    /// It started the program, and handed out a link to it.
    Opened(Bytes),
    /// The call failed, and the program was not started.
    Failed(Bytes),
}
