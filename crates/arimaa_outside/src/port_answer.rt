//! What a port answered.
use crate::speech::Said;

/// What a port answered to one call. Want of memory is no answer.
#[derive(Drop)]
pub enum PortAnswer {
    /// `send` has sent its line.
    Sent,
    /// `receive` heard this.
    Heard(Said),
    /// The call failed.
    Failed,
}
