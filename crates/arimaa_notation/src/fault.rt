//! What keeps a text from being read.
use thiserror::Error;

/// Why a text of a turn or of a setup is refused. The first that applies is answered.
#[derive(Debug, PartialEq, Eq, Drop, Error)]
pub enum NoteFault {
    /// The item of this number, counted from 1, is the first that does not belong there. A turn's
    /// text without items has this fault at 1.
    #[error("item {0} is out of place")]
    Token(u64),
    /// There are more than four steps.
    #[error("more than four steps")]
    Steps,
    /// Every item is an entry, and the entries are no setup of the side.
    #[error("no setup of the side")]
    Setup,
}
