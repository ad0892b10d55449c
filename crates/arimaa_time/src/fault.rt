//! What keeps a text from being read as a time control.
use thiserror::Error;

/// Why a text is no time control.
#[derive(Clone, Copy, Debug, PartialEq, Eq, Drop, Error)]
pub enum ControlFault {
    /// The first bad field, counted from 1. It is 7 where the first six are good and more stand.
    #[error("field {0} of the time control is bad")]
    Field(u8),
}
