//! The one failure of a read or a write.
use thiserror::Error;

/// A read or a write failed. It comes only from a call that raised the count of faults of its
/// object.
#[derive(Clone, Copy, Debug, PartialEq, Eq, Error)]
#[error("the read or write failed")]
pub struct Failed;
