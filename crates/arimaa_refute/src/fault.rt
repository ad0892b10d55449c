//! What keeps escapes from being read.
ghost use Rattle.std.specs.Prelude.{◌≡◌};
ghost use Rattle.arimaa_refute.specs.declared.fault.EscapeFault.TheVariants.{Memory};

use std::alloc::AllocError;
use thiserror::Error;

/// Why the text of escapes is refused.
#[derive(Debug, Drop, Error)]
pub enum EscapeFault {
    /// This line, counted from 1 over all lines, is the first that is no escape and not blank.
    #[error("line {line} is no escape")]
    Text { line: u64 },
    /// Out of memory.
    #[error("out of memory")]
    Memory,
}

impl From<AllocError> for EscapeFault {
    ghost from_gives = { λ _ fault. fault ≡ Memory };

    fn from(_error: AllocError) -> EscapeFault {
        EscapeFault::Memory
    }
}
