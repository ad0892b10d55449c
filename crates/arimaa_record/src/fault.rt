//! What keeps a line or a record from being read.
ghost use Rattle.std.specs.Prelude.{◌≡◌};
ghost use Rattle.arimaa_record.specs.declared.fault.RecordFault.TheVariants.{Memory};

use arimaa_board::{BoardFault, Color};
use std::alloc::AllocError;
use thiserror::Error;

/// Why a line of a record is refused.
#[derive(Debug, Drop, Error)]
pub enum LineFault {
    /// The line has none of the forms.
    #[error("not a line of a record")]
    Text,
    /// A turn of more than four steps.
    #[error("more than four steps in turn {number}")]
    Steps {
        number: u32,
        side: Color,
    },
    /// A start line whose board text is refused for this fault.
    #[error("the start line of turn {number} has no board")]
    BadStart {
        number: u32,
        side: Color,
        fault: BoardFault,
    },
    /// A setup line whose entries are no setup of the label's side.
    #[error("no setup in line {number}")]
    BadSetup {
        number: u32,
        side: Color,
    },
}

/// Why a record is refused.
#[derive(Debug, Drop, Error)]
pub enum RecordFault {
    /// This line, counted from 1 over all lines, is the first that is refused.
    #[error("line {line}: {fault}")]
    Line { line: u64, fault: LineFault },
    /// No memory was left.
    #[error("no memory left")]
    Memory,
}

impl From<AllocError> for RecordFault {
    ghost from_gives = { λ _ fault. fault ≡ Memory };

    fn from(_error: AllocError) -> RecordFault {
        RecordFault::Memory
    }
}
