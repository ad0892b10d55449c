//! What keeps a record from being judged.
ghost use Rattle.std.specs.Prelude.{◌≡◌};
ghost use Rattle.arimaa_judge.specs.declared.stop.JudgeStop.TheVariants.{Memory};
ghost use Rattle.arimaa_judge.specs.Stop.{stop_of};

use arimaa_outside::ReadAll;
use std::alloc::AllocError;
use thiserror::Error;

/// Why a record that is read from a source was not judged.
#[derive(Clone, Copy, Debug, PartialEq, Eq, Error)]
pub enum JudgeStop {
    /// A read failed.
    #[error("a read failed")]
    Fault,
    /// More than `INPUT_LIMIT` bytes came.
    #[error("the input is too long")]
    TooLong,
    /// No memory was left.
    #[error("out of memory")]
    Memory,
}

impl From<ReadAll> for JudgeStop {
    ghost from_gives = { λ error stop. stop ≡ stop_of error };

    fn from(error: ReadAll) -> JudgeStop {
        match error {
            ReadAll::Fault => JudgeStop::Fault,
            ReadAll::TooLong => JudgeStop::TooLong,
            ReadAll::Memory => JudgeStop::Memory,
        }
    }
}

impl From<AllocError> for JudgeStop {
    ghost from_gives = { λ _ stop. stop ≡ Memory };

    fn from(_: AllocError) -> JudgeStop {
        JudgeStop::Memory
    }
}
