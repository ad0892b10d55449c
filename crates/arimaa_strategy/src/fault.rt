//! What keeps a strategy from being read.
ghost use Rattle.std.specs.Prelude.{◌≡◌};
ghost use Rattle.arimaa_strategy.specs.declared.fault.StrategyFault.TheVariants.{Memory};

use std::alloc::AllocError;
use thiserror::Error;

/// Why the text of a strategy is refused.
#[derive(Debug, Drop, Error)]
pub enum StrategyFault {
    /// This line, counted from 1 over all lines, is the first that is no entry and not blank.
    #[error("line {line} is no entry of a strategy")]
    Text { line: u64 },
    /// Out of memory.
    #[error("out of memory")]
    Memory,
}

impl From<AllocError> for StrategyFault {
    ghost from_gives = { λ _ fault. fault ≡ Memory };

    fn from(_error: AllocError) -> StrategyFault {
        StrategyFault::Memory
    }
}
