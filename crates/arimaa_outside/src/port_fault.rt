//! Why a port or a spawner refuses a call.
ghost use Rattle.std.specs.Prelude.{◌≡◌};
ghost use Rattle.arimaa_outside.specs.declared.port_fault.PortFault.TheVariants.{Memory};

use std::alloc::AllocError;
use thiserror::Error;

/// Why a call of a port or a spawner was refused.
#[derive(Clone, Copy, Debug, PartialEq, Eq, Error)]
pub enum PortFault {
    /// The call failed. It comes only from a call that raised the count of faults of its object.
    #[error("the port failed")]
    Failed,
    /// No memory was left.
    #[error("out of memory")]
    Memory,
}

impl From<AllocError> for PortFault {
    ghost from_gives = { λ _ e. e ≡ Memory };

    fn from(_: AllocError) -> Self {
        PortFault::Memory
    }
}
