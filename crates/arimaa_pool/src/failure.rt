//! Why no strategy was found.
use crate::stop::Stop;
use std::alloc::AllocError;

/// Why no strategy was found.
#[derive(Drop)]
pub(crate) enum Failure {
    /// A question could not be answered.
    Stopped(Stop),
    /// Out of memory.
    Memory,
}

impl From<Stop> for Failure {
    ghost use Rattle.std.specs.Prelude.{◌≡◌};
    ghost use Rattle.arimaa_pool.specs.declared.failure.Failure.TheVariants.{Stopped};

    ghost from_gives = { λ stop failure. failure ≡ Stopped stop };

    fn from(stop: Stop) -> Failure {
        Failure::Stopped(stop)
    }
}

impl From<AllocError> for Failure {
    ghost use Rattle.std.specs.Prelude.{◌≡◌};
    ghost use Rattle.arimaa_pool.specs.declared.failure.Failure.TheVariants.{Memory};

    ghost from_gives = { λ _ failure. failure ≡ Memory };

    fn from(_error: AllocError) -> Failure {
        Failure::Memory
    }
}
