//! A job that stopped.
ghost use Rattle.std.specs.Prelude.{◌≡◌};
ghost use Rattle.arimaa_pool.specs.Jobs.{earlier as earlier_of};

use crate::stop::Stop;

/// A job that could not be answered: its number, and the question with the reason.
#[derive(Clone, Copy, Debug, PartialEq, Eq)]
pub(crate) struct StoppedJob {
    pub(crate) job: u32,
    pub(crate) stop: Stop,
}

/// The one of the lesser job.
pub(crate) fn earlier(one: Option<StoppedJob>, other: Option<StoppedJob>) -> Option<StoppedJob>
    ensures { result ≡ earlier_of one other }
{
    match one {
        None => other,
        Some(first) => match other {
            None => Some(first),
            Some(second) => {
                if first.job <= second.job {
                    Some(first)
                } else {
                    Some(second)
                }
            }
        },
    }
}
