//! A worker at the jobs of a depth.
use crate::asker::Asker;
use crate::stopped_job::StoppedJob;
use arimaa_jobs::JobSeat;
use crossbeam_utils::CachePadded;

/// A worker with its seat of the jobs, and the least job that it could not answer.
#[derive(Drop)]
pub(crate) struct Seated<'a> {
    pub(crate) asker: CachePadded<Asker<'a>>,
    pub(crate) seat: JobSeat,
    pub(crate) stopped: Option<StoppedJob>,
}
