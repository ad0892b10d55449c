//! A gate at which two workers meet.
use crate::gate::Gate;
use crate::wait::wait_until;
use std::sync::atomic::{AtomicBool, Ordering};

/// A gate that lets the first two jobs begin together: whoever enters job 0 or job 1 raises a flag
/// and waits for the other's flag, for at most 10,000,000 turns. So it is starved where one thread
/// asks all jobs.
#[derive(Drop)]
pub struct MeetGate {
    first: AtomicBool,
    second: AtomicBool,
    starved: AtomicBool,
}

impl MeetGate {
    /// A gate that nobody has entered.
    pub fn new() -> MeetGate {
        MeetGate {
            first: AtomicBool::new(false),
            second: AtomicBool::new(false),
            starved: AtomicBool::new(false),
        }
    }

    /// Whether a wait ended at its limit.
    pub fn starved(&self) -> bool {
        self.starved.load(Ordering::SeqCst)
    }

    // Raises one's own flag and waits for the other.
    fn meet(&self, own: &AtomicBool, other: &AtomicBool) {
        own.store(true, Ordering::SeqCst);
        if !wait_until(&|| other.load(Ordering::SeqCst)) {
            self.starved.store(true, Ordering::SeqCst);
        }
    }
}

impl Gate for MeetGate {
    fn enter(&self, job: u32) {
        if job == 0 {
            self.meet(&self.first, &self.second);
        } else if job == 1 {
            self.meet(&self.second, &self.first);
        }
    }

    fn leave(&self, _job: u32) {}
}
