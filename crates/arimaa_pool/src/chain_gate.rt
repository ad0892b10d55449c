//! A gate that lets jobs be asked one after another, by two workers in turn.
ghost use Rattle.std.specs.Prelude.{◌<◌};

use crate::gate::Gate;
use crate::wait::wait_until;
use std::array;
use std::sync::atomic::{AtomicBool, AtomicU32, Ordering};

// How many jobs a gate can count.
const MOST_JOBS: usize = 16;

/// A gate that counts how often each job up to a last one was entered and left, and makes them
/// wait.
///
/// An entering is counted before it waits. The r-th entering of a job up to the last one waits
/// until every job below was left r times, and, if it isn't the last one, until the job above was
/// entered r times. An entering of a job above the last one waits until every job up to it was left
/// as often as it was entered. Each wait ends after 10,000,000 turns. So two workers ask the jobs
/// in turn, one the even ones and the other the odd ones.
#[derive(Drop)]
pub struct ChainGate {
    last: u32,
    entered: [AtomicU32; MOST_JOBS],
    left: [AtomicU32; MOST_JOBS],
    starved: AtomicBool,
    ghost counted: { last < 16 },
}

impl ChainGate {
    /// A gate that nobody has entered, for the jobs up to `last`.
    pub fn new(last: u32) -> ChainGate
        requires { last < 16 }
    {
        ChainGate {
            last,
            entered: array::from_fn(|_| AtomicU32::new(0)),
            left: array::from_fn(|_| AtomicU32::new(0)),
            starved: AtomicBool::new(false),
        }
    }

    /// Whether a wait ended at its limit.
    pub fn starved(&self) -> bool {
        self.starved.load(Ordering::SeqCst)
    }

    // How often a job was left, and how often it was entered.
    fn counts(&self, job: u32) -> (u32, u32)
        requires { job < 16 }
    {
        (
            self.left[job as usize].load(Ordering::SeqCst),
            self.entered[job as usize].load(Ordering::SeqCst),
        )
    }

    // Whether every job below this one was left so many times.
    fn are_left(&self, job: u32, times: u32) -> bool
        requires { job < 16 }
    {
        (0..job).all(|below| self.counts(below).0 >= times)
    }

    // Whether the job above this one was entered so many times, or is above the last one.
    fn is_followed(&self, job: u32, times: u32) -> bool
        requires { job < 16 }
    {
        job >= self.last || self.counts(job + 1).1 >= times
    }

    // Whether every job up to the last one was left as often as it was entered.
    fn is_empty(&self) -> bool {
        (0..self.last + 1).all(|job| {
            let (left, entered) = self.counts(job);
            left >= entered
        })
    }

    // Notes that a wait ended at its limit.
    fn note(&self, held: bool) {
        if !held {
            self.starved.store(true, Ordering::SeqCst);
        }
    }
}

impl Gate for ChainGate {
    fn enter(&self, job: u32) {
        if job > self.last {
            self.note(wait_until(&|| self.is_empty()));
            return;
        }
        let before = self.entered[job as usize].fetch_add(1, Ordering::SeqCst);
        let times = before.wrapping_add(1);
        self.note(wait_until(&|| self.are_left(job, times) && self.is_followed(job, times)));
    }

    fn leave(&self, job: u32) {
        if job <= self.last {
            self.left[job as usize].fetch_add(1, Ordering::SeqCst);
        }
    }
}
