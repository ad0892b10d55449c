//! The clock of the system.
ghost use Rattle.std.specs.Prelude.{◌≡◌, ◌≤◌, None};

use arimaa_outside::Clock;
use std::time::Instant;

/// A clock that counts the milliseconds from its first moment on, by the system's clock that never
/// goes back. It repeats its last moment, or 0, where the system gives none or an earlier one. It
/// tells no moment.
#[derive(Drop)]
pub struct SystemClock<'r, R> {
    rt: &'r R,
    start: Option<Instant>,
    last: u64,
}

impl<'r, R: std::time::Clock> SystemClock<'r, R> {
    /// A clock that has given no moment yet.
    pub fn new(rt: &'r R) -> Self
        ensures { result.last ≡ 0 }
    {
        SystemClock {
            rt,
            start: None,
            last: 0,
        }
    }

    // The milliseconds since the first moment, where the system gives the time.
    fn since_start(&mut self) -> Option<u64>
        ensures { self.new.last ≡ self.old.last }
    {
        let now = Instant::now(self.rt).ok()?;
        let start = match self.start {
            Some(start) => start,
            None => now,
        };
        self.start = Some(start);
        u64::try_from(now.duration_since(start).as_millis()).ok()
    }
}

impl<'r, R: std::time::Clock> Clock for SystemClock<'r, R> {
    ghost given = { λ _. None };

    ghost last = { λ c. c.last };

    fn moment(&mut self) -> u64
        ensures never_falls { self.old.last ≤ result }
        ensures last { self.new.last ≡ result }
    {
        let now = self.since_start().unwrap_or(0);
        self.last = now.max(self.last);
        self.last
    }
}
