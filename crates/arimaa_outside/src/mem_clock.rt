//! A clock in memory.
ghost use Rattle.std.specs.Prelude.{◌≡◌, ◌≤◌, ◌∷◌, []};
ghost use Rattle.std.specs.List.Sorted.{IsNonDecreasing};
ghost use Rattle.arimaa_outside.specs.MemClock.{after_moment, moments_given};
ghost use Rattle.arimaa_outside.specs.ToldLines.{TellsMore};

use crate::clock::Clock;
use std::marker::Model;

/// A clock that gives these moments and tells which it gave. Then it repeats the last of them, or 0
/// where there are none. It tells no more once it has repeated it 2^64 - 1 times.
#[derive(Drop)]
pub struct MemClock {
    moments: Vec<u64>,
    at: usize,
    repeats: u64,
    last: u64,
}

impl Model for MemClock {
    ghost use Rattle.std.specs.Prelude.{◌≡◌, ◌<◌, ◌≤◌, drop, slice_index, take, vec_len};
    ghost use Rattle.std.specs.List.Sorted.{IsNonDecreasing};
    ghost use Rattle.arimaa_outside.specs.MemClock.{Ticking};

    ghost Value = { Ticking };

    ghost view = { λ c. record {
      left = drop c.at c.moments.items;
      gave = take c.at c.moments.items;
      repeats = c.repeats;
      last = c.last;
    } };

    ghost invariant = { λ c. (c.at ≤ vec_len c.moments)
        × IsNonDecreasing c.moments.items
        × (c.at < vec_len c.moments → c.last ≤ slice_index c.moments.items c.at)
        × (0 < c.repeats → c.at ≡ vec_len c.moments) };
}

impl MemClock {
    /// A clock of these moments, which don't fall. It takes no memory.
    pub fn new(moments: Vec<u64>) -> Self
        requires { IsNonDecreasing moments.items }
        ensures { result ≡ record { left = moments.items; gave = []; repeats = 0; last = 0 } }
    {
        MemClock {
            moments,
            at: 0,
            repeats: 0,
            last: 0,
        }
    }
}

impl Clock for MemClock {
    ghost given = { moments_given };

    ghost last = { λ c. c.last };

    fn moment(&mut self) -> u64
        ensures moment { self.new ≡ after_moment self.old }
        ensures last { self.new.last ≡ result }
        ensures told { TellsMore (moments_given self.old) (result ∷ []) (moments_given self.new) }
        ensures never_falls { self.old.last ≤ result }
    {
        match self.moments.get(self.at).copied() {
            Some(moment) => {
                self.last = moment;
                self.at += 1;
            }
            None => self.repeats = self.repeats.saturating_add(1),
        }
        self.last
    }
}
