//! The calls of an object in memory, some of which are to fail.
ghost use Rattle.std.specs.Prelude.{◌≡◌, ◌+◌, ◌-◌, ◌^◌, ◌≤◌, ◌↔◌, min, IsErr, IsTrue, OnErr, OnOk, Contains};
ghost use Rattle.arimaa_outside.specs.Calls.{NextFails, after_fault, after_success};
ghost use Rattle.arimaa_outside.specs.Counts.{capped_sum};

use crate::failure::Failed;
use std::marker::Model;

/// Which calls of an object fail, by their numbers from 1, and what was counted so far.
#[derive(Drop)]
pub(crate) struct Calls {
    fails: Vec<u64>,
    made: u64,
    faults: u64,
}

impl Model for Calls {
    ghost use Rattle.arimaa_outside.specs.Calls.{Tally};

    ghost Value = { Tally };

    ghost view = { λ c. record { fails = c.fails.items; made = c.made; faults = c.faults } };
}

impl Calls {
    /// No call was made yet.
    pub fn new(fails: Vec<u64>) -> Self
        ensures { result ≡ record { fails = fails.items; made = 0; faults = 0 } }
    {
        Calls {
            fails,
            made: 0,
            faults: 0,
        }
    }

    /// Counts a call.
    ///
    /// # Errors
    ///
    /// `Failed` exactly where the number of the call stands in the list.
    pub fn begin(&mut self) -> Result<(), Failed>
        ensures fails { IsErr result ↔ NextFails self.old }
        ensures ok { OnOk result (self.new ≡ after_success self.old) }
        ensures err { OnErr result (self.new ≡ after_fault self.old) }
        ensures never_falls { self.old.faults ≤ self.new.faults }
    {
        let fails = fails_after(&self.fails, self.made);
        self.made = self.made.saturating_add(1);
        if fails { Err(self.fault()) } else { Ok(()) }
    }

    /// Counts the fault of a call that was begun.
    pub fn fault(&mut self) -> Failed
        ensures counted { self.new
            ≡ record self.old { faults = min (self.old.faults + 1) (2 ^ 64 - 1) } }
        ensures never_falls { self.old.faults ≤ self.new.faults }
    {
        self.faults = self.faults.saturating_add(1);
        Failed
    }

    /// How many faults were counted.
    pub fn faults(&self) -> u64
        ensures { result ≡ self.now.faults }
    {
        self.faults
    }

    /// Counts the faults of another object, too.
    pub fn add_faults(&mut self, more: u64)
        ensures counted { self.new ≡ record self.old { faults = capped_sum self.old.faults more } }
        ensures never_falls { self.old.faults ≤ self.new.faults }
    {
        self.faults = self.faults.saturating_add(more);
    }
}

// Whether the call after so many is one that fails. The numbers of 64 bits end before the call that
// has none.
fn fails_after(fails: &[u64], made: u64) -> bool
    ensures { IsTrue result ↔ Contains fails.now (made + 1) }
{
    made < u64::MAX && fails.contains(&(made + 1))
}
