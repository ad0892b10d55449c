//! The time, in milliseconds.
ghost use Rattle.std.specs.Prelude.{◌≡◌, ◌≤◌, ◌∷◌, [], ℕ, List, Option};
ghost use Rattle.arimaa_outside.specs.ToldLines.{TellsMore};

/// What gives moments. A moment counts milliseconds from some fixed start.
pub trait Clock {
    /// The moments that it gave, in order, or `None` where the clock doesn't tell.
    ghost given: { Self → Option (List ℕ) };

    /// The last moment that it gave, or 0 where it gave none.
    ghost last: { Self → ℕ };

    /// The moment it is now, never before one that it gave.
    fn moment(&mut self) -> u64
        ensures told { TellsMore (given self.old) (result ∷ []) (given self.new) }
        ensures never_falls { last self.old ≤ result }
        ensures last { last self.new ≡ result };
}
