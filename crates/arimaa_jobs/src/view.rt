//! What a seat knows. No value of `SeatView` is made: it stands in contracts and proofs alone.
use atomic_table::TableRule;
use std::collections::LinkedList;

/// What a seat knows of the jobs.
pub struct SeatView {
    /// The number of jobs.
    pub count: u64,
    /// The numbers that it drew, in order. Those below the count are its jobs.
    pub drawn: LinkedList<u64>,
    /// The jobs that it reported, in order.
    pub reported: LinkedList<u64>,
    /// The least reported job that it saw last, or the count.
    pub saw: u64,
    /// How many numbers that are no jobs it may still draw.
    pub spare: u64,
    /// Its part of the whole, which is 65,536. A seat that was joined to another has none.
    pub weight: u64,
}

/// The rule of the two words, for a number of jobs.
pub struct Deal;

impl TableRule<(), SeatView, u32> for Deal {
    ghost use Rattle.arimaa_jobs.specs.Rule.{Ruled, first_view};

    ghost holds = { Ruled };

    ghost first = { first_view };
}
