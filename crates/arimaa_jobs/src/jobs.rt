//! The jobs, their seats, and what a seat does: claim, report, look at the least, split and join.
ghost use Rattle.std.specs.Prelude.{◌≡◌, ℕ, ◌+◌, ◌<◌, ◌≤◌, ◌^◌, [], true, IfOk, MatchOption};
ghost use Rattle.arimaa_jobs.specs.Rule.{first_view, view_after_split, view_of_new_seat};
ghost use Rattle.arimaa_jobs.specs.Rule.{view_after_join, Stands, WholeSees, ends_above};

use crate::steps::{DrawNumber, JoinSeats, LoadLeast, LowerLeast, SplitSeat};
use crate::view::{Deal, SeatView};
use atomic_table::{Seat, Table};
use std::alloc::{AllocError, Global};

// The word with the number that is drawn next.
const NEXT: usize = 0;

// The word with the least job that was reported.
const LEAST: usize = 1;

// The spare draws of all seats together, at most.
const MOST_SPARE: u32 = 65536;

/// Jobs that threads share, numbered from 0.
#[derive(Drop)]
pub struct Jobs {
    words: Table<(), SeatView, u32, Deal, Global>,
    count: u32,
    ghost keyed: { words.shared.key ≡ count },
    ghost narrow: { count < 2 ^ 32 },
    ghost two_words: { words.shared.table_id.words ≡ 2 },
}

/// What one thread knows of the jobs, and how many numbers that are no jobs it may still draw.
/// It may be used with its own jobs alone.
#[derive(Drop)]
pub struct JobSeat {
    seat: Seat<(), SeatView>,
    spare: u32,
    ghost at_rest: { seat.me.1 ≡ [] },
    ghost spare_is: { spare ≡ seat.me.0.spare },
    ghost few: { spare ≤ 65536 },
    ghost unspent: { 1 ≤ seat.me.0.weight },
    ghost dry: { seat.me.0.spare ≡ 0 → ends_above seat.me.0.count seat.me.0.drawn ≡ true },
}

impl Jobs {
    ghost use Rattle.arimaa_jobs.specs.Seats.{count_of, view, IsSeatOf, Claimed, Reported, Looked};

    /// That many jobs, none of them claimed, and the first seat. It takes all its memory here.
    pub fn new(alloc: Global, count: u32) -> Result<(Jobs, JobSeat), AllocError>
        ensures count { IfOk result (λ t. count_of t.0 ≡ count) }
        ensures seat { IfOk result (λ t. IsSeatOf t.0 t.1) }
        ensures view { IfOk result (λ t. view t.1 ≡ first_view count) }
    {
        let (words, seat) = Table::of_words(alloc, &[0, count as u64], &count)?;
        Ok((
            Jobs { words, count },
            JobSeat {
                seat,
                spare: MOST_SPARE,
            },
        ))
    }

    /// The next job: the number that this call drew, which no other call draws. None only where the
    /// last number that this seat drew is no job, so that none is left.
    ///
    /// A seat without spare draws makes no step. It takes no memory and waits for nobody.
    pub fn claim(&self, seat: &mut JobSeat) -> Option<u32>
        requires { IsSeatOf self.now seat.old }
        ensures seat { IsSeatOf self.now seat.new }
        ensures drawn { Claimed (view seat.old) (view seat.new) result }
    {
        if seat.spare == 0 {
            return None;
        }
        let number = self
            .words
            .shared
            .fetch_add::<DrawNumber>(&mut seat.seat, NEXT, 1);
        if number < self.count as u64 {
            Some(number as u32)
        } else {
            seat.spare -= 1;
            None
        }
    }

    /// Reports a job that this seat claimed. The least word is that job from then on, or stays
    /// where it is less. It takes no memory and waits for nobody.
    pub fn report(&self, seat: &mut JobSeat, job: u32)
        requires seat { IsSeatOf self.now seat.old }
        requires job { (job < count_of self.now) × Stands job (view seat.old).drawn }
        ensures seat { IsSeatOf self.now seat.new }
        ensures reported { Reported (view seat.old) (view seat.new) job }
    {
        self.words
            .shared
            .fetch_min::<LowerLeast>(&mut seat.seat, LEAST, job as u64);
    }

    /// The least job that any seat reported by now, or the number of jobs where none did. It never
    /// rises, takes no memory and waits for nobody.
    pub fn least(&self, seat: &mut JobSeat) -> u32
        requires { IsSeatOf self.now seat.old }
        ensures seat { IsSeatOf self.now seat.new }
        ensures saw { Looked (view seat.old) (view seat.new) result }
        ensures whole { (view seat.old).weight ≡ 65536 → WholeSees (view seat.old) result }
    {
        self.words.shared.load::<LoadLeast>(&mut seat.seat, LEAST) as u32
    }

    /// A second seat of these jobs, for another thread, with one spare draw and weight 1, both
    /// taken from this seat. It takes no memory.
    pub fn split(&self, seat: &mut JobSeat) -> JobSeat
        requires seat { IsSeatOf self.now seat.old }
        requires enough { (2 ≤ (view seat.old).spare) × (2 ≤ (view seat.old).weight) }
        ensures seat { IsSeatOf self.now seat.new }
        ensures kept { view seat.new ≡ view_after_split (view seat.old) }
        ensures new_seat { IsSeatOf self.now result }
        ensures given { view result ≡ view_of_new_seat (view seat.old) }
    {
        let new = self.words.shared.split_seat::<SplitSeat>(&mut seat.seat);
        seat.spare -= 1;
        JobSeat {
            seat: new,
            spare: 1,
        }
    }

    /// Joins another seat of these jobs to this one, which knows from then on what both knew.
    pub fn join(&self, seat: &mut JobSeat, other: JobSeat)
        requires seat { IsSeatOf self.now seat.old }
        requires other { IsSeatOf self.now other }
        ensures seat { IsSeatOf self.now seat.new }
        ensures both { view seat.new ≡ view_after_join (view seat.old) (view other) }
    {
        let JobSeat {
            seat: theirs,
            spare,
        } = other;
        self.words
            .shared
            .join_seat::<JoinSeats>(&mut seat.seat, theirs);
        seat.spare = (seat.spare + spare).min(MOST_SPARE);
    }
}
