//! All workers at the jobs of a depth.
ghost use Rattle.std.specs.Prelude.{◌≡◌, ℕ, ◌+◌, ◌-◌, ◌<◌, ◌≤◌, true, None, All, IfOk, IfErr, OnOk, vec_len, slice_index_or};
ghost use Rattle.crossbeam_utils.specs.Padded.{padded_value};
ghost use Rattle.arimaa_jobs.specs.declared.view.SeatView.{SeatView};
ghost use Rattle.arimaa_jobs.specs.Rule.{Stands, first_view, view_after_draw};
ghost use Rattle.arimaa_jobs.specs.Seats.{IsSeatOf, count_of, view};
ghost use Rattle.arimaa_pool.specs.Jobs.{AreJobsOf, Decides, IsDoneWith, IsFresh, IsJob, KeepsDrawn, Worked, has_ended};
ghost use Rattle.arimaa_pool.specs.Stops.{IsStop};

use crate::asker::Asker;
use crate::crew::Crew;
use crate::gate::Gate;
use crate::seat::Seated;
use crate::stop::Stop;
use crate::stopped_job::{StoppedJob, earlier};
use arimaa_board::Position;
use arimaa_jobs::{JobSeat, Jobs};
use arimaa_region::Region;
use crossbeam_utils::CachePadded;
use std::alloc::{AllocError, Global};
use std::thread::{Threads, map_vec};

/// The jobs of a depth: each next position of the root is one, by its number in the list.
#[derive(Drop)]
pub(crate) struct Shift<'d, G> {
    pub(crate) jobs: &'d Jobs,
    pub(crate) list: &'d Region,
    pub(crate) gate: &'d G,
    pub(crate) root: &'d Position,
    pub(crate) depth: u8,
}

impl<'d, G: Gate> Shift<'d, G> {
    /// Lets all workers claim jobs until none is left, and answers the least of the jobs that
    /// stopped. The seat learns what all of them know.
    pub(crate) fn run<R: Threads + Sync>(
        &self,
        rt: &R,
        alloc: Global,
        whole: &mut JobSeat,
        crew: &mut Crew,
    ) -> Result<Option<StoppedJob>, AllocError>
        requires jobs { AreJobsOf self.now.jobs.now self.now.list.now.segments crew.old.terms
            self.now.depth self.now.root.now }
        requires some { 1 ≤ crew.old.count }
        requires few { crew.old.count ≤ 16 }
        requires seat { IsSeatOf self.now.jobs.now whole.old }
        requires first { view whole.old ≡ first_view (count_of self.now.jobs.now) }
        ensures crew { OnOk result (crew.new ≡ crew.old) }
        ensures terms { crew.new.terms ≡ crew.old.terms }
        ensures seat { IsSeatOf self.now.jobs.now whole.new }
        ensures weight { OnOk result ((view whole.new).weight ≡ 65536) }
        ensures ended { OnOk result (has_ended (view whole.new) ≡ true) }
        ensures worked { IfOk result (Worked crew.old.terms self.now.depth self.now.root.now
            (view whole.new)) }
    {
        let seated = self.seat_all(alloc, whole, crew)?;
        let done = self.work_all(rt, seated)?;
        self.gather(whole, crew, done)
    }

    // Lets each worker work in a thread.
    fn work_all<'a, R: Threads + Sync>(
        &self,
        rt: &R,
        seated: Vec<Seated<'a>>,
    ) -> Result<Vec<Seated<'a>>, AllocError>
        requires { All (λ s. AreJobsOf self.now.jobs.now self.now.list.now.segments
            (padded_value s.asker) self.now.depth self.now.root.now
            × IsFresh self.now.jobs.now (padded_value s.asker) self.now.depth self.now.root.now s)
            seated.items }
        ensures len { IfOk result (λ v. vec_len v ≡ vec_len seated.entry) }
        ensures done { IfOk result (λ v. (k : ℕ) (d : _) → k < vec_len seated.entry
            → IsDoneWith self.now.jobs.now (padded_value
            (slice_index_or seated.entry.items k d).asker) self.now.depth self.now.root.now
            (slice_index_or v.items k d)) }
    {
        map_vec(
            rt,
            seated,
            &|one: Seated| -> Seated
                requires { AreJobsOf self.now.jobs.now self.now.list.now.segments
                    (padded_value one.asker) self.now.depth self.now.root.now
                    × IsFresh self.now.jobs.now (padded_value one.asker) self.now.depth
                    self.now.root.now one }
                ensures { IsDoneWith self.entry.now.jobs.now
                    (padded_value one.entry.asker) self.entry.now.depth self.entry.now.root.now
                    result }
            { self.work(one) },
        )
    }

    // Gives each worker a seat.
    fn seat_all<'a>(
        &self,
        alloc: Global,
        whole: &mut JobSeat,
        crew: &mut Crew<'a>,
    ) -> Result<Vec<Seated<'a>>, AllocError>
        requires few { crew.old.count ≤ 16 }
        requires seat { IsSeatOf self.now.jobs.now whole.old }
        requires first { view whole.old ≡ first_view (count_of self.now.jobs.now) }
        ensures terms { crew.new.terms ≡ crew.old.terms }
        ensures none_left { OnOk result (crew.new.count ≡ 0) }
        ensures seat { IsSeatOf self.now.jobs.now whole.new }
        ensures unused { Worked crew.old.terms self.now.depth self.now.root.now
            (view whole.new) None }
        ensures weight { IfOk result (λ v. (view whole.new).weight + vec_len v ≡ 65536) }
        ensures all { IfOk result (λ v. vec_len v ≡ crew.old.count) }
        ensures fresh { IfOk result (λ v. All
            (IsFresh self.now.jobs.now crew.old.terms self.now.depth self.now.root.now) v.items) }
    {
        let mut seated = Vec::new(alloc);
        while let Some(asker) = crew.take() {
            let seat = self.jobs.split(whole);
            seated.push(Seated {
                asker,
                seat,
                stopped: None,
            })?;
        }
        Ok(seated)
    }

    // Takes the workers back, joins their seats, and answers the least of the jobs that stopped.
    fn gather<'a>(
        &self,
        whole: &mut JobSeat,
        crew: &mut Crew<'a>,
        done: Vec<Seated<'a>>,
    ) -> Result<Option<StoppedJob>, AllocError>
        requires done { All (IsDoneWith self.now.jobs.now crew.old.terms self.now.depth
            self.now.root.now) done.items }
        requires some { 1 ≤ vec_len done }
        requires seat { IsSeatOf self.now.jobs.now whole.old }
        requires unused { Worked crew.old.terms self.now.depth self.now.root.now
            (view whole.old) None }
        requires weight { (view whole.old).weight + vec_len done ≡ 65536 }
        ensures terms { crew.new.terms ≡ crew.old.terms }
        ensures count { OnOk result (crew.new.count ≡ crew.old.count + vec_len done.entry) }
        ensures seat { IsSeatOf self.now.jobs.now whole.new }
        ensures weight { OnOk result ((view whole.new).weight ≡ 65536) }
        ensures ended { OnOk result (has_ended (view whole.new) ≡ true) }
        ensures worked { IfOk result (Worked crew.old.terms self.now.depth self.now.root.now
            (view whole.new)) }
    {
        let mut done = done;
        let mut stopped = None;
        while let Some(seated) = done.pop() {
            let Seated {
                asker,
                seat,
                stopped: theirs,
            } = seated;
            crew.add(asker)?;
            self.jobs.join(whole, seat);
            stopped = earlier(stopped, theirs);
        }
        Ok(stopped)
    }

    // Lets a worker claim jobs until none is left.
    fn work<'a>(&self, seated: Seated<'a>) -> Seated<'a>
        requires jobs { AreJobsOf self.now.jobs.now self.now.list.now.segments
            (padded_value seated.asker) self.now.depth self.now.root.now }
        requires fresh { IsFresh self.now.jobs.now
            (padded_value seated.asker) self.now.depth self.now.root.now seated }
        ensures { IsDoneWith self.now.jobs.now
            (padded_value seated.entry.asker) self.now.depth self.now.root.now result }
    {
        let Seated {
            asker,
            mut seat,
            stopped: _,
        } = seated;
        let mut asker = asker.into_inner();
        let stopped = self.claim_all(&mut asker, &mut seat);
        Seated {
            asker: CachePadded::new(asker),
            seat,
            stopped,
        }
    }

    // Claims jobs until none is left, leaves those alone that are above the least decisive one that
    // it sees, and reports the decisive ones. It answers the least of the jobs that stopped.
    fn claim_all(&self, asker: &mut Asker, seat: &mut JobSeat) -> Option<StoppedJob>
        requires jobs { AreJobsOf self.now.jobs.now self.now.list.now.segments asker.old
            self.now.depth self.now.root.now }
        requires seat { IsSeatOf self.now.jobs.now seat.old }
        requires worked { Worked asker.old self.now.depth self.now.root.now (view seat.old) None }
        ensures same { asker.new ≡ asker.old }
        ensures seat { IsSeatOf self.now.jobs.now seat.new }
        ensures worked { Worked asker.old self.now.depth self.now.root.now (view seat.new) result }
        ensures weight { (view seat.new).weight ≡ (view seat.old).weight }
        ensures ended { has_ended (view seat.new) ≡ true }
    {
        let mut stopped = None;
        while let Some(job) = self.jobs.claim(seat) {
            stopped = self.ask_drawn(asker, seat, job, stopped);
        }
        stopped
    }

    // Asks about a job that the seat has just drawn, unless it is above the least decisive one that
    // it sees, and reports it where it is decisive. Of the job and the one that stopped before, it
    // answers the lesser that stopped.
    fn ask_drawn(
        &self,
        asker: &mut Asker,
        seat: &mut JobSeat,
        job: u32,
        stopped: Option<StoppedJob>,
    ) -> Option<StoppedJob>
        requires jobs { AreJobsOf self.now.jobs.now self.now.list.now.segments asker.old
            self.now.depth self.now.root.now }
        requires seat { IsSeatOf self.now.jobs.now seat.old }
        requires job { (job < count_of self.now.jobs.now) × Stands job (view seat.old).drawn }
        ensures same { asker.new ≡ asker.old }
        ensures seat { IsSeatOf self.now.jobs.now seat.new }
        ensures kept { KeepsDrawn (view seat.old) (view seat.new) }
        ensures worked { (v : SeatView) → view seat.old ≡ view_after_draw v job
            → Worked asker.old self.now.depth self.now.root.now v stopped
            → Worked asker.old self.now.depth self.now.root.now (view seat.new) result }
    {
        if job > self.jobs.least(seat) {
            return stopped;
        }
        match self.ask_job(asker, job) {
            Err(stop) => earlier(stopped, Some(StoppedJob { job, stop })),
            Ok(decisive) => {
                if !decisive {
                    return stopped;
                }
                self.jobs.report(seat, job);
                stopped
            }
        }
    }

    // Asks about the job of this number, and says whether it is decisive.
    fn ask_job(&self, asker: &mut Asker, job: u32) -> Result<bool, Stop>
        requires jobs { AreJobsOf self.now.jobs.now self.now.list.now.segments asker.old
            self.now.depth self.now.root.now }
        requires job { job < count_of self.now.jobs.now }
        ensures same { asker.new ≡ asker.old }
        ensures decides { IfOk result (Decides asker.old self.now.depth self.now.root.now job) }
        ensures stop { IfErr result (IsStop asker.old
            (λ q j. IsJob asker.old self.now.root.now job q × (j ≡ self.now.depth))) }
    {
        let own = self.root.side == asker.attacker();
        let q = self.list.get(job);
        self.gate.enter(job);
        let answer = asker.ask(&q, self.depth);
        self.gate.leave(job);
        let won = answer?;
        Ok(won == own)
    }
}
