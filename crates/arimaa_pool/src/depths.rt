//! The root is asked about at growing depths, up to the first yes.
ghost use Rattle.std.specs.Prelude.{◌≡◌, suc, ◌+◌, ◌<◌, ◌≤◌, [], ◌∷◌, None, false, IfOk, IfErr, OnOk};
ghost use Rattle.arimaa_model.specs.DecidedPositions.{decided};
ghost use Rattle.arimaa_model.specs.Members.{Stands};
ghost use Rattle.arimaa_model.specs.Ranks.{rank_within};
ghost use Rattle.arimaa_model.specs.Results.{next};
ghost use Rattle.arimaa_model.specs.Wins.{wins};
ghost use Rattle.arimaa_forced.specs.Needs.{IsAsked};
ghost use Rattle.arimaa_forced.specs.Search.{looked_at};
ghost use Rattle.arimaa_pool.specs.Depths.{IsFound, depth_answer};
ghost use Rattle.arimaa_pool.specs.Failures.{IsFailure};

use crate::crew::Crew;
use crate::failure::Failure;
use crate::gate::Gate;
use crate::shift::Shift;
use crate::stop::{Reason, Stop};
use crate::stopped_job::StoppedJob;
use arimaa_board::Position;
use arimaa_jobs::Jobs;
use arimaa_model::decided;
use arimaa_region::Region;
use arimaa_results::results;
use std::thread::Threads;

// The verdict of a depth, where `least` is the least decisive job found, or the number of jobs.
//
// A job that stopped gives its stop where no job was found, or where the side to move is the one
// that is to win (`own`) and the job comes before the one that was found: it may be the first that
// is won.
fn answer_of(least: u32, count: u32, own: bool, stopped: Option<StoppedJob>) -> Result<bool, Stop>
    ensures { result ≡ depth_answer least count own stopped }
{
    let found = least < count;
    match stopped {
        None => Ok(found == own),
        Some(stopped) => {
            if stopped.job < least && (own || !found) {
                Err(stopped.stop)
            } else {
                Ok(found == own)
            }
        }
    }
}

/// Lets the workers ask about the next positions of an undecided position, which the list has, in
/// order: so whether the attacker wins the position one turn deeper.
fn ask_jobs<R: AllocGlobal + Threads + Sync, G: Gate>(
    rt: &R,
    crew: &mut Crew,
    list: &Region,
    gate: &G,
    p: &Position,
    depth: u8,
) -> Result<bool, Failure>
    requires depth { depth < 20 }
    requires some { 1 ≤ crew.old.count }
    requires few { crew.old.count ≤ 16 }
    requires undecided { decided p.now ≡ None }
    requires list { list.now.segments ≡ next crew.old.terms.barred p.now ∷ [] }
    ensures terms { crew.new.terms ≡ crew.old.terms }
    ensures count { OnOk result (crew.new.count ≡ crew.old.count) }
    ensures verdict { IfOk result (λ v. v
        ≡ wins crew.old.terms.attacker crew.old.terms.barred (suc depth) p.now) }
    ensures failure { IfErr result (IsFailure crew.old.terms (λ q j. (j ≡ depth)
        × Stands (looked_at crew.old.terms.attacker crew.old.terms.barred depth p.now) q)) }
{
    let count = list.live();
    let (jobs, mut whole) = Jobs::new(rt.alloc(), count)?;
    let shift = Shift {
        jobs: &jobs,
        list,
        gate,
        root: p,
        depth,
    };
    let stopped = shift.run(rt, rt.alloc(), &mut whole, crew)?;
    let least = jobs.least(&mut whole);
    let own = p.side == crew.attacker();
    Ok(answer_of(least, count, own, stopped)?)
}

/// The rank of the root, where it is at most n.
pub(crate) fn deepen<R: AllocGlobal + Threads + Sync, G: Gate>(
    rt: &R,
    crew: &mut Crew,
    list: &mut Region,
    gate: &G,
    p: &Position,
    n: u8,
) -> Result<Option<u8>, Failure>
    requires depth { n ≤ 20 }
    requires some { 1 ≤ crew.old.count }
    requires few { crew.old.count ≤ 16 }
    requires empty { list.old.segments ≡ [] }
    requires room { list.old.room ≡ crew.old.terms.room }
    ensures terms { crew.new.terms ≡ crew.old.terms }
    ensures count { OnOk result (crew.new.count ≡ crew.old.count) }
    ensures empty { list.new.segments ≡ [] }
    ensures room { list.new.room ≡ list.old.room }
    ensures found { IfOk result (IsFound crew.old.terms p.now n) }
    ensures failure { IfErr result (IsFailure crew.old.terms
        (IsAsked crew.old.terms.attacker crew.old.terms.barred p.now
        (rank_within crew.old.terms.attacker crew.old.terms.barred n p.now))) }
{
    if crew.ask(p, 0)? {
        return Ok(Some(0));
    }
    if n == 0 {
        return Ok(None);
    }
    if decided(p).is_some() {
        return Ok(None);
    }
    match results(p, crew.barred(), list) {
        Err(_) => Err(Failure::Stopped(Stop {
            position: *p,
            depth: 1,
            reason: Reason::Crowded,
        })),
        Ok(mark) => {
            let answer = deepen_over(rt, crew, list, gate, p, n);
            list.release(mark);
            answer
        }
    }
}

// The depths from 1 on, where the list has the next positions of the root.
fn deepen_over<R: AllocGlobal + Threads + Sync, G: Gate>(
    rt: &R,
    crew: &mut Crew,
    list: &Region,
    gate: &G,
    p: &Position,
    n: u8,
) -> Result<Option<u8>, Failure>
    requires depth { n ≤ 20 }
    requires some { 1 ≤ crew.old.count }
    requires few { crew.old.count ≤ 16 }
    requires undecided { decided p.now ≡ None }
    requires lost { wins crew.old.terms.attacker crew.old.terms.barred 0 p.now ≡ false }
    requires list { list.now.segments ≡ next crew.old.terms.barred p.now ∷ [] }
    ensures terms { crew.new.terms ≡ crew.old.terms }
    ensures count { OnOk result (crew.new.count ≡ crew.old.count) }
    ensures found { IfOk result (IsFound crew.old.terms p.now n) }
    ensures failure { IfErr result (IsFailure crew.old.terms
        (IsAsked crew.old.terms.attacker crew.old.terms.barred p.now
        (rank_within crew.old.terms.attacker crew.old.terms.barred n p.now))) }
{
    for depth in 0..n {
        if ask_jobs(rt, crew, list, gate, p, depth)? {
            return Ok(Some(depth + 1));
        }
    }
    Ok(None)
}
