//! The prover.
ghost use Rattle.std.specs.Prelude.{◌≡◌, ℕ, ◌≤◌, [], length, IfOk};
ghost use Rattle.arimaa_board.specs.declared.position.Position.{Position};
ghost use Rattle.arimaa_model.specs.Game.{present};
ghost use Rattle.arimaa_model.specs.Ranks.{IsRank};
ghost use Rattle.arimaa_forced.specs.Needs.{InNeed};
ghost use Rattle.arimaa_pool.specs.Failures.{IsFailure};
ghost use Rattle.arimaa_pool.specs.Limits.{AreWithinLimits};
ghost use Rattle.arimaa_pool.specs.Stops.{IsStop};
ghost use Rattle.arimaa_pool.specs.Terms.{Terms};
ghost use Rattle.arimaa_pool.specs.Verdicts.{IsAnswer, IsDone, Plays, Suffices, terms_of};

use crate::asker::Asker;
use crate::crew::Crew;
use crate::depths::deepen;
use crate::extraction::extract;
use crate::failure::Failure;
use crate::gate::Gate;
use crate::settings::Settings;
use crate::stop::{Reason, Stop};
use crate::verdict::Verdict;
use arimaa_board::{Color, Position};
use arimaa_history::History;
use arimaa_region::Region;
use arimaa_table::Table;
use std::alloc::{AllocError, Global};
use std::thread::Threads;

// The verdict where a needed question stopped, or no verdict for want of memory.
fn verdict_on(failure: &Failure) -> Result<Verdict, AllocError>
    ensures { (t : Terms) (p : Position) (n : ℕ)
        → IsFailure t (InNeed t.attacker t.barred p n) failure.now → IfOk result (IsAnswer t p n) }
{
    match failure {
        Failure::Memory => Err(AllocError),
        Failure::Stopped(stop) => Ok(verdict_of(stop)),
    }
}

// The verdict where a needed question stopped.
fn verdict_of(stop: &Stop) -> Verdict
    ensures { (t : Terms) (p : Position) (n : ℕ)
        → IsStop t (InNeed t.attacker t.barred p n) stop.now → IsAnswer t p n result }
{
    match stop.reason {
        Reason::Spent { counted } => Verdict::Spent {
            position: stop.position,
            depth: stop.depth,
            counted,
        },
        Reason::Crowded => Verdict::Crowded {
            position: stop.position,
            depth: stop.depth,
        },
    }
}

// The verdict on a position.
fn answer_of<R: AllocGlobal + Threads + Sync, G: Gate>(
    rt: &R,
    crew: &mut Crew,
    list: &mut Region,
    gate: &G,
    p: &Position,
    n: u8,
) -> Result<Verdict, AllocError>
    requires depth { n ≤ 20 }
    requires some { 1 ≤ crew.old.count }
    requires few { crew.old.count ≤ 16 }
    requires empty { list.old.segments ≡ [] }
    requires room { list.old.room ≡ crew.old.terms.room }
    ensures { IfOk result (IsAnswer crew.old.terms p.now n) }
{
    match deepen(rt, crew, list, gate, p, n) {
        Err(failure) => verdict_on(&failure),
        Ok(found) => match found {
            None => Ok(Verdict::No),
            Some(rank) => {
                let mut asker = crew.take().unwrap().into_inner();
                win(rt.alloc(), &mut asker, list, p, rank)
            }
        },
    }
}

// The verdict on a position of this rank: a worker finds the strategy.
fn win(
    alloc: Global,
    asker: &mut Asker,
    list: &mut Region,
    p: &Position,
    rank: u8,
) -> Result<Verdict, AllocError>
    requires depth { rank ≤ 20 }
    requires rank { IsRank asker.old.attacker asker.old.barred p.now rank }
    requires empty { list.old.segments ≡ [] }
    requires room { list.old.room ≡ asker.old.room }
    ensures { (n : ℕ) → rank ≤ n → IfOk result (IsAnswer asker.old p.now n) }
{
    match extract(alloc, asker, list, p, rank) {
        Ok(strategy) => Ok(Verdict::Yes { rank, strategy }),
        Err(failure) => verdict_on(&failure),
    }
}

/// Whether the attacker wins the present position of a history within `n` turns, where no turn may
/// enter a position that stands twice in the history.
///
/// It asks the root at depth 0, 1 and so on up to `n`, until the first yes, and finds the strategy.
/// The root's next positions are the jobs of a depth, which as many workers claim as the settings
/// say: the gate is told before and after each. They share one table, and take all their memory
/// before the first question. `Spent` and `Crowded` name a question that is needed, whose cost is
/// above the budget or whose crowd is above the room. `AllocError` comes only where there is too
/// little memory.
///
/// The number of workers, their order and the gate change no rank, no strategy and no `No`.
pub fn prove<R: AllocGlobal + Threads + Sync, G: Gate>(
    rt: &R,
    history: &History,
    attacker: Color,
    n: u8,
    settings: &Settings,
    gate: &G,
) -> Result<Verdict, AllocError>
    requires history { 1 ≤ length history.now }
    requires depth { n ≤ 20 }
    requires settings { AreWithinLimits settings.now }
    ensures answer { (p : Position) → present history.now ≡ Some p
        → IfOk result (IsAnswer (terms_of attacker history.now settings.now) p n) }
    ensures plays { IfOk result (Plays attacker history.now) }
    ensures complete { (p : Position) → present history.now ≡ Some p
        → Suffices (terms_of attacker history.now settings.now) p n → IfOk result IsDone }
{
    let p = history.last().unwrap();
    let (table, pass) = Table::new(rt.alloc(), settings.lines, attacker, history.barred())?;
    let mut list = Region::with_work(rt.alloc(), settings.room, 32_768)?;
    let mut crew = Crew::new(rt.alloc(), &table, pass, settings)?;
    answer_of(rt, &mut crew, &mut list, gate, &p, n)
}
