//! The maker of escapes.
ghost use Rattle.std.specs.Prelude.{◌≡◌, ◌≤◌, [], length, Some, IfOk, IfErr};
ghost use Rattle.arimaa_board.specs.declared.position.Position.{Position as PositionValue};
ghost use Rattle.arimaa_model.specs.Game.{barred_by, present};
ghost use Rattle.arimaa_forced.specs.Search.{crowd, size};
ghost use Rattle.arimaa_refute.specs.Refutations.{IsBelow, IsDone, IsFailure, IsRefuted, Terms};

use crate::asker::Asker;
use crate::failure::{Failure, Reason};
use crate::maker::make;
use crate::refute_answer::Refuted;
use arimaa_board::{Color, Position};
use arimaa_history::History;
use arimaa_region::Region;
use arimaa_search::Worker;
use arimaa_table::Table;
use std::alloc::{AllocError, Global};

// The answer where a question stopped, or none for want of memory.
fn answer_on(failure: &Failure) -> Result<Refuted, AllocError>
    ensures { (t : Terms) → IsFailure t failure.now
        → IfOk result (IsRefuted t.attacker t.barred t.budget t.room t.root t.turns) }
{
    match *failure {
        Failure::Memory => Err(AllocError),
        Failure::Stopped {
            position,
            depth,
            reason,
        } => match reason {
            Reason::Spent { counted } => Ok(Refuted::Spent {
                position,
                depth,
                counted,
            }),
            Reason::Crowded => Ok(Refuted::Crowded { position, depth }),
        },
    }
}

// The answer on a position, by one worker.
fn answer(
    alloc: Global,
    asker: &mut Asker,
    list: &mut Region,
    p: &Position,
    n: u8,
) -> Result<Refuted, Failure>
    requires depth { n ≤ 20 }
    requires below { IsBelow asker.old n p.now }
    requires empty { list.old.segments ≡ [] }
    requires room { list.old.room ≡ asker.old.room }
    ensures answer { IfOk result (IsRefuted asker.old.attacker asker.old.barred asker.old.budget
        asker.old.room p.now n) }
    ensures failure { IfErr result (IsFailure asker.old) }
{
    if asker.ask(p, n)? {
        return Ok(Refuted::Wins);
    }
    let escapes = make(alloc, asker, list, p, n)?;
    Ok(Refuted::Held(escapes))
}

// The answer on the root, or none for want of memory.
fn answer_of(
    alloc: Global,
    asker: &mut Asker,
    list: &mut Region,
    p: &Position,
    n: u8,
) -> Result<Refuted, AllocError>
    requires depth { n ≤ 20 }
    requires root { asker.old.root ≡ p.now }
    requires turns { asker.old.turns ≡ n }
    requires empty { list.old.segments ≡ [] }
    requires room { list.old.room ≡ asker.old.room }
    ensures { IfOk result (IsRefuted asker.old.attacker asker.old.barred asker.old.budget
        asker.old.room p.now n) }
{
    match answer(alloc, asker, list, p, n) {
        Ok(answer) => Ok(answer),
        Err(failure) => answer_on(&failure),
    }
}

/// Whether the present position of a history is held for `n` turns: the attacker does not win it
/// within them, where no turn may enter a position that stands twice in the history.
///
/// `Held` gives the position's own escapes, breadth first, which `verify` accepts. One worker asks
/// all questions over a table of so many lines. `Spent` and `Crowded` name a question in the tree
/// of the root's, whose cost is above the budget or whose crowd is above the room. `AllocError`
/// comes only where there is too little memory.
pub fn refute(
    alloc: Global,
    history: &History,
    attacker: Color,
    n: u8,
    lines: u32,
    budget: u64,
    room: u32,
) -> Result<Refuted, AllocError>
    requires history { 1 ≤ length history.now }
    requires depth { n ≤ 20 }
    requires some_lines { 1 ≤ lines }
    requires some_room { 1 ≤ room }
    requires most_room { room ≤ 1048576 }
    ensures answer { (p : PositionValue) → present history.now ≡ Some p
        → IfOk result (IsRefuted attacker (barred_by history.now) budget room p n) }
    ensures complete { (p : PositionValue) → present history.now ≡ Some p
        → size (barred_by history.now) n p ≤ budget → crowd (barred_by history.now) n p ≤ room
        → IfOk result IsDone }
{
    let p = history.last().unwrap();
    let (table, pass) = Table::new(alloc, lines, attacker, history.barred())?;
    let mut list = Region::with_work(alloc, room, 32_768)?;
    let worker = Worker::new(alloc, room, budget)?;
    let mut asker = Asker::new(&table, pass, worker, p, n);
    answer_of(alloc, &mut asker, &mut list, &p, n)
}
