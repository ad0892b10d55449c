//! Escapes are found level by level, breadth first.
ghost use Rattle.std.specs.Prelude.{◌≡◌, ◌+◌, ◌<◌, ◌≤◌, [], ◌∷◌, ◌++◌, length, map, drop, false, IfOk, IfErr, OnOk};
ghost use Rattle.std.specs.List.{AllByRecursion, flat_map};
ghost use Rattle.arimaa_model.specs.Results.{first_occurrences};
ghost use Rattle.arimaa_model.specs.Wins.{wins};
ghost use Rattle.arimaa_refute.specs.OwnEscapes.{escape_at, escapes_of, turns_left};
ghost use Rattle.arimaa_refute.specs.Refutations.{IsBelow, IsFailure, WantsEscape, first_queue, met_after};

use crate::asker::Asker;
use crate::escapes::Escapes;
use crate::evasion::escape_of;
use crate::failure::Failure;
use crate::queue::meet_replies;
use arimaa_board::{Color, Position};
use arimaa_history::Barred;
use arimaa_region::Region;
use arimaa_strategy::meet;
use std::alloc::Global;

// Writes the escape of a position down, after which `depth` turns are left, and adds the positions
// that want an escape after it.
fn escape_from(
    asker: &mut Asker,
    list: &mut Region,
    queue: &mut Barred,
    escapes: &mut Escapes,
    q: &Position,
    depth: u8,
) -> Result<(), Failure>
    requires depth { depth < 20 }
    requires wants { WantsEscape asker.old (depth + 1) q.now }
    requires empty { list.old.segments ≡ [] }
    requires room { list.old.room ≡ asker.old.room }
    ensures same { asker.new ≡ asker.old }
    ensures empty { list.new.segments ≡ [] }
    ensures room { list.new.room ≡ list.old.room }
    ensures escape { OnOk result (escapes.new ≡ escapes.old
        ++ escape_at asker.old.attacker asker.old.barred depth q.now ∷ []) }
    ensures met { OnOk result (queue.new ≡ first_occurrences queue.old
        (met_after asker.old.attacker asker.old.barred depth q.now)) }
    ensures failure { IfErr result (IsFailure asker.old) }
{
    let (escape, reached) = escape_of(asker, list, q, depth)?;
    escapes.push(escape)?;
    if depth < 2 {
        return Ok(());
    }
    meet_replies(asker, list, queue, &reached, depth)
}

// Writes the escapes of all positions of the queue from one on, after which `depth` turns are left.
fn level(
    asker: &mut Asker,
    list: &mut Region,
    queue: &mut Barred,
    escapes: &mut Escapes,
    start: usize,
    depth: u8,
) -> Result<(), Failure>
    requires depth { depth < 20 }
    requires start { start ≤ length queue.old }
    requires wants { AllByRecursion (WantsEscape asker.old (depth + 1)) (drop start queue.old) }
    requires empty { list.old.segments ≡ [] }
    requires room { list.old.room ≡ asker.old.room }
    ensures same { asker.new ≡ asker.old }
    ensures empty { list.new.segments ≡ [] }
    ensures room { list.new.room ≡ list.old.room }
    ensures escapes { OnOk result (escapes.new ≡ escapes.old
        ++ map (escape_at asker.old.attacker asker.old.barred depth) (drop start queue.old)) }
    ensures met { OnOk result (queue.new ≡ first_occurrences queue.old
        (flat_map (met_after asker.old.attacker asker.old.barred depth) (drop start queue.old))) }
    ensures failure { IfErr result (IsFailure asker.old) }
{
    for number in start..queue.as_slice().len() {
        let q = queue.as_slice()[number];
        escape_from(asker, list, queue, escapes, &q, depth)?;
    }
    Ok(())
}

// How many turns are left where a position is met first.
fn turns_left(attacker: Color, n: u8, p: &Position) -> u8
    ensures { result ≡ turns_left attacker n p.now }
{
    if p.side == attacker {
        n.saturating_sub(1)
    } else {
        n
    }
}

// Adds the positions that want an escape first, where a turn is left to them.
fn meet_first(
    asker: &Asker,
    list: &mut Region,
    queue: &mut Barred,
    p: &Position,
    n: u8,
) -> Result<(), Failure>
    requires below { IsBelow asker.now n p.now }
    requires new { queue.old ≡ [] }
    requires empty { list.old.segments ≡ [] }
    requires room { list.old.room ≡ asker.now.room }
    ensures empty { list.new.segments ≡ [] }
    ensures room { list.new.room ≡ list.old.room }
    ensures met { OnOk result (queue.new
        ≡ first_queue asker.now.attacker asker.now.barred n p.now) }
    ensures failure { IfErr result (IsFailure asker.now) }
{
    let turns = turns_left(asker.attacker(), n, p);
    if turns == 0 {
        return Ok(());
    }
    if p.side == asker.attacker() {
        meet_replies(asker, list, queue, p, n)
    } else {
        Ok(meet(queue, p)?)
    }
}

// The escapes of a root that is not won within n turns.
pub(crate) fn make(
    alloc: Global,
    asker: &mut Asker,
    list: &mut Region,
    p: &Position,
    n: u8,
) -> Result<Escapes, Failure>
    requires depth { n ≤ 20 }
    requires lost { wins asker.old.attacker asker.old.barred n p.now ≡ false }
    requires below { IsBelow asker.old n p.now }
    requires empty { list.old.segments ≡ [] }
    requires room { list.old.room ≡ asker.old.room }
    ensures same { asker.new ≡ asker.old }
    ensures escapes { IfOk result (λ c. c
        ≡ escapes_of asker.old.attacker asker.old.barred n p.now) }
    ensures failure { IfErr result (IsFailure asker.old) }
{
    let mut queue = Barred::new(alloc);
    meet_first(asker, list, &mut queue, p, n)?;
    let mut escapes = Escapes::new(alloc);
    let mut start = 0;
    let mut turns = turns_left(asker.attacker(), n, p);
    while turns > 0 {
        let end = queue.as_slice().len();
        level(asker, list, &mut queue, &mut escapes, start, turns - 1)?;
        start = end;
        turns = turns.saturating_sub(2);
    }
    Ok(escapes)
}
