//! The checker of escapes.
ghost use Rattle.std.specs.Prelude.{◌≡◌, ◌-◌, ◌<◌, ◌≤◌, Some, [], length, take, IsSome};
ghost use Rattle.std.specs.List.{AllByRecursion, list_all};
ghost use Rattle.arimaa_board.specs.declared.position.Position.{Position as PositionValue};
ghost use Rattle.arimaa_model.specs.Game.{barred_by, present};
ghost use Rattle.arimaa_model.specs.Results.{next};
ghost use Rattle.arimaa_region.specs.Segments.{live_of, segment_of};
ghost use Rattle.arimaa_strategy.specs.Faults.{led_to};
ghost use Rattle.arimaa_refute.specs.Escapes.{can_wait, entry_of, is_safe};
ghost use Rattle.arimaa_refute.specs.Checks.{IsFrom, IsVerified};
ghost use Rattle.arimaa_refute.specs.Findings.{look_through, look_at, finding_of, finding_at};
ghost use Rattle.arimaa_refute.specs.Findings.{first_answer, root_look, root_answer, verified_of};

use crate::escape::Escape;
use crate::escapes::Escapes;
use crate::look::{Finding, Look};
use crate::verify_answer::{Flaw, Verified};
use arimaa_board::{Color, Position};
use arimaa_history::{Barred, History};
use arimaa_model::decided;
use arimaa_region::{Mark, Region};
use arimaa_results::{any_result, results};
use arimaa_strategy::{Entry, led_to};

// Whether no turn is left to the question, and the defender has one.
fn can_wait(barred: &Barred, turns: u8, q: &Position) -> bool
    ensures { result ≡ can_wait turns (next barred.now q.now) }
{
    if turns > 0 {
        return false;
    }
    any_result(q, barred)
}

// Whether a position with the defender to move is safe for so many turns.
fn is_safe(attacker: Color, barred: &Barred, escapes: &Escapes, turns: u8, q: &Position) -> bool
    ensures { result ≡ is_safe attacker barred.now escapes.now turns q.now }
{
    match decided(q) {
        None => can_wait(barred, turns, q) || escapes.has_escape(q, turns),
        Some(ending) => ending.winner != attacker,
    }
}

// Whether each reply in a segment is safe for so many turns.
fn are_safe(
    attacker: Color,
    barred: &Barred,
    escapes: &Escapes,
    turns: u8,
    region: &Region,
    mark: Mark,
) -> bool
    requires { mark < length region.now.segments }
    ensures safe { result ≡ list_all (is_safe attacker barred.now escapes.now turns)
        (segment_of region.now.segments mark) }
    ensures within { length (live_of region.now.segments) ≤ region.now.room }
{
    let _live = region.live();
    let (first, count) = region.segment(mark);
    for k in 0..count {
        if !is_safe(attacker, barred, escapes, turns, &region.get(first + k)) {
            return false;
        }
    }
    true
}

// The look through the replies to an undecided position, after which so many turns are left.
fn look_through(
    attacker: Color,
    barred: &Barred,
    escapes: &Escapes,
    turns: u8,
    r: &Position,
    region: &mut Region,
) -> Look
    requires closed { region.old.segments ≡ [] }
    ensures look { result ≡ look_through region.old.room attacker barred.now escapes.now turns
        (next barred.now r.now) }
    ensures region { region.new ≡ record region.old { work = region.new.work } }
    ensures layers_room { region.new.work.room ≡ region.old.work.room }
{
    match results(r, barred, region) {
        Err(_) => Look::Crowded,
        Ok(mark) => {
            let safe = are_safe(attacker, barred, escapes, turns, region, mark);
            region.release(mark);
            if safe { Look::Held } else { Look::Open }
        }
    }
}

// The look at a position with the attacker to move, where so many turns are left.
#[tactic(auto, unfolding(crate::specs::Findings::look_at))]
fn look_at(
    attacker: Color,
    barred: &Barred,
    escapes: &Escapes,
    turns: u8,
    r: &Position,
    region: &mut Region,
) -> Look
    requires closed { region.old.segments ≡ [] }
    ensures look { result
        ≡ look_at region.old.room attacker barred.now escapes.now turns r.now }
    ensures region { region.new ≡ record region.old { work = region.new.work } }
    ensures layers_room { region.new.work.room ≡ region.old.work.room }
{
    match decided(r) {
        None => {
            if turns == 0 {
                Look::Held
            } else {
                look_through(attacker, barred, escapes, turns - 1, r, region)
            }
        }
        Some(ending) => {
            if ending.winner == attacker {
                Look::Lost
            } else {
                Look::Held
            }
        }
    }
}

// Where an escape leads: its turn is one of its position, with the right marks, and does not lead
// to a barred position.
fn escape_result(barred: &Barred, escape: &Escape) -> Option<Position>
    ensures { result ≡ led_to barred.now (entry_of escape.now) }
{
    let entry = Entry {
        position: escape.position,
        rank: escape.depth,
        turn: escape.turn.copy(),
    };
    led_to(barred, &entry)
}

// What is found of an escape, by the look at the position that it leads to.
fn finding_of(reached: Position, look: Look) -> Finding
    ensures { result ≡ finding_of reached look }
{
    match look {
        Look::Held => Finding::Good,
        Look::Lost => Finding::Faulty(Flaw::Lost),
        Look::Open => Finding::Faulty(Flaw::Reply),
        Look::Crowded => Finding::Crowded(reached),
    }
}

// What is found of the escape of this number, counted from 0.
#[tactic(auto, unfolding(crate::specs::Findings::finding_at))]
fn finding_at(
    attacker: Color,
    barred: &Barred,
    escapes: &Escapes,
    number: usize,
    escape: &Escape,
    region: &mut Region,
) -> Finding
    requires closed { region.old.segments ≡ [] }
    requires deep { 1 ≤ escape.now.depth }
    ensures finding { let earlier = take number escapes.now in
        result ≡ finding_at region.old.room attacker barred.now escapes.now earlier escape.now }
    ensures region { region.new ≡ record region.old { work = region.new.work } }
    ensures layers_room { region.new.work.room ≡ region.old.work.room }
{
    if escapes.stands_before(number, &escape.position) {
        return Finding::Faulty(Flaw::Twice);
    }
    if decided(&escape.position).is_some() {
        return Finding::Faulty(Flaw::Decided);
    }
    match escape_result(barred, escape) {
        None => Finding::Faulty(Flaw::Turn),
        Some(reached) => {
            let turns = escape.depth - 1;
            let look = look_at(attacker, barred, escapes, turns, &reached, region);
            finding_of(reached, look)
        }
    }
}

// The answer at the first escape that isn't good.
fn first_answer(
    attacker: Color,
    barred: &Barred,
    escapes: &Escapes,
    region: &mut Region,
) -> Option<Verified>
    requires closed { region.old.segments ≡ [] }
    requires from { AllByRecursion (IsFrom attacker) escapes.now }
    ensures answer { result
        ≡ first_answer region.old.room attacker barred.now escapes.now 1 [] escapes.now }
    ensures region { region.new ≡ record region.old { work = region.new.work } }
    ensures layers_room { region.new.work.room ≡ region.old.work.room }
{
    for (number, escape) in escapes.entries().iter().enumerate() {
        match finding_at(attacker, barred, escapes, number, escape, region) {
            Finding::Good => {}
            Finding::Faulty(why) => {
                return Some(Verified::Refused {
                    entry: number as u64 + 1,
                    why,
                });
            }
            Finding::Crowded(position) => return Some(Verified::Crowded { position }),
        }
    }
    None
}

// The look at the root.
fn root_look(
    attacker: Color,
    barred: &Barred,
    n: u8,
    escapes: &Escapes,
    root: &Position,
    region: &mut Region,
) -> Look
    requires closed { region.old.segments ≡ [] }
    ensures look { result
        ≡ root_look region.old.room attacker barred.now n escapes.now root.now }
    ensures region { region.new ≡ record region.old { work = region.new.work } }
    ensures layers_room { region.new.work.room ≡ region.old.work.room }
{
    if root.side == attacker {
        return look_at(attacker, barred, escapes, n, root, region);
    }
    if is_safe(attacker, barred, escapes, n, root) {
        Look::Held
    } else {
        Look::Open
    }
}

// The answer by the look at the root.
fn root_answer(root: Position, look: Look) -> Verified
    ensures { result ≡ root_answer root look }
{
    match look {
        Look::Held => Verified::Accepted,
        Look::Lost | Look::Open => Verified::Refused {
            entry: 0,
            why: Flaw::Root,
        },
        Look::Crowded => Verified::Crowded { position: root },
    }
}

// The answer of the checker.
#[tactic(auto, unfolding(crate::specs::Findings::verified_of))]
fn answer(
    attacker: Color,
    barred: &Barred,
    n: u8,
    escapes: &Escapes,
    root: &Position,
    region: &mut Region,
) -> Verified
    requires closed { region.old.segments ≡ [] }
    requires from { AllByRecursion (IsFrom attacker) escapes.now }
    ensures answer { result
        ≡ verified_of region.old.room attacker barred.now n escapes.now root.now }
    ensures region { region.new ≡ record region.old { work = region.new.work } }
    ensures layers_room { region.new.work.room ≡ region.old.work.room }
{
    if let Some(answer) = first_answer(attacker, barred, escapes, region) {
        return answer;
    }
    let look = root_look(attacker, barred, n, escapes, root, region);
    root_answer(*root, look)
}

/// Whether escapes show that the attacker does not win the present position of a history within `n`
/// turns.
///
/// Positions that stand at least twice in the history may not be entered. The lists of replies are
/// made in the region, one at a time, and the region is as before when the answer comes. No memory
/// is taken. Each escape is looked at once, and the escapes of a position are found in a time that
/// does not grow with their number.
pub fn verify(
    history: &History,
    attacker: Color,
    n: u8,
    escapes: &Escapes,
    region: &mut Region,
) -> Verified
    requires some { IsSome (present history.now) }
    requires closed { region.old.segments ≡ [] }
    requires from { AllByRecursion (IsFrom attacker) escapes.now }
    ensures verified { (p : PositionValue) → present history.now ≡ Some p
        → IsVerified attacker (barred_by history.now) n region.old.room escapes.now p result }
    ensures region { region.new ≡ record region.old { work = region.new.work } }
    ensures layers_room { region.new.work.room ≡ region.old.work.room }
{
    let root = history.last().unwrap();
    answer(attacker, history.barred(), n, escapes, &root, region)
}
