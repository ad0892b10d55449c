//! The checker of strategies.
ghost use Rattle.std.specs.Prelude.{◌≡◌, ◌+◌, ◌<◌, ◌≤◌, ℕ, max, None, Some, [], length, take, IfSome, IsSome};
ghost use Rattle.arimaa_board.specs.declared.position.Position.{Position as PositionValue};
ghost use Rattle.arimaa_model.specs.Game.{barred_by, present};
ghost use Rattle.arimaa_model.specs.Results.{next, stands_in};
ghost use Rattle.arimaa_model.specs.Strategies.{result_at};
ghost use Rattle.arimaa_forced.specs.Entries.{planned_of};
ghost use Rattle.arimaa_region.specs.Segments.{live_of, segment_of};
ghost use Rattle.arimaa_strategy.specs.Entries.{plan_of};
ghost use Rattle.arimaa_strategy.specs.Faults.{led_to};
ghost use Rattle.arimaa_strategy.specs.Checks.{IfAccepted, IsChecked, IsWonBy};
ghost use Rattle.arimaa_strategy.specs.Findings.{covered_rank, replies_rank, IfRank, look_by, look_at, finding_of, finding_at};
ghost use Rattle.arimaa_strategy.specs.Findings.{first_answer, root_look, root_answer, checked_of};

use crate::check_answer::{Checked, Why};
use crate::look::{Finding, Look};
use crate::strategy::Strategy;
use arimaa_board::{Color, Position, Square};
use arimaa_forced::Entry;
use arimaa_history::{Barred, History};
use arimaa_model::{decided, turn_result};
use arimaa_region::{Mark, Region};
use arimaa_results::results;
use arimaa_step::{Marks, marks_fit};

// The rank of a position with the attacker to move, where it is covered.
#[tactic(auto, unfolding(crate::specs::Findings::covered_rank))]
fn covered_rank(attacker: Color, strategy: &Strategy, p: &Position) -> Option<u8>
    ensures { result ≡ covered_rank attacker (plan_of strategy.now) p.now }
{
    match decided(p) {
        None => strategy.rank_of(p),
        Some(ending) => (ending.winner == attacker).then_some(0),
    }
}

// The larger of a number and one more than a rank.
fn raised(top: u16, rank: u8) -> u16
    requires { top ≤ 256 }
    ensures value { result ≡ max top (rank + 1) }
    ensures small { result ≤ 256 }
{
    top.max(rank as u16 + 1)
}

// One more than the largest rank of the replies in a segment, where each is covered.
fn replies_rank(attacker: Color, strategy: &Strategy, region: &Region, mark: Mark) -> Option<u16>
    requires { mark < length region.now.segments }
    ensures rank { result
        ≡ replies_rank attacker (plan_of strategy.now) (segment_of region.now.segments mark) }
    ensures small { IfSome result (λ r. r ≤ 256) }
    ensures within { length (live_of region.now.segments) ≤ region.now.room }
{
    let _live = region.live();
    let (first, count) = region.segment(mark);
    let mut top: u16 = 0;
    for k in 0..count {
        match covered_rank(attacker, strategy, &region.get(first + k)) {
            None => return None,
            Some(rank) => top = raised(top, rank),
        }
    }
    Some(top)
}

// The look at an undecided position with the defender to move.
fn look_at_replies(
    attacker: Color,
    barred: &Barred,
    strategy: &Strategy,
    p: &Position,
    region: &mut Region,
) -> Look
    requires closed { region.old.segments ≡ [] }
    ensures look { result
        ≡ look_by region.old.room attacker barred.now (plan_of strategy.now) p.now None }
    ensures small { IfRank result (λ r. r ≤ 256) }
    ensures region { region.new ≡ record region.old { work = region.new.work } }
    ensures layers_room { region.new.work.room ≡ region.old.work.room }
{
    match results(p, barred, region) {
        Err(_) => Look::Crowded,
        Ok(mark) => {
            let rank = replies_rank(attacker, strategy, region, mark);
            region.release(mark);
            match rank {
                None => Look::Open,
                Some(rank) => Look::Rank(rank),
            }
        }
    }
}

// The look at a position with the defender to move.
#[tactic(auto, unfolding(crate::specs::Findings::look_at))]
fn look_at(
    attacker: Color,
    barred: &Barred,
    strategy: &Strategy,
    p: &Position,
    region: &mut Region,
) -> Look
    requires closed { region.old.segments ≡ [] }
    ensures look { result
        ≡ look_at region.old.room attacker barred.now (plan_of strategy.now) p.now }
    ensures small { IfRank result (λ r. r ≤ 256) }
    ensures region { region.new ≡ record region.old { work = region.new.work } }
    ensures layers_room { region.new.work.room ≡ region.old.work.room }
{
    match decided(p) {
        None => look_at_replies(attacker, barred, strategy, p, region),
        Some(ending) => {
            if ending.winner == attacker {
                Look::Rank(0)
            } else {
                Look::Lost
            }
        }
    }
}

/// Where an entry leads: the position that its turn reaches. None comes exactly where the turn is
/// none of its position, or a removal mark is wrong, or the turn leads to a barred position.
pub fn led_to(barred: &Barred, entry: &Entry) -> Option<Position>
    ensures { result ≡ led_to barred.now entry.now }
{
    if !marks_fit(&entry.position, &entry.turn, Marks::Required) {
        return None;
    }
    match turn_result(&entry.position, entry.turn.turn().steps()) {
        None => None,
        Some(reached) => {
            if is_allowed(barred, entry, &reached) {
                Some(reached)
            } else {
                None
            }
        }
    }
}

// Whether the position that an entry's turn reaches is no barred one.
fn is_allowed(barred: &Barred, entry: &Entry, reached: &Position) -> bool
    requires { result_at (planned_of entry.now) ≡ Some reached.now }
    ensures { result ≡ stands_in (next barred.now entry.now.position) reached.now }
{
    let _corner = entry.position.board.at(Square::from_number(0));
    !barred.contains(reached)
}

// What is found of an entry of this rank, by the look at the position that it leads to.
fn finding_of(rank: u8, reached: Position, look: Look) -> Finding
    requires { IfRank look (λ r. r ≤ 256) }
    ensures { result ≡ finding_of rank reached look }
{
    match look {
        Look::Rank(replies) => {
            if rank as u16 == replies + 1 {
                Finding::Good
            } else {
                Finding::Faulty(Why::Rank)
            }
        }
        Look::Lost => Finding::Faulty(Why::Lost),
        Look::Open => Finding::Faulty(Why::Reply),
        Look::Crowded => Finding::Crowded(reached),
    }
}

// What is found of the entry of this number, counted from 0.
#[tactic(auto, unfolding(crate::specs::Findings::finding_at))]
fn finding_at(
    attacker: Color,
    barred: &Barred,
    strategy: &Strategy,
    number: usize,
    entry: &Entry,
    region: &mut Region,
) -> Finding
    requires closed { region.old.segments ≡ [] }
    ensures finding { let earlier = take number strategy.now in
        result ≡ finding_at region.old.room attacker barred.now strategy.now earlier entry.now }
    ensures region { region.new ≡ record region.old { work = region.new.work } }
    ensures layers_room { region.new.work.room ≡ region.old.work.room }
{
    if strategy.stands_before(number, &entry.position) {
        return Finding::Faulty(Why::Twice);
    }
    if decided(&entry.position).is_some() {
        return Finding::Faulty(Why::Decided);
    }
    match led_to(barred, entry) {
        None => Finding::Faulty(Why::Turn),
        Some(reached) => {
            let look = look_at(attacker, barred, strategy, &reached, region);
            finding_of(entry.rank, reached, look)
        }
    }
}

// The answer at the first entry that isn't good.
fn first_answer(
    attacker: Color,
    barred: &Barred,
    strategy: &Strategy,
    region: &mut Region,
) -> Option<Checked>
    requires closed { region.old.segments ≡ [] }
    ensures answer { result
        ≡ first_answer region.old.room attacker barred.now strategy.now 1 [] strategy.now }
    ensures region { region.new ≡ record region.old { work = region.new.work } }
    ensures layers_room { region.new.work.room ≡ region.old.work.room }
{
    for (number, entry) in strategy.entries().iter().enumerate() {
        match finding_at(attacker, barred, strategy, number, entry, region) {
            Finding::Good => {}
            Finding::Faulty(why) => {
                return Some(Checked::Refused {
                    entry: number as u64 + 1,
                    why,
                });
            }
            Finding::Crowded(position) => return Some(Checked::Crowded { position }),
        }
    }
    None
}

// The look at the root.
fn root_look(
    attacker: Color,
    barred: &Barred,
    strategy: &Strategy,
    root: &Position,
    region: &mut Region,
) -> Look
    requires closed { region.old.segments ≡ [] }
    ensures look { result
        ≡ root_look region.old.room attacker barred.now (plan_of strategy.now) root.now }
    ensures region { region.new ≡ record region.old { work = region.new.work } }
    ensures layers_room { region.new.work.room ≡ region.old.work.room }
{
    if root.side != attacker {
        return look_at(attacker, barred, strategy, root, region);
    }
    match covered_rank(attacker, strategy, root) {
        None => Look::Open,
        Some(rank) => Look::Rank(rank as u16),
    }
}

// The answer by the look at the root.
fn root_answer(n: u8, root: Position, look: Look) -> Checked
    ensures { result ≡ root_answer n root look }
{
    match look {
        Look::Rank(rank) => {
            if rank <= n as u16 {
                Checked::Accepted { rank: rank as u8 }
            } else {
                Checked::Refused {
                    entry: 0,
                    why: Why::Deep,
                }
            }
        }
        Look::Lost | Look::Open => Checked::Refused {
            entry: 0,
            why: Why::Root,
        },
        Look::Crowded => Checked::Crowded { position: root },
    }
}

// The answer of the checker.
#[tactic(auto, unfolding(crate::specs::Findings::checked_of))]
fn answer(
    attacker: Color,
    barred: &Barred,
    n: u8,
    strategy: &Strategy,
    root: &Position,
    region: &mut Region,
) -> Checked
    requires closed { region.old.segments ≡ [] }
    ensures answer { result
        ≡ checked_of region.old.room attacker barred.now n strategy.now root.now }
    ensures region { region.new ≡ record region.old { work = region.new.work } }
    ensures layers_room { region.new.work.room ≡ region.old.work.room }
{
    if let Some(answer) = first_answer(attacker, barred, strategy, region) {
        return answer;
    }
    let look = root_look(attacker, barred, strategy, root, region);
    root_answer(n, *root, look)
}

/// Whether a strategy wins for the attacker within `n` turns from the present position of a
/// history.
///
/// Positions that stand at least twice in the history may not be entered. The lists of replies are
/// made in the region, one at a time, and the region is as before when the answer comes. No memory
/// is taken.
pub fn check(
    history: &History,
    attacker: Color,
    n: u8,
    strategy: &Strategy,
    region: &mut Region,
) -> Checked
    requires some { IsSome (present history.now) }
    requires closed { region.old.segments ≡ [] }
    ensures checked { (p : PositionValue) → present history.now ≡ Some p
        → IsChecked attacker (barred_by history.now) n region.old.room strategy.now p result }
    ensures wins { IfAccepted result (λ rank. IsWonBy attacker history.now strategy.now rank) }
    ensures region { region.new ≡ record region.old { work = region.new.work } }
    ensures layers_room { region.new.work.room ≡ region.old.work.room }
{
    let root = history.last().unwrap();
    answer(attacker, history.barred(), n, strategy, &root, region)
}
