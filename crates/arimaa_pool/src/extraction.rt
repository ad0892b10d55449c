//! The strategy is found, breadth first.
ghost use Rattle.std.specs.Prelude.{◌≡◌, ◌+◌, ◌-◌, ◌<◌, ◌≤◌, [], ◌∷◌, ◌++◌, map, IfOk, IfErr, OnOk, IsTrue};
ghost use Rattle.arimaa_model.specs.Ranks.{IsRank, rank_within};
ghost use Rattle.arimaa_model.specs.Results.{first_occurrences};
ghost use Rattle.arimaa_model.specs.Strategies.{IsOpen, after_entry, open_replies, first_met, strategy_of};
ghost use Rattle.arimaa_model.specs.Wins.{wins};
ghost use Rattle.arimaa_forced.specs.Entries.{entry_with_marks};
ghost use Rattle.arimaa_forced.specs.Needs.{InNeed, IsAsked};
ghost use Rattle.arimaa_pool.specs.Extraction.{written_entry};
ghost use Rattle.arimaa_pool.specs.Failures.{IsFailure};

use crate::asker::Asker;
use crate::entries::entry_of;
use crate::failure::Failure;
use crate::stop::{Reason, Stop};
use arimaa_board::Position;
use arimaa_history::Barred;
use arimaa_model::decided;
use arimaa_region::Region;
use arimaa_results::results;
use arimaa_strategy::{Strategy, meet, meet_all};
use std::alloc::{AllocError, Global};

// Adds the undecided replies to a position of the other side that is won within `rank` turns.
fn meet_replies(
    asker: &Asker,
    list: &mut Region,
    queue: &mut Barred,
    r: &Position,
    rank: u8,
) -> Result<(), Failure>
    requires empty { list.old.segments ≡ [] }
    requires room { list.old.room ≡ asker.now.room }
    requires won { IsTrue (wins asker.now.attacker asker.now.barred rank r.now) }
    ensures empty { list.new.segments ≡ [] }
    ensures room { list.new.room ≡ list.old.room }
    ensures met { OnOk result (queue.new
        ≡ first_occurrences queue.old (open_replies asker.now.barred r.now)) }
    ensures failure { IfErr result (IsFailure asker.now (λ q j. (q ≡ r.now) × (j ≡ rank))) }
{
    if decided(r).is_some() {
        return Ok(());
    }
    match results(r, asker.barred(), list) {
        Err(_) => Err(Failure::Stopped(Stop {
            position: *r,
            depth: rank,
            reason: Reason::Crowded,
        })),
        Ok(mark) => {
            let met = meet_all(queue, list);
            list.release(mark);
            Ok(met?)
        }
    }
}

// Adds what the root meets first.
fn meet_first(
    asker: &Asker,
    list: &mut Region,
    queue: &mut Barred,
    p: &Position,
    rank: u8,
) -> Result<(), Failure>
    requires empty { list.old.segments ≡ [] }
    requires room { list.old.room ≡ asker.now.room }
    requires won { IsTrue (wins asker.now.attacker asker.now.barred rank p.now) }
    ensures empty { list.new.segments ≡ [] }
    ensures room { list.new.room ≡ list.old.room }
    ensures met { OnOk result (queue.new
        ≡ first_occurrences queue.old (first_met asker.now.attacker asker.now.barred p.now)) }
    ensures failure { IfErr result (IsFailure asker.now (λ q j. (q ≡ p.now) × (j ≡ rank))) }
{
    if p.side == asker.attacker() {
        Ok(meet(queue, p)?)
    } else {
        meet_replies(asker, list, queue, p, rank)
    }
}

// Writes the entry of a position down, and adds what is met after it is played.
fn play(
    asker: &mut Asker,
    list: &mut Region,
    queue: &mut Barred,
    strategy: &mut Strategy,
    q: &Position,
    n: u8,
) -> Result<(), Failure>
    requires depth { n ≤ 20 }
    requires open { IsOpen asker.old.attacker asker.old.barred n q.now }
    requires empty { list.old.segments ≡ [] }
    requires room { list.old.room ≡ asker.old.room }
    ensures same { asker.new ≡ asker.old }
    ensures empty { list.new.segments ≡ [] }
    ensures room { list.new.room ≡ list.old.room }
    ensures entry { OnOk result (strategy.new
        ≡ strategy.old ++ written_entry asker.old n q.now ∷ []) }
    ensures met { OnOk result (queue.new
        ≡ first_occurrences queue.old (after_entry asker.old.attacker asker.old.barred n q.now)) }
    ensures failure { IfErr result (IsFailure asker.old
        (IsAsked asker.old.attacker asker.old.barred q.now
        (rank_within asker.old.attacker asker.old.barred n q.now))) }
{
    let (entry, reached) = entry_of(asker, list, q, n)?;
    let rank = entry.rank;
    strategy.push(entry)?;
    meet_replies(asker, list, queue, &reached, rank - 1)
}

/// The strategy of the root, which has this rank.
pub(crate) fn extract(
    alloc: Global,
    asker: &mut Asker,
    list: &mut Region,
    p: &Position,
    rank: u8,
) -> Result<Strategy, Failure>
    requires depth { rank ≤ 20 }
    requires rank { IsRank asker.old.attacker asker.old.barred p.now rank }
    requires empty { list.old.segments ≡ [] }
    requires room { list.old.room ≡ asker.old.room }
    ensures same { asker.new ≡ asker.old }
    ensures strategy { IfOk result (λ s. s
        ≡ map entry_with_marks (strategy_of asker.old.attacker asker.old.barred rank p.now)) }
    ensures failure { IfErr result (IsFailure asker.old
        (InNeed asker.old.attacker asker.old.barred p.now rank)) }
{
    let mut queue = Barred::new(alloc);
    meet_first(asker, list, &mut queue, p, rank)?;
    let mut strategy = Strategy::new(alloc);
    let mut played = 0;
    while played < queue.as_slice().len() {
        let q = queue.as_slice()[played];
        play(asker, list, &mut queue, &mut strategy, &q, rank)?;
        played += 1;
    }
    Ok(strategy)
}
