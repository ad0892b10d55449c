//! The entry of one position that the attacker wins.
ghost use Rattle.std.specs.Prelude.{◌≡◌, ◌-◌, ◌<◌, ◌≤◌, [], ◌∷◌, Some, IfOk, IfErr, IsTrue};
ghost use Rattle.arimaa_board.specs.Board.{same_color};
ghost use Rattle.arimaa_model.specs.Members.{Stands};
ghost use Rattle.arimaa_model.specs.Ranks.{rank_within};
ghost use Rattle.arimaa_model.specs.Results.{next};
ghost use Rattle.arimaa_model.specs.Strategies.{IsOpen, entry_of, result_at};
ghost use Rattle.arimaa_forced.specs.Needs.{IsAsked};
ghost use Rattle.arimaa_forced.specs.Search.{first_decisive, looked_at};
ghost use Rattle.arimaa_pool.specs.Extraction.{written_entry};
ghost use Rattle.arimaa_pool.specs.Stops.{IsStop};

use crate::asker::Asker;
use crate::stop::{Reason, Stop};
use arimaa_board::Position;
use arimaa_forced::Entry;
use arimaa_region::Region;
use arimaa_results::{first_turn, results};
use arimaa_step::note;

// The rank of a position that is won within n turns.
fn rank_of(asker: &mut Asker, q: &Position, n: u8) -> Result<u8, Stop>
    requires depth { n ≤ 20 }
    requires open { IsOpen asker.old.attacker asker.old.barred n q.now }
    ensures same { asker.new ≡ asker.old }
    ensures rank { IfOk result (λ r. r ≡ rank_within asker.old.attacker asker.old.barred n q.now) }
    ensures within { IfOk result (λ r. r ≤ n) }
    ensures stop { IfErr result (IsStop asker.old (IsAsked asker.old.attacker asker.old.barred q.now
        (rank_within asker.old.attacker asker.old.barred n q.now))) }
{
    for depth in 0..n {
        if asker.ask(q, depth)? {
            return Ok(depth);
        }
    }
    Ok(n)
}

// The first next position of q that is won within `depth` turns, where the list has them and the
// attacker is to move.
fn first_won(
    asker: &mut Asker,
    list: &Region,
    q: &Position,
    depth: u8,
) -> Result<Option<Position>, Stop>
    requires depth { depth ≤ 20 }
    requires own { IsTrue (same_color q.now.side asker.old.attacker) }
    requires list { list.now.segments ≡ next asker.old.barred q.now ∷ [] }
    ensures same { asker.new ≡ asker.old }
    ensures first { IfOk result (λ o. o
        ≡ first_decisive asker.old.attacker asker.old.barred depth q.now) }
    ensures stop { IfErr result (IsStop asker.old (λ x j. (j ≡ depth)
        × Stands (looked_at asker.old.attacker asker.old.barred depth q.now) x)) }
{
    for place in 0..list.live() {
        let reply = list.get(place);
        if asker.ask(&reply, depth)? {
            return Ok(Some(reply));
        }
    }
    Ok(None)
}

// The position that the entry of q brings about, where q has this rank.
fn result_of(
    asker: &mut Asker,
    list: &mut Region,
    q: &Position,
    rank: u8,
    n: u8,
) -> Result<Position, Stop>
    requires depth { n ≤ 20 }
    requires open { IsOpen asker.old.attacker asker.old.barred n q.now }
    requires rank { rank ≡ rank_within asker.old.attacker asker.old.barred n q.now }
    requires empty { list.old.segments ≡ [] }
    requires room { list.old.room ≡ asker.old.room }
    ensures same { asker.new ≡ asker.old }
    ensures empty { list.new.segments ≡ [] }
    ensures room { list.new.room ≡ list.old.room }
    ensures result { IfOk result (λ r. result_at
        (entry_of asker.old.attacker asker.old.barred n q.now) ≡ Some r) }
    ensures stop { IfErr result (IsStop asker.old
        (IsAsked asker.old.attacker asker.old.barred q.now rank)) }
{
    match results(q, asker.barred(), list) {
        Err(_) => Err(Stop {
            position: *q,
            depth: rank,
            reason: Reason::Crowded,
        }),
        Ok(mark) => {
            let first = first_won(asker, list, q, rank - 1);
            list.release(mark);
            Ok(first?.unwrap())
        }
    }
}

/// The entry of an undecided position with the attacker to move, which it wins within n turns, and
/// the position that it brings about.
pub(crate) fn entry_of(
    asker: &mut Asker,
    list: &mut Region,
    q: &Position,
    n: u8,
) -> Result<(Entry, Position), Stop>
    requires depth { n ≤ 20 }
    requires open { IsOpen asker.old.attacker asker.old.barred n q.now }
    requires empty { list.old.segments ≡ [] }
    requires room { list.old.room ≡ asker.old.room }
    ensures same { asker.new ≡ asker.old }
    ensures empty { list.new.segments ≡ [] }
    ensures room { list.new.room ≡ list.old.room }
    ensures entry { IfOk result (λ r. r.0 ≡ written_entry asker.old n q.now) }
    ensures result { IfOk result (λ r. result_at
        (entry_of asker.old.attacker asker.old.barred n q.now) ≡ Some r.1) }
    ensures stop { IfErr result (IsStop asker.old (IsAsked asker.old.attacker asker.old.barred q.now
        (rank_within asker.old.attacker asker.old.barred n q.now))) }
{
    let rank = rank_of(asker, q, n)?;
    let reached = result_of(asker, list, q, rank, n)?;
    let turn = first_turn(q, &reached).unwrap();
    let entry = Entry {
        position: *q,
        rank,
        turn: note(q, &turn).unwrap(),
    };
    Ok((entry, reached))
}
