//! The escape of one position that the attacker does not win.
ghost use Rattle.std.specs.Prelude.{◌≡◌, ◌+◌, ◌<◌, ◌≤◌, [], ◌∷◌, Some, IfOk, IfErr};
ghost use Rattle.arimaa_board.specs.declared.position.Position.{Position as PositionValue};
ghost use Rattle.arimaa_model.specs.Members.{Stands};
ghost use Rattle.arimaa_model.specs.Results.{next, result_of};
ghost use Rattle.arimaa_refute.specs.OwnEscapes.{escape_at, first_evasion};
ghost use Rattle.arimaa_refute.specs.Refutations.{IsBelow, IsFailure, WantsEscape, first_unwon};

use crate::asker::Asker;
use crate::escape::Escape;
use crate::failure::{Failure, Reason};
use arimaa_board::Position;
use arimaa_region::Region;
use arimaa_results::{first_turn, results};
use arimaa_step::note;

// The first next position of p that is not won within `depth` turns, where the list has them.
fn first_unwon(
    asker: &mut Asker,
    list: &Region,
    p: &Position,
    depth: u8,
) -> Result<Option<Position>, Failure>
    requires depth { depth ≤ 20 }
    requires list { list.now.segments ≡ next asker.old.barred p.now ∷ [] }
    requires below { (q : PositionValue) → Stands (next asker.old.barred p.now) q
        → IsBelow asker.old depth q }
    ensures same { asker.new ≡ asker.old }
    ensures first { IfOk result (λ o. o
        ≡ first_unwon asker.old.attacker asker.old.barred depth p.now) }
    ensures failure { IfErr result (IsFailure asker.old) }
{
    for place in 0..list.live() {
        let reply = list.get(place);
        if !asker.ask(&reply, depth)? {
            return Ok(Some(reply));
        }
    }
    Ok(None)
}

// The first next position of one that is not won within `depth` + 1 turns that is not won within
// `depth`.
fn evasion(
    asker: &mut Asker,
    list: &mut Region,
    p: &Position,
    depth: u8,
) -> Result<Position, Failure>
    requires depth { depth < 20 }
    requires wants { WantsEscape asker.old (depth + 1) p.now }
    requires empty { list.old.segments ≡ [] }
    requires room { list.old.room ≡ asker.old.room }
    ensures same { asker.new ≡ asker.old }
    ensures empty { list.new.segments ≡ [] }
    ensures room { list.new.room ≡ list.old.room }
    ensures first { IfOk result (λ r. first_unwon asker.old.attacker asker.old.barred depth p.now
        ≡ Some r) }
    ensures failure { IfErr result (IsFailure asker.old) }
{
    match results(p, asker.barred(), list) {
        Err(_) => Err(Failure::Stopped {
            position: *p,
            depth: depth + 1,
            reason: Reason::Crowded,
        }),
        Ok(mark) => {
            let first = first_unwon(asker, list, p, depth);
            list.release(mark);
            Ok(first?.unwrap())
        }
    }
}

// The escape of a position that is not won within `depth` + 1 turns, and the position that it leads
// to.
pub(crate) fn escape_of(
    asker: &mut Asker,
    list: &mut Region,
    p: &Position,
    depth: u8,
) -> Result<(Escape, Position), Failure>
    requires depth { depth < 20 }
    requires wants { WantsEscape asker.old (depth + 1) p.now }
    requires empty { list.old.segments ≡ [] }
    requires room { list.old.room ≡ asker.old.room }
    ensures same { asker.new ≡ asker.old }
    ensures empty { list.new.segments ≡ [] }
    ensures room { list.new.room ≡ list.old.room }
    ensures escape { IfOk result (λ r. r.0
        ≡ escape_at asker.old.attacker asker.old.barred depth p.now) }
    ensures leads { IfOk result (λ r. result_of p.now
        (first_evasion asker.old.attacker asker.old.barred depth p.now) ≡ Some r.1) }
    ensures failure { IfErr result (IsFailure asker.old) }
{
    let reached = evasion(asker, list, p, depth)?;
    let turn = first_turn(p, &reached).unwrap();
    let escape = Escape {
        position: *p,
        depth: depth + 1,
        turn: note(p, &turn).unwrap(),
    };
    Ok((escape, reached))
}
