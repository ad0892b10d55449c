//! The positions that want an escape.
ghost use Rattle.std.specs.Prelude.{◌≡◌, ◌≤◌, [], IfErr, OnOk};
ghost use Rattle.arimaa_model.specs.Results.{first_occurrences};
ghost use Rattle.arimaa_model.specs.Strategies.{open_replies};
ghost use Rattle.arimaa_refute.specs.Refutations.{IsBelow, IsFailure};

use crate::asker::Asker;
use crate::failure::{Failure, Reason};
use arimaa_board::Position;
use arimaa_history::Barred;
use arimaa_model::decided;
use arimaa_region::Region;
use arimaa_results::results;
use arimaa_strategy::meet_all;

// Adds the undecided replies to a position where turns are left.
pub(crate) fn meet_replies(
    asker: &Asker,
    list: &mut Region,
    queue: &mut Barred,
    r: &Position,
    turns: u8,
) -> Result<(), Failure>
    requires some { 1 ≤ turns }
    requires below { IsBelow asker.now turns r.now }
    requires empty { list.old.segments ≡ [] }
    requires room { list.old.room ≡ asker.now.room }
    ensures empty { list.new.segments ≡ [] }
    ensures room { list.new.room ≡ list.old.room }
    ensures met { OnOk result (queue.new
        ≡ first_occurrences queue.old (open_replies asker.now.barred r.now)) }
    ensures failure { IfErr result (IsFailure asker.now) }
{
    if decided(r).is_some() {
        return Ok(());
    }
    match results(r, asker.barred(), list) {
        Err(_) => Err(Failure::Stopped {
            position: *r,
            depth: turns,
            reason: Reason::Crowded,
        }),
        Ok(mark) => {
            let met = meet_all(queue, list);
            list.release(mark);
            Ok(met?)
        }
    }
}
