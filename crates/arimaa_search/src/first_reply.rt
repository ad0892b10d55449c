//! The first of the next positions of a position, found without the list of them.
ghost use Rattle.std.specs.Prelude.{◌≡◌, ◌∷◌, [], drop, IfSome, IfNone};
ghost use Rattle.arimaa_model.specs.Results.{next};

use arimaa_board::Position;
use arimaa_history::Barred;
use arimaa_results::{Unbarred, first_turn_where};
use arimaa_step::apply;

/// The first of the next positions, if there is one. No memory is taken.
pub(crate) fn first_reply(p: &Position, barred: &Barred) -> Option<Position>
    ensures first { IfSome result
        (λ q. next barred.now p.now ≡ q ∷ drop 1 (next barred.now p.now)) }
    ensures none { IfNone result (next barred.now p.now ≡ []) }
{
    let turn = first_turn_where(p, &Unbarred { barred })?;
    Some(apply(p, &turn).unwrap())
}
