//! The positions that are met, each once, in the order of first meeting.
ghost use Rattle.std.specs.Prelude.{◌≡◌, [], ◌∷◌, OnOk, is_none};
ghost use Rattle.std.specs.List.{filter};
ghost use Rattle.arimaa_model.specs.DecidedPositions.{decided};
ghost use Rattle.arimaa_model.specs.Results.{first_occurrences};
ghost use Rattle.arimaa_region.specs.Segments.{live_of};

use arimaa_board::Position;
use arimaa_history::Barred;
use arimaa_model::decided;
use arimaa_region::Region;
use std::alloc::AllocError;

/// Adds an undecided position at the end, unless it stands in the queue. A decided one is not met.
///
/// An error says that no memory was left.
pub fn meet(queue: &mut Barred, q: &Position) -> Result<(), AllocError>
    ensures { OnOk result (queue.new
        ≡ first_occurrences queue.old (filter (λ x. is_none (decided x)) (q.now ∷ []))) }
{
    if decided(q).is_some() || queue.contains(q) {
        return Ok(());
    }
    queue.push(*q)?;
    Ok(())
}

/// Adds the undecided ones of the live positions of a list at the end, in their order, each unless
/// it stands in the queue.
///
/// An error says that no memory was left.
pub fn meet_all(queue: &mut Barred, list: &Region) -> Result<(), AllocError>
    ensures { OnOk result (queue.new
        ≡ first_occurrences queue.old (filter (λ x. is_none (decided x))
        (live_of list.now.segments))) }
{
    for place in 0..list.live() {
        meet(queue, &list.get(place))?;
    }
    Ok(())
}
