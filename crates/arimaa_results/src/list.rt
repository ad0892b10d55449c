//! The list of the results of a position.
ghost use Rattle.std.specs.Prelude.{◌≡◌, ◌+◌, ◌<◌, ◌∷◌, suc, length, IfOk, IfErr, OnOk, OnErr};
ghost use Rattle.arimaa_model.specs.Results.{next};
ghost use Rattle.std.specs.List.{list_any};
ghost use Rattle.arimaa_region.specs.Segments.{below_top, live_of, top};
ghost use Rattle.arimaa_results.specs.ListsToWin.{IsListed, is_won_by};

use crate::layer_lists::{layered, layered_to_win};
use crate::stop::LayerFull;
use crate::turn_walk::{Full, walked};
use arimaa_board::Position;
use arimaa_history::Barred;
use arimaa_region::{Mark, Region};

/// Fills a new top segment with the results of a position: the distinct positions that its turns
/// bring about, without the barred ones, in the order of the first turn to each.
///
/// They are found by layers of distinct turn states, and by a walk over all lists of steps where
/// there are more states than the layers have places. `Full` comes only where these and the live
/// positions are more than the room. The region is then as before. No memory is taken.
pub fn results(p: &Position, barred: &Barred, region: &mut Region) -> Result<Mark, Full>
    requires { length region.old.segments < 64 }
    ensures mark { IfOk result (λ mark. mark ≡ length region.old.segments) }
    ensures filled { OnOk result (region.new ≡ record region.old
        { segments = next barred.now p.now ∷ region.old.segments; work = region.new.work }) }
    ensures full { IfErr result (λ full. (full.live ≡ length (live_of region.old.segments))
        × (region.old.room < full.live + length (next barred.now p.now))) }
    ensures unchanged { OnErr result (region.new ≡ record region.old { work = region.new.work }) }
    ensures layers_room { region.new.work.room ≡ region.old.work.room }
{
    match layered(p, barred, region) {
        Ok(mark) => Ok(mark),
        Err(full) => match full {
            LayerFull::Room { live } => Err(Full { live }),
            LayerFull::Work => walked(p, barred, region),
        },
    }
}

/// Fills a new top segment with the results of a position, as `results` does, or only with the
/// first of them: the list may end once it has a position that the rules have decided for the side
/// to move.
///
/// A search needs no more of it, since a turn to such a position is decisive. How many results
/// stand after that one isn't said. `Full` comes only where all results and the live positions are
/// more than the room, and the region is then as before. No memory is taken.
pub fn results_to_win(p: &Position, barred: &Barred, region: &mut Region) -> Result<Mark, Full>
    requires { length region.old.segments < 64 }
    ensures mark { IfOk result (λ mark. mark ≡ length region.old.segments) }
    ensures opened { OnOk result (length region.new.segments ≡ suc (length region.old.segments)) }
    ensures below { OnOk result (below_top region.new.segments ≡ region.old.segments) }
    ensures listed { OnOk result (IsListed (list_any (is_won_by p.now.side)
        (top region.new.segments)) barred.now p.now (top region.new.segments)) }
    ensures full { IfErr result (λ full. (full.live ≡ length (live_of region.old.segments))
        × (region.old.room < full.live + length (next barred.now p.now))) }
    ensures unchanged { OnErr result (region.new ≡ record region.old { work = region.new.work }) }
    ensures room_kept { region.new.room ≡ region.old.room }
    ensures layers_room { region.new.work.room ≡ region.old.work.room }
{
    match layered_to_win(p, barred, region) {
        Ok(opened) => Ok(opened),
        Err(full) => match full {
            LayerFull::Room { live } => Err(Full { live }),
            LayerFull::Work => walked(p, barred, region),
        },
    }
}
