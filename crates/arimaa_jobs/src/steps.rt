//! What each step on the two words tells the seat that makes it. These types are for proofs alone.
ghost use Rattle.arimaa_jobs.specs.Rule.{TellsDraw, TellsReport, TellsLook};
ghost use Rattle.arimaa_jobs.specs.Rule.{view_after_split, view_of_new_seat, view_after_join};
ghost use Rattle.arimaa_jobs.specs.Rule.{spent_view};

use crate::view::SeatView;
use atomic_table::{Join, Play, Split};

/// One is added to the number that is drawn next.
pub(crate) struct DrawNumber;

impl Play<(), SeatView> for DrawNumber {
    ghost then = { TellsDraw };
}

/// The least job is lowered.
pub(crate) struct LowerLeast;

impl Play<(), SeatView> for LowerLeast {
    ghost then = { TellsReport };
}

/// A load of the least job.
pub(crate) struct LoadLeast;

impl Play<(), SeatView> for LoadLeast {
    ghost then = { TellsLook };
}

/// A seat is split off, with one spare draw and weight 1.
pub(crate) struct SplitSeat;

impl Split<SeatView> for SplitSeat {
    ghost left = { view_after_split };

    ghost right = { view_of_new_seat };
}

/// A seat is joined to another, and is spent.
pub(crate) struct JoinSeats;

impl Join<SeatView> for JoinSeats {
    ghost both = { view_after_join };

    ghost spent = { spent_view };
}
