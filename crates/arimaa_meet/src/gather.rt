//! What the workers tell, in the order of the matches.
ghost use Rattle.std.specs.Prelude.{◌<◌, ℕ, List, IfOk, vec_len};
ghost use Rattle.arimaa_meet.specs.Matches.{MeetMatch};
ghost use Rattle.arimaa_meet.specs.Shares.{AreShares, AreTold};

use crate::match_report::Told;
use crate::pairs::Pair;
use std::alloc::{AllocError, Global};

// Takes what is told of each match out of the share of its worker, in the order of the matches.
pub(crate) fn gather(
    alloc: Global,
    pairs: &[Pair],
    shares: Vec<Vec<Told>>,
) -> Result<Vec<Told>, AllocError>
    requires some { 0 < vec_len shares }
    requires shares { (of_worker : ℕ → List MeetMatch)
        × AreShares pairs.now of_worker shares.items }
    ensures { IfOk result (λ told. (of_worker : ℕ → List MeetMatch)
        → AreShares pairs.now of_worker shares.items
        → AreTold pairs.now (vec_len shares) of_worker told.items) }
{
    let mut shares = shares;
    let mut told = Vec::new(alloc);
    'matches: for place in 0..pairs.len() {
        let worker = place % shares.len();
        let share = &mut shares[worker];
        told.push(share.remove(0))?;
    }
    Ok(told)
}
