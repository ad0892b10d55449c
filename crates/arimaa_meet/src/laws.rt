//! Laws that show that the report of a meet does not depend on the workers, each the contract of a
//! function without a body of its own.
ghost use Rattle.arimaa_meet.specs.Agreement.{MatchesAgree, ReportsAgree};

use arimaa_judge::judgements_agree;
use arimaa_match::told_once;

/// Two matches under one time control in which the same answers and moments came, over ports and
/// clocks that tell, came to the same.
pub fn matches_agree()
    ensures { MatchesAgree }
{
    told_once();
}

/// Meets of the same programs whose matches came to the same have the same report, for any number
/// of workers.
pub fn reports_agree()
    ensures { ReportsAgree }
{
    judgements_agree();
}
