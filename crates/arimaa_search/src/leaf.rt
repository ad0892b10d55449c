//! What a position tells without a look at its next positions.
ghost use Rattle.std.specs.Prelude.{◌≡◌, None};
ghost use Rattle.arimaa_model.specs.DecidedPositions.{decided};
ghost use Rattle.arimaa_model.specs.Wins.{wins};
ghost use Rattle.arimaa_table.specs.Passes.{setting_of};

use crate::at_ease::has_next;
use arimaa_board::Position;
use arimaa_table::Table;

/// Whether the attacker wins an undecided position within no turn: just where the other side is to
/// move and has no turn.
pub(crate) fn leaf(table: &Table, p: &Position) -> bool
    requires { decided p.now ≡ None }
    ensures { result ≡ wins (setting_of table.now).attacker (setting_of table.now).barred 0 p.now }
{
    if p.side == table.attacker() {
        return false;
    }
    !has_next(p, table.barred())
}
