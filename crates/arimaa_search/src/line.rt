//! What the table tells of a question, and what it is told.
ghost use Rattle.std.specs.Prelude.{◌≡◌, ◌<◌, ◌≤◌, IfSome};
ghost use Rattle.arimaa_line.specs.Index.{place_of};
ghost use Rattle.arimaa_model.specs.Wins.{wins};
ghost use Rattle.arimaa_table.specs.Passes.{lines_of, setting_of, steps_of, place_view, IsPassOf, IsTrueIn, KeepsNoOlder, NoFewer};
ghost use Rattle.arimaa_search.specs.Traces.{Stepped, Tells};

use arimaa_board::Position;
use arimaa_line::{Line, answers, bounds_of_verdict};
use arimaa_table::{Looked, Table, TablePass};

// The verdict that a line has on a question: one where it names the position whole.
fn verdict_of(table: &Table, line: &Line, p: &Position, depth: u8) -> Option<bool>
    requires { IsTrueIn table.now line.now }
    ensures verdict { IfSome result
        (λ v. v ≡ wins (setting_of table.now).attacker (setting_of table.now).barred depth p.now) }
    ensures told { IfSome result (λ v. Tells line.now p.now depth v) }
{
    let bounds = table.read(line, p)?;
    answers(&bounds, depth)
}

/// The verdict that the line of the position, which lies at this place, has on the question. None
/// where the line is busy, too.
pub(crate) fn recall(
    table: &Table,
    pass: &mut TablePass,
    place: u32,
    p: &Position,
    depth: u8,
) -> Option<bool>
    requires pass { IsPassOf table.now pass.old }
    requires place { place ≡ place_of p.now (lines_of table.now) }
    requires inside { place < lines_of table.now }
    ensures pass { IsPassOf table.now pass.new }
    ensures later { KeepsNoOlder pass.old pass.new }
    ensures grown { NoFewer (steps_of pass.old) (steps_of pass.new) }
    ensures here { Stepped (lines_of table.now) (steps_of pass.old) (steps_of pass.new) p.now }
    ensures verdict { IfSome result
        (λ v. v ≡ wins (setting_of table.now).attacker (setting_of table.now).barred depth p.now) }
    ensures told { IfSome result
        (λ v. Tells (place_view pass.new (place_of p.now (lines_of table.now))).kept p.now depth
        v) }
{
    match table.look(pass, place) {
        Looked::Found(line) => verdict_of(table, &line, p, depth),
        Looked::Busy(_) => None,
    }
}

/// Puts a verdict into the line at a place, as a bound beside those that it has of the position.
/// Nothing is put where the line is busy.
pub(crate) fn remember(
    table: &Table,
    pass: &mut TablePass,
    place: u32,
    p: &Position,
    depth: u8,
    verdict: bool,
)
    requires pass { IsPassOf table.now pass.old }
    requires inside { place < lines_of table.now }
    requires depth { depth ≤ 20 }
    requires verdict { verdict
        ≡ wins (setting_of table.now).attacker (setting_of table.now).barred depth p.now }
    ensures pass { IsPassOf table.now pass.new }
    ensures later { KeepsNoOlder pass.old pass.new }
    ensures grown { NoFewer (steps_of pass.old) (steps_of pass.new) }
{
    let known = bounds_of_verdict(p, table.attacker(), depth, verdict);
    let _ = table.add(pass, place, &known);
}
