//! A question is asked: its line answers it, or it is opened.
ghost use Rattle.std.specs.Prelude.{◌≡◌, ℕ, ◌+◌, ◌-◌, ◌<◌, ◌≤◌, suc, length, OnOk, IfOk, None};
ghost use Rattle.std.specs.List.{list_any};
ghost use Rattle.arimaa_model.specs.DecidedPositions.{decided};
ghost use Rattle.arimaa_forced.specs.Search.{cost};
ghost use Rattle.arimaa_region.specs.Segments.{live_of, below_top, top};
ghost use Rattle.arimaa_results.specs.ListsToWin.{IsListed, is_won_by};
ghost use Rattle.arimaa_line.specs.Index.{place_of};
ghost use Rattle.arimaa_table.specs.Passes.{lines_of, setting_of, steps_of, place_view, IsPassOf, KeepsNoOlder, NoFewer};
ghost use Rattle.arimaa_search.specs.PaidAnswers.{Answered};
ghost use Rattle.arimaa_search.specs.Traces.{GoesPast, IsOpened, IsToldBy, Stepped, SteppedThrough};

use crate::first_reply::first_reply;
use crate::leaf::leaf;
use crate::line::{recall, remember};
use crate::stop::Stop;
use arimaa_board::Position;
use arimaa_line::index_of;
use arimaa_model::decided;
use arimaa_region::Region;
use arimaa_results::results_to_win;
use arimaa_table::{Table, TablePass};

/// Asks whether the attacker wins a position within `depth` turns, where `left` questions may still
/// be opened.
#[cycle(search)]
pub(crate) fn ask(
    table: &Table,
    pass: &mut TablePass,
    region: &mut Region,
    left: &mut u64,
    p: &Position,
    depth: u8,
) -> Result<bool, Stop>
    requires pass { IsPassOf table.now pass.old }
    requires segments { length region.old.segments + depth < 64 }
    requires depth { depth ≤ 20 }
    ensures pass { IsPassOf table.now pass.new }
    ensures later { KeepsNoOlder pass.old pass.new }
    ensures grown { NoFewer (steps_of pass.old) (steps_of pass.new) }
    ensures segments { region.new.segments ≡ region.old.segments }
    ensures room { region.new.room ≡ region.old.room }
    ensures here { Stepped (lines_of table.now) (steps_of pass.old) (steps_of pass.new) p.now }
    ensures told { left.new ≡ left.old
        → IsToldBy (place_view pass.new (place_of p.now (lines_of table.now))).kept p.now depth
        result }
    ensures replies { left.new < left.old → decided p.now ≡ None → 1 ≤ depth
        → OnOk result (SteppedThrough (setting_of table.now).attacker (setting_of table.now).barred
        (lines_of table.now) (depth - 1) p.now (steps_of pass.old) (steps_of pass.new)) }
    ensures answer { Answered (setting_of table.now).attacker
        (setting_of table.now).barred depth p.now region.old.room
        (length (live_of region.old.segments)) left.old left.new result }
{
    let place = index_of(p, table.lines());
    if let Some(verdict) = recall(table, pass, place, p, depth) {
        return Ok(verdict);
    }
    let verdict = open_up(table, pass, region, left, p, depth)?;
    remember(table, pass, place, p, depth, verdict);
    Ok(verdict)
}

// Opens a question, and counts it.
#[cycle(search)]
fn open_up(
    table: &Table,
    pass: &mut TablePass,
    region: &mut Region,
    left: &mut u64,
    p: &Position,
    depth: u8,
) -> Result<bool, Stop>
    requires pass { IsPassOf table.now pass.old }
    requires segments { length region.old.segments + depth < 64 }
    requires depth { depth ≤ 20 }
    ensures pass { IsPassOf table.now pass.new }
    ensures later { KeepsNoOlder pass.old pass.new }
    ensures grown { NoFewer (steps_of pass.old) (steps_of pass.new) }
    ensures segments { region.new.segments ≡ region.old.segments }
    ensures room { region.new.room ≡ region.old.room }
    ensures opened { IsOpened left.old left.new result }
    ensures replies { left.new < left.old → decided p.now ≡ None → 1 ≤ depth
        → OnOk result (SteppedThrough (setting_of table.now).attacker (setting_of table.now).barred
        (lines_of table.now) (depth - 1) p.now (steps_of pass.old) (steps_of pass.new)) }
    ensures answer { Answered (setting_of table.now).attacker
        (setting_of table.now).barred depth p.now region.old.room
        (length (live_of region.old.segments)) left.old left.new result }
{
    if *left == 0 {
        return Err(Stop::Spent);
    }
    *left -= 1;
    if let Some(ending) = decided(p) {
        return Ok(ending.winner == table.attacker());
    }
    if depth == 0 {
        return Ok(leaf(table, p));
    }
    look_through(table, pass, region, left, p, depth - 1)
}

// Asks about the next positions of an undecided position in order, up to the first that is
// decisive. Most looks end at the first of all, so the list of them is made only where this one
// goes on, and only up to a position that the side to move has won.
#[cycle(search)]
fn look_through(
    table: &Table,
    pass: &mut TablePass,
    region: &mut Region,
    left: &mut u64,
    p: &Position,
    depth: u8,
) -> Result<bool, Stop>
    requires pass { IsPassOf table.now pass.old }
    requires segments { length region.old.segments + suc depth < 64 }
    requires depth { depth < 20 }
    requires undecided { decided p.now ≡ None }
    ensures pass { IsPassOf table.now pass.new }
    ensures later { KeepsNoOlder pass.old pass.new }
    ensures grown { NoFewer (steps_of pass.old) (steps_of pass.new) }
    ensures segments { region.new.segments ≡ region.old.segments }
    ensures room { region.new.room ≡ region.old.room }
    ensures spent { left.new ≤ left.old }
    ensures replies { OnOk result
        (SteppedThrough (setting_of table.now).attacker (setting_of table.now).barred
        (lines_of table.now) depth p.now (steps_of pass.old) (steps_of pass.new)) }
    ensures answer { Answered (setting_of table.now).attacker (setting_of table.now).barred
        (suc depth) p.now region.old.room (length (live_of region.old.segments))
        (left.old + 1) left.new result }
{
    let own = p.side == table.attacker();
    let barred = table.barred();
    let Some(reply) = first_reply(p, barred) else {
        return Ok(!own);
    };
    let won = ask(table, pass, region, left, &reply, depth)?;
    if won == own {
        return Ok(own);
    }
    let first = region.live();
    match results_to_win(p, barred, region) {
        Err(_) => Err(Stop::Crowded),
        Ok(mark) => {
            let answer = look_on(table, pass, region, left, p, first, depth);
            region.release(mark);
            answer
        }
    }
}

// Asks about the positions of the top segment after the first, in order, up to the first that is
// decisive. They are the next ones of an undecided position, maybe up to one that the side to move
// has won, which is decisive. The first of them was asked about and is not decisive.
#[cycle(search)]
fn look_on(
    table: &Table,
    pass: &mut TablePass,
    region: &mut Region,
    left: &mut u64,
    p: &Position,
    first: u32,
    depth: u8,
) -> Result<bool, Stop>
    requires pass { IsPassOf table.now pass.old }
    requires segments { length region.old.segments + depth < 64 }
    requires depth { depth < 20 }
    requires undecided { decided p.now ≡ None }
    requires open { 0 < length region.old.segments }
    requires listed { IsListed (list_any (is_won_by p.now.side) (top region.old.segments))
        (setting_of table.now).barred p.now (top region.old.segments) }
    requires first { first ≡ length (live_of (below_top region.old.segments)) }
    requires some { 1 ≤ length (top region.old.segments) }
    ensures pass { IsPassOf table.now pass.new }
    ensures later { KeepsNoOlder pass.old pass.new }
    ensures grown { NoFewer (steps_of pass.old) (steps_of pass.new) }
    ensures segments { region.new.segments ≡ region.old.segments }
    ensures room { region.new.room ≡ region.old.room }
    ensures spent { left.new ≤ left.old }
    ensures replies { (reply : Position) (began : ℕ → ℕ)
        → GoesPast (setting_of table.now).attacker (setting_of table.now).barred depth p.now reply
        → NoFewer began (steps_of pass.old)
        → Stepped (lines_of table.now) began (steps_of pass.old) reply
        → OnOk result (SteppedThrough (setting_of table.now).attacker (setting_of table.now).barred
        (lines_of table.now) depth p.now began (steps_of pass.new)) }
    ensures answer { (reply : Position)
        → GoesPast (setting_of table.now).attacker (setting_of table.now).barred depth p.now reply
        → Answered (setting_of table.now).attacker (setting_of table.now).barred
        (suc depth) p.now region.old.room first
        (left.old + cost (setting_of table.now).attacker (setting_of table.now).barred depth reply
        + 1) left.new result }
{
    let own = p.side == table.attacker();
    let end = region.live();
    for place in first + 1..end {
        let q = region.get(place);
        let won = ask(table, pass, region, left, &q, depth)?;
        if won == own {
            return Ok(own);
        }
    }
    Ok(!own)
}
