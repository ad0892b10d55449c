//! Turns that are looked for by what they bring about.
ghost use Rattle.std.specs.Prelude.{◌≡◌, ◌<◌, ◌↔◌, length, is_some, IsSome, IfSome, IsTrue, Some};
ghost use Rattle.std.specs.List.{list_any};
ghost use Rattle.arimaa_model.specs.Results.{results, next, result_of, stands_in};
ghost use Rattle.arimaa_model.specs.Strategies.{first_turn};
ghost use Rattle.arimaa_results.specs.Conditions.{first_passing, brings_passing};

use crate::condition::{AnyPosition, OnePosition, Unbarred, Wanted};
use crate::first_wanted::walk;
use arimaa_board::{Position, Turn};
use arimaa_history::Barred;
use arimaa_step::TurnState;

/// The first turn of the side to move, in turn order, whose result is wanted.
///
/// Turns of fewer steps come first, and turns of equal length are compared step by step: by the
/// square that a step leaves, from a1 to h8, and then by its direction in the order north, east,
/// south, west. None comes exactly where no turn brings a wanted position about. No memory is
/// taken.
pub fn first_turn_where<W: Wanted>(p: &Position, wanted: &W) -> Option<Turn>
    ensures first { result ≡ first_passing (W.passes wanted.now) p.now }
    ensures some { is_some result ≡ list_any (W.passes wanted.now) (results p.now) }
    ensures wanted { IfSome result (λ turn. IsTrue
        (brings_passing (W.passes wanted.now) p.now turn)) }
{
    let start = TurnState::start(p);
    for steps in 1..5 {
        if let Some(turn) = walk(wanted, &start, steps) {
            return Some(turn);
        }
    }
    None
}

/// The first turn of the side to move, in turn order, that brings a position about.
///
/// None comes exactly where no turn does. No memory is taken.
pub fn first_turn(p: &Position, reached: &Position) -> Option<Turn>
    ensures first { result ≡ first_turn p.now reached.now }
    ensures some { IsSome result ↔ IsTrue (stands_in (results p.now) reached.now) }
    ensures reaches { IfSome result (λ turn. result_of p.now turn ≡ Some reached.now) }
{
    first_turn_where(p, &OnePosition { position: reached })
}

/// Whether the side to move has a turn whose result isn't barred.
///
/// No memory is taken.
pub fn any_result(p: &Position, barred: &Barred) -> bool
    ensures { IsTrue result ↔ (0 < length (next barred.now p.now)) }
{
    first_turn_where(p, &Unbarred { barred }).is_some()
}

/// Whether the side to move has a turn.
///
/// No memory is taken.
pub fn any_turn(p: &Position) -> bool
    ensures { IsTrue result ↔ (0 < length (results p.now)) }
{
    first_turn_where(p, &AnyPosition).is_some()
}
