//! How a game ends by the rules.
ghost use Rattle.std.specs.Prelude.{◌≡◌, None};
ghost use Rattle.arimaa_model.specs.Results.{results};
ghost use Rattle.arimaa_model.specs.Game.{ended_for, ending_at, lawful_at, stuck_cause};

use arimaa_board::Position;
use arimaa_history::{Barred, History};
use arimaa_model::{Cause, Ending, decided};
use arimaa_results::{Wanted, any_turn, first_turn_where};

// Wanted is a position that is not barred, so that a turn may bring it about.
#[derive(Clone, Copy)]
struct Allowed<'a> {
    barred: &'a Barred,
}

impl Wanted for Allowed<'_> {
    ghost use Rattle.std.specs.Prelude.{not};
    ghost use Rattle.arimaa_model.specs.Results.{stands_in};

    ghost passes = { λ wanted reached. not (stands_in wanted.barred.now reached) };

    fn passes(&self, reached: &Position) -> bool {
        !self.barred.contains(reached)
    }
}

// Why a side has lost whose turns are all third repetitions, if it has any.
fn stuck_cause(p: &Position) -> Cause
    ensures { result ≡ stuck_cause (results p.now) }
{
    if any_turn(p) {
        Cause::Repetition
    } else {
        Cause::Immobile
    }
}

// The ending of a position that is not decided: the side to move has lost where each result stands
// twice.
fn stuck_ending(history: &History, p: &Position) -> Option<Ending>
    ensures { result ≡ ended_for p.now None (lawful_at history.now p.now) }
{
    let barred = history.barred();
    if first_turn_where(p, &Allowed { barred }).is_some() {
        return None;
    }
    Some(Ending {
        winner: p.side.other(),
        cause: stuck_cause(p),
    })
}

// How the game has ended, by the rules, whose history this is and whose present position is `p`.
pub(crate) fn ending_at(history: &History, p: &Position) -> Option<Ending>
    ensures { result ≡ ending_at history.now p.now }
{
    match decided(p) {
        Some(ending) => Some(ending),
        None => stuck_ending(history, p),
    }
}
