//! The turn that is played where no win is proved.
ghost use Rattle.std.specs.Prelude.{◌≡◌, None, Some, IsSome};
ghost use Rattle.arimaa_bot.specs.Choice.{is_loss, plain_turn};
ghost use Rattle.arimaa_game.specs.Play.{ending_of};
ghost use Rattle.arimaa_model.specs.Game.{barred_by, present};
ghost use Rattle.arimaa_model.specs.Results.{result_of};

use arimaa_board::{Color, Ending, Position, Turn};
use arimaa_game::Game;
use arimaa_history::Barred;
use arimaa_model::decided;
use arimaa_results::{Wanted, first_turn_where};

// Wanted is a position that a turn may lead to.
#[derive(Clone, Copy)]
struct Allowed<'a> {
    barred: &'a Barred,
}

impl Wanted for Allowed<'_> {
    ghost use Rattle.arimaa_bot.specs.Choice.{is_allowed};

    ghost passes = { λ wanted reached. is_allowed wanted.barred.now reached };

    fn passes(&self, reached: &Position) -> bool {
        !self.barred.contains(reached)
    }
}

// Wanted is such a position in which the side that moved hasn't lost.
#[derive(Clone, Copy)]
struct Safe<'a> {
    barred: &'a Barred,
    side: Color,
}

impl Wanted for Safe<'_> {
    ghost use Rattle.arimaa_bot.specs.Choice.{is_safe};

    ghost passes = { λ wanted reached. is_safe wanted.barred.now wanted.side reached };

    fn passes(&self, reached: &Position) -> bool {
        !self.barred.contains(reached) && !is_loss(self.side, decided(reached))
    }
}

// Whether an ending, if there is one, is a loss of this side.
fn is_loss(side: Color, ending: Option<Ending>) -> bool
    ensures { result ≡ is_loss side ending }
{
    match ending {
        None => false,
        Some(ending) => ending.winner != side,
    }
}

/// The first turn, in turn order, that doesn't lose at once, and where there is none the first of
/// all. A game that goes on has one.
pub(crate) fn plain_turn(game: &Game, p: &Position) -> Turn
    requires running { ending_of game.now ≡ None }
    requires now { present game.now.history ≡ Some p.now }
    ensures plain { plain_turn (barred_by game.now.history) p.now ≡ Some result }
    ensures turn { IsSome (result_of p.now result) }
{
    let barred = game.history().barred();
    let side = p.side;
    if let Some(turn) = first_turn_where(p, &Safe { barred, side }) {
        return turn;
    }
    let found = first_turn_where(p, &Allowed { barred });
    found.unwrap()
}
