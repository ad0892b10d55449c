//! The game of a match: its setups, and then its turns.
ghost use Rattle.std.specs.Prelude.{◌≡◌, [], IfOk};
ghost use Rattle.arimaa_model.specs.Game.{ending};
ghost use Rattle.arimaa_board.specs.declared.piece.Color.{Color as Side};
ghost use Rattle.arimaa_judge.specs.RecordState.{RecordState};
ghost use Rattle.arimaa_judge.specs.RecordStateInvariant.{IsUnderWay};
ghost use Rattle.arimaa_match.specs.MatchState.{history_with, if_lawful, turn_in};
ghost use Rattle.arimaa_match.specs.Phases.{AreSetupsDue, IsKept, IsPlaced, history_of};

use arimaa_board::{Ending, Noted, Setup};
use arimaa_game::{Game, GameFault};
use arimaa_step::{Marks, marks_fit, note};
use std::alloc::{AllocError, Global};

/// How far the game of a match has come.
#[derive(Drop)]
pub enum Phase {
    /// A setup is due: Gold's, or Silver's once Gold's stands.
    SettingUp(Option<Setup>),
    /// The game has a position.
    Playing(Game),
}

/// How the game has ended by the rules.
pub(crate) fn ending_in(phase: &Phase) -> Option<Ending>
    requires { (side : Side) × IsKept phase.now side }
    ensures { result ≡ ending (history_of phase.now) }
{
    match phase {
        Phase::SettingUp(_) => None,
        Phase::Playing(game) => game.ending(),
    }
}

/// The phase after a setup: with Silver's the game begins.
pub(crate) fn place(alloc: Global, gold: &Option<Setup>, setup: &Setup) -> Result<Phase, AllocError>
    requires { AreSetupsDue gold.now setup.now.color }
    ensures { IfOk result (λ phase. (s : RecordState) → s.gold ≡ gold.now → s.history ≡ []
        → s.due.side ≡ setup.now.color → IsPlaced s setup.now phase) }
{
    match gold {
        None => Ok(Phase::SettingUp(Some(setup.copy()))),
        Some(gold) => match Game::from_setups(alloc, gold, setup) {
            Err(e) => Err(e),
            Ok(game) => Ok(Phase::Playing(game)),
        },
    }
}

// Plays a turn with its right marks, and answers it, unless it breaks a rule.
fn play(game: &mut Game, marked: Noted) -> Result<Option<Noted>, AllocError>
    requires { IsUnderWay game.old }
    ensures made { IfOk result (λ made. made ≡ if_lawful game.old.history marked) }
    ensures history { IfOk result (λ made. game.new.history ≡ history_with game.old.history made) }
    ensures under_way { IsUnderWay game.new }
{
    let _present = game.now();
    let _few = marked.steps();
    match game.play_noted(&marked) {
        Ok(_) => Ok(Some(marked)),
        Err(fault) => match fault {
            GameFault::Memory => Err(AllocError),
            _ => Ok(None),
        },
    }
}

/// Makes a turn, and answers it with its right marks, unless a mark is wrong or the turn breaks a
/// rule.
pub(crate) fn make(game: &mut Game, noted: &Noted) -> Result<Option<Noted>, AllocError>
    requires { IsUnderWay game.old }
    ensures made { IfOk result (λ made. made ≡ turn_in game.old.history noted.now) }
    ensures history { IfOk result (λ made. game.new.history ≡ history_with game.old.history made) }
    ensures under_way { IsUnderWay game.new }
{
    let present = game.now();
    if !marks_fit(&present, noted, Marks::Optional) {
        return Ok(None);
    }
    match note(&present, &noted.turn()) {
        Err(_) => Ok(None),
        Ok(marked) => play(game, marked),
    }
}
