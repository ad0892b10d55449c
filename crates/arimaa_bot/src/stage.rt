//! The game that the bot is told.
ghost use Rattle.std.specs.Prelude.{◌≡◌, IfOk, OnOk, is_some};
ghost use Rattle.std.specs.Option.{unwrap_or};
ghost use Rattle.arimaa_board.specs.Fit.{IsFit};
ghost use Rattle.arimaa_bot.specs.Stages.{IsWhole, move_at, game_after_turn, set_up};
ghost use Rattle.arimaa_bot.specs.declared.stage.Stage.TheVariants as stages;
ghost use Rattle.arimaa_game.specs.Play.{game_from};

use arimaa_board::{Color, Noted, Position, Setup};
use arimaa_game::{Game, GameFault};
use arimaa_step::{Marks, marks_fit};
use std::alloc::{AllocError, Global};

/// How far the game has come that the bot is told.
#[derive(Drop)]
pub(crate) enum Stage {
    /// Gold's setup is due.
    Unset,
    /// Gold's setup stands, and Silver's is due.
    GoldSet(Setup),
    /// The game has a position.
    Playing(Game),
}

// The stage after a setup, if it is the one that is due.
fn set_up(alloc: Global, stage: &Stage, setup: Setup) -> Result<Option<Stage>, AllocError>
    requires { IsWhole stage.now }
    ensures { IfOk result (λ after. after ≡ set_up stage.now setup) }
{
    match stage {
        Stage::Playing(_) => Ok(None),
        Stage::Unset => match setup.color() {
            Color::Gold => Ok(Some(Stage::GoldSet(setup))),
            Color::Silver => Ok(None),
        },
        Stage::GoldSet(gold) => match setup.color() {
            Color::Gold => Ok(None),
            Color::Silver => match Game::from_setups(alloc, gold, &setup) {
                Ok(game) => Ok(Some(Stage::Playing(game))),
                Err(e) => Err(e),
            },
        },
    }
}

// Plays a turn whose marks may be left out, and answers whether it is lawful.
fn play(game: &mut Game, noted: &Noted) -> Result<bool, AllocError>
    ensures after { OnOk result
        (game.new ≡ unwrap_or (game_after_turn game.old noted.now) game.old) }
    ensures lawful { IfOk result (λ lawful. lawful ≡ is_some (game_after_turn game.old noted.now)) }
{
    let present = game.now();
    if !marks_fit(&present, noted, Marks::Optional) {
        return Ok(false);
    }
    match game.play(&noted.turn()) {
        Ok(_) => Ok(true),
        Err(fault) => match fault {
            GameFault::Memory => Err(AllocError),
            _ => Ok(false),
        },
    }
}

/// A setup is told. It is lawful where it is the one that is due, and else nothing changes.
pub(crate) fn tell_setup(alloc: Global, stage: &mut Stage, setup: Setup) -> Result<bool, AllocError>
    requires { IsWhole stage.old }
    ensures after { OnOk result (stage.new ≡ unwrap_or (set_up stage.old setup) stage.old) }
    ensures lawful { IfOk result (λ lawful. lawful ≡ is_some (set_up stage.old setup)) }
{
    match set_up(alloc, stage, setup)? {
        None => Ok(false),
        Some(after) => {
            *stage = after;
            Ok(true)
        }
    }
}

/// A turn is told, whose marks may be left out. Where it isn't lawful nothing changes.
pub(crate) fn tell_turn(stage: &mut Stage, noted: &Noted) -> Result<bool, AllocError>
    ensures after { OnOk result (stage.new ≡ unwrap_or (move_at stage.old noted.now) stage.old) }
    ensures lawful { IfOk result (λ lawful. lawful ≡ is_some (move_at stage.old noted.now)) }
{
    match stage {
        Stage::Unset => Ok(false),
        Stage::GoldSet(_) => Ok(false),
        Stage::Playing(game) => play(game, noted),
    }
}

/// The stage of a game that begins with this position.
pub(crate) fn begin_at(alloc: Global, p: Position) -> Result<Stage, AllocError>
    requires { IsFit p.board }
    ensures { IfOk result (λ stage. stage ≡ stages.Playing (game_from p)) }
{
    match Game::from_start(alloc, p) {
        Ok(game) => Ok(Stage::Playing(game)),
        Err(e) => Err(e),
    }
}
