//! What the bot chooses where it is asked for a setup or a turn.
ghost use Rattle.std.specs.Prelude.{◌≡◌, ◌<◌, List, None, Some, IfOk, IsSome, length, map, slice_get};
ghost use Rattle.arimaa_board.specs.declared.position.Position.{Position as Place};
ghost use Rattle.arimaa_bot.specs.Choice.{IsChoice, IsUnproved, said_by, said_from};
ghost use Rattle.arimaa_bot.specs.Lookaheads.{AreWithinRanges};
ghost use Rattle.arimaa_bot.specs.declared.stage.Stage.TheVariants as stages;
ghost use Rattle.arimaa_game.specs.Play.{ending_of};
ghost use Rattle.arimaa_forced.specs.Entries.{entry_with_marks};
ghost use Rattle.arimaa_model.specs.Game.{barred_by, present};
ghost use Rattle.arimaa_model.specs.Results.{result_of};
ghost use Rattle.arimaa_model.specs.Strategies.{Planned};
ghost use Rattle.arimaa_notation.specs.Written.{text_of_turn};
ghost use Rattle.arimaa_pool.specs.Verdicts.{IsAnswer, terms_of};

use crate::lookahead::Lookahead;
use crate::plain::plain_turn;
use crate::stage::Stage;
use arimaa_board::{Noted, Position, Turn};
use arimaa_game::Game;
use arimaa_notation::turn_text;
use arimaa_outside::Bytes;
use arimaa_pool::{NoGate, Verdict, prove};
use arimaa_step::note;
use arimaa_strategy::Strategy;
use std::alloc::{AllocError, Global};
use std::thread::Threads;

// The setup that the bot makes as Gold.
const GOLD_SETUP: &[u8] = b"Ra1 Rb1 Rc1 Dd1 De1 Rf1 Rg1 Rh1 Ra2 Hb2 Cc2 Md2 Ee2 Cf2 Hg2 Rh2";

// The setup that the bot makes as Silver.
const SILVER_SETUP: &[u8] = b"ra7 hb7 cc7 ed7 me7 cf7 hg7 rh7 ra8 rb8 rc8 dd8 de8 rf8 rg8 rh8";

// A text of these bytes.
fn copied(alloc: Global, bytes: &[u8]) -> Result<Bytes, AllocError>
    ensures { IfOk result (λ text. text ≡ bytes.now) }
{
    let bytes = Vec::from_slice(alloc, bytes)?;
    Ok(Bytes::new(bytes))
}

// The turn of a strategy's first entry, as it is said.
fn first_said(alloc: Global, strategy: &Strategy) -> Result<Bytes, AllocError>
    requires { 0 < length strategy.now }
    ensures { (entries : List Planned) (e : Planned) → strategy.now ≡ map entry_with_marks entries
        → slice_get entries 0 ≡ Some e → IfOk result (λ text. text ≡ said_by e) }
{
    let first = &strategy.entries()[0];
    copied(alloc, turn_text(&first.turn).as_bytes())
}

// A turn with its marks, as it is said.
fn noted_said(alloc: Global, noted: &Noted) -> Result<Bytes, AllocError>
    requires { 0 < length noted.now }
    ensures { IfOk result (λ text. text ≡ text_of_turn noted.now) }
{
    copied(alloc, turn_text(noted).as_bytes())
}

// A turn from a position, as it is said.
fn said(alloc: Global, p: &Position, turn: &Turn) -> Result<Bytes, AllocError>
    requires { IsSome (result_of p.now turn.now) }
    ensures { IfOk result (λ text. text ≡ said_from p.now turn.now) }
{
    let noted = note(p, turn).unwrap();
    noted_said(alloc, &noted)
}

// The plain turn of a game that goes on, as it is said.
fn plain_said(alloc: Global, ahead: &Lookahead, game: &Game) -> Result<Bytes, AllocError>
    requires running { ending_of game.now ≡ None }
    requires unproved { (p : Place) → present game.now.history ≡ Some p
        → IsUnproved ahead.now (barred_by game.now.history) p }
    ensures { IfOk result (IsChoice ahead.now (stages.Playing game.now)) }
{
    let p = game.now();
    let turn = plain_turn(game, &p);
    said(alloc, &p, &turn)
}

// What is said of a game that goes on, by what the prover answered about its present position.
fn said_on(
    alloc: Global,
    ahead: &Lookahead,
    game: &Game,
    verdict: Verdict,
) -> Result<Bytes, AllocError>
    requires running { ending_of game.now ≡ None }
    requires answer { (p : Place) → present game.now.history ≡ Some p
        → IsAnswer (terms_of p.side game.now.history ahead.now.settings) p ahead.now.depth verdict }
    ensures { IfOk result (IsChoice ahead.now (stages.Playing game.now)) }
{
    let _now = game.now();
    match verdict {
        Verdict::Yes { rank: _, strategy } => first_said(alloc, &strategy),
        Verdict::No => plain_said(alloc, ahead, game),
        Verdict::Spent {
            position: _,
            depth: _,
            counted: _,
        } => plain_said(alloc, ahead, game),
        Verdict::Crowded {
            position: _,
            depth: _,
        } => plain_said(alloc, ahead, game),
    }
}

// What the bot chooses in a game.
fn choose_turn<R: AllocGlobal + Threads + Sync>(
    rt: &R,
    alloc: Global,
    ahead: &Lookahead,
    game: &Game,
) -> Result<Bytes, AllocError>
    requires { AreWithinRanges ahead.now }
    ensures { IfOk result (IsChoice ahead.now (stages.Playing game.now)) }
{
    if game.ending().is_some() {
        return copied(alloc, b"resign");
    }
    let p = game.now();
    match prove(
        rt,
        game.history(),
        p.side,
        ahead.depth,
        &ahead.settings,
        &NoGate,
    ) {
        Err(e) => Err(e),
        Ok(verdict) => said_on(alloc, ahead, game, verdict),
    }
}

/// What the bot chooses: the setup of its own where a setup is due, to resign after the end of the
/// game, and else the turn of a proved win or the plain turn, with its removal marks.
pub(crate) fn choose<R: AllocGlobal + Threads + Sync>(
    rt: &R,
    alloc: Global,
    ahead: &Lookahead,
    stage: &Stage,
) -> Result<Bytes, AllocError>
    requires { AreWithinRanges ahead.now }
    ensures { IfOk result (IsChoice ahead.now stage.now) }
{
    match stage {
        Stage::Unset => copied(alloc, GOLD_SETUP),
        Stage::GoldSet(_) => copied(alloc, SILVER_SETUP),
        Stage::Playing(game) => choose_turn(rt, alloc, ahead, game),
    }
}
