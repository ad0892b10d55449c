//! A game: its positions, and how it has ended.
ghost use Rattle.std.specs.Prelude.{◌≡◌, ◌↔◌, ◌≤◌, ℕ, ◌+◌, List, length, Ok, Err, Some, None, false, IfOk, IfErr, IsErr, IsSome, IsTrue, OnOk, OnErr, Option};
ghost use Rattle.arimaa_board.specs.declared.piece.Color.TheVariants as colors;
ghost use Rattle.arimaa_board.specs.declared.piece.Piece.{Piece};
ghost use Rattle.arimaa_board.specs.declared.position.Position.{Position};
ghost use Rattle.arimaa_board.specs.Fit.{IsFit};
ghost use Rattle.arimaa_board.specs.NotedTurns.{noted_marks, noted_turn};
ghost use Rattle.arimaa_model.specs.Game.{IsLawful, closed_by, count_in, ending, present};
ghost use Rattle.arimaa_model.specs.Marks.{marks_right};
ghost use Rattle.arimaa_model.specs.FirstFaults.{first_fault_in};
ghost use Rattle.arimaa_game.specs.Setups.{HoldsSetups, board_after_setups, position_after_setups};
ghost use Rattle.arimaa_game.specs.Faults.{IsFaultOf, rule_of_answer};
ghost use Rattle.arimaa_game.specs.Play.{GoesOn, IsGame, Reaches, TakesBack, game_from, game_closed_by, ending_of, game_with, play_outcome, played_noted, take_back_fault, turns_in, unless_marked, unless_third};

use crate::ending::ending_at;
use crate::fault::{GameFault, fault_of};
use crate::setups::position_after;
use arimaa_board::{Noted, Position, Setup, Turn};
use arimaa_history::History;
use arimaa_model::{Ending, Word};
use arimaa_step::{Marks, apply, marks_fit};
use std::alloc::{AllocError, Global};
use std::marker::Model;

/// A game, from the position in which it begins.
///
/// It begins after both setups or with a given position, and goes on by turns until the rules end
/// it or a word closes it. A contract sees it as its positions and the word that closed it, if one
/// did.
#[derive(Drop)]
pub struct Game {
    history: History,
    // the word that closed the game, which the rules had not ended
    closing: Option<Word>,
    // how the game has ended, by the rules or by the word
    ending: Option<Ending>,
}

impl Model for Game {
    ghost use Rattle.arimaa_game.specs.Play.{IsKept, Play};

    ghost Value = { Play };

    ghost view = { λ g. record { history = g.history; closing = g.closing } };

    ghost invariant = { λ g.
        IsKept (record { history = g.history; closing = g.closing }) g.ending };
}

impl Game {
    /// The game after both setups, with Gold to move. It fails for want of memory only.
    pub fn from_setups(alloc: Global, gold: &Setup, silver: &Setup) -> Result<Game, AllocError>
        requires gold { gold.now.color ≡ colors.Gold }
        requires silver { silver.now.color ≡ colors.Silver }
        ensures begun { IfOk result
            (λ game. game ≡ game_from (position_after_setups gold.now silver.now)) }
        ensures board { HoldsSetups gold.now silver.now (board_after_setups gold.now silver.now) }
    {
        Game::from_start(alloc, position_after(gold, silver))
    }

    /// The game that begins with this position, on a fit board. It fails for want of memory only.
    ///
    /// A position that is won as it stands is a game that has ended.
    pub fn from_start(alloc: Global, p: Position) -> Result<Game, AllocError>
        requires { IsFit p.board }
        ensures { IfOk result (λ game. game ≡ game_from p) }
    {
        let mut history = History::new(alloc);
        history.push(p)?;
        let ending = ending_at(&history, &p);
        Ok(Game {
            history,
            closing: None,
            ending,
        })
    }

    /// Plays a turn, and answers how the game has then ended, if it has.
    ///
    /// A fault is the first that applies of
    ///
    /// - `Over`: the game has ended;
    /// - `Step`: the first step that breaks a rule, by its place from 1;
    /// - `Turn`: the steps are no turn;
    /// - `Repeat`: what the turn would bring about stands at least twice in the history;
    /// - `Memory`: the memory for one more position is wanting.
    ///
    /// The game then is as before.
    pub fn play(&mut self, turn: &Turn) -> Result<Option<Ending>, GameFault>
        ensures played { OnOk result (GoesOn self.old turn.now self.new) }
        ensures ending { IfOk result (λ ended. ended ≡ ending self.new.history) }
        ensures answer { IfOk result (λ ended. ended ≡ ending_of self.new) }
        ensures fault { IfErr result (λ e. IsFaultOf (play_outcome self.old turn.now) e) }
        ensures refused { OnErr result (self.new ≡ self.old) }

        // For a turn with the right marks the fault is the first that the rules of the game name.
        ensures first { (p : Position) (marks : List (Option (Piece × ℕ)))
            → present self.old.history ≡ Some p
            → ending_of self.old ≡ None → IsTrue (marks_right p.board turn.now marks)
            → first_fault_in self.old.history p turn.now marks ≡ rule_of_answer result }
    {
        let reached = self.reached(turn)?;
        self.add(reached)
    }

    /// Plays a turn with its removal marks, and answers how the game has then ended, if it has.
    ///
    /// The faults are those of `play`, and `Mark`, where a mark is missing, wrong or out of place:
    /// it comes after `Step` and before `Turn`. The game then is as before.
    pub fn play_noted(&mut self, noted: &Noted) -> Result<Option<Ending>, GameFault>
        ensures played { OnOk result (GoesOn self.old (noted_turn noted.now) self.new) }
        ensures ending { IfOk result (λ ended. ended ≡ ending self.new.history) }
        ensures answer { IfOk result (λ ended. ended ≡ ending_of self.new) }
        ensures fault { IfErr result (λ e. IsFaultOf (played_noted self.old noted.now) e) }
        ensures refused { OnErr result (self.new ≡ self.old) }

        // The fault is the first that the rules of the game name.
        ensures first { (p : Position) → present self.old.history ≡ Some p
            → ending_of self.old ≡ None
            → first_fault_in self.old.history p (noted_turn noted.now) (noted_marks noted.now)
            ≡ rule_of_answer result }
    {
        let turn = noted.turn();
        if marks_fit(&self.now(), noted, Marks::Required) {
            self.play(&turn)
        } else {
            Err(self.fault_of_unmarked(&turn))
        }
    }

    // The fault of a turn whose marks are wrong: a step that is refused comes before the marks.
    fn fault_of_unmarked(&self, turn: &Turn) -> GameFault
        ensures { unless_marked false (play_outcome self.now turn.now) ≡ Err result }
    {
        match self.reached(turn) {
            Err(GameFault::Over) => GameFault::Over,
            Err(GameFault::Step { place, fault }) => GameFault::Step { place, fault },
            _ => GameFault::Mark,
        }
    }

    // The position that a turn reaches, or what keeps it from reaching one.
    fn reached(&self, turn: &Turn) -> Result<Position, GameFault>
        ensures fault { IfErr result (λ e. play_outcome self.now turn.now ≡ Err e) }
        ensures reached { IfOk result (λ q. (p : Position) × Reaches self.now p turn.now q) }
    {
        if self.ending.is_some() {
            return Err(GameFault::Over);
        }
        let _few = turn.steps();
        match apply(&self.now(), turn) {
            Ok(position) => Ok(position),
            Err(fault) => Err(fault_of(fault)),
        }
    }

    // Adds the position that a turn reaches, unless it stands there twice, and answers how the game
    // has then ended.
    fn add(&mut self, reached: Position) -> Result<Option<Ending>, GameFault>
        requires running { ending_of self.old ≡ None }
        requires lawful { count_in self.old.history reached ≤ 1
            → IsLawful self.old.history reached }
        requires fit { IsFit reached.board }
        ensures added { OnOk result (self.new ≡ game_with self.old reached) }
        ensures few { OnOk result (count_in self.old.history reached ≤ 1) }
        ensures ending { IfOk result (λ ended. ended ≡ ending self.new.history) }
        ensures answer { IfOk result (λ ended. ended ≡ ending_of self.new) }
        ensures fault { IfErr result
            (λ e. IsFaultOf (unless_third self.old.history (Ok reached)) e) }
        ensures refused { OnErr result (self.new ≡ self.old) }
    {
        match self.history.push_unless_third(reached) {
            Ok(true) => {
                self.ending = ending_at(&self.history, &reached);
                Ok(self.ending)
            }
            Ok(false) => Err(GameFault::Repeat),
            Err(_) => Err(GameFault::Memory),
        }
    }

    /// Closes the game by a word: the side to move loses. Refused exactly where the game has ended,
    /// by `Over`, and then it is as before.
    pub fn close(&mut self, word: Word) -> Result<Ending, GameFault>
        ensures over { IsErr result ↔ IsSome (ending_of self.old) }
        ensures fault { IfErr result (λ e. e ≡ GameFault.Over) }
        ensures closed { OnOk result (self.new ≡ game_closed_by self.old word) }
        ensures loser { IfOk result
            (λ ended. (p : Position) → present self.old.history ≡ Some p
            → ended ≡ closed_by word p.side) }
        ensures ending { IfOk result (λ ended. ending_of self.new ≡ Some ended) }
        ensures refused { OnErr result (self.new ≡ self.old) }
    {
        if self.ending.is_some() {
            return Err(GameFault::Over);
        }
        let ending = word.against(self.now().side);
        self.closing = Some(word);
        self.ending = Some(ending);
        Ok(ending)
    }

    /// Takes back the last turn, and answers the position that is now present, from which the game
    /// goes on. It takes no memory. What the turn brought about is counted no more.
    ///
    /// A fault is the first that applies of
    ///
    /// - `Over`: the game has ended;
    /// - `NoTurn`: no turn stands. Setups and the position of a start are never taken back.
    ///
    /// The game then is as before.
    pub fn take_back(&mut self) -> Result<Position, GameFault>
        ensures taken { IfOk result (λ p. TakesBack self.old p self.new) }
        ensures due { OnOk result (take_back_fault self.old ≡ None) }
        ensures fault { IfErr result (λ e. take_back_fault self.old ≡ Some e) }
        ensures refused { OnErr result (self.new ≡ self.old) }
    {
        if self.ending.is_some() {
            return Err(GameFault::Over);
        }
        if self.turns() == 0 {
            return Err(GameFault::NoTurn);
        }
        self.history.pop();
        Ok(self.now())
    }

    /// The number of turns that stand: those that were played and not taken back.
    pub fn turns(&self) -> u64
        ensures value { result ≡ turns_in self.now.history }
        ensures counted { result + 1 ≡ length self.now.history }
    {
        self.history.as_slice().len().saturating_sub(1) as u64
    }

    /// How the game has ended: by the rules, or by the word that closed it. None where it goes on.
    pub fn ending(&self) -> Option<Ending>
        ensures { result ≡ ending_of self.now }
    {
        self.ending
    }

    /// The positions of the game.
    pub fn history(&self) -> &History
        ensures value { result.now ≡ self.now.history }
        ensures rule { IsGame self.now }
    {
        &self.history
    }

    /// The present position, whose board is fit.
    pub fn now(&self) -> Position
        ensures present { present self.now.history ≡ Some result }
        ensures fit { IsFit result.board }
    {
        self.history.last().unwrap()
    }

    /// The positions alone.
    pub fn into_history(self) -> History
        ensures { result ≡ self.history }
    {
        let Game { history, .. } = self;
        history
    }
}
