//! The state of a record after some of its lines.
ghost use Rattle.std.specs.Prelude.{◌≡◌, ◌==◌, ◌+◌, ◌-◌, ◌<◌, ◌∷◌, ℕ, Ok, Err, None, Some, IfOk, OnErr, All, not, is_some, if◌then◌else◌};
ghost use Rattle.arimaa_board.specs.Fit.{IsFit};
ghost use Rattle.arimaa_board.specs.NotedTurns.{noted_turn};
ghost use Rattle.arimaa_model.specs.Game.{ending};
ghost use Rattle.arimaa_model.specs.Wins.{is_nil};
ghost use Rattle.arimaa_game.specs.Play.{AreLawful, turns_in};
ghost use Rattle.arimaa_history.specs.Counts.{without_last};
ghost use Rattle.arimaa_record.specs.Label.{next_label};
ghost use Rattle.arimaa_judge.specs.RecordState.{RecordState as State, after_line, before_lines, declared_or, side_due, with_closing, with_bare, with_played, with_setup, with_start, with_turn, with_turn_back};
ghost use Rattle.arimaa_judge.specs.RecordStateInvariant.{AreRepeats, IsGranted, IsOpen, IsUnderWay, history_of, labels_before};
ghost use Rattle.arimaa_judge.specs.Rules.{rule_after_closing, rule_at, rule_of_bare, rule_of_line_fault, rule_of_label, rule_of_line, rule_of_setup, rule_of_start, rule_of_takeback, rule_of_turn_line, same_label, turn_rule};
ghost use Rattle.arimaa_judge.specs.Judgement.{Accepts, TakesLine, HasFitBoards, HasLawfulTurns, HasTurnCount, HasEnding, lawful_of};

use crate::game_fault::rule_of_game_fault;
use crate::judgement::Judged;
use crate::rule::Rule;
use arimaa_board::{Board, Color, Noted, Position, Setup};
use arimaa_game::Game;
use arimaa_history::History;
use arimaa_model::{Ending, Word};
use arimaa_record::{Label, LineFault, RecordLine, read_line};
use std::alloc::{AllocError, Global};
use std::marker::Model;

/// How far a record has come.
#[derive(Drop)]
pub enum Stage {
    /// Gold's setup or a start line is due.
    Begin,
    /// Gold's setup stands, and Silver's is due.
    GoldPlaced(Setup),
    /// The game has a position.
    Playing(Game),
}

/// The state of a record before a line, where no line before it broke a rule.
///
/// A contract sees it with Gold's setup and the positions of the game in place of the stage, and
/// with the labels of the turn lines that stand.
#[derive(Drop)]
pub struct RecordState {
    stage: Stage,
    // the label that is due
    due: Label,
    // the number of turn lines that stand and have the label that is due, the last of all
    repeated: u64,
    // whether a closing or bare line came before
    closed: bool,
    // the ending that a closing word declared
    word: Option<Ending>,
}

impl Model for RecordState {
    ghost use Rattle.arimaa_judge.specs.RecordState.{RecordState as State};
    ghost use Rattle.arimaa_game.specs.Play.{turns_in};
    ghost use Rattle.arimaa_judge.specs.RecordStateInvariant.{gold_of, history_of, labels_before, IsKept};

    ghost Value = { State };

    ghost view = { λ s. record {
      gold = gold_of s.stage;
      history = history_of s.stage;
      labels = labels_before (turns_in (history_of s.stage)) s.repeated s.due;
      due = s.due;
      closed = s.closed;
      word = s.word;
    } };

    ghost invariant = { λ s. IsKept s.stage s.due s.repeated s.word };
}

// Whether the game has a position.
fn is_playing(stage: &Stage) -> bool
    requires { IsOpen stage.now }
    ensures { result ≡ not (is_nil (history_of stage.now)) }
{
    match stage {
        Stage::Begin => false,
        Stage::GoldPlaced(_) => false,
        Stage::Playing(_) => true,
    }
}

// How the game has ended by the rules.
fn ending_in(stage: &Stage) -> Option<Ending>
    requires { IsOpen stage.now }
    ensures { result ≡ ending (history_of stage.now) }
{
    match stage {
        Stage::Begin => None,
        Stage::GoldPlaced(_) => None,
        Stage::Playing(game) => game.ending(),
    }
}

// Plays a turn in a game that goes on, unless it breaks a rule, and answers that rule.
fn play_turn(game: &mut Game, noted: &Noted) -> Result<Option<Rule>, AllocError>
    requires under_way { IsUnderWay game.old }
    requires running { ending game.old.history ≡ None }
    ensures rule { IfOk result (λ broken. broken ≡ turn_rule game.old.history noted.now) }
    ensures history { IfOk result
        (λ broken. game.new.history ≡ (if is_some broken then game.old.history
        else with_turn game.old.history (noted_turn noted.now))) }
    ensures under_way { IsUnderWay game.new }
    ensures refused { OnErr result (game.new ≡ game.old) }
{
    let _present = game.now();
    let _few = noted.steps();
    match game.play_noted(noted) {
        Ok(_) => Ok(None),
        Err(fault) => match rule_of_game_fault(fault) {
            Some(rule) => Ok(Some(rule)),
            None => Err(AllocError),
        },
    }
}

// Takes back the last turn of a game that goes on, and answers whether a turn stood.
fn take_back(game: &mut Game) -> bool
    requires under_way { IsUnderWay game.old }
    requires running { ending game.old.history ≡ None }
    ensures stood { result ≡ not (turns_in game.old.history == 0) }
    ensures history { game.new.history
        ≡ (if result then without_last game.old.history else game.old.history) }
    ensures under_way { IsUnderWay game.new }
{
    game.take_back().is_ok()
}

// The number of turns that stand in the game.
fn turns_in(stage: &Stage) -> u64
    ensures { result ≡ turns_in (history_of stage.now) }
{
    match stage {
        Stage::Begin => 0,
        Stage::GoldPlaced(_) => 0,
        Stage::Playing(game) => game.turns(),
    }
}

// How many of so many turn lines that stand have the label that is due after them, where the last
// of them has this label, and so many of those before it too.
fn repeated_after(due: Label, repeated: u64, turns: u64) -> u64
    requires some { 0 < turns }
    requires repeats { AreRepeats (turns - 1) repeated due }
    ensures labels { labels_before turns result (next_label due)
        ≡ due ∷ labels_before (turns - 1) repeated due }
    ensures repeats { AreRepeats turns result (next_label due) }
{
    if due.is_last() { repeated + 1 } else { 0 }
}

// The label of the last turn that stands, where this one is due, and how many of the turn lines
// before it have the same label.
fn label_taken_back(due: Label, repeated: u64) -> (Label, u64)
    ensures labels { (turns : ℕ)
        → labels_before (turns + 1) repeated due
        ≡ result.0 ∷ labels_before turns result.1 result.0 }
    ensures repeats { (turns : ℕ) → AreRepeats (turns + 1) repeated due
        → AreRepeats turns result.1 result.0 }
{
    if 0 < repeated {
        (due, repeated - 1)
    } else {
        (due.previous(), 0)
    }
}

// The positions of the game.
fn history_in(alloc: Global, stage: Stage) -> History
    ensures value { result ≡ history_of stage }
    ensures fit { All (λ q. IsFit q.board) result }
    ensures lawful { AreLawful result }
{
    match stage {
        Stage::Begin => History::new(alloc),
        Stage::GoldPlaced(_) => History::new(alloc),
        Stage::Playing(game) => {
            let _history = game.history();
            game.into_history()
        }
    }
}

// The side whose setup or turn is due.
fn side_due(stage: &Stage, due: Label) -> Color
    ensures { (s : State) → s.history ≡ history_of stage.now → s.due ≡ due → result ≡ side_due s }
{
    match stage {
        Stage::Begin => due.side,
        Stage::GoldPlaced(_) => due.side,
        Stage::Playing(game) => game.now().side,
    }
}

// Whether a label is the one due.
fn same_label(due: Label, label: Label) -> bool
    ensures { result ≡ same_label due label }
{
    label.number == due.number && label.side == due.side
}

// The rule that a line breaks after a closing line or a label alone.
fn rule_after_closing(line: &RecordLine) -> Option<Rule>
    ensures { result ≡ rule_after_closing line.now }
{
    match line {
        RecordLine::Blank => None,
        _ => Some(Rule::After),
    }
}

// An ending by a word, or else that by the rules.
fn declared_or(word: Option<Ending>, by_rules: Option<Ending>) -> Option<Ending>
    ensures { result ≡ declared_or word by_rules }
{
    match word {
        Some(ending) => Some(ending),
        None => by_rules,
    }
}

impl RecordState {
    /// Before the first line.
    pub fn before_lines() -> RecordState
        ensures { result ≡ before_lines }
    {
        RecordState {
            stage: Stage::Begin,
            due: Label::new(1, Color::Gold),
            repeated: 0,
            closed: false,
            word: None,
        }
    }

    /// The label that is due.
    pub fn due(&self) -> Label
        ensures { result ≡ self.now.due }
    {
        self.due
    }

    // The rule that a line with this label breaks, whatever else it says.
    fn rule_of_label(&self, label: Label) -> Option<Rule>
        ensures { result ≡ rule_of_label self.now label }
    {
        if !same_label(self.due, label) {
            Some(Rule::Number)
        } else if ending_in(&self.stage).is_some() {
            Some(Rule::Over)
        } else {
            None
        }
    }

    // The rule that a line breaks which could not be read.
    fn rule_of_line_fault(&self, fault: LineFault) -> Rule
        ensures { result ≡ rule_of_line_fault self.now fault }
    {
        match fault {
            LineFault::Text => Rule::Text,
            LineFault::Steps { .. } => Rule::Steps,
            LineFault::BadStart { .. } => match &self.stage {
                Stage::Begin => Rule::Start,
                _ => Rule::Form,
            },
            LineFault::BadSetup { number, side } => self
                .rule_of_label(Label::new(number, side))
                .unwrap_or(if is_playing(&self.stage) {
                    Rule::Form
                } else {
                    Rule::Setup
                }),
        }
    }

    // The rule that a line breaks which could not be read, wherever it stands.
    fn rule_at_fault(&self, fault: LineFault) -> Rule
        ensures { rule_at self.now (Err fault) ≡ Some result }
    {
        if self.closed {
            Rule::After
        } else {
            self.rule_of_line_fault(fault)
        }
    }

    // Begins the game at the board of a start line, unless the line breaks a rule.
    fn start(
        &mut self,
        alloc: Global,
        label: Label,
        board: Board,
    ) -> Result<Option<Rule>, AllocError>
        requires { IsFit board }
        ensures { IfOk result (λ broken. Accepts self.old (rule_of_start self.old)
            (with_start self.old label board) broken self.new) }
    {
        match &self.stage {
            Stage::Begin => (),
            _ => return Ok(Some(Rule::Form)),
        }
        let side = label.side;
        self.stage = Stage::Playing(Game::from_start(alloc, Position { board, side })?);
        self.due = label;
        Ok(None)
    }

    // Places a setup, unless the line breaks a rule: the first is Gold's, and with the second the
    // game begins.
    fn place(
        &mut self,
        alloc: Global,
        label: Label,
        setup: Setup,
    ) -> Result<Option<Rule>, AllocError>
        requires { setup.color ≡ label.side }
        ensures { IfOk result (λ broken. Accepts self.old (rule_of_setup self.old label)
            (with_setup self.old setup) broken self.new) }
    {
        if let Some(rule) = self.rule_of_label(label) {
            return Ok(Some(rule));
        }
        let stage = match &self.stage {
            Stage::Begin => Stage::GoldPlaced(setup),
            Stage::GoldPlaced(gold) => Stage::Playing(Game::from_setups(alloc, gold, &setup)?),
            Stage::Playing(_) => return Ok(Some(Rule::Form)),
        };
        self.stage = stage;
        self.due = self.due.next();
        Ok(None)
    }

    // Plays a turn, unless the line breaks a rule.
    fn play(&mut self, label: Label, noted: &Noted) -> Result<Option<Rule>, AllocError>
        ensures { IfOk result
            (λ broken. Accepts self.old (rule_of_turn_line self.old label noted.now)
            (with_played self.old (noted_turn noted.now)) broken self.new) }
    {
        if let Some(rule) = self.rule_of_label(label) {
            return Ok(Some(rule));
        }
        match &mut self.stage {
            Stage::Playing(game) => {
                let broken = play_turn(game, noted)?;
                if broken.is_none() {
                    self.repeated = repeated_after(self.due, self.repeated, game.turns());
                    self.due = self.due.next();
                }
                Ok(broken)
            }
            _ => Ok(Some(Rule::Form)),
        }
    }

    // Takes the last turn back, unless the line breaks a rule: the label of that turn is due again.
    fn take_back(&mut self, label: Label) -> Option<Rule>
        ensures { Accepts self.old (rule_of_takeback self.old label)
            (with_turn_back self.old) result self.new }
    {
        if let Some(rule) = self.rule_of_label(label) {
            return Some(rule);
        }
        match &mut self.stage {
            Stage::Playing(game) => {
                if !take_back(game) {
                    return Some(Rule::Takeback);
                }
                (self.due, self.repeated) = label_taken_back(self.due, self.repeated);
                None
            }
            _ => Some(Rule::Takeback),
        }
    }

    // Closes the record by a word, unless the line breaks a rule: the side that is due has lost.
    fn close(&mut self, label: Label, word: Word) -> Option<Rule>
        ensures { Accepts self.old (rule_of_label self.old label)
            (with_closing self.old word) result self.new }
    {
        let broken = self.rule_of_label(label);
        if broken.is_none() {
            self.word = Some(word.against(side_due(&self.stage, self.due)));
            self.closed = true;
        }
        broken
    }

    // Closes the record without a word, unless the label is not the one due.
    fn break_off(&mut self, label: Label) -> Option<Rule>
        ensures { Accepts self.old (rule_of_bare self.old label)
            (with_bare self.old) result self.new }
    {
        if !same_label(self.due, label) {
            return Some(Rule::Number);
        }
        self.closed = true;
        None
    }

    // Takes a line where no line has closed the record, unless it breaks a rule, and answers that
    // rule.
    fn take_open(&mut self, alloc: Global, line: RecordLine) -> Result<Option<Rule>, AllocError>
        requires { IsGranted line }
        ensures { IfOk result (λ broken. Accepts self.old (rule_of_line self.old line)
            (after_line self.old line) broken self.new) }
    {
        match line {
            RecordLine::Blank => Ok(None),
            RecordLine::Start {
                number,
                side,
                board,
            } => self.start(alloc, Label::new(number, side), board),
            RecordLine::Setup {
                number,
                side,
                setup,
            } => self.place(alloc, Label::new(number, side), setup),
            RecordLine::Turn {
                number,
                side,
                noted,
            } => self.play(Label::new(number, side), &noted),
            RecordLine::Closing { number, side, word } => {
                Ok(self.close(Label::new(number, side), word))
            }
            RecordLine::Bare { number, side } => Ok(self.break_off(Label::new(number, side))),
            RecordLine::Takeback { number, side } => {
                Ok(self.take_back(Label::new(number, side)))
            }
        }
    }

    // Takes a line that could be read, unless it breaks a rule, and answers that rule.
    fn take(&mut self, alloc: Global, line: RecordLine) -> Result<Option<Rule>, AllocError>
        requires { IsGranted line }
        ensures { IfOk result (λ broken. Accepts self.old (rule_at self.old (Ok line))
            (after_line self.old line) broken self.new) }
    {
        if self.closed {
            Ok(rule_after_closing(&line))
        } else {
            self.take_open(alloc, line)
        }
    }

    /// Takes a line, unless it breaks a rule, and answers that rule.
    pub fn take_line(&mut self, alloc: Global, line: &[u8]) -> Result<Option<Rule>, AllocError>
        ensures { IfOk result (λ broken. TakesLine self.old line.now broken self.new) }
    {
        match read_line(line) {
            Ok(line) => self.take(alloc, line),
            Err(fault) => Ok(Some(self.rule_at_fault(fault))),
        }
    }

    /// The judgement of a record that ends so.
    pub fn judged(self, alloc: Global) -> Judged
        ensures value { result ≡ lawful_of self }
        ensures fit { HasFitBoards result }
        ensures lawful { HasLawfulTurns result }
        ensures counted { HasTurnCount result }
        ensures ended { HasEnding result }
    {
        let ending = declared_or(self.word, ending_in(&self.stage));
        let turns = turns_in(&self.stage);
        let RecordState {
            stage,
            due,
            repeated: _,
            closed: _,
            word: _,
        } = self;
        Judged::Lawful {
            history: history_in(alloc, stage),
            turns,
            ending,
            next: due,
        }
    }
}
