//! What is ruled on the answers of a match: the game, the accounts, the record and the log.
ghost use Rattle.std.specs.Prelude.{◌≡◌, true, OnOk};
ghost use Rattle.std.specs.Str.{bytes_eq};
ghost use Rattle.arimaa_clock.specs.Account.{answer_of};
ghost use Rattle.arimaa_judge.specs.RecordState.{is_playing};
ghost use Rattle.arimaa_match.specs.MatchState.{HasRuled, Places, account_of, before_match, booking, broken_off, loss_by_word, in_time, is_over, is_over_limit, is_resignation, line_of, with_time_logged, lost_by, made_by, ruling, ruling_of, side_due, with_time_spent, turn_written, unless_over, with_line};
ghost use Rattle.arimaa_match.specs.Phases.{IsPlaced};

use crate::ending::{MatchCause, Verdict};
use crate::game::{Phase, ending_in, make, place};
use crate::log::{Booked, Bookings};
use arimaa_aei::Command;
use arimaa_board::{Color, Noted, Setup, Word};
use arimaa_clock::{Account, Spend};
use arimaa_notation::{read_setup, read_turn};
use arimaa_record::{Label, Record, RecordLine};
use arimaa_time::{Control, GameLimit};
use std::alloc::{AllocError, Global};
use std::marker::Model;

/// The most turns of a match.
const MOST_TURNS: u64 = 100_000;

/// The state of a match between two answers.
#[derive(Drop)]
pub struct Umpire {
    alloc: Global,
    control: Control,
    gold_account: Account,
    silver_account: Account,
    phase: Phase,
    // the turns that were booked
    turns: u64,
    // the label of the setup or turn that is due
    due: Label,
    written: Record,
    log: Bookings,
    // the sum of the times used
    used: u64,
}

impl Model for Umpire {
    ghost use Rattle.std.specs.Prelude.{◌≡◌, ◌≤◌, false, None, length};
    ghost use Rattle.arimaa_match.specs.MatchState.{MatchState, turn_labels};
    ghost use Rattle.arimaa_match.specs.Phases.{IsKept, gold_of, history_of};

    ghost Value = { MatchState };

    ghost view = { λ u. record {
      control = u.control;
      gold_account = u.gold_account;
      silver_account = u.silver_account;
      game = record {
        gold = gold_of u.phase;
        history = history_of u.phase;
        labels = turn_labels u.written;
        due = u.due;
        closed = false;
        word = None;
      };
      lines = u.written;
      log = u.log;
      used = u.used;
    } };

    // Each turn has its line, and no other line is one.
    ghost invariant = { λ u. IsKept u.phase u.due.side × (u.turns ≤ length u.written)
        × (u.turns ≡ length (turn_labels u.written)) };
}

// Whether a text is one of the two by which a side resigns.
fn is_resignation(words: &[u8]) -> bool
    ensures { result ≡ is_resignation words.now }
{
    same(words, b"resign") || same(words, b"resigns")
}

// Whether two texts are the same.
fn same(left: &[u8], right: &[u8]) -> bool
    ensures { result ≡ bytes_eq left.now right.now }
{
    left == right
}

// Whether the limit of the game is reached by this time or so many turns.
fn is_over_limit(game: &GameLimit, used: u64, turns: u64) -> bool
    ensures { result ≡ is_over_limit game.now used turns }
{
    match game {
        GameLimit::None => false,
        GameLimit::Time(most) => *most <= used,
        GameLimit::Turns(most) => u64::from(*most) <= turns,
    }
}

impl Umpire {
    /// Before the first setup.
    pub fn new(alloc: Global, control: &Control) -> Umpire
        ensures { result ≡ before_match control.now }
    {
        Umpire {
            alloc,
            control: *control,
            gold_account: Account::new(control),
            silver_account: Account::new(control),
            phase: Phase::SettingUp(None),
            turns: 0,
            due: Label::new(1, Color::Gold),
            written: Record::new(alloc),
            log: Bookings::new(alloc),
            used: 0,
        }
    }

    /// The side whose setup or turn is due.
    pub fn side(&self) -> Color
        ensures { result ≡ side_due self.now }
    {
        self.due.side
    }

    /// Gold's reserve, in milliseconds.
    pub fn gold_reserve(&self) -> u64
        ensures { result ≡ self.now.gold_account.reserve }
    {
        self.gold_account.reserve()
    }

    /// Silver's reserve, in milliseconds.
    pub fn silver_reserve(&self) -> u64
        ensures { result ≡ self.now.silver_account.reserve }
    {
        self.silver_account.reserve()
    }

    /// Ends the record with the label that is due alone.
    #[tactic(auto, using(crate::proofs::TurnLabels::labels_bare))]
    pub fn break_off(&mut self) -> Result<(), AllocError>
        ensures { OnOk result (self.new ≡ broken_off self.old) }
    {
        let Label { number, side } = self.due;
        self.written.push(RecordLine::Bare { number, side })
    }

    /// What is ruled on the answer of the side that is due, by its text and the time that it took.
    ///
    /// The account is spent first. In time, a resignation comes first, and then what is no lawful
    /// setup or turn; everything else is booked.
    pub fn answered(&mut self, used: u64, words: &[u8]) -> Result<Verdict, AllocError>
        ensures { HasRuled (ruling self.old used words.now) self.new result }
    {
        match self.spend(used) {
            Spend::Out => self.lose(Word::Time, MatchCause::Time),
            Spend::Kept { reserve: _ } => self.in_time(used, words),
        }
    }

    // Spends the account of the side that is due.
    fn spend(&mut self, used: u64) -> Spend
        ensures answer { result ≡ answer_of (account_of self.old (side_due self.old)) used }
        ensures spent { self.new ≡ with_time_spent self.old used }
    {
        match self.due.side {
            Color::Gold => self.gold_account.spend(used),
            Color::Silver => self.silver_account.spend(used),
        }
    }

    // The reserve of the side that is due.
    fn reserve(&self) -> u64
        ensures { result ≡ (account_of self.now (side_due self.now)).reserve }
    {
        match self.due.side {
            Color::Gold => self.gold_account.reserve(),
            Color::Silver => self.silver_account.reserve(),
        }
    }

    // The side that is due loses by a word.
    #[tactic(auto, using(crate::proofs::TurnLabels::labels_closing))]
    fn lose(&mut self, word: Word, cause: MatchCause) -> Result<Verdict, AllocError>
        ensures { HasRuled (lost_by self.old (loss_by_word self.old word) cause) self.new result }
    {
        let Label { number, side } = self.due;
        let line = RecordLine::Closing { number, side, word };
        match self.written.push(line) {
            Err(e) => Err(e),
            Ok(()) => Ok(Verdict::Won {
                winner: side.other(),
                cause,
            }),
        }
    }

    // The answer of the side that is due is no lawful setup or turn.
    fn refuse(&mut self) -> Result<Verdict, AllocError>
        ensures { HasRuled (lost_by self.old
            (broken_off self.old) MatchCause.Illegal) self.new result }
    {
        let winner = self.due.side.other();
        match self.break_off() {
            Err(e) => Err(e),
            Ok(()) => Ok(Verdict::Won {
                winner,
                cause: MatchCause::Illegal,
            }),
        }
    }

    // What is ruled on an answer in time.
    fn in_time(&mut self, used: u64, words: &[u8]) -> Result<Verdict, AllocError>
        ensures { HasRuled (in_time self.old used words.now) self.new result }
    {
        if is_resignation(words) {
            self.lose(Word::Resigns, MatchCause::Resign)
        } else {
            self.rule(used, words)
        }
    }

    // What is ruled on a setup or turn.
    fn rule(&mut self, used: u64, words: &[u8]) -> Result<Verdict, AllocError>
        ensures { HasRuled (ruling_of self.old used (made_by self.old words.now)) self.new result }
    {
        match &mut self.phase {
            Phase::SettingUp(gold) => match read_setup(words, self.due.side) {
                Err(_) => self.refuse(),
                Ok(setup) => match place(self.alloc, gold, &setup) {
                    Err(e) => Err(e),
                    Ok(phase) => self.book_setup(used, phase, setup),
                },
            },
            Phase::Playing(game) => match read_turn(words) {
                Err(_) => self.refuse(),
                Ok(noted) => match make(game, &noted) {
                    Err(e) => Err(e),
                    Ok(made) => match made {
                        None => self.refuse(),
                        Some(marked) => self.book_turn(used, marked),
                    },
                },
            },
        }
    }

    // Logs the time of what is booked.
    fn log_time(&mut self, used: u64) -> Result<(), AllocError>
        ensures { OnOk result (self.new ≡ with_time_logged self.old used) }
    {
        let side = self.due.side;
        let reserve = self.reserve();
        let booked = Booked {
            side,
            used,
            reserve,
        };
        match self.log.push(booked) {
            Err(e) => Err(e),
            Ok(()) => {
                self.used = self.used.saturating_add(used);
                Ok(())
            }
        }
    }

    // Books a setup, which brings the game to this phase.
    fn book_setup(&mut self, used: u64, phase: Phase, setup: Setup) -> Result<Verdict, AllocError>
        requires { IsPlaced self.old.game setup phase }
        ensures { HasRuled (booking (with_line (with_time_logged self.old used) (line_of self.old
            (Places setup)))
            (Command.MakeSetup setup)) self.new result }
    {
        match self.log_time(used) {
            Err(e) => Err(e),
            Ok(()) => match self.write_setup(phase, &setup) {
                Err(e) => Err(e),
                Ok(()) => self.after_booking(Command::MakeSetup(setup)),
            },
        }
    }

    // Adds the line of a setup, which brings the game to this phase.
    #[tactic(auto, using(crate::proofs::TurnLabels::labels_setup))]
    fn write_setup(&mut self, phase: Phase, setup: &Setup) -> Result<(), AllocError>
        requires { IsPlaced self.old.game setup.now phase }
        ensures { OnOk result (self.new ≡ with_line self.old (line_of self.old
            (Places setup.now))) }
    {
        let Label { number, side } = self.due;
        let setup = setup.copy();
        self.written.push(RecordLine::Setup {
            number,
            side,
            setup,
        })?;
        self.phase = phase;
        self.due = self.due.next();
        Ok(())
    }

    // Books a turn that the game has made already.
    fn book_turn(&mut self, used: u64, marked: Noted) -> Result<Verdict, AllocError>
        requires { is_playing self.old.game ≡ true }
        ensures { HasRuled (booking (turn_written (with_time_logged self.old used) marked)
            (Command.MakeMove marked)) self.new result }
    {
        match self.log_time(used) {
            Err(e) => Err(e),
            Ok(()) => match self.write_turn(&marked) {
                Err(e) => Err(e),
                Ok(()) => self.after_booking(Command::MakeMove(marked)),
            },
        }
    }

    // Adds the line of a turn that the game has made already.
    #[tactic(auto, using(crate::proofs::TurnLabels::labels_turn))]
    fn write_turn(&mut self, marked: &Noted) -> Result<(), AllocError>
        requires { is_playing self.old.game ≡ true }
        ensures { OnOk result (self.new ≡ turn_written self.old marked.now) }
    {
        let Label { number, side } = self.due;
        let noted = marked.copy();
        self.written.push(RecordLine::Turn {
            number,
            side,
            noted,
        })?;
        let _lines = self.written.lines().len();
        self.turns += 1;
        self.due = self.due.next();
        Ok(())
    }

    // Whether the limit of the game is reached, or that of every match.
    fn is_over(&self) -> bool
        ensures { result ≡ is_over self.now }
    {
        is_over_limit(&self.control.game, self.used, self.turns) || self.turns >= MOST_TURNS
    }

    // What follows on a booking.
    fn after_booking(&mut self, command: Command) -> Result<Verdict, AllocError>
        ensures { HasRuled (booking self.old command) self.new result }
    {
        match ending_in(&self.phase) {
            Some(ending) => Ok(Verdict::Won {
                winner: ending.winner,
                cause: MatchCause::Rules(ending.cause),
            }),
            None => self.unless_over(command),
        }
    }

    // What follows on a booking that has not ended the game.
    fn unless_over(&mut self, command: Command) -> Result<Verdict, AllocError>
        ensures { HasRuled (unless_over self.old command) self.new result }
    {
        if self.is_over() {
            match self.break_off() {
                Err(e) => Err(e),
                Ok(()) => Ok(Verdict::Limit),
            }
        } else {
            Ok(Verdict::Moved(command))
        }
    }

    /// The record and the log.
    pub fn into_parts(self) -> (Record, Bookings)
        ensures written { result.0 ≡ self.lines }
        ensures log { result.1 ≡ self.log }
    {
        let Umpire { written, log, .. } = self;
        (written, log)
    }
}
