//! The account that a side's time is booked to.
use arimaa_time::Control;
use std::marker::Model;

/// No reserve grows above this, in milliseconds: some 36 million years.
const HIGHEST_RESERVE: u64 = 1 << 60;

/// What comes of the time that a turn took.
#[derive(Clone, Copy, Debug, PartialEq, Eq)]
pub enum Spend {
    /// The turn was made in time, and so many milliseconds are in reserve now.
    Kept { reserve: u64 },
    /// The side's time has run out.
    Out,
}

/// One side's time under a time control.
///
/// A turn has its own time. What it takes beyond that is taken from the reserve, and of what it
/// leaves unused a percentage is added to the reserve.
#[derive(Debug, Drop)]
pub struct Account {
    control: Control,
    reserve: u64,
}

impl Model for Account {
    ghost use Rattle.arimaa_clock.specs.ClockState.{Standing};

    ghost Value = { Standing };

    ghost view = { λ a. record { control = a.control; reserve = a.reserve } };
}

impl Account {
    ghost use Rattle.std.specs.Prelude.{◌≡◌, ◌↔◌, ◌^◌, ◌+◌, List, [], ◌∷◌, ◌++◌, ℕ, ◌<◌, ◌≤◌};
    ghost use Rattle.arimaa_time.specs.declared.control.Control.{Control as TimeControl};
    ghost use Rattle.arimaa_clock.specs.Account.{IsOut, IfKept, is_out, new_account, account_once_booked, answer_of, account_after};
    ghost use Rattle.arimaa_clock.specs.Reserve.{ceiling_of, gain_of, grown_reserve, reserve_after};

    /// An account with the reserve that the time control starts with.
    pub fn new(control: &Control) -> Account
        ensures { result ≡ new_account control.now }
    {
        Account {
            control: *control,
            reserve: control.reserve,
        }
    }

    /// The time in reserve, in milliseconds.
    pub fn reserve(&self) -> u64
        ensures { result ≡ self.now.reserve }
    {
        self.reserve
    }

    /// Books a turn that took `used` milliseconds.
    ///
    /// The time is `Out` where the turn took more than its own time and the whole reserve, or more
    /// than the control lets one turn take. The account then stays as it was.
    pub fn spend(&mut self, used: u64) -> Spend
        ensures out { (result ≡ Spend.Out) ↔ IsOut self.old used }
        ensures answer { result ≡ answer_of self.old used }
        ensures step { self.new ≡ account_once_booked self.old used }
        ensures unchanged { result ≡ Spend.Out → self.new ≡ self.old }
        ensures kept { IfKept result (λ reserve. reserve ≡ self.new.reserve) }

        // What goes beyond the turn's own time is paid from the reserve.
        ensures pays { IfKept result (λ reserve. self.old.control.turn ≤ used
            → reserve + used ≡ self.old.reserve + self.old.control.turn) }

        // Over all turns so far the account is the fold of the times that they took.
        ensures fold { (control : TimeControl) (times : List ℕ)
            → self.old ≡ account_after control times
            → self.new ≡ account_after control (times ++ used ∷ []) }
    {
        if self.is_out(used) {
            return Spend::Out;
        }
        let reserve = self.after(used);
        self.reserve = reserve;
        Spend::Kept { reserve }
    }

    // Whether a turn that takes so long is out of time.
    fn is_out(&self, used: u64) -> bool
        ensures { result ≡ is_out self.now used }
    {
        used.saturating_sub(self.control.turn) > self.reserve
            || self.control.limit > 0 && used > self.control.limit
    }

    // The reserve after a turn in time.
    fn after(&self, used: u64) -> u64
        ensures { result ≡ reserve_after self.now.control self.now.reserve used }
    {
        if used >= self.control.turn {
            self.reserve.saturating_sub(used - self.control.turn)
        } else {
            self.grown(used)
        }
    }

    // The reserve with what a turn leaves of its own time.
    fn grown(&self, used: u64) -> u64
        ensures { result ≡ grown_reserve self.now.control self.now.reserve used }
    {
        let full = self.ceiling().max(self.reserve);
        let grown = u128::from(self.reserve) + self.gain(used);
        grown.min(u128::from(full)) as u64
    }

    // What a turn leaves of its own time, in part.
    fn gain(&self, used: u64) -> u128
        ensures value { result ≡ gain_of self.now.control used }
        ensures fits { result < 2 ^ 72 }
    {
        let unused = self.control.turn.saturating_sub(used);
        u128::from(unused) * u128::from(self.control.percent) / 100
    }

    // Where the growth of the reserve ends.
    fn ceiling(&self) -> u64
        ensures value { result ≡ ceiling_of self.now.control }
        ensures most { result ≤ 2 ^ 60 }
    {
        if self.control.cap == 0 {
            HIGHEST_RESERVE
        } else {
            self.control.cap.min(HIGHEST_RESERVE)
        }
    }
}
