//! How a command ended.
ghost use Rattle.std.specs.Prelude.{◌≡◌};
ghost use Rattle.arimaa_outside.specs.Status.{exit_code};

/// How a command ended, which its exit code tells.
#[derive(Clone, Copy, Debug, PartialEq, Eq)]
pub enum Status {
    /// Lawful, shown, yes, accepted, read, made, or a match ended.
    Done = 0,
    /// The answer is no, or names a fault of the record, the strategy or the time control.
    Answered = 1,
    /// The words of the command line are not in form.
    Words = 2,
    /// A read failed.
    ReadFault = 3,
    /// A write failed.
    WriteFault = 4,
    /// An engine failed, ended or broke the protocol.
    EngineFault = 5,
    /// A question costs more than the budget.
    Spent = 6,
    /// A question needs more positions than there is room for.
    Crowded = 7,
    /// No memory was left. Nothing was written.
    Memory = 8,
    /// The input has more than 67,108,864 bytes.
    TooLong = 9,
}

impl Status {
    /// The exit code of the process.
    pub fn code(self) -> u8
        ensures { result ≡ exit_code self }
    {
        self as u8
    }
}
