//! How a session of the bot ends.
ghost use Rattle.std.specs.Prelude.{◌≡◌};
ghost use Rattle.arimaa_bot.specs.BotEnd.{exit_code};

/// How a session of the bot has ended.
#[derive(Clone, Copy, Debug, PartialEq, Eq)]
pub enum BotEnd {
    /// The controller said `quit`.
    Quit,
    /// The controller's lines have ended.
    Ended,
    /// The words are not in the bot's form. Nothing was heard.
    Words,
    /// The port failed.
    Fault,
    /// A line was too long.
    Long,
    /// So many lines were heard that the bot hears no more.
    Limit,
    /// No memory was left.
    Memory,
}

impl BotEnd {
    /// The exit status of the program.
    pub fn code(self) -> u8
        ensures { result ≡ exit_code self }
    {
        match self {
            BotEnd::Quit => 0,
            BotEnd::Ended => 1,
            BotEnd::Words => 2,
            BotEnd::Fault => 3,
            BotEnd::Long => 5,
            BotEnd::Limit => 6,
            BotEnd::Memory => 8,
        }
    }
}
