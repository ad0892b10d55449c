//! The units that a part of a time is written in.
ghost use Rattle.std.specs.Prelude.{◌≡◌, ◌≤◌};
ghost use Rattle.arimaa_time.specs.TimeUnit.{letter_of, milliseconds_of};

/// A unit of time.
#[derive(Clone, Copy, Debug, PartialEq, Eq)]
pub enum TimeUnit {
    Day,
    Hour,
    Minute,
    Second,
}

/// The units of a time, in the order in which they are written.
pub const TIME_UNITS: [TimeUnit; 4] = [
    TimeUnit::Day,
    TimeUnit::Hour,
    TimeUnit::Minute,
    TimeUnit::Second,
];

/// The units of a game limit, in the order in which they are written.
pub const GAME_UNITS: [TimeUnit; 3] = [TimeUnit::Day, TimeUnit::Hour, TimeUnit::Minute];

impl TimeUnit {
    /// The letter behind a number of this unit.
    pub fn letter(self) -> u8
        ensures { result ≡ letter_of self }
    {
        match self {
            TimeUnit::Day => b'd',
            TimeUnit::Hour => b'h',
            TimeUnit::Minute => b'm',
            TimeUnit::Second => b's',
        }
    }

    /// How many milliseconds this unit has.
    pub fn milliseconds(self) -> u64
        ensures value { result ≡ milliseconds_of self }
        ensures small { result ≤ 86400000 }
    {
        match self {
            TimeUnit::Day => 24 * 60 * 60 * 1000,
            TimeUnit::Hour => 60 * 60 * 1000,
            TimeUnit::Minute => 60 * 1000,
            TimeUnit::Second => 1000,
        }
    }
}
