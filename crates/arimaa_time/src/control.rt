//! The values of a time control.

/// How long a game may last.
#[derive(Clone, Copy, Debug, PartialEq, Eq)]
pub enum GameLimit {
    /// As long as it takes.
    None,
    /// Until the times used by both sides add up to so many milliseconds.
    Time(u64),
    /// Until both sides together have made so many turns.
    Turns(u32),
}

/// A time control. All times are in milliseconds.
#[derive(Clone, Copy, Debug, PartialEq, Eq)]
pub struct Control {
    /// The time that a side is given for each turn.
    pub turn: u64,
    /// The time in reserve at the start, which a turn that takes longer uses up.
    pub reserve: u64,
    /// How much of a turn's unused time is added to the reserve, in percent.
    pub percent: u8,
    /// What the reserve may grow to, 0 for no such limit.
    pub cap: u64,
    /// How long the game may last.
    pub game: GameLimit,
    /// The most that one turn may take, 0 for no such limit.
    pub limit: u64,
}
