//! How a match ends.
use crate::log::Bookings;
use arimaa_aei::Command;
use arimaa_board::{Cause, Color};
use arimaa_engine::EngineFault;
use arimaa_record::Record;

/// Why a side has won a match.
#[derive(Clone, Copy, Debug, PartialEq, Eq)]
pub enum MatchCause {
    /// The rules of the game ended it.
    Rules(Cause),
    /// The other side resigned.
    Resign,
    /// The other side's time ran out.
    Time,
    /// The other side's answer was no lawful setup or turn.
    Illegal,
}

/// How a match has ended.
#[derive(Drop)]
pub enum MatchEnd {
    /// A side has won.
    Won { winner: Color, cause: MatchCause },
    /// The limit of the game was reached: its time, its turns, or the 100,000 turns of every match.
    Limit,
    /// The session of a side broke. The fault is never `Memory`.
    Engine { side: Color, fault: EngineFault },
}

/// What comes of a side's answer.
#[derive(Drop)]
pub enum Verdict {
    /// A setup or turn was booked, which both engines are to be told by this command.
    Moved(Command),
    /// A side has won.
    Won { winner: Color, cause: MatchCause },
    /// The limit of the game was reached.
    Limit,
}

/// A match that has ended.
#[derive(Drop)]
pub struct MatchDone {
    /// The record of the match: each setup and turn that was booked, and then, unless the rules
    /// ended the game, a closing line or a label alone.
    pub written: Record,
    /// How it has ended.
    pub ending: MatchEnd,
    /// The times of the setups and turns that were booked, in order.
    pub log: Bookings,
}
