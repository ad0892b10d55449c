//! What the checker answers.
use arimaa_board::Position;

/// Why an entry of a strategy is faulty, or the root. The first reason in this order is told.
#[derive(Clone, Copy, Debug, PartialEq, Eq)]
pub enum Why {
    /// An earlier entry has its position.
    Twice,
    /// Its position is decided by the rules.
    Decided,
    /// Its turn or a removal mark is wrong on its position, or the turn leads to a barred position.
    Turn,
    /// The turn leads to a position that is decided for the defender.
    Lost,
    /// The turn leads to an undecided position with a reply that is decided for the defender, or is
    /// undecided and has no entry.
    Reply,
    /// Its rank is not one more than that of the position that the turn leads to.
    Rank,
    /// The root is decided for the defender, or is undecided and has no entry, or has a reply as
    /// under `Reply`.
    Root,
    /// The rank of the root is above the number of turns that is asked about.
    Deep,
}

/// What the checker finds of a strategy.
#[derive(Clone, Copy, Debug, PartialEq, Eq)]
pub enum Checked {
    /// Every entry and the root are good, and this is the rank of the root.
    Accepted { rank: u8 },
    /// This entry, counted from 1, is the first faulty one, or the root, as entry 0, where every
    /// entry is good; and this is its first fault.
    Refused { entry: u64, why: Why },
    /// The replies to this position are more than the region has room for, and everything before it
    /// is good.
    Crowded { position: Position },
}
