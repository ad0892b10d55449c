//! What the checker of escapes answers.
use arimaa_board::Position;

/// Why an escape is faulty, or the root. The first flaw in this order is told.
#[derive(Clone, Copy, Debug, PartialEq, Eq)]
pub enum Flaw {
    /// An earlier escape has its position.
    Twice,
    /// Its position is decided by the rules.
    Decided,
    /// Its turn or a removal mark is wrong on its position, or the turn leads to a barred position.
    Turn,
    /// The turn leads to a position that is decided for the attacker.
    Lost,
    /// The turn leads to an undecided position with a reply that is not safe for the turns that are
    /// then left.
    Reply,
    /// The root is not held for the number of turns that is asked about.
    Root,
}

/// What the checker finds of a list of escapes.
#[derive(Clone, Copy, Debug, PartialEq, Eq)]
pub enum Verified {
    /// Every escape is good, and they hold the root.
    Accepted,
    /// This escape, counted from 1, is the first faulty one, or the root, as entry 0, where every
    /// escape is good; and this is its first flaw.
    Refused { entry: u64, why: Flaw },
    /// The replies to this position are more than the region has room for, and everything before it
    /// is good.
    Crowded { position: Position },
}
