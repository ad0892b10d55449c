//! What a prover answers.
use arimaa_board::Position;
use arimaa_strategy::Strategy;

/// The answer to the question whether the attacker wins the present position within so many turns.
#[derive(Drop)]
pub enum Verdict {
    /// It wins.
    Yes {
        /// The least number of turns within which it does.
        rank: u8,
        /// What it plays: one entry for each undecided position with the attacker to move that may
        /// be met, in the order of first meeting.
        strategy: Strategy,
    },
    /// It does not.
    No,
    /// A question that is needed costs more than the budget.
    Spent {
        /// The position that it is about.
        position: Position,
        /// The number of turns.
        depth: u8,
        /// The questions opened for it: the whole budget.
        counted: u64,
    },
    /// A question that is needed is more crowded than the room.
    Crowded {
        /// The position that it is about.
        position: Position,
        /// The number of turns.
        depth: u8,
    },
}
