//! The settings of a prover.

/// How much a prover may use.
#[derive(Clone, Copy, Debug, PartialEq, Eq)]
pub struct Settings {
    /// How many workers ask at a time, 1 to 16.
    pub workers: u32,
    /// How many lines the table has that they share, 1 to 262,144.
    pub lines: u32,
    /// How many questions may be opened to answer one, 1 to 2^40.
    pub budget: u64,
    /// How many positions each worker may hold at once, 1 to 1,048,576. The prover's own list has
    /// the same room. Workers times room is at most 4,194,304.
    pub room: u32,
}
