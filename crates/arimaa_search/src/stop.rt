//! Why a search stops without a verdict.

/// What ran out.
#[derive(Clone, Copy, Debug, PartialEq, Eq)]
pub(crate) enum Stop {
    /// The budget of questions.
    Spent,
    /// The places of the region.
    Crowded,
}
