//! How a call of `receive` ended that has not failed.

/// What `receive` heard.
#[derive(Clone, Copy, Debug, PartialEq, Eq)]
pub enum Heard {
    /// A line.
    Line,
    /// Nothing more comes.
    Ended,
    /// A line of more than `LINE_LIMIT` bytes.
    Long,
}
