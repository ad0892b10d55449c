//! The fault of a side's session.
use arimaa_board::Color;
use arimaa_engine::EngineFault;

/// The fault of a side's session.
#[derive(Drop)]
pub struct SideFault {
    /// The side.
    pub side: Color,
    /// The fault, never `Memory`.
    pub fault: EngineFault,
}
