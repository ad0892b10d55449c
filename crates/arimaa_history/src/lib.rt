//! The positions of a game, and those that no turn may bring about any more.
#![tactic(auto)]

mod barred_positions;
mod history;
mod key;

pub use barred_positions::Barred;
pub use history::History;
pub use key::Key;
