//! Games of Arimaa, turn by turn: which turns may be played, and how a game ends.
#![tactic(auto)]

mod ending;
mod fault;
mod game;
mod setups;
#[cfg(test)]
mod tests;

pub use arimaa_model::{Cause, Ending, Word};
pub use fault::GameFault;
pub use game::Game;
