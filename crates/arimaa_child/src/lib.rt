//! Engines that are child processes, and the clock of the system.
//!
//! They are the edge to the system: they tell nothing of content, so contracts speak of their
//! counts alone.
#![tactic(auto)]

mod clock;
mod spawner;

pub use clock::SystemClock;
pub use spawner::ChildSpawner;

#[cfg(test)]
mod tests;
