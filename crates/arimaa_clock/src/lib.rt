//! The clock of one side: its reserve of time, turn after turn. No call takes memory.
#![tactic(auto)]

mod account;
#[cfg(test)]
mod tests;

pub use account::{Account, Spend};
