//! The search for forced wins at any depth, over a table of lines that threads may share.
#![tactic(auto)]

mod answer;
mod at_ease;
mod first_reply;
mod leaf;
mod line;
mod search;
mod stop;
#[cfg(test)]
mod tests;
mod worker;

pub use answer::Asked;
pub use worker::Worker;
