//! Escapes: what the defender plays so that the attacker doesn't win by force.
//!
//! A list of escapes shows that a position is not won within a number of turns, as a strategy shows
//! that it is. The definitions stand in `specs/`.
#![tactic(auto)]

mod asker;
mod escape;
mod escape_line;
mod escapes;
mod evasion;
mod failure;
mod fault;
mod laws;
mod look;
mod maker;
mod place;
mod queue;
mod reader;
mod refutation;
#[cfg(test)]
mod refutation_tests;
mod refute_answer;
#[cfg(test)]
mod tests;
mod verifier;
#[cfg(test)]
mod verifier_tests;
mod verify_answer;
mod written_form;

pub use escape::Escape;
pub use escapes::Escapes;
pub use fault::EscapeFault;
pub use laws::{held_roots_are_not_won, own_escapes_hold};
pub use reader::read_escapes;
pub use refutation::refute;
pub use refute_answer::Refuted;
pub use verifier::verify;
pub use verify_answer::{Flaw, Verified};
pub use written_form::escapes_text;
