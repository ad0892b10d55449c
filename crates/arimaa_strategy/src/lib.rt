//! Strategies for wins by force: their texts, and a checker that trusts no prover.
#![tactic(auto)]

mod check_answer;
mod checker;
mod entry_line;
mod fault;
mod look;
mod queue;
mod reader;
mod strategy;
#[cfg(test)]
mod tests;
mod written_form;

pub use arimaa_forced::Entry;
pub use check_answer::{Checked, Why};
pub use checker::{check, led_to};
pub use entry_line::read_board_and_turn;
pub use fault::StrategyFault;
pub use queue::{meet, meet_all};
pub use reader::read_strategy;
pub use strategy::Strategy;
pub use written_form::strategy_text;
