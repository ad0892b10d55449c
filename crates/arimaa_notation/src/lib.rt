//! Turns and setups of Arimaa as game records write them.
#![tactic(auto)]

mod fault;
mod items;
mod laws;
mod letters;
mod number;
mod setup;
mod turn;
mod writer;

pub use fault::NoteFault;
pub use items::{first_item, is_blank, trim, trim_start};
pub use laws::{setups_apart, turns_apart};
pub use number::read_number;
pub use setup::read_setup;
pub use turn::read_turn;
pub use writer::{setup_text, turn_text};

#[cfg(test)]
mod tests;
