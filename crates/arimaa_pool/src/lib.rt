//! The prover of forced wins: the rank and the strategy of the present position of a game.
#![tactic(auto)]

mod asker;
mod chain_gate;
mod crew;
mod depths;
mod entries;
mod extraction;
mod failure;
mod gate;
mod meet_gate;
mod proof;
mod seat;
mod settings;
mod shift;
mod stop;
mod stopped_job;
mod verdict;
mod wait;

pub use chain_gate::ChainGate;
pub use gate::{Gate, NoGate};
pub use meet_gate::MeetGate;
pub use proof::prove;
pub use settings::Settings;
pub use verdict::Verdict;
