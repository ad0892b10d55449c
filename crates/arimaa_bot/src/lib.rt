//! A bot: an engine of the Arimaa Engine Interface that plays the wins that it can prove.
//!
//! It hears its controller's lines over a port and answers them one by one. Where it is asked for a
//! turn it looks for a forced win within its depth, and plays the turn of its strategy; elsewhere
//! it plays the first turn that doesn't lose at once.
#![tactic(auto)]

mod bot_end;
mod choice;
mod lookahead;
mod outgoing;
mod plain;
mod reply;
mod session;
mod stage;

pub use bot_end::BotEnd;
pub use lookahead::Lookahead;
pub use session::{MOST_LINES, run_bot};
