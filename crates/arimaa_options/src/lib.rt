//! The options of programs that search for wins by force: how far they look, and how much a search
//! may use.
#![tactic(auto)]

mod option_values;
mod search_options;
mod setting;

pub use option_values::read_up_to;
pub use search_options::{MOST_PLACES_OF_ALL, SearchOptions, read_options};
