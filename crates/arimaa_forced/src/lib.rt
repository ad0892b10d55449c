//! Wins by force: what it takes to find them out, and strategies that show them.
//!
//! The definitions stand in `specs/`. The functions here have no body: their clauses say what the
//! definitions keep.
#![tactic(auto)]

mod entry;
mod laws;

pub use entry::Entry;
pub use laws::{
    accepted_strategies_win, costs_are_within_sizes, costs_go_one_deeper, first_decisive_is_played,
    looks_end_at_the_first_decisive, marks_change_nothing, needs_are_within_the_root,
    needs_go_to_the_rank, own_strategies_are_accepted, trees_are_within_the_root,
    wins_go_one_deeper,
};
