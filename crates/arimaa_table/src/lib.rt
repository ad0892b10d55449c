//! A table of lines that many passes share, without a lock, and without memory of its own after it
//! is made.
//!
//! Each place of a table has a line and a turn count. The count starts at 0 and is odd exactly
//! while one pass holds the line. A call that finds an even count tries once to raise it by one;
//! where that succeeds, the call holds the line, reads or writes it, and gives it back by raising
//! the count again. Every line that is ever read is the empty one, or says bounds that are right
//! for the position that it names, in the table's context: its attacker and its barred positions.
//! All lines start empty.
#![tactic(auto)]

mod answers;
mod steps;
mod table;
mod view;

pub use answers::{Added, Looked, Put};
pub use table::{Table, TablePass};
pub use view::{Kind, PassView, PlaceView, Setting, Turns};
