//! Jobs that many seats claim, each job once, and the least of the jobs that they report.
//!
//! Two shared words say it all, without a lock: the number that is drawn next, and the least job
//! that was reported. A claim adds one to the first and draws the number that stood there; a number
//! below the count is a job. A report lowers the second.
//!
//! A seat is what one thread knows: the numbers that it drew and the jobs that it reported. The
//! seat into which all others were joined knows that no job was drawn twice, that the least word is
//! the least of its reported jobs, and that it drew each job below that one.
#![tactic(auto)]

mod jobs;
mod steps;
#[cfg(test)]
mod tests;
mod view;

pub use jobs::{JobSeat, Jobs};
pub use view::{Deal, SeatView};
