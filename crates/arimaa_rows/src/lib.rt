//! Worked examples: what the commands answer to words and inputs that were worked out by hand from
//! the rules, and what they do where the outside fails. There is nothing here but tests.
#![tactic(auto)]

#[cfg(test)]
mod escapes;
#[cfg(test)]
mod faults;
#[cfg(test)]
mod matches;
#[cfg(test)]
mod pieces;
#[cfg(test)]
mod questions;
#[cfg(test)]
mod records;
#[cfg(test)]
mod rows;
#[cfg(test)]
mod runs;
#[cfg(test)]
mod strategies;
#[cfg(test)]
mod takebacks;
#[cfg(test)]
mod words;
