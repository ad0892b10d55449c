//! What the commands do where the world fails them: reads, writes and calls of engines that fail,
//! engines that say what they should not, and inputs that are cut. There is nothing here but tests.
#![tactic(auto)]

#[cfg(test)]
mod cuts;
#[cfg(test)]
mod engines;
#[cfg(test)]
mod reads_and_writes;
#[cfg(test)]
mod runs;
