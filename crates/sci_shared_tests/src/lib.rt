//! The tests of lines that threads share, and of caches, in a crate above them: so what they have proved isn't proved once more for them.
#![tactic(auto)]

#[cfg(test)]
mod cache;
#[cfg(test)]
mod checks;
#[cfg(test)]
mod coarse;
#[cfg(test)]
mod events;
#[cfg(test)]
mod lines;
pub mod plain;
#[cfg(test)]
mod receipts;
#[cfg(test)]
mod recorded;
#[cfg(test)]
mod replays;
