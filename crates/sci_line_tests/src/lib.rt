//! The tests of the crates of one line, in a crate above them: so what they have proved isn't proved once more for them.
#![tactic(auto)]

#[cfg(test)]
mod checks;
#[cfg(test)]
mod dump;
#[cfg(test)]
mod events;
#[cfg(test)]
mod histories;
#[cfg(test)]
mod ops;
#[cfg(test)]
mod port;
#[cfg(test)]
mod reasons;
#[cfg(test)]
mod whole;
