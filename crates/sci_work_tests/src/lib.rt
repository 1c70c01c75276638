//! The tests of workloads, in a crate above them: so what they have proved isn't proved once more for them.
#![tactic(auto)]

#[cfg(test)]
mod checks;
#[cfg(test)]
mod doors;
#[cfg(test)]
mod gates;
#[cfg(test)]
mod growths;
#[cfg(test)]
mod locked;
#[cfg(test)]
mod lowest;
#[cfg(test)]
mod meeting;
#[cfg(test)]
mod overrun;
#[cfg(test)]
mod receipts;
#[cfg(test)]
mod refusals;
#[cfg(test)]
mod rings;
#[cfg(test)]
mod runs;
#[cfg(test)]
mod turns;
