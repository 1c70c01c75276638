//! The tests of scripts, in a crate above them: so what they have proved isn't proved once more for them.
#![tactic(auto)]

#[cfg(test)]
mod banks;
#[cfg(test)]
mod checks;
#[cfg(test)]
mod desks;
#[cfg(test)]
mod faltering;
#[cfg(test)]
mod fixed;
#[cfg(test)]
mod growths;
#[cfg(test)]
mod long_texts;
#[cfg(test)]
mod memory;
#[cfg(test)]
mod paced;
#[cfg(test)]
mod rest;
#[cfg(test)]
mod rows;
#[cfg(test)]
mod shared;
#[cfg(test)]
mod stopping;
#[cfg(test)]
mod texts;
#[cfg(test)]
mod unheard;
