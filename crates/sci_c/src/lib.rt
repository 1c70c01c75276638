//! The table of exchanges for simulators in C, which keep the line's words, steps and bytes in their own memory: `sci.h` has the calls.
//!
//! All that crosses is plain numbers and `repr(C)` structs of them. No call allocates or keeps anything. Each export tests what it is
//! given, and answers 0, or the number of a [`Fault`] and changes nothing.
#![tactic(auto)]

mod asking;
mod events;
mod faults;
mod lines;
mod links;
mod parts;
mod rows;
mod steps;
mod table;
#[cfg(test)]
mod tests;
mod words;

pub use events::EventNumbers;
pub use faults::Fault;
pub use lines::LineNumbers;
pub use rows::RowNumbers;
pub use steps::StepNumbers;
pub use words::{MemNumbers, TagNumbers};
