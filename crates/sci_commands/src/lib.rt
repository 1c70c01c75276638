//! The command line of `scisim`.
#![tactic(auto)]

mod arguments;
mod help;
mod options;

pub use arguments::{Named, asks_why};
pub use options::commands;
