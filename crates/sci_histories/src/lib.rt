//! Histories: the receipts of a memory's lines, their text and its reader, and the check that the receipts of each line are one history
//! of it.
#![tactic(auto)]

mod checking;
mod histories;
mod ranges;
mod reader;
mod rows;
mod rules;
mod tables;
mod writing;

pub use checking::check_history;
pub use histories::{History, LineHistory, NodeReceipts};
pub use reader::read_history;
pub use rules::{Rule, Verdict};
pub use writing::history_text;
