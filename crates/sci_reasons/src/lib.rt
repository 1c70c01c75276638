//! Why a text is refused as a dump or a history, in words
#![tactic(auto)]

mod places;
mod reasons;
mod rows;
mod why;

pub use places::{Due, HistoryPlace, Stage};
pub use reasons::RowFault;
pub use why::{why_dump, why_history, why_row};
