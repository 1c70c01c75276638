//! A line that threads share, under one lock word: its seats, one per node, and their ports.
#![tactic(auto)]

mod bank;
mod calls;
mod closing;
mod laws;
mod line;
mod opening;
mod port;
mod regions;
mod seats;
mod standing;
mod stepping;
mod taking;
mod views;

pub use bank::{CoarseBank, SeatOfAnother};
pub use closing::FinishRefusal;
pub use laws::{law_of_kept_receipts, law_of_one_run};
pub use line::CoarseLine;
pub use port::CoarsePort;
pub use seats::Seat;

/// What the calls of this crate are made of. It is public for the tests alone, which stand in a crate above.
#[doc(hidden)]
pub mod parts {
    pub use crate::taking::take_for_good;
}
