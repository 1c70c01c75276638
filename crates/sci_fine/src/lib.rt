//! A line that threads share, on separate words: one memory word, one tag word per node, and no lock. Its seats, one per
//! node, and their ports.
#![tactic(auto)]

mod bank;
mod closing;
mod codes;
mod laws;
mod line;
mod moving;
mod opening;
mod port;
mod seats;
mod standing;
mod stepping;
mod views;

pub use bank::{FineBank, SeatOfAnother};
pub use closing::FinishRefusal;
pub use laws::{law_of_kept_receipts, law_of_one_run};
pub use line::FineLine;
pub use port::FinePort;
pub use seats::Seat;
