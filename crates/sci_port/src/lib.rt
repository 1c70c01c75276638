//! One node's way to one line, or to all lines of a memory: the calls that operations are made of, whatever a line is kept in.
#![tactic(auto)]

mod at;
mod bank;
mod calls;
mod closing;
mod laws;
mod port;
mod receipted;
mod receipts;
mod seat_bank;
mod seat_port;
mod shared;
mod solo;
mod solo_bank;
mod watching;

pub use at::At;
pub use bank::Bank;
pub use calls::Call;
pub use closing::{FinishRefusal, Finished, are_one_per_node, room_for};
pub use laws::receipts_are_one_history;
pub use port::Port;
pub use receipted::Receipted;
pub use receipts::Receipts;
pub use sci_core::{AnyWords, Keeps};
pub use seat_bank::{SeatBank, SeatOfAnother};
pub use seat_port::SeatPort;
pub use shared::SharedLine;
pub use solo::Solo;
pub use solo_bank::SoloBank;
pub use watching::{Ending, Load, Passed, Watched, WatchedBank};
