//! Logs of runs, each of whose lines is an event with its outcome: how they are written, and followed on lines of the table of exchanges.
#![tactic(auto)]

mod entries;
mod event_names;
mod event_text;
mod fields;
mod follower;
mod line_text;
mod lines;
mod log_desk;
mod logging;
mod logs;
mod meaning;
mod misfits;
mod parts;
mod runs;
mod seen;
mod streams;
mod tag_text;
mod told;
mod turn_text;
mod why;

pub use entries::{Claim, Deviation, Entry};
pub use line_text::{read_entry, read_memory, read_opening};
pub use lines::Follower;
pub use log_desk::LogDesk;
pub use logging::log;
pub use logs::{Log, LogFault};
pub use parts::{Lack, LineReason, Part};
pub use runs::Departure;
pub use seen::Seen;
pub use streams::{follow_text, follow_told};
pub use told::{Asks, Found, Noted, Told};
