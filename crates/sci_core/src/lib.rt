//! One line of the shared memory: its words, its slots and the pending step of each node, and the events that change them.
#![tactic(auto)]

mod chains;
mod closing;
mod copies;
mod events;
mod keeps;
mod laws;
mod line_readers;
mod lines;
mod movers;
mod outcomes;
mod outlines;
mod pending;
mod receipts;
mod rows;
mod stages;
mod stepping;
mod table;
mod waiting;
mod whole;

pub use closing::Closed;
pub use events::Event;
pub use keeps::{AnyWords, Keeps};
pub use laws::{law_is_kept, run_is_paid};
pub use lines::Line;
pub use outcomes::{NotInTurn, OpenRefusal, Outcome};
pub use outlines::{Motion, Outline};
pub use pending::Pending;
pub use receipts::Receipt;
pub use rows::{Carry, Change, Exchange, Place};
pub use stages::Stage;
pub use whole::{MOST_NODES, Whole};
