//! Dumps: the text of closed lines, its reader, and the check that each line is an exact sharing list.
#![tactic(auto)]

mod checking;
mod dumps;
pub mod fields;
mod places;
mod ranges;
mod reader;
mod refusals;
mod rows;
mod streams;
mod text_lines;
mod texts;

pub use checking::{Rule, Verdict, check, first_broken};
pub use dumps::{Dump, DumpStream};
pub use places::{DumpHead, DumpPlace, DumpRow};
pub use reader::read_dump;
pub use refusals::DumpRefusal;
pub use streams::StreamFault;
pub use text_lines::ROW_LIMIT;
pub use texts::dump;
