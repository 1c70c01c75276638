//! A script's run with a line for each turn: what the turn did, and how the list stands after it.
#![tactic(auto)]

mod coding;
mod desk;
mod drawing;
mod event_names;
mod events;
mod lists;
mod note_text;
mod notes;
mod numbers;
mod running;
mod short;
mod steps;
mod tag_names;
mod texts;
mod words;

pub use desk::TraceDesk;
pub use drawing::{draw, put_play};
pub use running::trace;

/// What the calls of this crate are made of, for the tests and for the texts of crates above.
#[doc(hidden)]
pub mod parts {
    pub use crate::coding::{Coding, put_coded};
    pub use crate::event_names::event_name;
    pub use crate::events::{push_argument, push_words};
    pub use crate::note_text::NoteText;
    pub use crate::numbers::push_between;
    pub use crate::short::Short;
    pub use crate::steps::push_step;
    pub use crate::texts::{Wait, push_act};
    pub use crate::words::{push_link, push_node, push_tag};
}
