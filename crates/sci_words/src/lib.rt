//! The words of one line: a tag word for each node's cache entry, and one memory word.
//!
//! [`write_tag`] and [`write_mem`] give a word's code in 64 bits, and [`read_tag`] and [`read_mem`] read it again or say why
//! they refuse it. Theirs is layout 2, which memory and new dumps have; [`layout1`] has these four for the layout of old dumps.
//! [`name`] and [`mem_name`] give the names that listings show.
#![tactic(auto)]

mod codec;
pub mod layout1;
mod layout2;
mod layouts;
mod memory;
mod names;
mod nodes;
mod numbers;
mod refusals;
mod tags;

pub use layout2::{read_mem, read_tag, write_mem, write_tag};
pub use layouts::Layout;
pub use memory::{Mem, MemState};
pub use names::{mem_name, name};
pub use nodes::{LineNo, NodeId};
pub use refusals::WordRefusal;
pub use tags::{Kind, Tag};
