//! Scripts: their reader, their runner, and what they are run over.
#![tactic(auto)]

mod bank_desk;
mod commands;
mod desk;
mod drafts;
mod laws;
mod line_words;
mod loading;
mod nodes;
mod numbers;
mod places;
mod reader;
mod reasons;
mod refusals;
mod resting;
mod running;
mod said;
mod talk;
mod texts;
mod unread;
mod verbs;
mod waiting;
mod watching;
mod whole_desk;
mod why;
mod writing;

pub use bank_desk::{BankDesk, NoDesk};
pub use commands::{Ask, Command, Opening, Script, Size, Step};
pub use desk::{Desk, Look, Toward};
pub use laws::{refusals_have_reasons, rest_and_end_are_done, script_is_said, waits_name_a_node};
pub use line_words::is_skipped;
pub use reader::{line_end, read_script, without_return};
pub use reasons::Reason;
pub use refusals::ScriptRefusal;
pub use running::{NODES, TURNS, is_end, note, perform};
pub use talk::Talk;
pub use texts::{list_text, tag_text, turn_text};
pub use waiting::waits_for;
pub use whole_desk::WholeDesk;
pub use why::why_script;
pub use writing::{WriteFailed, put};
