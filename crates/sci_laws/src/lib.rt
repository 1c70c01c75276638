//! Laws of what talks and logs say of a script.
#![tactic(auto)]

mod logs;
mod talks;

pub use logs::{
    entries_are_read_back, logged_rest_and_end_are_done, logs_follow, turns_are_followed,
};
pub use talks::script_is_talked;
