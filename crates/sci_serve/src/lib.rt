//! What each command of `scisim` does, over any reader and writer.
//!
//! [`serve_script`], [`serve_trace`] and [`serve_draw`] run a script and write its run, [`serve_outcomes`] lists what the calls that it
//! leaves open come to, [`serve_talk`] answers a script's commands one by one, [`serve_run`] and [`serve_run_by`] run the workload that
//! settings ask for, [`serve_history`] and [`serve_history_by`] write the history of its lines, [`serve_check`] checks a dump,
//! [`serve_check_large`] one of any length, and [`serve_legal`] a history. Each answers Ok or a [`SimFault`], which has the program's
//! status; [`serve_outcomes`] a [`RaceFault`].
//! [`Beginning`] tells which text an input is, and [`explained`] why one is refused.
#![tactic(auto)]

mod checking;
mod explaining;
mod faults;
mod following;
mod histories;
mod input;
mod kinds;
mod large;
mod legality;
mod playing;
mod progress;
mod racing;
mod reasons;
mod results;
mod running;
mod scripts;
mod talking;
mod verdicts;
mod wholly;
mod workloads;
mod works;

pub use checking::serve_check;
pub use explaining::{Explanation, Text, explained};
pub use faults::SimFault;
pub use following::{serve_follow, serve_follow_told};
pub use input::{INPUT_LIMIT, read_input};
pub use kinds::{Beginning, Kind};
pub use large::{serve_check_large, serve_check_large_told};
pub use legality::serve_legal;
pub use playing::serve_play;
pub use progress::{Progress, Visits};
pub use racing::{RaceFault, serve_outcomes};
pub use reasons::{Explain, ReasonPrinter, Untold, explanation};
pub use running::{serve_history, serve_history_by, serve_run, serve_run_by};
pub use scripts::{Form, serve, serve_buffered, serve_draw, serve_script, serve_trace};
pub use talking::{serve_talk, serve_talk_by};
pub use works::{cells_text, count_text, items_text};
