//! Operations on a line: loads, writes and evictions, which take turns over a port.
#![tactic(auto)]

mod alone;
mod answers;
mod found;
mod goals;
mod ops;
mod refusals;
mod to_rest;
mod turns;

pub use alone::Steps;
pub use answers::{Answer, End, Turn};
pub use goals::{Goal, WordNo, Write};
pub use ops::Op;
pub use refusals::BadWord;
pub use to_rest::{end, few_wait_in_a_row, rest, rest_is_near};
