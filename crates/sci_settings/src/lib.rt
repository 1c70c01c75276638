//! The settings of a run, and why a text has none.
#![tactic(auto)]

mod fields;
mod misfits;
mod refusals;
mod settings;
mod why;
mod works;

pub use fields::Numbers;
pub use misfits::{Found, Misfit, Wanted};
pub use refusals::SettingsRefusal;
pub use settings::{Settings, read_settings};
pub use why::{SettingsReason, why_settings};
pub use works::Work;
