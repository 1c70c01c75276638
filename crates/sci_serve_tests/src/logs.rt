//! Logs.

mod follow;
mod growths;
mod reads;
mod reasons;
mod runs;
mod texts;
