//! Talks.

mod serve;
mod talk;
