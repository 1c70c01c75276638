//! The search of turns, and races.

mod races;
mod search;
mod serve;
