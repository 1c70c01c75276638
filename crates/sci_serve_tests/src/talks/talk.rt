//! Talks, line by line.

mod growths;
mod memory;
mod reasons;
