//! Turns that bring a line to rest.

mod desks;
mod memory;
mod rests;
mod stirred;
