//! A line under its lock word: what a line that was taken for good answers.
mod memory;
