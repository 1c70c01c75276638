//! Recorded runs of several nodes, which are made again on the lines that threads share.
pub(crate) mod commands;
pub(crate) mod comparing;
pub(crate) mod crowds;
pub(crate) mod rows;

use crate::events::Events;
use sci_core::Line;

/// A run on a line that is lent: how many nodes the line has, what it opens with, and the events that pass.
#[derive(Drop)]
pub(crate) struct Recorded {
    pub nodes: u16,
    pub opening: Line,
    pub events: Events,
}
