//! A stencil: cells that take in their neighbours, phase by phase.
mod gathering;
mod running;
mod tiles;
mod worker;

pub use running::stencil;
pub use worker::Work;
pub(crate) use worker::worked;
