//! Workloads: programs of nodes on shared lines, each node in a thread of its own.
#![tactic(auto)]

mod calls;
mod counting;
mod doors;
mod facts;
mod gates;
mod lines;
mod programs;
mod recording;
mod refusals;
mod rings;
mod seating;
mod starting;
mod stencils;

pub use counting::count;
pub use facts::{RingFact, StencilFact};
pub use gates::{Gate, OpenGate};
pub use recording::{ClosedMemory, Recording};
pub use refusals::WorkRefusal;
pub use rings::{consume, produce, ring};
pub use stencils::stencil;

/// What the calls of this crate are made of. It is public for the tests alone, which stand in a crate above.
#[doc(hidden)]
pub mod parts {
    pub use crate::doors::Door;
    pub use crate::lines::opened;
    pub use crate::programs::Program;
    pub use crate::seating::dealt;
    pub use crate::starting::{run_all, share_of};
    pub use crate::stencils::Work;
}
