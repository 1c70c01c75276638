//! What the lines of each workload hold.
mod ring;
mod stencil;

pub use ring::RingFact;
pub use stencil::StencilFact;
