//! Nodes with bounded caches: which lines a node has used, and the call that it has open.
#![tactic(auto)]

mod calls;
mod laws;
mod node;
mod ports;
mod readying;
mod refusals;
mod requests;
mod tables;
mod waiting;

pub use calls::OpenCall;
pub use laws::requests_are_kept;
pub use node::Node;
pub use ports::turn_at;
pub use refusals::NodeRefusal;
pub use requests::Request;
