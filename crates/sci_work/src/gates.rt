//! What says when the calls of nodes may start.

/// Says when a node's calls may start, and hears when they have ended. A test uses it to have calls meet.
pub trait Gate: Sync {
    /// The node's call of this number may start. Calls are counted from 0; the count stays at its greatest.
    fn may_start(&self, node: u16, call: u64) -> bool;

    /// The node's call of this number has ended, also where it was refused.
    fn ended(&self, node: u16, call: u64);

    /// How often a node asks for one call, at most, before it refuses with 20.
    fn limit(&self) -> u64;
}

/// Each call may start at once.
#[derive(Clone, Copy, Debug, PartialEq, Eq)]
pub struct OpenGate;

impl Gate for OpenGate {
    ghost use Rattle.std.specs.Prelude.{◌≡◌, IsTrue};

    fn may_start(&self, _node: u16, _call: u64) -> bool
        ensures { IsTrue result }
    {
        true
    }

    fn ended(&self, _node: u16, _call: u64) {}

    fn limit(&self) -> u64
        ensures { result ≡ 1 }
    {
        1
    }
}
