//! The numbers of nodes and lines.
ghost use Rattle.std.specs.Prelude.{◌≡◌, ◌<◌, IfSome, IsSome, ◌↔◌};

use std::marker::Model;

/// The number of a line of the shared memory.
pub type LineNo = u16;

/// The number of a node, 0 to 65,534. Contracts see it as that number.
#[derive(Clone, Copy, Debug, PartialEq, Eq, Hash)]
pub struct NodeId {
    number: u16,
}

impl Model for NodeId {
    ghost use Rattle.std.specs.Prelude.{ℕ, ◌<◌};

    ghost Value = { ℕ };

    ghost view = { λ n. n.number };

    ghost invariant = { λ n. n.number < 65535 };

    ghost inverse = { λ n. record { number = n } };
}

impl NodeId {
    /// The node with this number, or `None` at 65,535.
    pub fn new(number: u16) -> Option<NodeId>
        ensures some { IsSome result ↔ (number < 65535) }
        ensures value { IfSome result (λ n. n ≡ number) }
    {
        if number < 65535 {
            Some(NodeId { number })
        } else {
            None
        }
    }

    /// The node's number.
    pub fn get(self) -> u16
        ensures value { result ≡ self }
        ensures below { result < 65535 }
    {
        self.number
    }
}
