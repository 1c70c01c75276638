//! A node's seat at a line.
ghost use Rattle.std.specs.Prelude.{◌≡◌, ◌<◌, Some, false, []};

use crate::standing::Standing;
use crate::views::View;
use sci_core::{Keeps, Pending, Receipt, Whole};
use sci_port::Receipts;
use sci_words::{LineNo, NodeId};

pub(crate) type Token<K> = atomic_table::Seat<Whole<K>, View<K>>;

/// One node's seat at one line: the right to take its steps there, and the node's receipts. A line has one for each node.
#[derive(Drop)]
pub struct Seat<K: Keeps> {
    pub(crate) token: Token<K>,
    pub(crate) node: NodeId,
    pub(crate) standing: Standing<K>,
    pub(crate) receipts: Receipts,
    ghost of: { token.me.0.of ≡ Some standing.terms },
    ghost seen: { (token.me.0.node ≡ node) × (token.me.0.pending ≡ standing.pending) × (token.me.0.joined ≡ standing.terms.nodes) × (token.me.0.holds ≡ false) },
    ghost hand: { token.me.1 ≡ [] },
    ghost below: { node < standing.terms.nodes },
}

impl<K: Keeps> Seat<K> {
    /// The node, below the line's number of nodes.
    pub fn node(&self) -> NodeId
        ensures { result ≡ self.now.node }
    {
        self.node
    }

    /// The line's number.
    pub fn number(&self) -> LineNo
        ensures { result ≡ self.now.standing.terms.number }
    {
        self.standing.terms().number
    }

    /// The node's pending step.
    pub fn pending(&self) -> Pending
        ensures { result ≡ self.now.standing.pending }
    {
        self.standing.pending()
    }

    /// The node's receipts there, in order: what its steps showed it and what it wrote, as far as there was room for them.
    pub fn receipts(&self) -> &[Receipt]
        ensures { result.now ≡ self.now.receipts.list }
    {
        self.receipts.as_slice()
    }
}
