//! A node's seat at a line.
ghost use Rattle.std.specs.Prelude.{◌≡◌, ◌<◌, Some, [], map};
ghost use Rattle.sci_core.specs.Carrying.{hand_of};
ghost use Rattle.sci_core.specs.Stage.{stage_of};
ghost use Rattle.sci_fine.specs.Rule.{slot_number};
ghost use Rattle.sci_fine.specs.Steps.{slots_in};

use crate::standing::Standing;
use crate::views::View;
use sci_core::{Keeps, Line, Pending, Receipt, Stage};
use sci_port::Receipts;
use sci_words::{LineNo, NodeId};

pub(crate) type Token<K> = atomic_table::Seat<Line, View<K>>;

/// One node's seat at one line: the right to take its steps there, and the node's receipts. A line has one for each node.
#[derive(Drop)]
pub struct Seat<K: Keeps> {
    pub(crate) token: Token<K>,
    pub(crate) standing: Standing<K>,
    pub(crate) receipts: Receipts,
    ghost of: { token.me.0.of ≡ Some standing.terms },
    ghost seen: { (token.me.0.node ≡ standing.node) × (token.me.0.pending ≡ standing.pending) × (token.me.0.joined ≡ standing.terms.nodes) × (token.me.0.logs ≡ []) },
    ghost hand: { slots_in token.me.1 ≡ map slot_number (hand_of standing.node standing.pending) },
    ghost below: { standing.node < standing.terms.nodes },
}

impl<K: Keeps> Seat<K> {
    /// The node, below the line's number of nodes.
    pub fn node(&self) -> NodeId
        ensures { result ≡ self.now.standing.node }
    {
        self.standing.node()
    }

    /// The line's number.
    pub fn number(&self) -> LineNo
        ensures { result ≡ self.now.standing.terms.number }
    {
        self.standing.terms().number
    }

    /// The node's pending step.
    pub fn pending(&self) -> Pending
        ensures { result ≡ self.now.standing.pending }
    {
        self.standing.pending()
    }

    /// The same, but for its line.
    pub fn stage(&self) -> Stage
        ensures { result ≡ stage_of self.now.standing.pending }
    {
        self.standing.stage()
    }

    /// The node's receipts there, in order: what its steps showed it and what it wrote, as far as there was room for them.
    pub fn receipts(&self) -> &[Receipt]
        ensures { result.now ≡ self.now.receipts.list }
    {
        self.receipts.as_slice()
    }
}
