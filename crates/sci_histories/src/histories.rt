//! What a history says.

ghost use Rattle.std.specs.Prelude.{◌≡◌, ◌<◌, length};
ghost use Rattle.sci_histories.specs.Histories.{of_node};

use sci_core::{Line, Receipt};
use std::marker::Model;

/// A node's receipts on a line, in order.
#[derive(Drop, Debug)]
pub struct NodeReceipts {
    items: Vec<Receipt>,
}

impl Model for NodeReceipts {
    ghost use Rattle.std.specs.Prelude.{List};
    ghost use Rattle.sci_core.specs.declared.receipts.Receipt.{Receipt};

    ghost Value = { List Receipt };

    ghost view = { λ r. r.items.items };
}

impl NodeReceipts {
    ghost use Rattle.std.specs.Prelude.{◌≡◌};

    /// These receipts, in this order. It takes no memory.
    pub fn new(items: Vec<Receipt>) -> NodeReceipts
        ensures { result ≡ items.items }
    {
        NodeReceipts { items }
    }

    /// The receipts, in order.
    pub fn receipts(&self) -> &[Receipt]
        ensures { result.now ≡ self.now }
    {
        &self.items
    }
}

/// A line's history: its content when it was opened and when it was closed, and of each node, from node 0 on, its receipts.
#[derive(Drop, Debug)]
pub struct LineHistory {
    pub opening: Line,
    pub closing: Line,
    pub lists: Vec<NodeReceipts>,
}

impl Model for LineHistory {
    ghost use Rattle.sci_histories.specs.Histories.{LineReceipts};

    ghost Value = { LineReceipts };

    ghost view = { λ h. record { opening = h.opening; closing = h.closing; lists = h.lists.items } };
}

/// A line's content when it was opened.
pub(crate) fn opening_of(line: &LineHistory) -> Line
    ensures { result ≡ line.now.opening }
{
    line.opening
}

/// A line's content when it was closed.
pub(crate) fn closing_of(line: &LineHistory) -> Line
    ensures { result ≡ line.now.closing }
{
    line.closing
}

/// The lists of a line.
pub(crate) fn lists_of(line: &LineHistory) -> &[NodeReceipts]
    ensures { result.now ≡ line.now.lists }
{
    &line.lists
}

/// The receipts of a node.
pub(crate) fn list_of(line: &LineHistory, node: usize) -> &[Receipt]
    requires { node < length line.now.lists }
    ensures { result.now ≡ of_node line.now node }
{
    lists_of(line)[node].receipts()
}

/// The histories of a memory's lines, from line 0 on: 1 to 1,024 lines, each of the same 1 to 1,024 nodes.
#[derive(Drop, Debug)]
pub struct History {
    /// How many nodes each line has.
    pub nodes: u16,
    /// The lines, from line 0 on.
    pub lines: Vec<LineHistory>,
}

impl Model for History {
    ghost use Rattle.sci_histories.specs.Histories.{HistoryLines, HasSizes};

    ghost Value = { HistoryLines };

    ghost view = { λ h. record { nodes = h.nodes; lines = h.lines.items } };

    ghost invariant = { λ h. HasSizes record { nodes = h.nodes; lines = h.lines.items } };
}
