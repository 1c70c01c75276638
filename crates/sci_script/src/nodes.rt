//! The nodes that a desk begins with, and how they begin their calls.
ghost use Rattle.std.specs.Prelude.{◌≡◌, ◌⊎◌, None, true, false, length, IfOk, IsOk, OnOk, OnErr};
ghost use Rattle.sci_cache.specs.Nodes.{IsSameNode, node_with, refusal_of};
ghost use Rattle.sci_cache.specs.Requests.{is_evict, line_of};
ghost use Rattle.sci_cache.specs.Residents.{is_resident};
ghost use Rattle.sci_script.specs.Unused.{AreIdle};

use crate::commands::Script;
use sci_cache::{Node, Request};
use sci_port::Bank;
use sci_words::NodeId;
use std::alloc::{AllocError, Global};

/// The nodes of a script, none of which has used a line. They keep no receipts, since a desk may be talked to for ever.
pub(crate) fn idle(alloc: Global, script: &Script) -> Result<Vec<Node>, AllocError>
    ensures count { IfOk result (λ nodes. length nodes.items ≡ script.now.size.nodes) }
    ensures idle { IfOk result (λ nodes. AreIdle script.now.size.lines script.now.capacity script.now.size.nodes nodes.items) }
{
    let size = script.size;
    let mut nodes = Vec::new(alloc);
    for number in 0..size.nodes {
        let Some(id) = NodeId::new(number) else {
            unreachable!()
        };
        match Node::new(alloc, id, size.lines, script.capacity) {
            Ok(node) => nodes.push(node.without_receipts())?,
            Err(_) => return Err(AllocError),
        }
    }
    Ok(nodes)
}

/// Begins a call of a node that keeps no receipts, over its bank, which stays as it is.
#[inline(always)]
pub(crate) fn begin_over<B: Bank>(
    bank: &mut B,
    node: &mut Node,
    request: Request,
) -> Result<(), AllocError>
    requires node { (B.way bank.old).node ≡ node.old.id }
    requires lines { (B.way bank.old).lines ≡ node.old.lines }
    requires keeps { node.old.keeps ≡ false }
    ensures begun { OnOk result (node.new ≡ node_with node.old request) }
    ensures accepted { OnOk result (refusal_of node.old request ≡ None) }
    ensures same { OnErr result (node.new ≡ node.old) }
    ensures same_node { IsSameNode node.old node.new }
    ensures same_bank { bank.new ≡ bank.old }
    ensures succeeds { refusal_of node.old request ≡ None → (is_evict request ≡ true) ⊎ (is_resident (line_of request) node.old.residents ≡ true) → IsOk result }
{
    match node.begin(bank, request) {
        Ok(()) => Ok(()),
        Err(_) => Err(AllocError),
    }
}
