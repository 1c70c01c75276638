//! A desk of whole lines.
ghost use Rattle.std.specs.Prelude.{◌≡◌, ◌<◌, ◌≤◌, ℕ, true, false, length, is_some, slice_set, vec_len, All, IfOk, IfSome};
ghost use Rattle.sci_core.specs.Whole.{nodes_of};
ghost use Rattle.sci_cache.specs.Nodes.{IsSameNode, line_by};
ghost use Rattle.sci_script.specs.Nodes.{AreNodesOf, TurnsOverOf, whole_of};
ghost use Rattle.sci_script.specs.Resting.{AreCalm, LentOverOf};
ghost use Rattle.sci_script.specs.Unused.{AreOpened};

use crate::commands::{Ask, Script, Size};
use crate::desk::{Desk, Look, Toward};
use crate::nodes::{begin_over, idle};
use sci_cache::{Node, OpenCall, Request};
use sci_core::{AnyWords, Whole};
use sci_ops::Turn;
use sci_port::{Bank, Passed, Receipts, SoloBank};
use sci_words::{LineNo, Mem, NodeId, Tag};
use std::alloc::{AllocError, Global};

/// How many lines a memory has at the most.
pub(crate) const LINES: usize = 1024;

/// A `Whole` for each line, in a bank that each turn's node is seated at, and the nodes. A word of it is always to be had.
#[derive(Drop)]
pub struct WholeDesk {
    pub(crate) size: Size,
    pub(crate) bank: SoloBank<AnyWords>,
    pub(crate) nodes: Vec<Node>,
    // Which lines were found at rest, and no turn has worked on since: bringing these to rest costs nothing.
    pub(crate) calm: [bool; LINES],
    ghost lines: { length bank.wholes.items ≡ size.lines },
    ghost widths: { All (λ w. nodes_of w ≡ size.nodes) bank.wholes.items },
    ghost count: { vec_len nodes ≡ size.nodes },
    ghost of: { AreNodesOf size.lines nodes.items },
    ghost rests: { AreCalm calm bank.wholes.items },
}

/// The lines of a script with what they open with, which nobody has used.
pub(crate) fn unused(alloc: Global, script: &Script) -> Result<Vec<Whole<AnyWords>>, AllocError>
    ensures count { IfOk result (λ wholes. length wholes.items ≡ script.now.size.lines) }
    ensures opened { IfOk result (λ wholes. AreOpened script.now.size.nodes script.now.openings.items script.now.size.lines wholes.items) }
{
    let size = script.size;
    let mut wholes = Vec::new(alloc);
    for number in 0..size.lines {
        let content = script.opening(number);
        match Whole::open(alloc, size.nodes, number, content, AnyWords) {
            Ok(whole) => wholes.push(whole)?,
            Err(_) => return Err(AllocError),
        }
    }
    Ok(wholes)
}

/// The next turn of the node's call may stir the line that it works on.
#[inline(always)]
pub(crate) fn stir(calm: &mut [bool; LINES], node: &Node)
    requires { node.now.lines ≤ 1024 }
    ensures { IfSome node.now.call (λ c. calm.new ≡ slice_set calm.old (line_by c.victim c.line) false) }
{
    if let Some(call) = node.open_call() {
        calm[usize::from(call.line_at_work())] = false;
    }
}

/// One turn of the node's call, over the bank that it is seated at.
#[tactic(auto, using(sci_ops::proofs::Storing::any_store_fits))]
#[inline(always)]
pub(crate) fn turn_on(bank: &mut SoloBank<AnyWords>, node: &mut Node) -> Turn
    requires seat { bank.old.node ≡ node.old.id }
    requires lines { length bank.old.wholes.items ≡ node.old.lines }
    requires open { is_some node.old.call ≡ true }
    ensures turns { TurnsOverOf bank.old.wholes.items node.old node.old.call result bank.new.wholes.items node.new }
    ensures lent { LentOverOf bank.old.wholes.items node.old node.old.call result bank.new.wholes.items node.new }
    ensures below { IfSome node.old.call (λ c. line_by c.victim c.line < node.old.lines) }
    ensures same_node { IsSameNode node.old node.new }
    ensures same_lines { length bank.new.wholes.items ≡ length bank.old.wholes.items }
    ensures same_widths { (line : ℕ) → nodes_of (whole_of bank.new.wholes.items line) ≡ nodes_of (whole_of bank.old.wholes.items line) }
{
    match node.turn(bank) {
        Ok(turn) => turn,
        Err(_) => unreachable!(),
    }
}

impl WholeDesk {
    ghost use Rattle.sci_script.specs.ScriptText.{Opens};
    ghost use Rattle.sci_script.specs.Wholes.{shared_of};

    /// The lines of a script with what they open with, which nobody has used, and its nodes. Refusal 7 alone.
    pub fn open(alloc: Global, script: &Script) -> Result<WholeDesk, AllocError>
        ensures size { IfOk result (λ desk. desk.size ≡ script.now.size) }
        ensures opened { IfOk result (λ desk. Opens script.now.size script.now.capacity script.now.openings.items (shared_of desk)) }
    {
        let size = script.size;
        let nodes = idle(alloc, script)?;
        let wholes = unused(alloc, script)?;
        let receipts = Receipts::of_lines(alloc, usize::from(size.lines))?;
        let bank = SoloBank::new(wholes, receipts, nodes[0].id());
        Ok(WholeDesk {
            size,
            bank,
            nodes,
            calm: [true; LINES],
        })
    }

    /// How many nodes and lines there are.
    pub fn size(&self) -> Size
        ensures { result ≡ self.now.size }
    {
        self.size
    }

    /// The call that the node has open.
    pub fn open_call(&self, node: NodeId) -> Option<OpenCall>
        requires { node < self.now.size.nodes }
        ensures call { result ≡ ((shared_of self.now).nodes node).call }
        ensures below { IfSome result (λ c. line_by c.victim c.line < self.now.size.lines) }
    {
        self.nodes[usize::from(node.get())].open_call()
    }

    /// The lines as they stand.
    pub fn into_wholes(self) -> Vec<Whole<AnyWords>>
        ensures { result.items ≡ self.bank.wholes.items }
    {
        self.bank.into_wholes()
    }
}

impl Desk for WholeDesk {
    ghost use Rattle.sci_script.specs.Shared.{shared_far, shared_is_open, shared_does};
    ghost use Rattle.sci_script.specs.Wholes.{shared_of};

    ghost size = { λ desk. desk.size };

    ghost is_open = { λ desk node. shared_is_open (shared_of desk) node };

    ghost far = { λ desk line. shared_far (shared_of desk) line };

    ghost does = { λ s event t. shared_does (shared_of s) event (shared_of t) };

    fn open(&self, node: NodeId) -> bool {
        self.nodes[usize::from(node.get())].open()
    }

    fn begin(&mut self, node: NodeId, request: Request) -> Result<(), AllocError> {
        let seated = self.bank.node();
        self.bank.seat(node);
        let place = usize::from(node.get());
        let Ok(()) = begin_over(&mut self.bank, &mut self.nodes[place], request) else {
            self.bank.seat(seated);
            return Err(AllocError);
        };
        Ok(())
    }

    #[inline(always)]
    fn turn(&mut self, node: NodeId) -> Turn {
        let place = usize::from(node.get());
        self.bank.seat(node);
        stir(&mut self.calm, &self.nodes[place]);
        turn_on(&mut self.bank, &mut self.nodes[place])
    }

    fn waits_on(&self) -> bool {
        true
    }

    fn rest_turn(&mut self, line: LineNo) -> Toward {
        let mut passed = Passed::NOTHING;
        self.watched_rest_turn(line, &mut passed)
    }

    fn look(&self, alloc: Global, ask: Ask) -> Result<Look, AllocError> {
        match ask {
            Ask::Residents { node } => {
                let lines = self.nodes[usize::from(node.get())].resident(alloc)?;
                Ok(Look::Residents { node, lines })
            }
        }
    }

    fn mem(&mut self, line: LineNo) -> Option<Mem> {
        self.bank.mem(line)
    }

    fn tag(&mut self, line: LineNo, node: NodeId) -> Option<Tag> {
        self.bank.tag(line, node)
    }
}
