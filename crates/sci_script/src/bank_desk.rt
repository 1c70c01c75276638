//! A desk over banks.
ghost use Rattle.std.specs.Prelude.{◌≡◌, ℕ, true, is_some, List, Ok, IfOk, IfErr};
ghost use Rattle.sci_cache.specs.Nodes.{IsSameNode, TurnsBy};
ghost use Rattle.sci_script.specs.BankDesks.{AreBanksOf};

use crate::commands::{Ask, Script, Size};
use crate::desk::{Desk, Look, Toward};
use crate::nodes::{begin_over, idle};
use sci_cache::{Node, Request};
use sci_ops::Turn;
use sci_port::Bank;
use sci_words::{LineNo, Mem, NodeId, Tag};
use std::alloc::{AllocError, Global};
use std::marker::Model;

/// A bank for each node, over lines that the nodes may share with whatever else reaches them, and the nodes. Each turn is that of
/// the node over its own bank; the words that are printed are loaded by the bank of node 0.
#[derive(Drop)]
pub struct BankDesk<B: Bank> {
    size: Size,
    banks: Vec<B>,
    nodes: Vec<Node>,
}

impl<B: Bank> Model for BankDesk<B> {
    ghost use Rattle.sci_script.specs.BankDesks.{Banked, IsBanked, banked};

    ghost Value = { Banked B };

    ghost view = { λ d. banked d.size d.banks.items d.nodes.items };

    ghost invariant = { λ d. IsBanked B.way B.nodes_on (λ b line words. B.Keep.fits (B.keep b) line words) (banked d.size d.banks.items d.nodes.items) };
}

/// Refusal 7: memory ran out. The banks come back as they were.
#[derive(Drop)]
pub struct NoDesk<B> {
    pub banks: Vec<B>,
}

impl<B> NoDesk<B> {
    /// The refusal's number.
    pub fn number(&self) -> u8
        ensures { result ≡ 7 }
    {
        7
    }
}

/// One turn of the node's call, over its bank.
fn turn_over<B: Bank>(bank: &mut B, node: &mut Node) -> Turn
    requires node { (B.way bank.old).node ≡ node.old.id }
    requires lines { (B.way bank.old).lines ≡ node.old.lines }
    requires any { (line : ℕ) (words : List ℕ) → B.Keep.fits (B.keep bank.old) line words }
    requires open { is_some node.old.call ≡ true }
    ensures turns { TurnsBy B.gives B.at_step node.old node.old.call bank.old (Ok result) bank.new node.new }
    ensures same_node { IsSameNode node.old node.new }
    ensures same_way { B.way bank.new ≡ B.way bank.old }
    ensures same_nodes { (line : ℕ) → B.nodes_on bank.new line ≡ B.nodes_on bank.old line }
    ensures same_fact { B.keep bank.new ≡ B.keep bank.old }
{
    match node.turn(bank) {
        Ok(turn) => turn,
        Err(_) => unreachable!(),
    }
}

impl<B: Bank> BankDesk<B> {
    ghost use Rattle.sci_script.specs.Unused.{AreIdle};

    /// A desk of the script's nodes, none of which has used a line, each over its bank: one idle bank per node, in order, of as
    /// many lines as the script has, each with its nodes and for any words. The lines are taken as they stand: who opens them
    /// asks the script for what they open with. Refusal 7 alone, which hands the banks back.
    pub fn new(alloc: Global, script: &Script, banks: Vec<B>) -> Result<BankDesk<B>, NoDesk<B>>
        requires { AreBanksOf B.way B.nodes_on (λ b line words. B.Keep.fits (B.keep b) line words) script.now.size banks.items }
        ensures size { IfOk result (λ desk. desk.size ≡ script.now.size) }
        ensures banks { IfOk result (λ desk. desk.banks ≡ banks.items) }
        ensures idle { IfOk result (λ desk. AreIdle script.now.size.lines script.now.capacity script.now.size.nodes desk.nodes) }
        ensures err { IfErr result (λ e. e.banks ≡ banks) }
    {
        let size = script.size;
        let Ok(nodes) = idle(alloc, script) else {
            return Err(NoDesk { banks });
        };
        Ok(BankDesk { size, banks, nodes })
    }

    /// The banks as they stand, each at its node's place.
    pub fn into_banks(self) -> Vec<B>
        ensures { result.items ≡ self.banks }
    {
        let BankDesk {
            banks,
            size: _,
            nodes: _,
        } = self;
        banks
    }
}

impl<B: Bank> Desk for BankDesk<B> {
    ghost use Rattle.sci_script.specs.BankDesks.{banked_is_open, banked_does};

    ghost size = { λ desk. desk.size };

    ghost is_open = { λ desk node. banked_is_open desk node };

    ghost far = { λ desk line. 0 };

    ghost does = { λ s event t. banked_does B.gives B.at_step s event t };

    fn open(&self, node: NodeId) -> bool {
        self.nodes[usize::from(node.get())].open()
    }

    fn begin(&mut self, node: NodeId, request: Request) -> Result<(), AllocError> {
        let place = usize::from(node.get());
        begin_over(&mut self.banks[place], &mut self.nodes[place], request)
    }

    fn turn(&mut self, node: NodeId) -> Turn {
        let place = usize::from(node.get());
        turn_over(&mut self.banks[place], &mut self.nodes[place])
    }

    // Others may take turns on its lines between two calls.
    fn waits_on(&self) -> bool {
        false
    }

    // A bank shows the words of lines that others may reach between two calls: who moves isn't known.
    fn rest_turn(&mut self, _line: LineNo) -> Toward {
        Toward::Unknown
    }

    fn look(&self, alloc: Global, ask: Ask) -> Result<Look, AllocError> {
        match ask {
            Ask::Residents { node } => {
                let lines = self.nodes[usize::from(node.get())].resident(alloc)?;
                Ok(Look::Residents { node, lines })
            }
        }
    }

    fn mem(&mut self, line: LineNo) -> Option<Mem> {
        self.banks[0].mem(line)
    }

    fn tag(&mut self, line: LineNo, node: NodeId) -> Option<Tag> {
        self.banks[0].tag(line, node)
    }
}
