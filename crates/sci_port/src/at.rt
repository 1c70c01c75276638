//! The port to one line of a bank.
ghost use Rattle.std.specs.Prelude.{◌≡◌, ◌<◌};
ghost use Rattle.std.proofs.Common.{subst, sym};
ghost use Rattle.sci_port.specs.Banks.{way_at};
ghost use Rattle.sci_port.specs.Owes.{Owes};
ghost use Rattle.sci_port.specs.Readying.{Readies};
ghost use Rattle.sci_port.specs.ReceiptList.{ReceivesIfRoom};

use crate::bank::Bank;
use crate::port::Port;
use sci_core::{Event, Outcome, Pending, Stage};
use sci_words::{LineNo, Mem, NodeId, Tag};
use std::alloc::AllocError;

/// The port to one line of a bank that is lent.
#[derive(Drop)]
pub struct At<'a, B: Bank> {
    bank: &'a mut B,
    line: LineNo,
    ghost below: { line < (B.way bank.now).lines },
}

impl<'a, B: Bank> At<'a, B> {
    /// The port to the line.
    pub fn new(bank: &'a mut B, line: LineNo) -> At<'a, B>
        requires { line < (B.way bank.old).lines }
        ensures same_reference { result.bank.ghost_name ≡ bank.entry.ghost_name }
        ensures same_bank { result.bank.now ≡ bank.old }
        ensures line { result.line ≡ line }
    {
        At { bank, line }
    }
}

impl<B: Bank> Port for At<'_, B> {
    type Keep = B::Keep;

    ghost way = { λ s. way_at s.bank.ghost_name (B.way s.bank.now) (B.nodes_on s.bank.now s.line) s.line };

    ghost keep = { λ s. B.keep s.bank.now };

    ghost at_step = { λ s. B.at_step s.bank.now s.line };

    ghost receipts = { λ s. B.receipts s.bank.now s.line };

    ghost gives = { λ s call t. (t.line ≡ s.line) × (t.bank.ghost_name ≡ s.bank.ghost_name) × B.gives s.bank.now s.line call t.bank.now };

    ghost readies = { λ s r t. (t.line ≡ s.line) × (t.bank.ghost_name ≡ s.bank.ghost_name) × B.readies s.bank.now s.line r t.bank.now };

    ghost same_way = { λ s call t h. λ i. way_at (h.1 i) (B.same_way s.bank.now s.line call t.bank.now h.2 i) (B.same_nodes s.bank.now s.line call t.bank.now h.2 (h.0 i) i) (h.0 i) };

    ghost same_fact = { λ s call t h. B.same_fact s.bank.now s.line call t.bank.now h.2 };

    ghost owes = { λ s call t h. subst (λ line. Owes (B.nodes_on s.bank.now s.line) (B.Keep.fits (B.keep s.bank.now) s.line) (B.way s.bank.now).node (B.at_step s.bank.now s.line) call (B.at_step t.bank.now line)) (sym h.0) (B.owes s.bank.now s.line call t.bank.now h.2) };

    ghost receives = { λ s call t h. subst (λ line. ReceivesIfRoom (B.at_step s.bank.now s.line) call (B.receipts s.bank.now s.line) (B.receipts t.bank.now line)) (sym h.0) (B.receives s.bank.now s.line call t.bank.now h.2).here };

    ghost readied = { λ s r t h. (λ i. way_at (h.1 i) ((B.readied s.bank.now s.line r t.bank.now h.2).0 i) ((B.readied s.bank.now s.line r t.bank.now h.2).1 (h.0 i) i) (h.0 i), (B.readied s.bank.now s.line r t.bank.now h.2).2, λ i. (B.readied s.bank.now s.line r t.bank.now h.2).3 (h.0 i) i, subst (λ line. Readies r (B.receipts s.bank.now s.line) (B.receipts t.bank.now line)) (sym h.0) (B.readied s.bank.now s.line r t.bank.now h.2).4.here) };

    fn node(&self) -> NodeId {
        self.bank.node()
    }

    fn nodes(&self) -> u16 {
        self.bank.nodes(self.line)
    }

    fn number(&self) -> LineNo {
        self.bank.number(self.line)
    }

    fn pending(&self) -> Pending {
        self.bank.pending(self.line)
    }

    fn stage(&self) -> Stage {
        self.bank.stage(self.line)
    }

    #[inline(always)]
    fn own(&mut self) -> Option<Tag> {
        self.bank.own(self.line)
    }

    fn mem(&mut self) -> Option<Mem> {
        self.bank.mem(self.line)
    }

    fn tag(&mut self, node: NodeId) -> Option<Tag> {
        self.bank.tag(self.line, node)
    }

    #[inline(always)]
    fn step(&mut self, event: Event) -> Outcome {
        self.bank.step(self.line, event)
    }

    fn reserve(&mut self, n: usize) -> Result<(), AllocError> {
        self.bank.reserve(self.line, n)
    }

    fn room(&self) -> usize {
        self.bank.room(self.line)
    }

    fn last_passed(&self) -> bool {
        self.bank.last_passed(self.line)
    }

    fn aim(&mut self, passing: bool) {
        self.bank.aim(self.line, passing);
    }
}
