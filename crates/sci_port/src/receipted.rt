//! A port that keeps its node's receipts.
ghost use Rattle.std.specs.Prelude.{◌≡◌};
ghost use Rattle.sci_port.specs.Readying.{Readies};
ghost use Rattle.sci_port.specs.ReceiptList.{ReceivesIfRoom};

use crate::port::Port;
use crate::receipts::Receipts;
use sci_core::{Event, Outcome, Pending, Stage};
use sci_words::{LineNo, Mem, NodeId, Tag};
use std::alloc::AllocError;

/// A port that is lent, of any kind of line, with its node's receipts there, which are lent too. Its answers are those of the port,
/// and each step leaves in the receipts what it showed, as `Receipts::receive` says, where there is room for it; where there is none
/// they stay as they were. No call takes memory: `Receipts::reserve` does, before.
#[derive(Drop)]
pub struct Receipted<'a, 'b, P: Port> {
    port: &'a mut P,
    receipts: &'b mut Receipts,
}

impl<'a, 'b, P: Port> Receipted<'a, 'b, P> {
    /// The port, with what its steps show kept in these receipts.
    pub fn new(port: &'a mut P, receipts: &'b mut Receipts) -> Receipted<'a, 'b, P>
        ensures same_reference { result.port.ghost_name ≡ port.entry.ghost_name }
        ensures same_port { result.port.now ≡ port.old }
        ensures same_receipts_reference { result.receipts.ghost_name ≡ receipts.entry.ghost_name }
        ensures same_receipts { result.receipts.now ≡ receipts.old }
    {
        Receipted { port, receipts }
    }
}

impl<P: Port> Port for Receipted<'_, '_, P> {
    type Keep = P::Keep;

    ghost way = { λ s. P.way s.port.now };

    ghost keep = { λ s. P.keep s.port.now };

    ghost at_step = { λ s. P.at_step s.port.now };

    ghost receipts = { λ s. s.receipts.now };

    ghost gives = { λ s call t. P.gives s.port.now call t.port.now × ReceivesIfRoom (P.at_step s.port.now) call s.receipts.now t.receipts.now × (t.port.ghost_name ≡ s.port.ghost_name) × (t.receipts.ghost_name ≡ s.receipts.ghost_name) };

    ghost readies = { λ s r t. (t.port ≡ s.port) × Readies r s.receipts.now t.receipts.now × (t.receipts.ghost_name ≡ s.receipts.ghost_name) };

    ghost same_way = { λ s call t h. P.same_way s.port.now call t.port.now h.0 };

    ghost same_fact = { λ s call t h. P.same_fact s.port.now call t.port.now h.0 };

    ghost owes = { λ s call t h. P.owes s.port.now call t.port.now h.0 };

    ghost receives = { λ s call t h. h.1 };

    ghost readied = { λ s r t h. (λ i. P.way (h.0 i).now, λ i. P.keep (h.0 i).now, λ i. P.at_step (h.0 i).now, h.1) };

    fn node(&self) -> NodeId {
        self.port.node()
    }

    fn nodes(&self) -> u16 {
        self.port.nodes()
    }

    fn number(&self) -> LineNo {
        self.port.number()
    }

    fn pending(&self) -> Pending {
        self.port.pending()
    }

    #[inline(always)]
    fn stage(&self) -> Stage {
        self.port.stage()
    }

    #[inline(always)]
    fn own(&mut self) -> Option<Tag> {
        self.port.own()
    }

    fn mem(&mut self) -> Option<Mem> {
        self.port.mem()
    }

    fn tag(&mut self, node: NodeId) -> Option<Tag> {
        self.port.tag(node)
    }

    #[inline(always)]
    fn step(&mut self, event: Event) -> Outcome {
        if !self.receipts.has_room_for(&event) {
            return self.port.step(event);
        }
        let before = self.port.pending();
        let asked = event;
        let outcome = self.port.step(event);
        self.receipts.keep(&before, &asked, &outcome);
        outcome
    }

    fn reserve(&mut self, n: usize) -> Result<(), AllocError> {
        self.receipts.reserve(n)
    }

    fn room(&self) -> usize {
        self.receipts.room()
    }

    fn last_passed(&self) -> bool {
        self.receipts.last_passed()
    }

    fn aim(&mut self, passing: bool) {
        self.receipts.aim(passing);
    }
}
