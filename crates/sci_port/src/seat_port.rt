//! A node's way to a line that threads share, by its seat there.
ghost use Rattle.std.specs.Prelude.{◌≡◌};
ghost use Rattle.sci_port.specs.SeatPorts.{ready_way, same_terms, same_way, way_by};

use crate::port::Port;
use crate::shared::SharedLine;
use sci_core::{Event, Outcome, Pending, Stage};
use sci_words::{LineNo, Mem, NodeId, Tag};
use std::alloc::AllocError;
use std::marker::PhantomData;

/// A seat's port to its line. Each call is the line's, by that seat.
#[derive(Drop)]
pub struct SeatPort<'a, L: SharedLine> {
    line: &'a L,
    seat: &'a mut L::Seat,
    // that `of` is a fact rests on the code of this type, which a field brings along
    keep: PhantomData<L::Keep>,
    ghost of: { L.is_seat line.now seat.now } by { L.is_fact L.Keep.code line.now seat.now },
}

impl<'a, L: SharedLine> SeatPort<'a, L> {
    /// The port of a seat of this line.
    pub fn new(line: &'a L, seat: &'a mut L::Seat) -> SeatPort<'a, L>
        requires { L.is_seat line.now seat.old }
        ensures line { result.line ≡ line.entry }
        ensures same_reference { result.seat.ghost_name ≡ seat.entry.ghost_name }
        ensures same_seat { result.seat.now ≡ seat.old }
    {
        SeatPort {
            line,
            seat,
            keep: PhantomData,
        }
    }
}

impl<L: SharedLine> Port for SeatPort<'_, L> {
    type Keep = L::Keep;

    ghost way = { λ s. way_by s.seat.ghost_name (L.seating s.seat.now) };

    ghost keep = { λ s. (L.seating s.seat.now).terms.keep };

    ghost at_step = { λ s. (L.seating s.seat.now).pending };

    ghost receipts = { λ s. (L.seating s.seat.now).receipts };

    ghost gives = { λ s call t. (t.line ≡ s.line) × (t.seat.ghost_name ≡ s.seat.ghost_name) × L.makes s.seat.now call t.seat.now };

    ghost readies = { λ s r t. (t.line ≡ s.line) × (t.seat.ghost_name ≡ s.seat.ghost_name) × L.readies s.seat.now r t.seat.now };

    ghost same_way = { λ s call t h. same_way L.laws s.line.now s.seat.now s.of call t.seat.now h.2 h.1 };

    ghost same_fact = { λ s call t h. λ i. (same_terms L.laws s.line.now s.seat.now s.of call t.seat.now h.2 i).keep };

    ghost owes = { λ s call t h. L.laws.owes s.seat.now call t.seat.now h.2 };

    ghost receives = { λ s call t h. L.kept.receives s.seat.now call t.seat.now h.2 };

    ghost readied = { λ s r t h. (ready_way L.kept s.seat.now r t.seat.now h.2 h.1, λ i. (L.kept.same_terms s.seat.now r t.seat.now h.2 i).keep, L.kept.same_step s.seat.now r t.seat.now h.2, L.kept.leaves s.seat.now r t.seat.now h.2) };

    fn node(&self) -> NodeId {
        L::seat_node(self.seat)
    }

    fn nodes(&self) -> u16 {
        self.line.nodes()
    }

    fn number(&self) -> LineNo {
        L::seat_number(self.seat)
    }

    #[inline(always)]
    fn pending(&self) -> Pending {
        L::seat_pending(self.seat)
    }

    #[inline(always)]
    fn stage(&self) -> Stage {
        L::seat_stage(self.seat)
    }

    #[inline(always)]
    fn own(&mut self) -> Option<Tag> {
        self.line.own(self.seat)
    }

    fn mem(&mut self) -> Option<Mem> {
        self.line.mem(self.seat)
    }

    fn tag(&mut self, node: NodeId) -> Option<Tag> {
        self.line.tag(self.seat, node)
    }

    #[inline(always)]
    fn step(&mut self, event: Event) -> Outcome {
        self.line.step(self.seat, event)
    }

    fn reserve(&mut self, n: usize) -> Result<(), AllocError> {
        L::seat_reserve(self.seat, n)
    }

    fn room(&self) -> usize {
        L::seat_receipts(self.seat).room()
    }

    fn last_passed(&self) -> bool {
        L::seat_receipts(self.seat).last_passed()
    }

    fn aim(&mut self, passing: bool) {
        L::seat_aim(self.seat, passing);
    }
}
