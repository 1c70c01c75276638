//! The bank of a node over lines that threads share, by its seats at them.
ghost use Rattle.std.specs.Prelude.{◌≡◌, ◌<◌, ◌↔◌, IsTrue, IfOk, IfErr};
ghost use Rattle.std.specs.Coded.{Coded-set};
ghost use Rattle.std.proofs.Props.{props};
ghost use Rattle.sci_port.specs.Readying.{ChangesAt, Readies, receipts_at};
ghost use Rattle.sci_port.specs.ReceiptList.{ReceivesIfRoom};
ghost use Rattle.sci_port.specs.SeatBanks.{AreLines, AreSeatsAt, AreSeatsOf, IsOnePerLine, MakesCall, MakesReady, SitsOn, receipts_of, seated};
ghost use Rattle.sci_port.specs.Seated.{CallsOn, ReadiesOn, nodes_on, seated_way, step_on};

use crate::bank::Bank;
use crate::shared::SharedLine;
use sci_core::{Event, Outcome, Pending, Stage};
use sci_words::{LineNo, Mem, NodeId, Tag};
use std::alloc::AllocError;

/// A node's ports to the lines of a memory, by its seat at each. A call on a line is that of the line's port, and leaves every
/// other seat as it is.
#[derive(Drop)]
pub struct SeatBank<'a, L: SharedLine> {
    lines: &'a [L],
    seats: Vec<L::Seat>,
    node: NodeId,
    keep: L::Keep,
    ghost of: { AreSeatsAt L.terms L.seating L.is_seat keep node lines.now seats.items } by { Prim.hlevel (props, Coded-set L.Keep.code, L.is_fact L.Keep.code) },
}

/// Refusal 9: the seats are not one per line, in the order of the lines and of one node. They come back as they were.
#[derive(Drop)]
pub struct SeatOfAnother<S> {
    pub seats: Vec<S>,
}

impl<S> SeatOfAnother<S> {
    /// The refusal's number.
    pub fn number(&self) -> u8
        ensures { result ≡ 9 }
    {
        9
    }
}

// The seat is the node's, at a line of this number.
fn is_seat_at<L: SharedLine>(seat: &L::Seat, node: NodeId, number: usize) -> bool
    ensures { IsTrue result ↔ SitsOn node number (L.seating seat.now) }
{
    L::seat_node(seat) == node && usize::from(L::seat_number(seat)) == number
}

// There is one seat per line, in the order of the lines and of one node.
fn is_one_per_line<L: SharedLine>(lines: &[L], seats: &[L::Seat]) -> bool
    requires { AreLines L.terms lines.now }
    ensures { IsTrue result ↔ IsOnePerLine L.seating lines.now seats.now }
{
    if seats.len() != lines.len() {
        return false;
    }
    let node = L::seat_node(&seats[0]);
    for (place, seat) in seats.iter().enumerate() {
        if !is_seat_at::<L>(seat, node, place) {
            return false;
        }
    }
    true
}

impl<'a, L: SharedLine> SeatBank<'a, L> {
    /// The bank of a node over 1 to 1,024 lines, numbered from 0, of one number of nodes and one `keep`, by its seats at these
    /// very lines. Refusal 9 where the seats are not one per line, in the order of the lines and of one node: it hands them
    /// back.
    pub fn new(
        lines: &'a [L],
        seats: Vec<L::Seat>,
    ) -> Result<SeatBank<'a, L>, SeatOfAnother<L::Seat>>
        requires lines { AreLines L.terms lines.now }
        requires seats { IsOnePerLine L.seating lines.now seats.items → AreSeatsOf L.is_seat lines.now seats.items }
        ensures ok { IfOk result (λ bank. IsOnePerLine L.seating lines.now seats.items × (bank.lines ≡ lines.entry) × (bank.seats ≡ seats)) }
        ensures err { IfErr result (λ e. (IsOnePerLine L.seating lines.now seats.items → ⊥) × (e.seats ≡ seats)) }
    {
        if !is_one_per_line(lines, &seats) {
            return Err(SeatOfAnother { seats });
        }
        let node = L::seat_node(&seats[0]);
        let keep = lines[0].keep();
        Ok(SeatBank {
            lines,
            seats,
            node,
            keep,
        })
    }

    /// The seats as they stand.
    pub fn into_seats(self) -> Vec<L::Seat>
        ensures { result ≡ self.entry.seats }
    {
        let SeatBank {
            seats,
            lines: _,
            node: _,
            keep: _,
        } = self;
        seats
    }
}

impl<L: SharedLine> Bank for SeatBank<'_, L> {
    type Keep = L::Keep;

    ghost way = { λ s. seated_way (seated L.terms L.seating s.keep s.node s.lines.now s.seats.items) };

    ghost nodes_on = { λ s line. nodes_on (seated L.terms L.seating s.keep s.node s.lines.now s.seats.items) line };

    ghost keep = { λ s. s.keep };

    ghost at_step = { λ s line. step_on (seated L.terms L.seating s.keep s.node s.lines.now s.seats.items) line };

    ghost receipts = { λ s line. receipts_at (receipts_of L.seating s.seats.items) line };

    ghost gives = { λ s line call t. (t.lines ≡ s.lines) × MakesCall L.makes s.seats.items line call t.seats.items × CallsOn L.Keep.fits (seated L.terms L.seating s.keep s.node s.lines.now s.seats.items) line call (seated L.terms L.seating t.keep t.node t.lines.now t.seats.items) × ChangesAt (ReceivesIfRoom (step_on (seated L.terms L.seating s.keep s.node s.lines.now s.seats.items) line) call) (λ m. receipts_at (receipts_of L.seating s.seats.items) m) line (λ m. receipts_at (receipts_of L.seating t.seats.items) m) };

    ghost readies = { λ s line r t. (t.lines ≡ s.lines) × MakesReady L.readies s.seats.items line r t.seats.items × ReadiesOn (seated L.terms L.seating s.keep s.node s.lines.now s.seats.items) (seated L.terms L.seating t.keep t.node t.lines.now t.seats.items) × ChangesAt (Readies r) (λ m. receipts_at (receipts_of L.seating s.seats.items) m) line (λ m. receipts_at (receipts_of L.seating t.seats.items) m) };

    ghost same_way = { λ s line call t h. h.2.way };

    ghost same_nodes = { λ s line call t h. h.2.nodes };

    ghost same_fact = { λ s line call t h. h.2.fact };

    ghost others = { λ s line call t h. h.2.others };

    ghost owes = { λ s line call t h. h.2.owes };

    ghost receives = { λ s line call t h. h.3 };

    ghost readied = { λ s line r t h. (h.2.way, h.2.nodes, h.2.fact, h.2.steps, h.3) };

    fn node(&self) -> NodeId {
        self.node
    }

    fn lines(&self) -> u16 {
        self.lines.len() as u16
    }

    fn nodes(&self, line: LineNo) -> u16 {
        let lines = self.lines;
        lines[usize::from(line)].nodes()
    }

    fn number(&self, line: LineNo) -> LineNo {
        let lines = self.lines;
        lines[usize::from(line)].number()
    }

    #[inline(always)]
    fn pending(&self, line: LineNo) -> Pending {
        let seats = &self.seats;
        L::seat_pending(&seats[usize::from(line)])
    }

    #[inline(always)]
    fn stage(&self, line: LineNo) -> Stage {
        let seats = &self.seats;
        L::seat_stage(&seats[usize::from(line)])
    }

    #[inline(always)]
    fn own(&mut self, line: LineNo) -> Option<Tag> {
        let at = &self.lines[usize::from(line)];
        let seats = self.seats.as_mut_slice();
        at.own(&mut seats[usize::from(line)])
    }

    fn mem(&mut self, line: LineNo) -> Option<Mem> {
        let at = &self.lines[usize::from(line)];
        let seats = self.seats.as_mut_slice();
        at.mem(&mut seats[usize::from(line)])
    }

    fn tag(&mut self, line: LineNo, node: NodeId) -> Option<Tag> {
        let at = &self.lines[usize::from(line)];
        let seats = self.seats.as_mut_slice();
        at.tag(&mut seats[usize::from(line)], node)
    }

    #[inline(always)]
    fn step(&mut self, line: LineNo, event: Event) -> Outcome {
        let at = &self.lines[usize::from(line)];
        let seats = self.seats.as_mut_slice();
        at.step(&mut seats[usize::from(line)], event)
    }

    fn reserve(&mut self, line: LineNo, n: usize) -> Result<(), AllocError> {
        let seats = self.seats.as_mut_slice();
        L::seat_reserve(&mut seats[usize::from(line)], n)
    }

    fn room(&self, line: LineNo) -> usize {
        let seats = &self.seats;
        L::seat_receipts(&seats[usize::from(line)]).room()
    }

    fn last_passed(&self, line: LineNo) -> bool {
        let seats = &self.seats;
        L::seat_receipts(&seats[usize::from(line)]).last_passed()
    }

    fn aim(&mut self, line: LineNo, passing: bool) {
        let seats = self.seats.as_mut_slice();
        L::seat_aim(&mut seats[usize::from(line)], passing);
    }
}
