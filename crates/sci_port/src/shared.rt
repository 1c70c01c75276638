//! A line that threads share, and a node's seat at it.
ghost use Rattle.std.specs.Prelude.{◌≡◌, ◌<◌, true, is_ok};
ghost use Rattle.std.specs.Coded.{Coded};
ghost use Rattle.sci_core.specs.Answers.{is_allowed, FitsEvent};
ghost use Rattle.sci_core.specs.Stage.{stage_of};
ghost use Rattle.sci_port.specs.declared.calls.Call.{Call};
ghost use Rattle.sci_port.specs.declared.calls.Call.TheVariants.{Own, MemWas, TagWas, Stepped};
ghost use Rattle.sci_port.specs.Owes.{IsSoundStep};
ghost use Rattle.sci_port.specs.Readying.{Readying};
ghost use Rattle.sci_port.specs.Readying.Readying.{Aimed, Reserved};
ghost use Rattle.sci_port.specs.SeatBanks.{IsKept, IsShared, LineTerms, Seating};

use crate::receipts::Receipts;
use sci_core::{Event, Keeps, Outcome, Pending, Stage};
use sci_words::{LineNo, Mem, NodeId, Tag};
use std::alloc::AllocError;

/// A line that threads share: each node reaches it by its seat there alone. No call waits, and none but `seat_reserve` takes memory.
///
/// What each call may answer, and how the seat stands after it, is the implementation's own to say, by `makes`. Whatever it
/// says, the seat is the node's at that line as before, and a call is as a port to the line owes it.
pub trait SharedLine {
    /// The fact that the line's words have.
    type Keep: Keeps;

    /// One node's seat at one line: the right to take its steps there.
    type Seat: Drop;

    /// How many nodes the line has, its number, and its fact.
    ghost terms: { Self → LineTerms Self.Keep };

    /// A seat's node, the terms of its line, the node's pending step there, and its receipts.
    ghost seating: { Self.Seat → Seating Self.Keep };

    /// The seat is one of this very line. That is a fact: there is one proof of it at most, as there is of two `Keep`s being
    /// the same one.
    ghost is_seat: { Self → Self.Seat → Type 0 };

    ghost is_fact: { Coded Self.Keep → (l : Self) (s : Self.Seat) → IsProp (is_seat l s) };

    /// From a seat as it stands, a call may give this answer and leave the seat so.
    ghost makes: { Self.Seat → Call → Self.Seat → Type 0 };

    /// The same of the calls that ready the seat's receipts, which reach no line.
    ghost readies: { Self.Seat → Readying → Self.Seat → Type 0 };

    /// How many nodes the line has.
    fn nodes(&self) -> u16
        ensures { result ≡ (terms self.now).nodes };

    /// The line's number.
    fn number(&self) -> LineNo
        ensures { result ≡ (terms self.now).number };

    /// The fact that the line's words have.
    fn keep(&self) -> Self::Keep
        ensures { result ≡ (terms self.now).keep };

    /// The seat's node.
    fn seat_node(seat: &Self::Seat) -> NodeId
        ensures { result ≡ (seating seat.now).node };

    /// The number of the seat's line.
    fn seat_number(seat: &Self::Seat) -> LineNo
        ensures { result ≡ (seating seat.now).terms.number };

    /// The node's pending step.
    fn seat_pending(seat: &Self::Seat) -> Pending
        ensures value { result ≡ (seating seat.now).pending }
        ensures sound { IsSoundStep (seating seat.now).terms.nodes (Self.Keep.fits (seating seat.now).terms.keep (seating seat.now).terms.number) result };

    /// The same, but for its line.
    fn seat_stage(seat: &Self::Seat) -> Stage
        ensures value { result ≡ stage_of (seating seat.now).pending }
        ensures sound { IsSoundStep (seating seat.now).terms.nodes (Self.Keep.fits (seating seat.now).terms.keep (seating seat.now).terms.number) (seating seat.now).pending };

    /// The node's own tag, which is a look. None: the line was not to be had.
    fn own(&self, seat: &mut Self::Seat) -> Option<Tag>
        requires { is_seat self.now seat.old }
        ensures { makes seat.old (Own result) seat.new };

    /// The memory word. None: the line was not to be had.
    fn mem(&self, seat: &mut Self::Seat) -> Option<Mem>
        requires { is_seat self.now seat.old }
        ensures { makes seat.old (MemWas result) seat.new };

    /// A node's tag. None: the line was not to be had.
    fn tag(&self, seat: &mut Self::Seat, node: NodeId) -> Option<Tag>
        requires of { is_seat self.now seat.old }
        requires node { node < (seating seat.old).terms.nodes }
        ensures { makes seat.old (TagWas node result) seat.new };

    /// One event of the node that its pending step allows.
    fn step(&self, seat: &mut Self::Seat, event: Event) -> Outcome
        requires of { is_seat self.now seat.old }
        requires allowed { is_allowed (seating seat.old).terms.nodes (seating seat.old).node (seating seat.old).pending event ≡ true }
        requires fits { FitsEvent (Self.Keep.fits (seating seat.old).terms.keep (seating seat.old).terms.number) event }
        ensures { makes seat.old (Stepped event result) seat.new };

    /// Room for n more receipts, at least. `AllocError`: memory was refused.
    fn seat_reserve(seat: &mut Self::Seat, n: usize) -> Result<(), AllocError>
        ensures { readies seat.old (Reserved n (is_ok result)) seat.new };

    /// The seat's receipts.
    fn seat_receipts(seat: &Self::Seat) -> &Receipts
        ensures { result.now ≡ (seating seat.now).receipts };

    /// Sets whether the next settle is only passed, or is a `Read`.
    fn seat_aim(seat: &mut Self::Seat, passing: bool)
        ensures { readies seat.old (Aimed passing) seat.new };

    /// A seat of a line is on its terms, and a call leaves it the node's seat there, and is as every port owes.
    ghost laws: { IsShared Self.Keep.fits terms seating is_seat makes };

    /// A call leaves the seat's receipts as it is to leave them where there is room, and else as they were; one that readies them
    /// leaves all else.
    ghost kept: { IsKept seating is_seat makes readies };
}
