//! Lines that threads share, opened as a script says, and their seats, dealt to the nodes.
ghost use Rattle.std.specs.Prelude.{◌≡◌, ℕ, length, vec_items, IfSome};
ghost use Rattle.sci_port.specs.SeatBanks.{IsLine};
ghost use Rattle.sci_script.specs.Dealt.{AreDealt, ArePiled, AreSeats, AreShared};

use sci_coarse::CoarseLine;
use sci_core::{AnyWords, Line};
use sci_fine::FineLine;
use sci_port::SharedLine;
use sci_script::Script;
use sci_words::LineNo;
use std::alloc::Global;

/// A kind of line that threads share, of which a script's memory may be.
pub trait ScriptLine: SharedLine<Keep = AnyWords> + Sized + Drop {
    /// A line that nobody has used, and its seats. None: there is no memory, or it can't have so many nodes.
    fn opened(
        alloc: Global,
        nodes: u16,
        number: LineNo,
        content: Line,
    ) -> Option<(Self, Vec<Self::Seat>)>
        ensures line { IfSome result (λ r. IsLine nodes (record {}) number (Self.terms r.0)) }
        ensures seats { IfSome result (λ r. AreSeats Self.is_seat r.0 r.1.items) };
}

impl ScriptLine for CoarseLine<AnyWords> {
    fn opened(
        alloc: Global,
        nodes: u16,
        number: LineNo,
        content: Line,
    ) -> Option<(CoarseLine<AnyWords>, Vec<sci_coarse::Seat<AnyWords>>)> {
        CoarseLine::new(alloc, nodes, number, content, AnyWords).ok()
    }
}

impl ScriptLine for FineLine<AnyWords> {
    fn opened(
        alloc: Global,
        nodes: u16,
        number: LineNo,
        content: Line,
    ) -> Option<(FineLine<AnyWords>, Vec<sci_fine::Seat<AnyWords>>)> {
        FineLine::new(alloc, nodes, number, content, AnyWords).ok()
    }
}

/// The lines of a script as it opens them, and the seats of each, in a pile for each line.
pub(crate) fn opened<L: ScriptLine>(
    alloc: Global,
    script: &Script,
) -> Option<(Vec<L>, Vec<Vec<L::Seat>>)>
    ensures count { IfSome result (λ r. length r.0.items ≡ script.now.size.lines) }
    ensures lines { IfSome result (λ r. AreShared (λ l nodes number. IsLine nodes (record {}) number (L.terms l)) script.now.size.nodes r.0.items) }
    ensures piles { IfSome result (λ r. ArePiled L.is_seat vec_items r.0.items r.1.items) }
{
    let mut lines = Vec::new(alloc);
    let mut piles = Vec::new(alloc);
    for number in 0..script.lines() {
        let (line, seats) = L::opened(alloc, script.nodes(), number, script.opening(number))?;
        let Ok(()) = lines.push(line) else {
            return None;
        };
        let Ok(()) = piles.push(seats) else {
            return None;
        };
    }
    Some((lines, piles))
}

/// The last node that still has its seats: its seat at each line. None: there is no memory, or a pile has no seat.
pub(crate) fn hand_of<L: ScriptLine>(
    alloc: Global,
    lines: &[L],
    piles: &mut Vec<Vec<L::Seat>>,
) -> Option<Vec<L::Seat>>
    requires piles { ArePiled L.is_seat vec_items lines.now piles.old.items }
    ensures hand { IfSome result (λ hand. AreDealt L.is_seat lines.now hand.items) }
    ensures piles { IfSome result (λ _. ArePiled L.is_seat vec_items lines.now piles.new.items) }
{
    let mut hand = Vec::new(alloc);
    for place in 0..piles.len() {
        let seat = piles[place].pop()?;
        let Ok(()) = hand.push(seat) else {
            return None;
        };
    }
    Some(hand)
}
