//! What lines that threads share have alike as they are closed.
ghost use Rattle.std.specs.Prelude.{◌≡◌, ◌↔◌, ◌≤◌, [], IsTrue, IfOk, vec_capacity, vec_len};
ghost use Rattle.sci_port.specs.SeatBanks.{IsOnePerNode, SitsOn};

use crate::shared::SharedLine;
use sci_core::{Closed, Line, Receipt};
use sci_words::{LineNo, Tag};
use std::alloc::{AllocError, Global};

/// A line that was closed, and what its nodes kept of it.
#[derive(Drop)]
pub struct Finished {
    pub closed: Closed,
    /// Node i's receipts at place i, in its order.
    pub receipts: Vec<Vec<Receipt>>,
}

/// A line that was not closed. The line and the seats come back as they were.
#[derive(Drop)]
pub struct FinishRefusal<L, S> {
    pub line: L,
    pub seats: Vec<S>,
    /// 9: the seats are not one per node in order. 7: memory ran out.
    pub refusal: u8,
}

/// Room for the tags, the lines and the receipts of so many nodes.
pub fn room_for(
    alloc: Global,
    nodes: u16,
) -> Result<(Vec<Tag>, Vec<Line>, Vec<Vec<Receipt>>), AllocError>
    ensures { IfOk result (λ room. (room.0.items ≡ []) × (room.1.items ≡ []) × (room.2.items ≡ []) × (nodes ≤ vec_capacity room.0) × (nodes ≤ vec_capacity room.1) × (nodes ≤ vec_capacity room.2) × (vec_len room.0 ≡ 0) × (vec_len room.1 ≡ 0)) }
{
    let tags = Vec::with_capacity(alloc, usize::from(nodes))?;
    let lines = Vec::with_capacity(alloc, usize::from(nodes))?;
    let lists = Vec::with_capacity(alloc, usize::from(nodes))?;
    Ok((tags, lines, lists))
}

// The seat is that of the node of this number, at a line of this number.
fn sits_on<L: SharedLine>(seat: &L::Seat, place: usize, number: LineNo) -> bool
    ensures { IsTrue result ↔ SitsOn place number (L.seating seat.now) }
{
    usize::from(L::seat_node(seat).get()) == place && L::seat_number(seat) == number
}

/// There is one seat per node, in order, with the line's number.
pub fn are_one_per_node<L: SharedLine>(line: &L, seats: &[L::Seat]) -> bool
    ensures { IsTrue result ↔ IsOnePerNode L.terms L.seating line.now seats.now }
{
    if seats.len() != usize::from(line.nodes()) {
        return false;
    }
    for (place, seat) in seats.iter().enumerate() {
        if !sits_on::<L>(seat, place, line.number()) {
            return false;
        }
    }
    true
}
