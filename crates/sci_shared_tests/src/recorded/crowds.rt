//! Runs of crowds: nodes that are all at work at once.
use super::Recorded;
use super::commands::turns;
use crate::events::Events;
use sci_core::{AnyWords, Line, Whole};
use sci_ops::Op;
use sci_words::NodeId;
use std::alloc::Global;
use std::test::Fail;

// Operations end well before so many rounds of turns.
const ROUNDS: usize = 4_000;

// A node that nobody disturbs ends within so many turns, or waits.
const BURST: usize = 300;

// What a node does: of eight neighbours two write, two leave, and the others read.
fn operation(number: u16, shift: u16) -> Result<Op, Fail> {
    Ok(match number.wrapping_add(shift) % 8 {
        0 => Op::add(0, 1)?,
        3 => Op::store(1, u64::from(number))?,
        2 | 6 => Op::evict(),
        _ => Op::load(),
    })
}

// So many turns of each node, one node after another. Some(true): all operations have ended.
fn round(
    whole: &mut Whole<AnyWords>,
    events: &mut Events,
    ops: &mut [Op],
    count: usize,
) -> Option<bool> {
    let mut ended = true;
    for number in 0..whole.nodes() {
        let node = NodeId::new(number)?;
        let op = ops.get_mut(usize::from(number))?;
        ended = turns(whole, events, node, op, count)? && ended;
    }
    Some(ended)
}

// Rounds until all operations have ended. After so many of one turn a node, a node takes many at once: writers that meet turn by
// turn may disturb each other for ever.
fn carry_out(
    whole: &mut Whole<AnyWords>,
    events: &mut Events,
    ops: &mut [Op],
    patience: usize,
) -> Option<()> {
    for done in 0..ROUNDS {
        let count = if done < patience { 1 } else { BURST };
        if round(whole, events, ops, count)? {
            return Some(());
        }
    }
    None
}

/// So many nodes, all at work at once: they begin an operation, take their turns one after another to the end, and do so twice more, each
/// with another operation. After so many rounds of one turn a node, a node takes many at once.
pub(crate) fn crowd(alloc: Global, nodes: u16, patience: usize) -> Result<Recorded, Fail> {
    let opening = Line::ZERO;
    let mut whole = Whole::open(alloc, nodes, 0, opening, AnyWords)?;
    let mut events = Vec::new(alloc);
    for shift in 0..3 {
        let mut ops = Vec::with_capacity(alloc, usize::from(nodes))?;
        for number in 0..nodes {
            ops.push(operation(number, shift)?)?;
        }
        carry_out(&mut whole, &mut events, &mut ops, patience).ok_or("it did not end")?;
    }
    Ok(Recorded {
        nodes,
        opening,
        events,
    })
}
