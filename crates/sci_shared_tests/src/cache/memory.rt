//! Turns of a node take no memory, nor does its bank, nor do evictions, and requests for a line that it names, where there is the room
//! that they need or the node keeps no receipts. tools/allocations runs each of these tests with the allocation of its last line refused, and wants it
//! to fail there, and there alone.
ghost use Rattle.std.specs.Prelude.{◌≡◌, length};

use super::receipts::of_three;
use super::{Lent, banked, done, ended, finds_zeros, made, opened};
use crate::checks::{allocates, same};
use crate::lines::turning::turns_in;
use sci_cache::{Node, Request};
use sci_core::{AnyWords, Line};
use sci_port::{Bank, SoloBank};
use sci_words::{LineNo, NodeId};
use std::process::Abort;
use std::test::Fail;

const ROUNDS: u32 = 2_000;

/// Requests of a node that names the line, by place.
fn requests(line: LineNo) -> [Request; 5] {
    [
        Request::Load { line },
        Request::Store {
            line,
            word: 2,
            value: 3,
        },
        Request::Evict { line: 2 },
        Request::Add {
            line,
            word: 7,
            delta: 1,
        },
        Request::WriteLine {
            line,
            words: [4; 8],
        },
    ]
}

/// Rounds of such requests by two nodes in turn, each to its end.
fn rounds(one: &mut Node, other: &mut Node, wholes: Lent) -> Option<Lent>
    requires { (one.old.lines ≡ 3) × (other.old.lines ≡ 3) }
    ensures { (one.new.lines ≡ 3) × (other.new.lines ≡ 3) }
{
    let mut lines = wholes;
    for _ in 0..ROUNDS {
        for request in requests(1) {
            let (_, _, after) = done(one, lines, request)?;
            let (_, _, after) = done(other, after, request)?;
            if one.open() || other.open() {
                return None;
            }
            lines = after;
        }
    }
    Some(lines)
}

/// Each node names a line, and then the first puts line 0 out, whose eviction comes behind the last allocation; both work, and then
/// the first puts line 1 out: how many turns its second load took, and how many lines there are.
fn worked(first: &mut Node, second: &mut Node, wholes: Lent) -> Option<(u32, usize)>
    requires { (first.old.lines ≡ 3) × (second.old.lines ≡ 3) }
{
    let (_, _, wholes) = done(first, wholes, Request::Load { line: 0 })?;
    let load = Request::Load { line: 1 };
    let (_, _, wholes) = done(second, wholes, load)?;
    let (turns, _, wholes) = done(first, wholes, load)?;
    let wholes = rounds(first, second, wholes)?;
    let (_, _, wholes) = done(first, wholes, Request::Evict { line: 1 })?;
    Some((turns, wholes.lines.len()))
}

#[test]
fn turns_take_no_memory(rt: HostRuntime) -> Result<(), Fail> {
    // The lines and their receipts take eleven, a node six, and the first line that it names one.
    let wholes = opened(rt.alloc(), 2, 3, Line::ZERO)?;
    let mut first = made(rt.alloc(), 0, 1)?.without_receipts();
    let mut second = made(rt.alloc(), 1, 1)?.without_receipts();
    same(&rt, &worked(&mut first, &mut second, wholes), &Some((8, 3)));
    allocates(&rt, rt.alloc(), "allocation 26 is refused");
    Ok(())
}

// For how many receipts each of these requests needs room at most.
const NEED: usize = 3;

// Makes room, and then the requests of a node that names line 1, each to its end, where there is the room that it needs.
fn begun(node: &mut Node, bank: &mut SoloBank<AnyWords>) -> Option<()>
    requires node { (node.old.id ≡ bank.old.node) × (node.old.lines ≡ 3) }
    requires bank { length bank.old.wholes.items ≡ 3 }
{
    bank.reserve(1, 4 * NEED).ok()?;
    bank.reserve(2, NEED).ok()?;
    for request in requests(1) {
        let has_room = bank.room(1) >= NEED && bank.room(2) >= NEED;
        if !has_room || node.begin(bank, request).is_err() {
            return None;
        }
        ended(node, bank)?;
    }
    Some(())
}

#[test]
fn calls_with_room_take_no_memory(rt: HostRuntime) -> Result<(), Fail> {
    // The lines and their receipts take eleven, a node six, the first line that it names one, and its receipts one; and then more
    // room two.
    let lent = opened(rt.alloc(), 1, 3, Line::ZERO)?;
    let mut node = made(rt.alloc(), 0, 1)?;
    let lent = finds_zeros(&rt, &mut node, lent, 1, 4)?;
    let mut bank = of_three(lent, &node)?;
    begun(&mut node, &mut bank).ok_or("no end")?;
    allocates(&rt, rt.alloc(), "allocation 22 is refused");
    Ok(())
}

// How many lines a bank gives back, behind one more seat for its node.
fn lines_left(mut bank: SoloBank<AnyWords>) -> usize {
    let me = bank.node();
    bank.seat(me);
    bank.into_wholes().len()
}

#[test]
fn solo_banks_take_no_memory(rt: HostRuntime) -> Result<(), Fail> {
    // The lines and their receipts take eleven.
    let zero = NodeId::new(0).ok_or("no node")?;
    let lent = opened(rt.alloc(), 1, 3, Line::ZERO)?;
    let mut bank = banked(lent, zero).ok_or("no bank")?;
    assert!(rt; matches!(turns_in(&mut bank, 1), Some(1_000..)));
    same(&rt, &lines_left(bank), &3);
    allocates(&rt, rt.alloc(), "allocation 12 is refused");
    Ok(())
}
