//! A ring's two workers, over lines that one node has alone.
ghost use Rattle.std.specs.Prelude.{◌≡◌, ◌<◌, ◌≤◌, length, IfSome};
ghost use Rattle.sci_work.specs.Ring.{FitsRing};

use crate::checks::same;
use crate::gates::Opens;
use sci_cache::Node;
use sci_core::{Line, Whole};
use sci_port::{Receipts, SoloBank};
use sci_words::NodeId;
use sci_work::{Gate, OpenGate, RingFact, WorkRefusal, consume, produce};
use std::alloc::Global;
use std::sync::Wait;
use std::sync::atomic::{AtomicBool, Ordering};
use std::test::Fail;

/// A node's bank of so many lines, which it has alone: line 0 has these words, the others are zeros, and all have this stamp.
pub(crate) fn opened<'a>(
    alloc: Global,
    fact: RingFact<'a>,
    me: NodeId,
    count: u16,
    first: [u64; 8],
    stamp: u64,
) -> Option<SoloBank<RingFact<'a>>>
    requires count { (0 < count) × (count ≤ 1024) }
    requires me { me < 64 }
    requires first { FitsRing fact.source.now fact.lines 0 first }
    ensures { IfSome result (λ bank. (bank.node ≡ me) × (length bank.wholes.items ≡ count) × (bank.keep ≡ fact.entry)) }
{
    let mut wholes = Vec::new(alloc);
    let mut words = first;
    for number in 0..count {
        let line = Line { words, stamp };
        let Ok(whole) = Whole::open(alloc, me.get() + 1, number, line, fact) else {
            return None;
        };
        if wholes.push(whole).is_err() {
            return None;
        }
        words = [0; 8];
    }
    let receipts = Receipts::of_lines(alloc, wholes.len()).ok()?;
    Some(SoloBank::new(wholes, receipts, me))
}

// What the worker is refused with that consumes the items from two lines, the first with these words.
#[tactic(auto, using(sci_work::proofs::Items::is_ring_of))]
pub(crate) fn consumed<R: Wait, G: Gate>(
    rt: &R,
    alloc: Global,
    items: &[u64],
    first: [u64; 8],
    gate: &G,
) -> Option<Option<WorkRefusal>>
    requires { FitsRing items.now 2 0 first }
{
    let stop = AtomicBool::new(false);
    let me = NodeId::new(3)?;
    let mut bank = opened(alloc, RingFact::new(items, 2), me, 3, first, 0)?;
    let mut node = Node::new(alloc, me, 3, 1).ok()?;
    let n = items.len();
    Some(consume(rt, alloc, &mut node, &mut bank, n, 2, gate, &stop).err())
}

// What a node's workers answer that first produces the items and then consumes them, with a table of one line.
pub(crate) fn passed<R: Wait, G: Gate>(
    rt: &R,
    alloc: Global,
    items: &[u64],
    lines: u16,
    gate: &G,
    stop: &AtomicBool,
) -> Option<(Result<(), WorkRefusal>, Result<Vec<u64>, WorkRefusal>)>
    requires { (0 < lines) × (lines ≤ 1023) }
{
    let me = NodeId::new(3)?;
    let fact = RingFact::new(items, lines);
    let mut bank = opened(alloc, fact, me, lines + 1, [0; 8], 0)?;
    let mut node = Node::new(alloc, me, lines + 1, 1).ok()?;
    let produced = produce(rt, &mut node, &mut bank, items, lines, gate, stop);
    let consumed = consume(
        rt,
        alloc,
        &mut node,
        &mut bank,
        items.len(),
        lines,
        gate,
        stop,
    );
    Some((produced, consumed))
}

/// How a node's two workers end, one behind the other: what the producer is refused with, and the consumer.
type Ends = (Option<WorkRefusal>, Option<WorkRefusal>);

const WELL: Ends = (None, None);

const BAD: Ends = (
    Some(WorkRefusal::BadSettings),
    Some(WorkRefusal::BadSettings),
);

const STOPPED: Ends = (Some(WorkRefusal::Stopped), Some(WorkRefusal::Stopped));

const STALLED: Ends = (Some(WorkRefusal::Stalled), Some(WorkRefusal::Stopped));

#[test]
fn items_come_in_order_or_are_refused(rt: HostRuntime) -> Result<(), Fail> {
    let many = vec![in rt.alloc(); 0; 100_001]?;
    // the items, how many calls may start, and whether the mark is raised before
    let rows: [(&[u64], u64, bool, Ends); 9] = [
        (&[], u64::MAX, false, WELL),
        (&[7], u64::MAX, false, WELL),
        (&[0, u64::MAX], u64::MAX, false, WELL),
        (&[3, 0, 5, 3], u64::MAX, false, WELL),
        (many.as_slice(), u64::MAX, false, BAD),
        (&[7], u64::MAX, true, STOPPED),
        (&[7, 8, 9], 0, false, STALLED),
        (&[7, 8, 9], 1, false, STALLED),
        (&[7, 8, 9], 2, false, STALLED),
    ];
    for (items, calls, is_raised, ends) in rows {
        let stop = AtomicBool::new(is_raised);
        let gate = Opens {
            from: 0,
            to: u16::MAX,
            calls,
        };
        let (produced, consumed) = passed(&rt, rt.alloc(), items, 4, &gate, &stop).ok_or(
            "no bank",
        )?;
        match consumed {
            Ok(consumed) => {
                same(&rt, &(produced.err(), None), &ends);
                same(&rt, &consumed.as_slice(), &items);
            }
            Err(refusal) => same(&rt, &(produced.err(), Some(refusal)), &ends),
        }
        same(&rt, &stop.load(Ordering::SeqCst), &(ends != WELL));
    }
    Ok(())
}

#[test]
fn a_line_with_a_later_item_is_19(rt: HostRuntime) -> Result<(), Fail> {
    let third = [3, 6, 0, 0, 0, 0, 0, 0];
    let consumed = consumed(&rt, rt.alloc(), &[0, 3, 6, 9], third, &OpenGate).ok_or("no bank")?;
    same(&rt, &consumed, &Some(WorkRefusal::Overrun));
    Ok(())
}
