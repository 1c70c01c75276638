//! Nodes whose calls take turns by a gate, each in a thread of its own: a call is told to have ended once it has, and not before.
use crate::checks::{same, same_at};
use crate::runs::{Job, ran};
use crossbeam_utils::Backoff;
use sci_words::Kind;
use sci_work::{Gate, Recording};
use std::sync::atomic::{AtomicU64, Ordering};
use std::test::Fail;

/// Has calls start in this order of nodes. A node whose call has ended goes on when its turn comes again, or at the end.
#[derive(Drop)]
pub(crate) struct InOrder<'o> {
    order: &'o [u16],
    ended: AtomicU64,
}

impl<'o> InOrder<'o> {
    pub(crate) fn new(order: &'o [u16]) -> InOrder<'o> {
        InOrder {
            order,
            ended: AtomicU64::new(0),
        }
    }

    // How many calls have ended.
    fn calls(&self) -> usize {
        self.ended.load(Ordering::SeqCst) as usize
    }

    // Looks for the node's turn, for long, while other threads run.
    fn looks(&self, node: u16) -> bool {
        let backoff = Backoff::new();
        for _ in 0..10_000_000 {
            match self.order.get(self.calls()) {
                Some(next) if *next != node => backoff.snooze(),
                _ => return true,
            }
        }
        false
    }
}

impl Gate for InOrder<'_> {
    fn may_start(&self, node: u16, _call: u64) -> bool {
        self.looks(node)
    }

    fn ended(&self, node: u16, _call: u64) {
        self.ended.fetch_add(1, Ordering::SeqCst);
        self.looks(node);
    }

    fn limit(&self) -> u64 {
        1
    }
}

/// A workload of two nodes: its items, in which order their calls start, whether there are no more, and what it gives.
type Row = (Job, &'static [u64], &'static [u16], bool, &'static [u64]);

const ORDERS: [Row; 4] = [
    // node 1 reads the item's line before node 0 has written it, and again behind that; or behind it alone
    (Job::Ring(1), &[7], &[1, 0, 1, 1], true, &[7]),
    (Job::Ring(1), &[7], &[0, 1, 1], true, &[7]),
    // each writes its tile and reads it: no node has all its calls before the other has one
    (Job::Stencil(0), &[1; 14], &[1, 0, 1, 0], true, &[1; 14]),
    // a node alone could do this in five calls: node 0 asks for tile 1 until node 1 may write it
    (
        Job::Stencil(1),
        &[1; 14],
        &[0; 30],
        false,
        &[2, 3, 3, 3, 3, 3, 3, 3, 3, 3, 3, 3, 3, 2],
    ),
];

#[test]
fn a_read_or_a_write_has_ended_when_it_is_told(rt: HostRuntime) -> Result<(), Fail> {
    for (place, (job, items, order, is_all, given)) in ORDERS.iter().enumerate() {
        let gate = InOrder::new(order);
        let (found, _) = ran(
            &rt,
            rt.alloc(),
            job,
            items,
            (2, 2),
            Recording::Nothing,
            &gate,
        )?;
        same_at(&rt, &place, &found.as_slice(), given);
        same_at(&rt, &place, &(gate.calls() == order.len()), is_all);
    }
    Ok(())
}

#[test]
fn an_addition_has_ended_when_it_is_told(rt: HostRuntime) -> Result<(), Fail> {
    // who added last has the line
    for order in [[0, 1], [1, 0]] {
        let gate = InOrder::new(&order);
        let (word, closed) = ran(
            &rt,
            rt.alloc(),
            &Job::Count(1),
            &[],
            (2, 1),
            Recording::Nothing,
            &gate,
        )?;
        same(&rt, &(word.as_slice(), gate.calls()), &([2].as_slice(), 2));
        assert!(rt; closed.lines.len() == 1 && closed.lines[0].tags.len() == 2);
        for node in 0..2 {
            let is_last = usize::from(order[1]) == node;
            let is_dirty = closed.lines[0].tags[node].kind == Kind::Dirty;
            same(&rt, &is_dirty, &is_last);
        }
    }
    Ok(())
}
