//! Gates that let calls start by a rule, and hear of them; and the one that is always open.
use crate::checks::same;
use sci_work::{Gate, OpenGate};
use std::sync::atomic::{AtomicBool, AtomicU64, Ordering};

/// Lets the first calls of these nodes start, up to a number, and no other's.
#[derive(Drop)]
pub(crate) struct Opens {
    /// The first node.
    pub from: u16,
    /// The node behind the last.
    pub to: u16,
    /// How many calls of each.
    pub calls: u64,
}

impl Gate for Opens {
    fn may_start(&self, node: u16, call: u64) -> bool {
        self.from <= node && node < self.to && call < self.calls
    }

    fn ended(&self, _node: u16, _call: u64) {}

    fn limit(&self) -> u64 {
        3
    }
}

/// What is heard of a node: how often it asked, how many of its calls have ended, and whether one has begun.
#[derive(Drop)]
struct Heard {
    asked: AtomicU64,
    ended: AtomicU64,
    begun: AtomicBool,
}

/// Lets the first calls of two nodes start, up to a number. Each call is to be asked for, up to a yes, and then to end.
#[derive(Drop)]
pub(crate) struct Hears<'s> {
    first: u16,
    calls: u64,
    limit: u64,
    nodes: [Heard; 2],
    wrong: AtomicBool,
    stop: &'s AtomicBool,
    raises: u64,
}

impl<'s> Hears<'s> {
    /// Of this node and the next. The gate raises the mark while it is asked, when the first was asked so often before.
    pub(crate) fn new(first: u16, calls: u64, stop: &'s AtomicBool, raises: u64) -> Hears<'s> {
        Hears {
            first,
            calls,
            limit: if raises < 1000 { 1000 } else { 3 },
            nodes: [
                Heard {
                    asked: AtomicU64::new(0),
                    ended: AtomicU64::new(0),
                    begun: AtomicBool::new(false),
                },
                Heard {
                    asked: AtomicU64::new(0),
                    ended: AtomicU64::new(0),
                    begun: AtomicBool::new(false),
                },
            ],
            wrong: AtomicBool::new(false),
            stop,
            raises,
        }
    }

    /// How often the first node or the next was asked for, how many calls have ended, and whether one is open or wasn't told as it
    /// should.
    pub(crate) fn heard(&self, place: usize) -> (u64, u64, bool) {
        let Some(node) = self.nodes.get(place) else {
            return (0, 0, true);
        };
        let is_wrong = self.wrong.load(Ordering::SeqCst) || node.begun.load(Ordering::SeqCst);
        let (asked, ended) = (&node.asked, &node.ended);
        (
            asked.load(Ordering::SeqCst),
            ended.load(Ordering::SeqCst),
            is_wrong,
        )
    }

    // The node, whose next call it is; and the call before has ended, or this one has begun. None: it isn't so.
    fn next(&self, node: u16, call: u64, has_begun: bool) -> Option<&Heard> {
        let place = usize::from(node.wrapping_sub(self.first));
        if let Some(heard) = self.nodes.get(place) {
            let is_next = call == heard.ended.load(Ordering::SeqCst);
            if is_next && heard.begun.load(Ordering::SeqCst) == has_begun {
                return Some(heard);
            }
        }
        self.wrong.store(true, Ordering::SeqCst);
        None
    }
}

impl Gate for Hears<'_> {
    fn may_start(&self, node: u16, call: u64) -> bool {
        let Some(heard) = self.next(node, call, false) else {
            return false;
        };
        if heard.asked.fetch_add(1, Ordering::SeqCst) == self.raises {
            self.stop.store(true, Ordering::SeqCst);
        }
        let starts = call < self.calls;
        heard.begun.store(starts, Ordering::SeqCst);
        starts
    }

    fn ended(&self, node: u16, call: u64) {
        if let Some(heard) = self.next(node, call, true) {
            heard.begun.store(false, Ordering::SeqCst);
            heard.ended.fetch_add(1, Ordering::SeqCst);
        }
    }

    fn limit(&self) -> u64 {
        self.limit
    }
}

#[test]
fn the_open_gate_lets_each_call_start(rt: HostRuntime) {
    same(&rt, &OpenGate.limit(), &1);
    for (node, call) in [(0, 0), (63, 7), (u16::MAX, u64::MAX)] {
        assert!(rt; OpenGate.may_start(node, call));
        OpenGate.ended(node, call);
        assert!(rt; OpenGate.may_start(node, call));
    }
}
