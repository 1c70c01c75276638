//! A gate that only nodes in threads of their own can pass: their first calls have to meet.
use crate::checks::{same, same_at};
use crate::rings::{consumed, passed};
use crate::runs::{Job, ran};
use sci_work::{Gate, Recording, WorkRefusal};
use std::sync::atomic::{AtomicBool, Ordering};
use std::test::Fail;

/// At its first call a node raises its flag and looks for the other's. Once both were up at one moment, each call may start.
#[derive(Drop)]
struct MeetingGate {
    looks: u32,
    first: AtomicBool,
    second: AtomicBool,
    met: AtomicBool,
}

impl MeetingGate {
    /// A node looks so often before it lowers its flag.
    fn new(looks: u32) -> MeetingGate {
        MeetingGate {
            looks,
            first: AtomicBool::new(false),
            second: AtomicBool::new(false),
            met: AtomicBool::new(false),
        }
    }

    fn has_met(&self) -> bool {
        self.met.load(Ordering::SeqCst)
    }

    // With its flag up, the node looks for the other's.
    fn looks(&self, other: &AtomicBool) -> bool {
        for _ in 0..self.looks {
            if other.load(Ordering::SeqCst) {
                self.met.store(true, Ordering::SeqCst);
            }
            if self.has_met() {
                return true;
            }
        }
        false
    }
}

impl Gate for MeetingGate {
    fn may_start(&self, node: u16, call: u64) -> bool {
        if call > 0 || self.has_met() {
            return true;
        }
        let (own, other) = if node == 0 {
            (&self.first, &self.second)
        } else {
            (&self.second, &self.first)
        };
        own.store(true, Ordering::SeqCst);
        let met = self.looks(other);
        if !met {
            own.store(false, Ordering::SeqCst);
        }
        met
    }

    fn ended(&self, _node: u16, _call: u64) {}

    fn limit(&self) -> u64 {
        100
    }
}

/// Two nodes at work, their items or cells, how many lines each may name, and what they give.
const MEETINGS: [(Job, &[u64], u16, &[u64]); 3] = [
    (Job::Count(1), &[], 1, &[2]),
    (Job::Stencil(1), &[0; 14], 2, &[0; 14]),
    (Job::Ring(1), &[7], 2, &[7]),
];

#[test]
fn nodes_in_threads_of_their_own_meet(rt: HostRuntime) -> Result<(), Fail> {
    for (place, (job, items, capacity, given)) in MEETINGS.iter().enumerate() {
        let (gate, sizes, recording) = (
            MeetingGate::new(1_000_000),
            (2, *capacity),
            Recording::Nothing,
        );
        let (found, _) = ran(&rt, rt.alloc(), job, items, sizes, recording, &gate)?;
        same_at(&rt, &place, &found.as_slice(), given);
        same_at(&rt, &place, &gate.has_met(), &true);
    }
    Ok(())
}

#[test]
fn one_thread_meets_none(rt: HostRuntime) -> Result<(), Fail> {
    let (gate, stop) = (MeetingGate::new(10), AtomicBool::new(false));
    for (job, items, _, _) in &MEETINGS[..2] {
        let refused = ran(
            &rt,
            rt.alloc(),
            job,
            items,
            (1, 2),
            Recording::Nothing,
            &gate,
        )
        .err();
        same(&rt, &refused, &Some(WorkRefusal::Stalled));
    }
    let (produced, _) = passed(&rt, rt.alloc(), &[7], 1, &gate, &stop).ok_or("no bank")?;
    same(&rt, &produced.err(), &Some(WorkRefusal::Stalled));
    let consumed = consumed(&rt, rt.alloc(), &[7], [0; 8], &gate).ok_or("no bank")?;
    same(&rt, &consumed, &Some(WorkRefusal::Stalled));
    same(&rt, &gate.has_met(), &false);
    Ok(())
}
