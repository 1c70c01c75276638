//! Of two nodes that both refuse, in either order, the lower one's refusal is the answer.
use crate::checks::same;
use crossbeam_utils::Backoff;
use sci_core::{AnyWords, Line};
use sci_fine::FineLine;
use sci_work::parts::{Program, dealt, run_all};
use sci_work::{Gate, Recording, WorkRefusal};
use std::alloc::Global;
use std::slice;
use std::sync::Wait;
use std::sync::atomic::{AtomicBool, Ordering};
use std::test::Fail;
use std::thread::Threads;

/// Holds this node's call back, from before the other's call starts until it has ended. So both refuse, and neither sees the mark
/// that the other raises.
#[derive(Drop)]
struct HoldsBack {
    node: u16,
    asked: AtomicBool,
    ended: AtomicBool,
}

// Looks for a flag, for long, while other threads run.
fn looks(flag: &AtomicBool) -> bool {
    let backoff = Backoff::new();
    for _ in 0..10_000_000 {
        if flag.load(Ordering::SeqCst) {
            return true;
        }
        backoff.snooze();
    }
    false
}

impl Gate for HoldsBack {
    fn may_start(&self, node: u16, _call: u64) -> bool {
        if node == self.node {
            self.asked.store(true, Ordering::SeqCst);
            looks(&self.ended);
            return false;
        }
        looks(&self.asked)
    }

    fn ended(&self, _node: u16, _call: u64) {
        self.ended.store(true, Ordering::SeqCst);
    }

    fn limit(&self) -> u64 {
        1
    }
}

// What two nodes answer that each add once to a line of the last stamp, where this one is held back.
fn refused<R: Threads + Wait + Sync>(rt: &R, alloc: Global, node: u16) -> Result<(), WorkRefusal> {
    let opening = Line {
        words: [0; 8],
        stamp: u64::MAX,
    };
    let Ok((line, seats)) = FineLine::new(alloc, 2, 0, opening, AnyWords) else {
        return Err(WorkRefusal::OutOfMemory);
    };
    let hands = dealt(alloc, &line, seats)?;
    let gate = HoldsBack {
        node,
        asked: AtomicBool::new(false),
        ended: AtomicBool::new(false),
    };
    let program = Program::Count { adds: 1 };
    run_all(
        rt,
        alloc,
        &gate,
        slice::from_ref(&line),
        hands,
        program,
        Recording::Nothing,
        1,
    )?;
    Ok(())
}

#[test]
fn the_lower_nodes_refusal_is_the_answer(rt: HostRuntime) {
    for (node, refusal) in [(0, WorkRefusal::Stalled), (1, WorkRefusal::StampsSpent)] {
        same(&rt, &refused(&rt, rt.alloc(), node), &Err(refusal));
    }
}
