//! A node stops on its way to a store, and its thread ends: what loads and adds of the others come to, and what they leave.
ghost use Rattle.std.specs.Prelude.{All};

use super::TestedLine;
use super::callers::{Caller, callers, take_turns, try_to_end, words};
use crate::checks::same_at;
use sci_coarse::CoarseLine;
use sci_core::{AnyWords, Line, Pending};
use sci_fine::FineLine;
use sci_ops::{Answer, Op};
use sci_words::{Kind, Tag};
use std::alloc::Global;
use std::process::Abort;
use std::thread;
use std::thread::Threads;

/// How many turns without an exchange an operation takes that waits for the node that has stopped.
const WAITS: u32 = 1_000;

/// How many it takes at most where it waits for a thread that works.
const PATIENCE: u32 = 10_000_000;

/// Turns in which a load ends: a newcomer queues, prepends itself, returns memory's bytes, attaches the old head, and settles.
const LOAD: usize = 5;

/// The kind of node 0's tag when it stops, whether the loads of nodes 1 and 2 end then, and whether their adds do.
type Stop = (Kind, [bool; 2], bool);

/// A store of node 0: whether all three nodes have loaded before, or nobody has, and in which of its turns it writes.
#[derive(Clone, Copy)]
struct Store {
    is_shared: bool,
    writes: usize,
}

const SHARED: Store = Store {
    is_shared: true,
    writes: 18,
};

const UNUSED: Store = Store {
    is_shared: false,
    writes: 6,
};

/// By how many turns of its store node 0 has taken when it stops, on a line that all share.
///
/// Nodes 0, 1 and 2 have loaded, so the list is 2, 1, 0. Node 0 leaves it in its turns 1 to 3, comes back in front in 4 to 8,
/// turns it GONE in 9 to 11, purges node 2 in 12 to 14 and node 1 in 15 to 17, and writes in 18.
///
/// A load ends where its node is still valid: so until node 0 purges it. From then on it waits: PURGED, or in the queue behind
/// nobody but PURGING.
///
/// An add needs every other sharer to go. It ends where node 0 is settled (0, 8, 18), or outside of the list (2 to 4). Else it
/// waits. At 1 node 2 has purged node 1 or waits for it to roll out; node 1 waits for its successor, node 0, which is in ROLL;
/// node 2 waits for node 0 too, once it has taken over its back link. At 5 and 6 node 2 is a head that memory doesn't name, and
/// node 1 rolls out and then waits for memory's bytes, or for QUEUED. At 7, 9 and 10 node 2 rolls out behind QUEUED or CONVERT,
/// which isn't told of a new successor; node 1 waits for it, or has queued up in front of node 0. At 11 both roll out, since
/// PURGING takes a new successor, and queue up in front of it. At 12 to 14 node 1 rolls out behind node 2, which is no sharer any
/// more.
const SHARED_STOPS: [Stop; 19] = [
    (Kind::Valid, [true, true], true),
    (Kind::Roll, [true, true], false),
    (Kind::Roll, [true, true], true),
    (Kind::Invalid, [true, true], true),
    (Kind::Queued, [true, true], true),
    (Kind::Queued, [true, true], false),
    (Kind::Queued, [true, true], false),
    (Kind::Queued, [true, true], false),
    (Kind::Fresh, [true, true], true),
    (Kind::Convert, [true, true], false),
    (Kind::Convert, [true, true], false),
    (Kind::Purging, [true, true], false),
    (Kind::Purging, [true, false], false),
    (Kind::Purging, [true, false], false),
    (Kind::Purging, [true, false], false),
    (Kind::Purging, [false, false], false),
    (Kind::Purging, [false, false], false),
    (Kind::Purging, [false, false], false),
    (Kind::Dirty, [true, true], true),
];

/// The same, on a line that nobody has used.
///
/// Node 0 queues in its turn 1, turns HOME to GONE and takes memory's bytes in 2, returns them in 3, settles as the only sharer in
/// 4, begins a purge of nobody in 5, and writes in 6.
///
/// At 1 node 0 is in no list yet, so the others do without it. At 2 they queue, and wait for memory's bytes. At 3 and 5 they queue
/// up in front of a head that is QUEUED or PURGING. At 4 and 6 node 0 is settled.
const UNUSED_STOPS: [Stop; 7] = [
    (Kind::Invalid, [true, true], true),
    (Kind::Queued, [true, true], true),
    (Kind::Queued, [false, false], false),
    (Kind::Queued, [false, false], false),
    (Kind::Dirty, [true, true], true),
    (Kind::Purging, [false, false], false),
    (Kind::Dirty, [true, true], true),
];

/// What a node that hasn't stopped does.
#[derive(Clone, Copy)]
enum Call {
    /// It loads. Whether the load of node 1 ends, and that of node 2.
    Load([bool; 2]),
    /// It adds 1, where its load has ended. Whether the add ends.
    Add(bool),
}

/// What the nodes do next.
#[derive(Clone, Copy)]
enum Phase {
    /// Node 0 begins its store, and takes so many turns of it.
    Stop(usize),
    /// This node begins its call, or both others do so at once.
    Others(Option<u16>, Call),
    /// All take turns to the ends of what they have begun.
    GoOn,
}

// A call of a node that hasn't stopped.
fn call_on<L: TestedLine>(line: &L, caller: &mut Caller<L::Seat>, number: u16, call: Call)
    requires { L.is_seat line.now caller.old.seat }
    ensures { L.is_seat line.now caller.new.seat }
{
    let ends = match call {
        Call::Load(loads) => {
            caller.begin(Op::load());
            let [one, two] = loads;
            if number == 1 { one } else { two }
        }
        Call::Add(ends) => {
            if caller.answer.is_some() {
                caller.begin(Op::add(0, 1).unwrap_or(Op::load()));
            }
            ends
        }
    };
    try_to_end(line, caller, if ends { PATIENCE } else { WAITS });
}

// What a node does in a phase, in its thread.
fn act<L: TestedLine>(line: &L, caller: &mut Caller<L::Seat>, phase: Phase)
    requires { L.is_seat line.now caller.old.seat }
    ensures { L.is_seat line.now caller.new.seat }
{
    let number = L::seat_node(&caller.seat).get();
    match phase {
        Phase::Stop(turns) => {
            if number == 0 {
                caller.begin(Op::store(0, 5).unwrap_or(Op::load()));
                take_turns(line, caller, turns);
            }
        }
        Phase::Others(by, call) => {
            let acts = match by {
                Some(node) => number == node,
                None => number != 0,
            };
            if acts {
                call_on(line, caller, number, call);
            }
        }
        Phase::GoOn => try_to_end(line, caller, PATIENCE),
    }
}

// A phase, each node in a thread. That of node 0 is a new one, which has ended behind the call.
fn all_act<R: Threads + Sync, L: TestedLine + Sync>(
    rt: &R,
    line: &L,
    callers: &mut [Caller<L::Seat>],
    phase: Phase,
)
where
    L::Seat: Send,
    requires { All (λ c. L.is_seat line.now c.seat) callers.old }
    ensures { All (λ c. L.is_seat line.now c.seat) callers.new }
{
    thread::for_each_mut(rt, callers, 3, &|_, caller| act(line, caller, phase));
}

// The nodes load, one after the other.
fn share<L: TestedLine>(line: &L, callers: &mut [Caller<L::Seat>])
    requires { All (λ c. L.is_seat line.now c.seat) callers.old }
    ensures { All (λ c. L.is_seat line.now c.seat) callers.new }
{
    for caller in callers.iter_mut() {
        take_turns(line, caller, LOAD);
    }
}

// A phase, which leaves lawful words: what node 0 is doing behind it, and its tag.
fn after<R: Abort + Threads + Sync, L: TestedLine + Sync>(
    rt: &R,
    line: &L,
    callers: &mut [Caller<L::Seat>],
    turns: usize,
    phase: Phase,
) -> Option<(Pending, Tag)>
where
    L::Seat: Send,
    requires { All (λ c. L.is_seat line.now c.seat) callers.old }
    ensures { All (λ c. L.is_seat line.now c.seat) callers.new }
{
    all_act(rt, line, callers, phase);
    let words = words(line, callers)?;
    same_at(rt, &turns, &words.are_lawful(), &true);
    Some(words.nodes[0])
}

// Word 0 and the stamp once node 0 has taken so many turns of its store.
fn value_behind(store: Store, turns: usize) -> (u64, u64) {
    if turns < store.writes { (0, 0) } else { (5, 1) }
}

// A line of zeros but for word 0.
fn zeros_but(first: u64) -> [u64; 8] {
    [first, 0, 0, 0, 0, 0, 0, 0]
}

// What a node has answered.
fn answer<S>(callers: &[Caller<S>], number: usize) -> Option<Answer> {
    callers.get(number)?.answer
}

// Loads that end see what stands: node 0's store once it has ended.
fn check_loads<S>(
    rt: &impl Abort,
    store: Store,
    turns: usize,
    callers: &[Caller<S>],
    ends: [bool; 2],
) {
    let [one, two] = ends;
    let (first, stamp) = value_behind(store, turns);
    let seen = Answer::Seen {
        words: zeros_but(first),
        stamp,
    };
    same_at(rt, &turns, &answer(callers, 1), &one.then_some(seen));
    same_at(rt, &turns, &answer(callers, 2), &two.then_some(seen));
}

// Adds that end come one behind the other, in either order.
fn check_adds<S>(rt: &impl Abort, store: Store, turns: usize, callers: &[Caller<S>], end: bool) {
    let (first, stamp) = value_behind(store, turns);
    let early = Answer::Wrote {
        before: zeros_but(first),
        stamp: stamp.wrapping_add(1),
    };
    let late = Answer::Wrote {
        before: zeros_but(first.wrapping_add(1)),
        stamp: stamp.wrapping_add(2),
    };
    let (one, two) = (answer(callers, 1), answer(callers, 2));
    let told = if two == Some(early) {
        (two, one)
    } else {
        (one, two)
    };
    let wanted = (end.then_some(early), end.then_some(late));
    same_at(rt, &turns, &told, &wanted);
}

// A call of both others, at once or of this one first.
fn both_act<R: Abort + Threads + Sync, L: TestedLine + Sync>(
    rt: &R,
    line: &L,
    callers: &mut [Caller<L::Seat>],
    turns: usize,
    first: Option<u16>,
    call: Call,
) -> Option<(Pending, Tag)>
where
    L::Seat: Send,
    requires { All (λ c. L.is_seat line.now c.seat) callers.old }
    ensures { All (λ c. L.is_seat line.now c.seat) callers.new }
{
    let left = after(rt, line, callers, turns, Phase::Others(first, call));
    match first {
        Some(1) => after(rt, line, callers, turns, Phase::Others(Some(2), call)),
        Some(_) => after(rt, line, callers, turns, Phase::Others(Some(1), call)),
        None => left,
    }
}

// Node 0 stops behind so many turns; the others load, and then add. At last node 0 goes on: whether all end then. None: a word
// was not to be had.
fn stops_behind<R: Abort + Threads + Sync, L: TestedLine + Sync>(
    rt: &R,
    line: &L,
    callers: &mut [Caller<L::Seat>],
    store: Store,
    turns: usize,
    first: Option<u16>,
    stop: Stop,
) -> Option<bool>
where
    L::Seat: Send,
    requires { All (λ c. L.is_seat line.now c.seat) callers.old }
    ensures { All (λ c. L.is_seat line.now c.seat) callers.new }
{
    let (kind, loads, adds) = stop;
    if store.is_shared {
        share(line, callers);
    }
    let (step, tag) = after(rt, line, callers, turns, Phase::Stop(turns))?;
    same_at(rt, &turns, &tag.kind, &kind);
    both_act(rt, line, callers, turns, first, Call::Load(loads))?;
    check_loads(rt, store, turns, callers, loads);
    let (left, _) = both_act(rt, line, callers, turns, first, Call::Add(adds))?;
    same_at(rt, &turns, &(left == step), &true);
    check_adds(rt, store, turns, callers, adds);
    after(rt, line, callers, turns, Phase::GoOn)?;
    Some(callers.iter().all(|caller| caller.answer.is_some()))
}

// The same, on a line of its own.
fn stops_on<R: Abort + Threads + Sync, L: TestedLine + Sync>(
    rt: &R,
    alloc: Global,
    store: Store,
    turns: usize,
    first: Option<u16>,
    stop: Stop,
) -> Option<bool>
where
    L::Seat: Send,
{
    let (line, seats) = L::opened(alloc, 3, 0, Line::ZERO).ok()?;
    let mut callers = callers(alloc, &line, seats)?;
    stops_behind(rt, &line, callers.as_mut_slice(), store, turns, first, stop)
}

// Node 0 stops wherever it is on its way to a store of a line that three nodes share, and of one that nobody has used. Of the
// others each comes first once, and once both come at once.
fn stops_anywhere<R: Abort + Threads + Sync, L: TestedLine + Sync>(rt: &R, alloc: Global)
where
    L::Seat: Send,
{
    let stores: [(Store, &[Stop]); 2] = [(SHARED, &SHARED_STOPS), (UNUSED, &UNUSED_STOPS)];
    for (store, stops) in stores {
        for (turns, stop) in stops.iter().enumerate() {
            for first in [Some(1), Some(2), None] {
                let all_end = stops_on::<R, L>(rt, alloc, store, turns, first, *stop);
                same_at(rt, &turns, &all_end, &Some(true));
            }
        }
    }
}

#[test]
fn a_node_stops(rt: HostRuntime) {
    stops_anywhere::<_, CoarseLine<AnyWords>>(&rt, rt.alloc());
    stops_anywhere::<_, FineLine<AnyWords>>(&rt, rt.alloc());
}
