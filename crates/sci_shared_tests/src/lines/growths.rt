//! Each growth may be refused: its call then answers 7, all is as before, and a second try has the memory. With ample memory
//! this test passes. tools/allocations runs it once for each growth of its table, with that one refused, and the test ends by
//! saying which call answered it.
ghost use Rattle.std.specs.Prelude.{All};

use super::opening::{OPENING, is_unused};
use super::{TestedLine, are_idle, carry_out, closed, is_idle};
use crate::checks::{same, same_at};
use sci_coarse::CoarseLine;
use sci_core::{AnyWords, Closed, OpenRefusal};
use sci_fine::FineLine;
use sci_ops::{Answer, Op};
use sci_words::{MemState, NodeId};
use std::alloc::Global;
use std::process::Abort;
use std::sync::Wait;
use std::test::Fail;

fn are_as_before<L: TestedLine>(rt: &impl Abort, seats: &[L::Seat]) {
    same(rt, &seats.len(), &2);
    for (place, seat) in seats.iter().enumerate() {
        let (node, number, _) = L::says(seat);
        same(rt, &(usize::from(node.get()), number), &(place, u16::MAX));
        assert!(rt; is_idle::<L>(seat));
    }
}

// A second try to open has the memory.
fn opens_again<L: TestedLine>(
    rt: &impl Abort,
    alloc: Global,
    refusal: OpenRefusal,
) -> Result<(), Fail> {
    same(rt, &refusal, &OpenRefusal::OutOfMemory);
    same(rt, &refusal.number(), &7);
    let (_, seats) = L::opened(alloc, 2, u16::MAX, OPENING)?;
    are_as_before::<L>(rt, &seats);
    Err(Fail::new("new answered 7"))
}

fn refuses<L: TestedLine>(rt: &impl Abort, alloc: Global) -> Result<(), Fail> {
    let (line, seats) = match L::opened(alloc, 2, u16::MAX, OPENING) {
        Ok(opened) => opened,
        Err(refusal) => return opens_again::<L>(rt, alloc, refusal),
    };
    assert!(rt; are_idle::<L>(&seats));
    match line.close(alloc, seats) {
        Ok((closed, _)) => is_unused(rt, &closed),
        Err((line, seats, refusal)) => {
            same(rt, &refusal, &7);
            are_as_before::<L>(rt, &seats);
            let Ok((closed, _)) = line.close(alloc, seats) else {
                panic!(rt; "it was refused again")
            };
            is_unused(rt, &closed);
            return Err(Fail::new("finish answered 7"));
        }
    }
    Ok(())
}

/// Growths: 7 of new, 3 of finish, 5 of new, 3 of finish.
#[test]
fn refused_growths(rt: HostRuntime) -> Result<(), Fail> {
    refuses::<CoarseLine<AnyWords>>(&rt, rt.alloc())?;
    refuses::<FineLine<AnyWords>>(&rt, rt.alloc())
}

// The seat of this node carries out a load. None: there is no such seat.
fn load_by<R: Wait, L: TestedLine>(
    rt: &R,
    line: &L,
    seats: &mut [L::Seat],
    number: u16,
) -> Option<Answer>
    requires { All (λ s. L.is_seat line.now s) seats.old }
    ensures { All (λ s. L.is_seat line.now s) seats.new }
{
    let mut answer = None;
    for seat in seats.iter_mut() {
        if L::seat_node(seat).get() == number {
            answer = Some(carry_out(rt, line, seat, Op::load()));
        }
    }
    answer
}

// The list of a line of so many nodes has one head, which read what the line opened with.
fn is_read_alone(rt: &impl Abort, closed: &Closed, nodes: u16, head: u16) {
    let forw = closed.mem.forw.map(NodeId::get);
    same_at(
        rt,
        &nodes,
        &(closed.mem.state, forw),
        &(MemState::Fresh, Some(head)),
    );
    same(rt, &closed.tags.len(), &usize::from(nodes));
    same(rt, &closed.lines.len(), &usize::from(nodes));
    let Some(read) = closed.lines.get(usize::from(head)) else {
        panic!(rt; "the head has no line")
    };
    same_at(rt, &nodes, read, &OPENING);
}

// The last of so many nodes loads a new line, which is then closed.
fn last_loads<R: Abort + Wait, L: TestedLine>(
    rt: &R,
    alloc: Global,
    nodes: u16,
    last: u16,
) -> Result<(), Fail> {
    let Ok((line, mut seats)) = L::opened(alloc, nodes, 7, OPENING) else {
        return Err(Fail::new("new answered 7"));
    };
    let words = OPENING.words;
    let stamp = OPENING.stamp;
    let seen = Answer::Seen { words, stamp };
    let answer = load_by(rt, &line, seats.as_mut_slice(), last);
    same_at(rt, &nodes, &answer, &Some(seen));
    match closed(alloc, line, seats) {
        Ok(closed) => {
            is_read_alone(rt, &closed, nodes, last);
            Ok(())
        }
        Err(refused) => {
            same(rt, &refused, &(7, usize::from(nodes)));
            Err(Fail::new("finish answered 7"))
        }
    }
}

/// Growths: 5 of new, 3 of finish, 5 of new, 3 of finish.
#[test]
fn refused_growths_of_many_nodes(rt: HostRuntime) -> Result<(), Fail> {
    last_loads::<_, FineLine<AnyWords>>(&rt, rt.alloc(), 1023, 1022)?;
    last_loads::<_, FineLine<AnyWords>>(&rt, rt.alloc(), 1024, 1023)
}
