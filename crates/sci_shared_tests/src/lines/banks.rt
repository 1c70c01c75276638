//! A node over a bank of lines that threads share, and seats that make no bank.
ghost use Rattle.std.specs.Prelude.{◌≡◌, Some, IfOk, IfSome, [], ◌∷◌};
ghost use Rattle.sci_port.specs.declared.calls.Call.TheVariants.{MemWas};
ghost use Rattle.sci_port.specs.SeatBanks.{AreLines, AreSeatsOf, IsLine, IsOnePerLine, MakesCall};

use super::TestedLine;
use super::turning::turns_in;
use crate::checks::same;
use sci_cache::Node;
use sci_coarse::CoarseLine;
use sci_core::{AnyWords, Line};
use sci_fine::FineLine;
use sci_ops::Answer;
use sci_port::{Bank, SeatBank, SeatOfAnother, SharedLine};
use sci_words::{Kind, LineNo, Mem, MemState};
use std::alloc::{AllocError, Global};
use std::process::Abort;
use std::sync::Wait;
use std::test::Fail;

/// A line of two nodes, with its seats.
pub(crate) fn pair_of<L: TestedLine>(
    alloc: Global,
    number: LineNo,
) -> Result<(L, L::Seat, L::Seat), Fail>
    ensures line { IfOk result (λ r. IsLine 2 (record {}) number (L.terms r.0)) }
    ensures seats { IfOk result (λ r. L.is_seat r.0 r.1 × L.is_seat r.0 r.2) }
{
    let (line, mut seats) = L::opened(alloc, 2, number, Line::ZERO)?;
    let (Some(one), Some(zero)) = (seats.pop(), seats.pop()) else {
        return Err(Fail::new("no two seats"));
    };
    Ok((line, zero, one))
}

/// A list of two.
fn both<T: Drop>(alloc: Global, first: T, second: T) -> Result<Vec<T>, AllocError>
    ensures { IfOk result (λ both. both.items ≡ first ∷ second ∷ []) }
{
    let mut both = Vec::new(alloc);
    both.push(first)?;
    both.push(second)?;
    Ok(both)
}

/// Two lines of two nodes, with the seats of the first line and then those of the second.
fn two_lines<L: TestedLine>(
    alloc: Global,
) -> Result<(Vec<L>, L::Seat, L::Seat, L::Seat, L::Seat), Fail>
    ensures lines { IfOk result (λ r. AreLines L.terms r.0.items) }
    ensures zeros { IfOk result (λ r. AreSeatsOf L.is_seat r.0.items (r.1 ∷ r.3 ∷ [])) }
    ensures zero_one { IfOk result (λ r. AreSeatsOf L.is_seat r.0.items (r.1 ∷ r.4 ∷ [])) }
    ensures number { IfOk result (λ r. (L.seating r.3).terms.number ≡ 1) }
{
    let (first, zero, one) = pair_of(alloc, 0)?;
    let (second, other_zero, other_one) = pair_of(alloc, 1)?;
    let lines = both(alloc, first, second)?;
    Ok((lines, zero, one, other_zero, other_one))
}

/// What two seats make over these lines.
fn made<L: TestedLine>(
    alloc: Global,
    lines: &[L],
    seat: L::Seat,
    other: L::Seat,
) -> Result<Result<SeatBank<'_, L>, SeatOfAnother<L::Seat>>, AllocError>
    requires lines { AreLines L.terms lines.now }
    requires seats { IsOnePerLine L.seating lines.now (seat ∷ other ∷ []) → AreSeatsOf L.is_seat lines.now (seat ∷ other ∷ []) }
{
    Ok(SeatBank::new(lines, both(alloc, seat, other)?))
}

/// A node loads both lines of a bank, and keeps the second.
fn loads_both<R: Abort + Wait, B: Bank<Keep = AnyWords>>(rt: &R, node: &mut Node, bank: &mut B)
    requires node { (B.way bank.old).node ≡ node.old.id }
    requires lines { ((B.way bank.old).lines ≡ node.old.lines) × (node.old.lines ≡ 2) }
    ensures same_way { B.way bank.new ≡ B.way bank.old }
    ensures same_node { (node.new.id ≡ node.old.id) × (node.new.lines ≡ node.old.lines) }
{
    let seen = Answer::Seen {
        words: [0; 8],
        stamp: 0,
    };
    same(rt, &node.load(rt, bank, 0), &Ok(seen));
    same(rt, &node.load(rt, bank, 1), &Ok(seen));
}

/// The first line is at home, and the node's tag on the second is all that it has.
fn has_the_second<B: Bank>(rt: &impl Abort, bank: &mut B)
    requires { (B.way bank.old).lines ≡ 2 }
    ensures { B.way bank.new ≡ B.way bank.old }
{
    let home = Some(MemState::Home);
    same(rt, &bank.mem(0).map(|mem| mem.state), &home);
    let kinds = (Some(Kind::Invalid), Some(Kind::Fresh));
    same(rt, &bank.own(0).map(|tag| tag.kind), &kinds.0);
    same(rt, &bank.own(1).map(|tag| tag.kind), &kinds.1);
}

/// A node adds to the second line, and writes all of it.
#[tactic(auto, using(sci_ops::proofs::Storing::any_store_fits))]
fn adds_and_writes<R: Abort + Wait, B: Bank<Keep = AnyWords>>(rt: &R, node: &mut Node, bank: &mut B)
    requires node { (B.way bank.old).node ≡ node.old.id }
    requires lines { ((B.way bank.old).lines ≡ node.old.lines) × (node.old.lines ≡ 2) }
    ensures same_way { B.way bank.new ≡ B.way bank.old }
    ensures same_node { (node.new.id ≡ node.old.id) × (node.new.lines ≡ node.old.lines) }
{
    let added = Answer::Wrote {
        before: [0; 8],
        stamp: 1,
    };
    same(rt, &node.add(rt, bank, 1, 0, 1), &Ok(added));
    let wrote = Answer::Wrote {
        before: [1, 0, 0, 0, 0, 0, 0, 0],
        stamp: 2,
    };
    same(rt, &node.write_line(rt, bank, 1, [0; 8]), &Ok(wrote));
}

/// A node stores on the second line, leaves it, and reads it again.
fn writes_and_reads<R: Abort + Wait, B: Bank<Keep = AnyWords>>(
    rt: &R,
    node: &mut Node,
    bank: &mut B,
)
    requires node { (B.way bank.old).node ≡ node.old.id }
    requires lines { ((B.way bank.old).lines ≡ node.old.lines) × (node.old.lines ≡ 2) }
{
    let wrote = Answer::Wrote {
        before: [0; 8],
        stamp: 3,
    };
    same(rt, &node.store(rt, bank, 1, 0, 7), &Ok(wrote));
    same(rt, &node.evict(rt, bank, 1), &Ok(Answer::Out));
    let words = [7, 0, 0, 0, 0, 0, 0, 0];
    let seen = Answer::Seen { words, stamp: 3 };
    same(rt, &node.load(rt, bank, 1), &Ok(seen));
}

/// A node of one line at a time works over a bank of two, with each call that waits.
fn works<R: Abort + Wait, B: Bank<Keep = AnyWords>>(
    rt: &R,
    alloc: Global,
    bank: &mut B,
) -> Result<(), Fail> {
    if bank.lines() != 2 {
        return Err(Fail::new("not two lines"));
    }
    let mut node = Node::new(alloc, bank.node(), 2, 1)?;
    loads_both(rt, &mut node, bank);
    same(rt, &node.resident(alloc)?.as_slice(), &[1].as_slice());
    has_the_second(rt, bank);
    adds_and_writes(rt, &mut node, bank);
    writes_and_reads(rt, &mut node, bank);
    Ok(())
}

/// The memory word of a line by a bank of seats: the seat at the line has made this very call, and every other seat is as it was.
fn mem_by<L: SharedLine>(bank: &mut SeatBank<'_, L>, line: LineNo) -> Option<Mem>
    ensures made { IfSome result (λ mem. MakesCall L.makes bank.old.seats.items line (MemWas (Some mem)) bank.new.seats.items) }
{
    if line >= bank.lines() {
        return None;
    }
    bank.mem(line)
}

/// The seats are of these lines and nodes.
fn are_of<L: TestedLine>(rt: &impl Abort, seats: &[L::Seat], wanted: &[(LineNo, u16)]) {
    same(rt, &seats.len(), &wanted.len());
    for (seat, want) in seats.iter().zip(wanted) {
        let (node, number, _) = L::says(seat);
        same(rt, &(number, node.get()), want);
    }
}

/// The refusal is 9, and hands back seats of these lines and nodes.
fn hands_back<L: TestedLine>(
    rt: &impl Abort,
    made: Result<SeatBank<'_, L>, SeatOfAnother<L::Seat>>,
    wanted: &[(LineNo, u16)],
) {
    let Err(refused) = made else {
        panic!(rt; "it is no bank")
    };
    same(rt, &refused.number(), &9);
    are_of::<L>(rt, &refused.seats, wanted);
}

/// A node works over a bank of two lines, and the bank gives its seats back in their order.
fn works_over_two<R: Abort + Wait, L: TestedLine>(rt: &R, alloc: Global) -> Result<(), Fail> {
    let (lines, seat, _, other, _) = two_lines::<L>(alloc)?;
    let Ok(mut bank) = made(alloc, &lines, seat, other)? else {
        panic!(rt; "it was refused")
    };
    same(rt, &(bank.node().get(), bank.lines()), &(0, 2));
    works(rt, alloc, &mut bank)?;
    let home = Some(MemState::Home);
    same(rt, &mem_by(&mut bank, 0).map(|mem| mem.state), &home);
    are_of::<L>(rt, &bank.into_seats(), &[(0, 0), (1, 0)]);
    Ok(())
}

#[test]
fn a_node_works_over_a_bank(rt: HostRuntime) -> Result<(), Fail> {
    works_over_two::<_, CoarseLine<AnyWords>>(&rt, rt.alloc())?;
    works_over_two::<_, FineLine<AnyWords>>(&rt, rt.alloc())
}

/// Turns by chance on two lines by a bank, which gives its seats back.
pub(super) fn takes_turns<L: TestedLine>(rt: &impl Abort, alloc: Global) -> Result<(), Fail> {
    let (lines, seat, _, other, _) = two_lines::<L>(alloc)?;
    let Ok(mut bank) = made(alloc, &lines, seat, other)? else {
        panic!(rt; "it was refused")
    };
    assert!(rt; matches!(turns_in(&mut bank, 2), Some(1_000..)));
    same(rt, &bank.into_seats().len(), &2);
    Ok(())
}

/// Seats in another order make no bank.
fn refuses_another_order<L: TestedLine>(rt: &impl Abort, alloc: Global) -> Result<(), Fail> {
    let (lines, seat, _, other, _) = two_lines::<L>(alloc)?;
    hands_back(rt, made(alloc, &lines, other, seat)?, &[(1, 0), (0, 0)]);
    Ok(())
}

/// Nor do those of two nodes, nor none.
fn refuses_two_nodes<L: TestedLine>(rt: &impl Abort, alloc: Global) -> Result<(), Fail> {
    let (lines, zero, _, _, one) = two_lines::<L>(alloc)?;
    hands_back(rt, made(alloc, &lines, zero, one)?, &[(0, 0), (1, 1)]);
    hands_back(rt, SeatBank::new(&lines, Vec::new(alloc)), &[]);
    Ok(())
}

#[test]
fn seats_that_make_no_bank(rt: HostRuntime) -> Result<(), Fail> {
    refuses_another_order::<CoarseLine<AnyWords>>(&rt, rt.alloc())?;
    refuses_two_nodes::<CoarseLine<AnyWords>>(&rt, rt.alloc())?;
    refuses_another_order::<FineLine<AnyWords>>(&rt, rt.alloc())?;
    refuses_two_nodes::<FineLine<AnyWords>>(&rt, rt.alloc())
}
