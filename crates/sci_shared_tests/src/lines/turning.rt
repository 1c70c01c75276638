//! Turns by chance, of seats of a line and on lines of a bank.
ghost use Rattle.std.specs.Prelude.{◌≡◌, ◌<◌, All};

use super::{TestedLine, turn};
use sci_core::{AnyWords, Event, Outcome};
use sci_ops::{Op, Turn};
use sci_port::{At, Bank, Port, SeatPort};
use sci_words::LineNo;

const TURNS: u32 = 100_000;

/// The next number by chance.
fn next(chance: u32) -> u32 {
    chance.wrapping_mul(1_664_525).wrapping_add(1_013_904_223)
}

/// An operation by this number.
fn op(kind: u32) -> Op {
    match kind % 4 {
        0 => Op::load(),
        1 => Op::evict(),
        2 => Op::write_line([3; 8]),
        _ => Op::add(7, 1).unwrap_or(Op::load()),
    }
}

/// One turn of a seat of a line of three nodes, behind a look. None: seat and port don't say the same of themselves.
fn turn_of<L: TestedLine>(line: &L, seat: &mut L::Seat, op: &mut Op) -> Option<Turn>
    requires { L.is_seat line.now seat.old }
    ensures { L.is_seat line.now seat.new }
{
    let said = L::says(seat);
    let port = SeatPort::new(line, seat);
    let is_said = said == (port.node(), port.number(), port.pending()) && port.nodes() == 3;
    let looked = line.try_step(seat, Event::Look);
    if is_said && looked == Some(Outcome::Done(None)) {
        Some(turn(&mut SeatPort::new(line, seat), op))
    } else {
        None
    }
}

/// One turn of the seat of this node. None: there is no such seat.
fn turn_at<L: TestedLine>(line: &L, seats: &mut [L::Seat], number: u16, op: &mut Op) -> Option<Turn>
    requires { All (λ s. L.is_seat line.now s) seats.old }
    ensures { All (λ s. L.is_seat line.now s) seats.new }
{
    let mut taken = None;
    for seat in seats.iter_mut() {
        if L::seat_node(seat).get() == number {
            taken = turn_of(line, seat, op);
        }
    }
    taken
}

/// Turns by chance of three nodes, each with one operation after the other: how many of them ended.
pub(crate) fn turns<L: TestedLine>(line: &L, seats: &mut [L::Seat]) -> Option<u32>
    requires { All (λ s. L.is_seat line.now s) seats.old }
    ensures { All (λ s. L.is_seat line.now s) seats.new }
{
    let mut ops = [Op::load(); 3];
    let mut ended: u32 = 0;
    let mut chance = 1;
    for _ in 0..TURNS {
        chance = next(chance);
        let number = (chance >> 16) as u16 % 3;
        let mut at_work = ops[usize::from(number)];
        if let Turn::Done(_) = turn_at(line, seats, number, &mut at_work)? {
            at_work = op(chance >> 20);
            ended = ended.saturating_add(1);
        }
        ops[usize::from(number)] = at_work;
    }
    Some(ended)
}

/// One turn on a line of a bank.
fn turn_on<B: Bank<Keep = AnyWords>>(bank: &mut B, line: LineNo, op: &mut Op) -> Turn
    requires { line < (B.way bank.old).lines }
{
    op.turn(&mut At::new(bank, line))
}

/// One turn on a line of a bank, behind a look and loads. None: there is no such line, a load wasn't to be had, or the bank doesn't
/// say of the line what it is, and the same of its step behind the loads.
fn turn_in<B: Bank<Keep = AnyWords>>(
    bank: &mut B,
    line: LineNo,
    nodes: u16,
    op: &mut Op,
) -> Option<Turn> {
    if line >= bank.lines() || bank.number(line) != line || bank.nodes(line) != nodes {
        return None;
    }
    let node = bank.node();
    let pending = bank.pending(line);
    let _ = (bank.mem(line)?, bank.tag(line, node)?);
    let is_same = pending == bank.pending(line);
    let looked = bank.step(line, Event::Look);
    let own = bank.own(line);
    if !is_same || own.is_none() || looked != Outcome::Done(None) {
        return None;
    }
    Some(turn_on(bank, line, op))
}

/// Turns by chance on two lines of a bank, of so many nodes, each with one operation after the other: how many of them ended.
pub(crate) fn turns_in<B: Bank<Keep = AnyWords>>(bank: &mut B, nodes: u16) -> Option<u32> {
    let mut ops = [Op::load(); 2];
    let mut ended: u32 = 0;
    let mut chance = 1;
    for _ in 0..TURNS {
        chance = next(chance);
        let line = (chance >> 16) as u16 % 2;
        let mut at_work = ops[usize::from(line)];
        if let Turn::Done(_) = turn_in(bank, line, nodes, &mut at_work)? {
            at_work = op(chance >> 20);
            ended = ended.saturating_add(1);
        }
        ops[usize::from(line)] = at_work;
    }
    Some(ended)
}
