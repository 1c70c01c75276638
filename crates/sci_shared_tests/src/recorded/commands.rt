//! What nodes do on a line that is lent, with the events that pass.
use crate::events::{Events, keep};
use sci_core::{AnyWords, Whole};
use sci_ops::{Op, Turn};
use sci_port::{Passed, Receipts, Solo, Watched};
use sci_words::NodeId;

// An operation that has not ended after so many turns waits for others.
const TURNS: usize = 100;

/// What a node does next.
#[derive(Clone, Copy)]
pub(crate) enum Command {
    /// It begins a load.
    Load,
    /// It begins to store this in word 0.
    Store(u64),
    /// It begins to add this to a word.
    Add(u8, u64),
    /// It begins to write the whole line.
    WriteLine([u64; 8]),
    /// It begins to leave the list.
    Evict,
    /// It takes so many turns.
    Turns(usize),
    /// It takes turns until the operation has ended.
    Done,
}

/// The last operation that each node began.
pub(crate) type Ops = [Op; 4];

/// So many turns, with their events recorded. Some(true): the operation has ended.
pub(crate) fn turns(
    whole: &mut Whole<AnyWords>,
    events: &mut Events,
    node: NodeId,
    op: &mut Op,
    count: usize,
) -> Option<bool> {
    let mut done = false;
    for _ in 0..count {
        if node.get() >= whole.nodes() {
            return None;
        }
        let mut receipts = Receipts::new(whole.allocator());
        let mut watched = Watched {
            port: Solo::new(whole, &mut receipts, node),
            passed: Passed::NOTHING,
        };
        done = matches!(op.turn(&mut watched), Turn::Done(_));
        keep(events, node, &watched.passed)?;
    }
    Some(done)
}

// The operation that a command begins. None: it begins none, or has no such word.
fn begun(command: Command) -> Option<Op> {
    match command {
        Command::Load => Some(Op::load()),
        Command::Store(value) => Op::store(0, value).ok(),
        Command::Add(word, delta) => Op::add(word, delta).ok(),
        Command::WriteLine(words) => Some(Op::write_line(words)),
        Command::Evict => Some(Op::evict()),
        Command::Turns(_) | Command::Done => None,
    }
}

// Carries a node's command out. None: there is no such node, or no such word.
fn carry_out(
    whole: &mut Whole<AnyWords>,
    events: &mut Events,
    ops: &mut Ops,
    number: u16,
    command: Command,
) -> Option<()> {
    let node = NodeId::new(number)?;
    let op = ops.get_mut(usize::from(number))?;
    let count = match command {
        Command::Turns(count) => count,
        // A turn of an operation that has ended does nothing.
        Command::Done => TURNS,
        begins => {
            *op = begun(begins)?;
            0
        }
    };
    turns(whole, events, node, op, count)?;
    Some(())
}

/// Carries the nodes' commands out, with the events recorded. None: there is no such node, or no such word.
pub(crate) fn record(
    whole: &mut Whole<AnyWords>,
    events: &mut Events,
    ops: &mut Ops,
    commands: &[(u16, Command)],
) -> Option<()> {
    for (number, command) in commands {
        carry_out(whole, events, ops, *number, *command)?;
    }
    Some(())
}
