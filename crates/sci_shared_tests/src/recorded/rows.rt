//! Runs of one to four nodes, alone and in each other's way.
use super::Recorded;
use super::commands::Command::{Add, Done, Evict, Load, Store, Turns, WriteLine};
use super::commands::{Command, record};
use sci_core::{AnyWords, Event, Line, Whole};
use sci_ops::Op;
use sci_words::{Kind, NodeId, Tag};
use std::alloc::Global;
use std::test::Fail;

/// A run: how many nodes there are, how many of them load to the end first, and what they do then.
pub(crate) type Run = (u16, u16, &'static [(u16, Command)]);

const ONLY_FRESH: Tag = Tag {
    kind: Kind::Fresh,
    held: false,
    forw: None,
    back: None,
};

/// Runs of one to four nodes, alone and in each other's way.
pub(crate) const RUNS: [Run; 15] = [
    // Loads and writes, one after another and in each other's way.
    (3, 3, &[]),
    (2, 0, &[(0, Store(5)), (0, Done), (1, Load), (1, Done)]),
    (
        2,
        0,
        &[
            (0, Store(5)),
            (0, Done),
            (0, Evict),
            (0, Done),
            (1, Load),
            (1, Done),
        ],
    ),
    (3, 3, &[(2, Store(5)), (2, Turns(10))]),
    (
        3,
        0,
        &[
            (0, Store(5)),
            (0, Done),
            (0, Store(6)),
            (0, Turns(1)),
            (1, Load),
            (1, Turns(2)),
            (2, Load),
            (2, Turns(3)),
            (1, Turns(1)),
            (0, Turns(1)),
            (1, Done),
            (2, Done),
        ],
    ),
    (
        2,
        0,
        &[
            (0, Store(5)),
            (0, Done),
            (0, Store(6)),
            (0, Turns(1)),
            (1, Load),
            (1, Done),
            (0, Done),
            (1, Done),
        ],
    ),
    (
        1,
        0,
        &[
            (0, WriteLine([1, 2, 3, 4, 5, 6, 7, 8])),
            (0, Done),
            (0, Add(7, u64::MAX)),
            (0, Done),
            (0, Load),
            (0, Done),
        ],
    ),
    // Nodes that leave the list, alone and in each other's way.
    (1, 1, &[(0, Evict), (0, Done), (0, Evict), (0, Done)]),
    (3, 3, &[(0, Store(5)), (0, Turns(18)), (1, Load), (1, Done)]),
    (
        3,
        3,
        &[
            (1, Evict),
            (1, Turns(1)),
            (0, Evict),
            (0, Turns(1)),
            (1, Turns(1)),
            (0, Turns(2)),
            (1, Turns(2)),
        ],
    ),
    (
        4,
        4,
        &[
            (1, Evict),
            (1, Turns(2)),
            (3, Store(9)),
            (3, Turns(8)),
            (1, Turns(2)),
            (3, Done),
        ],
    ),
    // Readers that come while a node leaves, writes, or has found HOME to write.
    (
        2,
        1,
        &[
            (0, Store(5)),
            (0, Turns(1)),
            (1, Load),
            (1, Turns(4)),
            (0, Turns(2)),
            (1, Turns(2)),
            (0, Done),
        ],
    ),
    (
        3,
        0,
        &[
            (0, Store(7)),
            (0, Done),
            (1, Load),
            (1, Done),
            (1, Evict),
            (1, Turns(2)),
            (0, Store(9)),
            (0, Done),
            (2, Load),
            (2, Turns(2)),
            (1, Turns(1)),
            (2, Turns(1)),
            (1, Turns(4)),
            (2, Done),
            (1, Done),
        ],
    ),
    (
        2,
        0,
        &[
            (0, Store(7)),
            (0, Done),
            (0, Evict),
            (0, Turns(1)),
            (1, Load),
            (1, Turns(2)),
            (0, Turns(2)),
            (1, Done),
            (0, Done),
        ],
    ),
    (
        2,
        0,
        &[
            (0, Store(7)),
            (0, Turns(2)),
            (1, Load),
            (1, Turns(2)),
            (0, Turns(1)),
            (1, Turns(1)),
            (0, Turns(1)),
            (1, Done),
            (0, Done),
        ],
    ),
];

/// Writes on a line that has the last stamp, or the one before.
pub(crate) const LAST_STAMPS: Run = (
    1,
    0,
    &[
        (0, Store(5)),
        (0, Done),
        (0, Store(6)),
        (0, Done),
        (0, Load),
        (0, Done),
    ],
);

/// Records a run on a line with this opening: loads of so many nodes, and what they do then.
pub(crate) fn recorded(alloc: Global, opening: Line, run: &Run) -> Result<Recorded, Fail> {
    let (nodes, sharers, commands) = *run;
    let mut whole = Whole::open(alloc, nodes, 0, opening, AnyWords)?;
    let mut events = Vec::new(alloc);
    let mut ops = [Op::load(); 4];
    for sharer in 0..sharers {
        record(&mut whole, &mut events, &mut ops, &[(sharer, Done)]).ok_or("no node")?;
    }
    record(&mut whole, &mut events, &mut ops, commands).ok_or("no node")?;
    Ok(Recorded {
        nodes,
        opening,
        events,
    })
}

/// What three nodes begin at once, four times.
const AT_ONCE: [[Command; 3]; 4] = [
    [Load, Load, Load],
    [Add(0, 5), Evict, Load],
    [Evict, Load, WriteLine([3; 8])],
    [Add(1, 4), Add(1, 4), Evict],
];

/// Three nodes that are all at work at once, four times: they take their turns one after another.
pub(crate) fn at_once(alloc: Global) -> Result<Recorded, Fail> {
    let (nodes, opening) = (3, Line::ZERO);
    let mut whole = Whole::open(alloc, nodes, 0, opening, AnyWords)?;
    let mut events = Vec::new(alloc);
    let mut ops = [Op::load(); 4];
    for [zero, one, two] in &AT_ONCE {
        let begun = [(0, *zero), (1, *one), (2, *two)];
        record(&mut whole, &mut events, &mut ops, &begun).ok_or("no node")?;
        for _ in 0..40 {
            let turns = [(0, Turns(1)), (1, Turns(1)), (2, Turns(1))];
            record(&mut whole, &mut events, &mut ops, &turns).ok_or("no node")?;
        }
    }
    Ok(Recorded {
        nodes,
        opening,
        events,
    })
}

/// Two exchanges miss: a node that means to write finds no HOME any more, and the head loses the line to it while it converts.
pub(crate) fn missing(alloc: Global) -> Result<Recorded, Fail> {
    let zero = NodeId::new(0).ok_or("no node")?;
    let one = NodeId::new(1).ok_or("no node")?;
    let events = vec![in alloc;
        (zero, Event::Queue(None)),
        (one, Event::Queue(None)),
        (zero, Event::PrependValid),
        (one, Event::HomeWrite),
        (zero, Event::ReturnMemory),
        (zero, Event::Settle),
        (zero, Event::Convert(ONLY_FRESH)),
        (one, Event::Requeue(Some(zero))),
        (one, Event::PrependValid),
        (zero, Event::FreshToGone),
        (zero, Event::Unconverted),
        (zero, Event::Look),
        (one, Event::ReturnMemory),
        (one, Event::AttachFresh(ONLY_FRESH)),
        (one, Event::Settle),
    ]?;
    Ok(Recorded {
        nodes: 2,
        opening: Line::ZERO,
        events,
    })
}
