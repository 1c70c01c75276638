//! Words that are lawful, and each of their changes, which is not.
use super::{INVALID, Words};
use crate::checks::{same, same_at};
use sci_core::{Line, Pending};
use sci_words::{Kind, Mem, MemState, NodeId, Tag};
use std::process::Abort;
use std::test::Fail;

/// One place that is changed: memory's word, or a node's tag or pending step.
#[derive(Clone, Copy)]
enum Change {
    Mem(MemState, bool, Option<NodeId>),
    Tag(usize, Tag),
    Step(usize, Pending),
}

fn tag(kind: Kind, forw: Option<NodeId>, back: Option<NodeId>) -> Tag {
    Tag {
        kind,
        held: false,
        forw,
        back,
    }
}

fn changed(words: Words, change: Change) -> Words {
    let mut words = words;
    match change {
        Change::Mem(state, lent, forw) => words.mem = Mem { state, lent, forw },
        Change::Tag(node, tag) => {
            if let Some(own) = words.nodes.get_mut(node) {
                own.1 = tag;
            }
        }
        Change::Step(node, step) => {
            if let Some(own) = words.nodes.get_mut(node) {
                own.0 = step;
            }
        }
    }
    words
}

// Words are lawful, and not so with any of these changes.
fn check(rt: &impl Abort, words: Words, changes: &[Change]) {
    same(rt, &words.are_lawful(), &true);
    for (place, change) in changes.iter().enumerate() {
        same_at(rt, &place, &changed(words, *change).are_lawful(), &false);
    }
}

fn nodes() -> Option<[NodeId; 3]> {
    Some([NodeId::new(0)?, NodeId::new(1)?, NodeId::new(2)?])
}

#[test]
fn a_list_of_three_and_its_changes(rt: HostRuntime) -> Result<(), Fail> {
    let [zero, one, two] = nodes().ok_or("no nodes")?;
    let (head, tail) = (
        tag(Kind::Fresh, Some(one), None),
        tag(Kind::Valid, None, Some(one)),
    );
    let words = Words {
        mem: Mem {
            state: MemState::Fresh,
            lent: false,
            forw: Some(two),
        },
        nodes: [
            (Pending::Idle, tail),
            (Pending::Idle, tag(Kind::Valid, Some(zero), Some(two))),
            (Pending::Idle, head),
        ],
    };
    let read = Pending::Holding {
        word: tag(Kind::Valid, Some(zero), Some(two)),
        line: Line::ZERO,
    };
    check(
        &rt,
        words,
        &[
            // the list has another beginning, or none
            Change::Mem(MemState::Fresh, false, Some(one)),
            Change::Mem(MemState::Home, false, None),
            Change::Mem(MemState::Fresh, false, None),
            Change::Mem(MemState::Fresh, false, NodeId::new(3)),
            // memory's bytes are in nobody's hand; nobody's are newer
            Change::Mem(MemState::Fresh, true, Some(two)),
            Change::Mem(MemState::Gone, false, Some(two)),
            // it is cut off, goes in a circle, or names a node outside
            Change::Tag(2, tag(Kind::Fresh, None, None)),
            Change::Tag(0, tag(Kind::Valid, Some(two), Some(one))),
            Change::Tag(1, INVALID),
            Change::Tag(0, INVALID),
            // a back link isn't the entry before
            Change::Tag(0, tag(Kind::Valid, None, Some(two))),
            Change::Tag(1, tag(Kind::Valid, Some(zero), Some(zero))),
            // two heads; a head that is no front; a dirty one under FRESH
            Change::Tag(1, tag(Kind::Fresh, Some(zero), None)),
            Change::Tag(2, tag(Kind::Valid, Some(one), Some(zero))),
            Change::Tag(2, tag(Kind::Dirty, Some(one), None)),
            // nobody does what these say
            Change::Tag(
                1,
                Tag {
                    held: true,
                    ..tag(Kind::Valid, Some(zero), Some(two))
                },
            ),
            Change::Tag(1, tag(Kind::Roll, Some(zero), Some(two))),
            Change::Tag(1, tag(Kind::Purged, Some(zero), Some(two))),
            Change::Tag(2, tag(Kind::Queued, Some(one), None)),
            // a node does what its tag doesn't say
            Change::Step(1, read),
            Change::Step(1, Pending::Queueing { forw: None }),
            Change::Step(2, Pending::Parted { forw: Some(one) }),
        ],
    );
    Ok(())
}

#[test]
fn a_purge_and_its_changes(rt: HostRuntime) -> Result<(), Fail> {
    let [zero, one, two] = nodes().ok_or("no nodes")?;
    let advancing = Pending::Advancing {
        line: Line::ZERO,
        victim: one,
        word: tag(Kind::Purged, Some(zero), Some(two)),
    };
    let clearing = Pending::Clearing {
        line: Line::ZERO,
        victim: one,
        word: tag(Kind::Purged, Some(zero), Some(two)),
    };
    let words = Words {
        mem: Mem {
            state: MemState::Gone,
            lent: false,
            forw: Some(two),
        },
        nodes: [
            (Pending::Idle, tag(Kind::Valid, None, Some(one))),
            (Pending::Idle, tag(Kind::Purged, Some(zero), Some(two))),
            (advancing, tag(Kind::Purging, Some(one), None)),
        ],
    };
    check(
        &rt,
        words,
        &[
            Change::Mem(MemState::Fresh, false, Some(two)),
            Change::Tag(1, tag(Kind::Valid, Some(zero), Some(two))),
            Change::Tag(0, tag(Kind::Purged, Some(zero), Some(two))),
            Change::Tag(2, tag(Kind::Purging, Some(zero), None)),
            Change::Tag(2, tag(Kind::Dirty, Some(one), None)),
            Change::Step(2, clearing),
            Change::Step(2, Pending::Idle),
        ],
    );
    Ok(())
}
