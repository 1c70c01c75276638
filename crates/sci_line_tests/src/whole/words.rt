//! Words worked out by hand from the tables of both layouts.
use crate::checks::{same, same_at};
use sci_words::Kind::{
    Convert, Dirty, Fresh, Invalid, Leaving, Purged, Purging, Queued, Roll, Valid,
};
use sci_words::WordRefusal::{HeldNotValid, LinkMissing, LinkUnwanted, SpareBits, UnknownKind};
use sci_words::*;
use std::process::Abort;

/// No node has this number.
const NONE: u16 = u16::MAX;

/// Layout 1 has no word: it leaves out nodes from 255 on.
const UNFIT: u64 = u64::MAX;

/// A word in layout 2, that in layout 1, the kind of its tag, its links forward and back, and its name.
type TagRow = (u64, u64, Kind, [u16; 2], &'static str);

const TAGS: [TagRow; 22] = [
    (0xffffffff0000, 0xffff00, Invalid, [NONE, NONE], "INVALID"),
    (0xffffffff0001, 0xffff01, Queued, [NONE, NONE], "QUEUED"),
    (0xffffffff0002, 0xffff02, Fresh, [NONE, NONE], "ONLY_FRESH"),
    (0xffffffff0003, 0xffff03, Dirty, [NONE, NONE], "ONLY_DIRTY"),
    (0xffffffff0004, 0xffff04, Convert, [NONE, NONE], "CONVERT"),
    (0xffffffff0005, 0xffff05, Purging, [NONE, NONE], "PURGING"),
    (0xffffffff0006, 0xffff06, Leaving, [NONE, NONE], "LEAVING"),
    (0xffff0007, 0xff07, Valid, [NONE, 0], "TAIL_VALID"),
    (0xffff0008, 0xff08, Roll, [NONE, 0], "ROLL"),
    (0xffff0009, 0xff09, Purged, [NONE, 0], "PURGED"),
    (0xffff00010002, 0xff0102, Fresh, [1, NONE], "HEAD_FRESH"),
    (0x200000007, 0x20007, Valid, [0, 2], "MID_VALID"),
    (0x1ffff0007, 0x1ff07, Valid, [NONE, 1], "TAIL_VALID"),
    (0xfe00fe0007, 0xfefe07, Valid, [254, 254], "MID_VALID"),
    (0xfffefffe0007, UNFIT, Valid, [65534, 65534], "MID_VALID"),
    (0x7, 0x7, Valid, [0, 0], "MID_VALID"),
    (0xfe0007, 0xfe07, Valid, [254, 0], "MID_VALID"),
    (0xff0007, UNFIT, Valid, [255, 0], "MID_VALID"),
    (0xfffe0007, UNFIT, Valid, [65534, 0], "MID_VALID"),
    (0xfeffff0007, 0xfeff07, Valid, [NONE, 254], "TAIL_VALID"),
    (0xffffff0007, UNFIT, Valid, [NONE, 255], "TAIL_VALID"),
    (0xfffeffff0007, UNFIT, Valid, [NONE, 65534], "TAIL_VALID"),
];

fn tag(kind: Kind, held: bool, links: [u16; 2]) -> Tag {
    let [forw, back] = links;
    Tag {
        kind,
        held,
        forw: NodeId::new(forw),
        back: NodeId::new(back),
    }
}

fn tag_word_1(tag: Tag) -> u64 {
    if layout1::fits_tag(&tag) {
        layout1::write_tag(tag)
    } else {
        UNFIT
    }
}

// The tag has these words, is what they say, and has this name.
fn is_tag(rt: &impl Abort, words: (u64, u64), tag: Tag, text: &str) {
    assert!(rt; tag.well_formed());
    let written = (write_tag(tag), tag_word_1(tag));
    same_at(rt, &words, &(written, name(tag)), &(words, text));
    let read = (read_tag(words.0), layout1::read_tag(words.1));
    let is_read = read.0 == Ok(tag) && (words.1 == UNFIT || read.1 == Ok(tag));
    same_at(rt, &words, &is_read, &true);
}

#[test]
fn reads_and_writes_tags(rt: HostRuntime) {
    for (word, word_1, kind, links, text) in &TAGS {
        is_tag(&rt, (*word, *word_1), tag(*kind, false, *links), text);
    }
    let held = tag(Valid, true, [0, 2]);
    is_tag(&rt, (0x200000017, 0x20017), held, "MID_VALID");
}

/// A word in layout 2 and one in layout 1, why they are refused, and the number of that refusal.
type Refused = (u64, u64, WordRefusal, u8);

const NO_TAGS: [Refused; 11] = [
    (0, 0, LinkUnwanted, 4),
    (0xf, 0xf, UnknownKind, 1),
    (0x8000ffffffff0000, 0x800000000000ff00, SpareBits, 2),
    (0xffff00000007, 0xff0007, LinkMissing, 3),
    (0xffffffff0011, 0xffff11, HeldNotValid, 5),
    // the lowest spare bit, and in layout 1 the one behind the links
    (0xffffffff0020, 0xffff20, SpareBits, 2),
    (0xffffffff0020, 0x1ffff00, SpareBits, 2),
    // of two reasons the first
    (0x2f, 0x2f, UnknownKind, 1),
    (0xffff00000027, 0xff0027, SpareBits, 2),
    (0xffff00000018, 0xff0018, LinkMissing, 3),
    (0x10, 0x10, LinkUnwanted, 4),
];

#[test]
fn refuses_tags(rt: HostRuntime) {
    for (word, word_1, refusal, number) in &NO_TAGS {
        let read = (read_tag(*word), layout1::read_tag(*word_1));
        same_at(&rt, word, &read, &(Err(*refusal), Err(*refusal)));
        same(&rt, &refusal.number(), number);
    }
}

/// The same of memory words: the state, whether bytes are lent, and the head.
type MemRow = (u64, u64, MemState, bool, u16, &'static str);

const MEMS: [MemRow; 8] = [
    (0xffff0000, 0xff00, MemState::Home, false, NONE, "HOME"),
    (0x20001, 0x201, MemState::Fresh, false, 2, "FRESH"),
    (0x20011, 0x211, MemState::Fresh, true, 2, "FRESH"),
    (0x10002, 0x102, MemState::Gone, false, 1, "GONE"),
    (0x12, 0x12, MemState::Gone, true, 0, "GONE"),
    (0xfe0012, 0xfe12, MemState::Gone, true, 254, "GONE"),
    (0xff0012, UNFIT, MemState::Gone, true, 255, "GONE"),
    (0xfffe0012, UNFIT, MemState::Gone, true, 65534, "GONE"),
];

fn mem(state: MemState, lent: bool, head: u16) -> Mem {
    Mem {
        state,
        lent,
        forw: NodeId::new(head),
    }
}

fn mem_word_1(mem: Mem) -> u64 {
    if layout1::fits_mem(&mem) {
        layout1::write_mem(mem)
    } else {
        UNFIT
    }
}

// The memory word has these codes, is what they say, and has this name.
fn is_mem(rt: &impl Abort, words: (u64, u64), mem: Mem, text: &str) {
    assert!(rt; mem.well_formed());
    let written = (write_mem(mem), mem_word_1(mem));
    same_at(rt, &words, &(written, mem_name(mem)), &(words, text));
    let read = (read_mem(words.0), layout1::read_mem(words.1));
    let is_read = read.0 == Ok(mem) && (words.1 == UNFIT || read.1 == Ok(mem));
    same_at(rt, &words, &is_read, &true);
}

#[test]
fn reads_and_writes_memory_words(rt: HostRuntime) {
    for (word, word_1, state, lent, head, text) in &MEMS {
        is_mem(&rt, (*word, *word_1), mem(*state, *lent, *head), text);
    }
}

const NO_MEMS: [Refused; 6] = [
    (0xffff0001, 0xff01, LinkMissing, 3),
    (0, 0, LinkUnwanted, 4),
    (3, 3, UnknownKind, 1),
    // where a tag has its back link
    (0x1ffff0000, 0x1ff00, SpareBits, 2),
    // of two reasons the first
    (0x23, 0x23, UnknownKind, 1),
    (0xffff0021, 0xff21, SpareBits, 2),
];

#[test]
fn refuses_memory_words(rt: HostRuntime) {
    for (word, word_1, refusal, number) in &NO_MEMS {
        let read = (read_mem(*word), layout1::read_mem(*word_1));
        same_at(&rt, word, &read, &(Err(*refusal), Err(*refusal)));
        same(&rt, &refusal.number(), number);
    }
}

#[test]
fn links_that_are_missing_fit_no_word(rt: HostRuntime) {
    let no_back = tag(Valid, false, [NONE, NONE]);
    let no_head = mem(MemState::Gone, false, NONE);
    let fit = (layout1::fits_tag(&no_back), layout1::fits_mem(&no_head));
    same(&rt, &fit, &(false, false));
}

#[test]
fn numbers_nodes(rt: HostRuntime) {
    same(&rt, &NodeId::new(65534).map(NodeId::get), &Some(65534));
    same(&rt, &NodeId::new(65535), &None);
}
