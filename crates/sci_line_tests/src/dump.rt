//! Dumps that are read, checked and written again, and texts that are none.
ghost use Rattle.std.specs.Prelude.{◌<◌, ◌+◌, ◌^◌};

mod growths;
mod memory;

use crate::checks::{same, same_at};
use crate::whole::{closed_of, node, run};
use sci_core::{AnyWords, Closed, Event, Line, Whole};
use sci_dump::*;
use sci_words::{Kind, NodeId, Tag};
use std::alloc::{AllocError, Global};
use std::process::Abort;
use std::test::Fail;

/// The dump of one line that nodes 0, 1 and 2 have loaded, in this order, in layout 1.
const SHARED: &str = "scidump 1 3 1\n\
    line 0 0000000000000201 0 0 0 0 0 0 0 0 0\n\
    tag 0 0 000000000001ff07 0 0 0 0 0 0 0 0 0\n\
    tag 0 1 0000000000020007 0 0 0 0 0 0 0 0 0\n\
    tag 0 2 0000000000ff0102 0 0 0 0 0 0 0 0 0\n\
    end\n";

/// The same dump in layout 2.
const SHARED_2: &str = "scidump 2 3 1\n\
    line 0 0000000000020001 0 0 0 0 0 0 0 0 0\n\
    tag 0 0 00000001ffff0007 0 0 0 0 0 0 0 0 0\n\
    tag 0 1 0000000200000007 0 0 0 0 0 0 0 0 0\n\
    tag 0 2 0000ffff00010002 0 0 0 0 0 0 0 0 0\n\
    end\n";

/// SHARED with one change, and its verdict.
const CHANGED: [(&str, &str, Verdict); 8] = [
    ("scidump 1 3 1", "scidump 1 3 1", Verdict::Lawful),
    (
        "tag 0 2 0000000000ff0102",
        "tag 0 2 0000000000ff0112",
        Verdict::Unlawful {
            line: 0,
            rule: Rule::Settled,
        },
    ),
    (
        "tag 0 0 000000000001ff07",
        "tag 0 0 0000000000010107",
        Verdict::Unlawful {
            line: 0,
            rule: Rule::Ending,
        },
    ),
    (
        "line 0 0000000000000201",
        "line 0 000000000000ff00",
        Verdict::Unlawful {
            line: 0,
            rule: Rule::Listed,
        },
    ),
    (
        "tag 0 1 0000000000020007",
        "tag 0 1 0000000000ff0003",
        Verdict::Unlawful {
            line: 0,
            rule: Rule::Linked,
        },
    ),
    (
        "line 0 0000000000000201",
        "line 0 0000000000000202",
        Verdict::Unlawful {
            line: 0,
            rule: Rule::Suited,
        },
    ),
    (
        "tag 0 0 000000000001ff07 0",
        "tag 0 0 000000000001ff07 1",
        Verdict::Unlawful {
            line: 0,
            rule: Rule::Equal,
        },
    ),
    (
        "line 0 0000000000000201 0 0",
        "line 0 0000000000000201 0 1",
        Verdict::Unlawful {
            line: 0,
            rule: Rule::Equal,
        },
    ),
];

// The text of a dump.
fn text_of(alloc: Global, lines: &Dump) -> Result<String, AllocError> {
    dump(alloc, &lines.lines)
}

// The line of the fault that a text has. None: it has none, or there was no memory.
fn fault_of(alloc: Global, text: &[u8]) -> Option<u64> {
    match read_dump(alloc, text) {
        Err(DumpRefusal::DumpFault(line)) => Some(line),
        _ => None,
    }
}

// The line of the fault that a text has with one change.
fn fault_with(alloc: Global, text: &str, old: &str, new: &str) -> Option<u64> {
    let changed = text.replacen(alloc, old, new, 1).ok()?;
    fault_of(alloc, changed.as_bytes())
}

// Whether two dumps have the same lines.
fn has_lines(one: &Dump, other: &Dump) -> bool {
    one.nodes == other.nodes
        && one.lines.len() == other.lines.len()
        && one.lines.iter().zip(other.lines.iter()).all(|(a, b)| {
            a.mem == b.mem
                && a.memory == b.memory
                && a.tags.as_slice() == b.tags.as_slice()
                && a.lines.as_slice() == b.lines.as_slice()
        })
}

// Whether a dump is written as this text; or, where the text has layout 1, as one that is read as the same lines.
fn is_written_as(alloc: Global, lines: &Dump, text: &[u8]) -> bool {
    let Ok(written) = text_of(alloc, lines) else {
        return false;
    };
    if !text.starts_with(b"scidump 1 ") {
        return written.as_bytes() == text;
    }
    match read_dump(alloc, written.as_bytes()) {
        Ok(again) => has_lines(lines, &again),
        Err(_) => false,
    }
}

// How many nodes a dump has, and its verdict. None: it is no dump, isn't written as it was read, or there was no memory.
fn judged(alloc: Global, text: &str) -> Option<(u16, Verdict)> {
    let read = read_dump(alloc, text.as_bytes()).ok()?;
    if is_written_as(alloc, &read, text.as_bytes()) {
        Some((read.nodes, check(&read)))
    } else {
        None
    }
}

// The same of a dump with one change.
fn judged_with(alloc: Global, text: &str, old: &str, new: &str) -> Option<(u16, Verdict)> {
    judged(alloc, text.replacen(alloc, old, new, 1).ok()?.as_str())
}

// The line of text behind a byte of this line.
fn line_behind(line: u64, byte: u8) -> u64 {
    if byte == b'\n' {
        line.saturating_add(1)
    } else {
        line
    }
}

#[test]
fn verdicts(rt: HostRuntime) {
    for (old, new, verdict) in &CHANGED {
        let judged = judged_with(rt.alloc(), SHARED, old, new);
        same_at(&rt, new, &judged, &Some((3, *verdict)));
    }
}

/// A dump of either layout is written again in layout 2.
#[test]
fn writes_layout_2(rt: HostRuntime) -> Result<(), Fail> {
    for text in [SHARED, SHARED_2] {
        let read = read_dump(rt.alloc(), text.as_bytes())?;
        same_at(&rt, &text, &check(&read), &Verdict::Lawful);
        same_at(&rt, &text, &text_of(rt.alloc(), &read)?.as_str(), &SHARED_2);
    }
    Ok(())
}

/// First lines in layout 2, and the line of the fault that SHARED_2 has with them.
const HEADS: [(&str, Option<u64>); 6] = [
    ("scidump 2 1024 1", None),
    ("scidump 2 1025 1", Some(1)),
    ("scidump 2 0 1", Some(1)),
    ("scidump 2 3 1025", Some(1)),
    ("scidump 1 3 1", Some(2)),
    ("scidump 20 3 1", Some(1)),
];

#[test]
fn reads_layout_2(rt: HostRuntime) {
    for (head, fault) in &HEADS {
        let found = fault_with(rt.alloc(), SHARED_2, "scidump 2 3 1", head);
        same_at(&rt, head, &found, fault);
    }
}

/// Two lines of two nodes: the first is unused, the second is node 1's alone, dirty.
const TWO_LINES: &str = "scidump 1 2 2\n\
    line 0 000000000000ff00 0 0 0 0 0 0 0 0 0\n\
    line 1 0000000000000102 0 0 0 0 0 0 0 0 0\n\
    tag 1 1 0000000000ffff03 1 18446744073709551615 0 0 0 0 0 0 0\n\
    end\n";

#[test]
fn the_first_line_that_breaks_a_rule(rt: HostRuntime) {
    let lawful = judged(rt.alloc(), TWO_LINES);
    same(&rt, &lawful, &Some((2, Verdict::Lawful)));
    let old = "0000000000000102";
    let fault = fault_with(rt.alloc(), TWO_LINES, old, "000000000000ff02");
    same(&rt, &fault, &Some(3));
    let unlawful = Verdict::Unlawful {
        line: 1,
        rule: Rule::Suited,
    };
    let judged = judged_with(rt.alloc(), TWO_LINES, old, "0000000000000101");
    same(&rt, &judged, &Some((2, unlawful)));
}

// Each proper front of a dump is refused at the line that is cut or missing.
fn is_refused_cut(rt: &impl Abort, alloc: Global, text: &str) -> Result<(), Fail> {
    let mut line = 1;
    let mut cut = Vec::new(alloc);
    for byte in text.as_bytes() {
        same_at(rt, &line, &fault_of(alloc, &cut), &Some(line));
        cut.push(*byte)?;
        line = line_behind(line, *byte);
    }
    assert!(rt; read_dump(alloc, &cut).is_ok());
    Ok(())
}

#[test]
fn cut_at_each_byte(rt: HostRuntime) -> Result<(), Fail> {
    is_refused_cut(&rt, rt.alloc(), SHARED)?;
    is_refused_cut(&rt, rt.alloc(), SHARED_2)
}

/// Texts that are no dumps, and the line of the first fault.
const FAULTS: [(&str, &str, u64); 18] = [
    ("scidump 1 3 1", "scidump 3 3 1", 1),
    ("scidump 1 3 1", "scidump 2 3 1", 2),
    ("scidump 1 3 1", "scidump 1 65 1", 1),
    ("scidump 1 3 1", "scidump 1 0 1", 1),
    ("scidump 1 3 1", "scidump 1 3 1025", 1),
    ("scidump 1 3 1", "scidump 1 03 1", 1),
    ("scidump 1 3 1\n", "scidump 1 3 1\r\n", 1),
    ("scidump 1 3 1", "scidump 1 2 1", 5),
    ("scidump 1 3 1", "scidump 1 3 2", 6),
    ("line 0 ", "line 1 ", 2),
    ("line 0 ", "line  0 ", 2),
    ("0000000000000201 0", "0000000000000201 00", 2),
    ("000000000001ff07", "000000000001FF07", 3),
    ("tag 0 1 ", "tag 0 0 ", 4),
    ("tag 0 2 0000000000ff0102", "tag 0 2 0000000000ffff00", 5),
    (
        "0000000000020007 0",
        "0000000000020007 18446744073709551616",
        4,
    ),
    (
        "0000000000020007 0",
        "0000000000020007 100000000000000000000",
        4,
    ),
    ("end\n", "end\n\n", 7),
];

#[test]
fn faults(rt: HostRuntime) {
    for (old, new, line) in &FAULTS {
        let fault = fault_with(rt.alloc(), SHARED, old, new);
        same_at(&rt, new, &fault, &Some(*line));
    }
}

/// The line where SHARED is at fault with the byte at this place of this line changed to that: its own, but where another count or
/// node's number stands that might be right. Then a later line is the first that can't be.
fn fault_behind(place: usize, line: u64, byte: u8) -> u64 {
    match (place, byte) {
        // the words are of the other layout
        (8, b'2') => 2,
        // one node or two: the next node's tag stands where `end` must
        (10, b'1') => 4,
        (10, b'2') => 5,
        // more lines: `end` stands where line 1 must
        (12, b'2'..=b'9') => 6,
        // a greater node: the next tag is not behind it
        (62, b'1' | b'2') => 4,
        (105, b'2') => 5,
        _ => line,
    }
}

// SHARED with this byte in this place.
fn with_byte(alloc: Global, place: usize, byte: u8) -> Result<Vec<u8>, AllocError> {
    let mut text = Vec::from_slice(alloc, SHARED.as_bytes())?;
    if let Some(changed) = text.get_mut(place) {
        *changed = byte;
    }
    Ok(text)
}

// The text, changed in this place, is refused at that line; or it is a dump, and is written as it was read.
fn is_read_back_or_refused(rt: &impl Abort, alloc: Global, place: usize, text: &[u8], fault: u64) {
    match read_dump(alloc, text) {
        Ok(read) => same_at(rt, &place, &is_written_as(alloc, &read, text), &true),
        Err(refusal) => same_at(rt, &place, &refusal, &DumpRefusal::DumpFault(fault)),
    }
}

/// A dump with one byte changed, to any other, is refused at that byte's line, but for the changes above; or it is a dump.
#[test]
fn changed_in_each_byte(rt: HostRuntime) -> Result<(), Fail> {
    let mut line = 1;
    for (place, old) in SHARED.as_bytes().iter().enumerate() {
        for byte in 0..=u8::MAX {
            let text = with_byte(rt.alloc(), place, byte)?;
            let fault = fault_behind(place, line, byte);
            is_read_back_or_refused(&rt, rt.alloc(), place, &text, fault);
        }
        line = line_behind(line, *old);
    }
    Ok(())
}

fn fresh(forw: Option<NodeId>) -> Tag {
    Tag {
        kind: Kind::Fresh,
        held: false,
        forw,
        back: None,
    }
}

// Nodes 0, 1 and 2 load, in this order.
fn three_readers(zero: NodeId, one: NodeId, two: NodeId) -> [(NodeId, Event); 14] {
    [
        (zero, Event::Queue(None)),
        (zero, Event::PrependValid),
        (zero, Event::ReturnMemory),
        (zero, Event::Settle),
        (one, Event::Queue(Some(zero))),
        (one, Event::PrependValid),
        (one, Event::ReturnMemory),
        (one, Event::AttachFresh(fresh(None))),
        (one, Event::Settle),
        (two, Event::Queue(Some(one))),
        (two, Event::PrependValid),
        (two, Event::ReturnMemory),
        (two, Event::AttachFresh(fresh(Some(zero)))),
        (two, Event::Settle),
    ]
}

// The line that they have loaded. None: an event is not in turn, or there was no memory.
fn shared(alloc: Global) -> Option<Closed> {
    let mut whole = Whole::open(alloc, 3, 0, Line::ZERO, AnyWords).ok()?;
    let readers = three_readers(node(0), node(1), node(2));
    if run(&mut whole, &readers) != Some(Ok(14)) {
        return None;
    }
    closed_of(alloc, &whole)
}

// The same line again.
fn same_line(rt: &impl Abort, line: &Closed, back: &Closed) {
    same(rt, &line.mem, &back.mem);
    same(rt, &line.memory, &back.memory);
    same(rt, &line.tags.as_slice(), &back.tags.as_slice());
    same(rt, &line.lines.as_slice(), &back.lines.as_slice());
}

// A dump of this one line of three nodes.
fn is_read(rt: &impl Abort, lines: &[Closed], read: &Dump) {
    same(rt, &read.nodes, &3);
    let ([line], [back]) = (lines, read.lines.as_slice()) else {
        panic!(rt; "not one line")
    };
    same_line(rt, line, back);
}

// The text is that of layout 2, and is read as this one line of three nodes.
fn is_read_back(rt: &impl Abort, alloc: Global, lines: &[Closed], text: &str) -> Result<(), Fail> {
    assert!(rt; text == SHARED_2);
    let read = read_dump(alloc, text.as_bytes())?;
    is_read(rt, lines, &read);
    Ok(())
}

#[test]
fn a_closed_line_is_dumped_and_read_back(rt: HostRuntime) -> Result<(), Fail> {
    let closed = shared(rt.alloc()).ok_or("no line at rest")?;
    // (told to the prover too: `dump` asks for lines of one number of nodes)
    assert!(rt; closed.tags.len() == 3);
    let lines = vec![in rt.alloc(); closed]?;
    let text = dump(rt.alloc(), &lines)?;
    is_read_back(&rt, rt.alloc(), &lines, text.as_str())
}

/// How a layout writes: its number, how many bits a link has, and the number that stands for none.
type Form = (u64, u32, u64);

const LAYOUT_1: Form = (1, 8, 0xff);

const LAYOUT_2: Form = (2, 16, 0xffff);

// The word of a node's tag, where the last of so many nodes is the head, in front of the one before it, and so on to 0.
fn word_of(form: Form, nodes: u64, node: u64) -> u64
    requires width { form.1 < 32 }
    requires node { node + 1 < 2 ^ 32 }
{
    let (_, width, none) = form;
    let forw = if node == 0 { none } else { node - 1 };
    let (kind, back) = if node + 1 == nodes {
        (2, none)
    } else {
        (7, node + 1)
    };
    kind | forw << width | back << (2 * width)
}

// A word, and zeros as a content.
fn write_word(text: &mut String, word: u64) -> Result<(), AllocError> {
    write!(text, "{word:016x} 0 0 0 0 0 0 0 0 0\n")
}

// A line that so many nodes share.
fn write_line(text: &mut String, form: Form, nodes: u16, line: u64) -> Result<(), AllocError>
    requires width { form.1 < 32 }
{
    let head = u64::from(nodes.saturating_sub(1));
    write!(text, "line {line} ")?;
    write_word(text, 1 | head << form.1)?;
    for node in 0..nodes {
        write!(text, "tag {line} {node} ")?;
        write_word(text, word_of(form, u64::from(nodes), u64::from(node)))?;
    }
    Ok(())
}

// The dump of so many lines that so many nodes share.
fn shared_by_all(alloc: Global, form: Form, nodes: u16, lines: u64) -> Result<String, AllocError>
    requires width { form.1 < 32 }
{
    let mut text = format!(in alloc; "scidump {} {nodes} {lines}\n", form.0)?;
    for line in 0..lines {
        write_line(&mut text, form, nodes, line)?;
    }
    text.push_str("end\n")?;
    Ok(text)
}

#[test]
fn dumps_of_many_nodes(rt: HostRuntime) -> Result<(), Fail> {
    for (form, nodes, lines) in [
        (LAYOUT_1, 64, 1),
        (LAYOUT_1, 64, 340),
        (LAYOUT_1, 64, 1024),
        (LAYOUT_2, 1023, 1),
        (LAYOUT_2, 1024, 2),
    ] {
        let text = shared_by_all(rt.alloc(), form, nodes, lines)?;
        let judged = judged(rt.alloc(), text.as_str());
        same_at(
            &rt,
            &(nodes, lines),
            &judged,
            &Some((nodes, Verdict::Lawful)),
        );
    }
    Ok(())
}

#[test]
fn numbers_of_refusals(rt: HostRuntime) {
    same(&rt, &DumpRefusal::OutOfMemory.number(), &7);
    same(&rt, &DumpRefusal::DumpFault(1).number(), &21);
}
