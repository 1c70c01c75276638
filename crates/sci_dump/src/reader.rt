//! The reader of a whole dump.

ghost use Rattle.std.specs.Prelude.{◌≡◌, ◌≤◌, ◌<◌, ◌+◌, ℕ, List, Ok, true, length, All, IfOk, IfSome};
ghost use Rattle.sci_words.specs.Tag.{tag_well_formed};
ghost use Rattle.sci_words.specs.declared.layouts.Layout.{Layout};
ghost use Rattle.sci_core.specs.declared.whole.TheConstants.{MOST_NODES};
ghost use Rattle.sci_core.specs.Closed.{ClosedLine};
ghost use Rattle.sci_dump.specs.ReadBack.{CanBeDumped, dump_read};
ghost use Rattle.sci_dump.specs.Text.{dump_text};
ghost use Rattle.sci_dump.specs.Reading.{Gives, Reads, entry_at, entries_at, closed_at, lines_at, end_at, dump_of};

use crate::dumps::{Dump, INVALID};
use crate::fields::behind;
use crate::refusals::DumpRefusal;
use crate::rows::{behind_node, head_row, memory_row, tag_row};
use sci_core::{Closed, Line};
use sci_words::{Layout, Tag};
use std::alloc::Global;

/// A node's tag and line, and where the reading goes on: the number of the line of text, and the text from there on. Of a node
/// that has no tag line they are those of an Invalid one.
#[tactic(auto, unfolding(crate::specs::Reading::entry_at))]
pub fn entry(
    layout: Layout,
    line: u64,
    node: u64,
    number: u64,
    text: &[u8],
) -> Option<(Tag, Line, u64, &[u8])>
    requires { number < 1300000 }
    ensures exact { Reads (λ x. (x.0, x.1, x.2, x.3.now)) result (entry_at layout line node number text.now) }
    ensures well_formed { IfSome result (λ x. tag_well_formed x.0 ≡ true) }
    ensures further { IfSome result (λ x. x.2 ≤ number + 1) }
{
    match behind_node(line, node, text) {
        None => Some((INVALID, Line::ZERO, number, text)),
        Some(rest) => match tag_row(layout, rest) {
            None => None,
            Some((tag, content, rest)) => Some((tag, content, number + 1, rest)),
        },
    }
}

/// The tags and lines of all nodes, and where the reading goes on.
#[derive(Drop)]
struct Entries<'a> {
    tags: Vec<Tag>,
    lines: Vec<Line>,
    number: u64,
    rest: &'a [u8],
}

/// The nodes of a line.
fn read_entries(
    alloc: Global,
    layout: Layout,
    line: u64,
    nodes: u16,
    number: u64,
    text: &[u8],
) -> Result<Entries<'_>, DumpRefusal>
    requires few { nodes ≤ MOST_NODES }
    requires near { number < 1200000 }
    ensures exact { Gives (λ x. (x.tags.items, x.lines.items, x.number, x.rest.now)) result (entries_at layout line 0 nodes number text.now) }
    ensures well_formed { IfOk result (λ x. All (λ t. tag_well_formed t ≡ true) x.tags.items) }
    ensures lengths { IfOk result (λ x. (length x.tags.items ≡ nodes) × (length x.lines.items ≡ nodes)) }
    ensures further { IfOk result (λ x. x.number ≤ number + nodes) }
{
    let count = usize::from(nodes);
    let mut tags = Vec::with_capacity(alloc, count)?;
    let mut lines = Vec::with_capacity(alloc, count)?;
    let mut at = number;
    let mut rest = text;
    for node in 0..u64::from(nodes) {
        let Some((tag, content, next, behind)) = entry(layout, line, node, at, rest) else {
            return Err(DumpRefusal::DumpFault(at));
        };
        tags.push(tag)?;
        lines.push(content)?;
        at = next;
        rest = behind;
    }
    Ok(Entries {
        tags,
        lines,
        number: at,
        rest,
    })
}

/// A closed line, and where the reading goes on.
#[derive(Drop)]
struct Found<'a> {
    closed: Closed,
    number: u64,
    rest: &'a [u8],
}

/// A closed line.
#[tactic(auto, unfolding(crate::specs::Reading::closed_at))]
fn read_closed(
    alloc: Global,
    layout: Layout,
    line: u64,
    nodes: u16,
    number: u64,
    text: &[u8],
) -> Result<Found<'_>, DumpRefusal>
    requires few { nodes ≤ MOST_NODES }
    requires near { number < 1100000 }
    ensures exact { Gives (λ x. (x.closed, x.number, x.rest.now)) result (closed_at layout line nodes number text.now) }
    ensures nodes { IfOk result (λ x. length x.closed.tags ≡ nodes) }
    ensures further { IfOk result (λ x. x.number ≤ number + 1 + nodes) }
{
    let Some((mem, memory, rest)) = memory_row(layout, line, text) else {
        return Err(DumpRefusal::DumpFault(number));
    };
    let found = read_entries(alloc, layout, line, nodes, number + 1, rest)?;
    let number = found.number;
    let rest = found.rest;
    let closed = Closed {
        mem,
        memory,
        tags: found.tags,
        lines: found.lines,
    };
    Ok(Found {
        closed,
        number,
        rest,
    })
}

/// Closed lines, and where the reading goes on.
#[derive(Drop)]
struct Front<'a> {
    lines: Vec<Closed>,
    number: u64,
    rest: &'a [u8],
}

/// The closed lines, from the second line of text on.
fn read_lines(
    alloc: Global,
    layout: Layout,
    nodes: u16,
    count: u16,
    text: &[u8],
) -> Result<Front<'_>, DumpRefusal>
    requires nodes { nodes ≤ MOST_NODES }
    requires count { count ≤ 1024 }
    ensures exact { Gives (λ x. (x.lines.items, x.number, x.rest.now)) result (lines_at layout 0 count nodes 2 text.now) }
    ensures nodes { IfOk result (λ x. All (λ c. length c.tags ≡ nodes) x.lines.items) }
    ensures count { IfOk result (λ x. length x.lines.items ≡ count) }
    ensures near { IfOk result (λ x. x.number < 1100000) }
{
    let mut lines = Vec::with_capacity(alloc, usize::from(count))?;
    let mut number = 2;
    let mut rest = text;
    for line in 0..u64::from(count) {
        let found = read_closed(alloc, layout, line, nodes, number, rest)?;
        number = found.number;
        rest = found.rest;
        lines.push(found.closed)?;
    }
    Ok(Front {
        lines,
        number,
        rest,
    })
}

/// `end`, and nothing behind it.
#[tactic(auto, unfolding(crate::specs::Reading::end_at))]
fn end(number: u64, text: &[u8]) -> Result<(), DumpRefusal>
    requires { number < 1100000 }
    ensures { Gives (λ x. x) result (end_at number text.now) }
{
    match behind(b"end\n", text) {
        None => Err(DumpRefusal::DumpFault(number)),
        Some([]) => Ok(()),
        Some(_) => Err(DumpRefusal::DumpFault(number + 1)),
    }
}

/// The dump that a text is.
#[tactic(auto, unfolding(crate::specs::Reading::dump_of))]
fn parse(alloc: Global, text: &[u8]) -> Result<Dump, DumpRefusal>
    ensures { Gives (λ d. d) result (dump_of text.now) }
{
    let Some((layout, nodes, count, rest)) = head_row(text) else {
        return Err(DumpRefusal::DumpFault(1));
    };
    let front = read_lines(alloc, layout, nodes, count, rest)?;
    end(front.number, front.rest)?;
    let lines = front.lines;
    Ok(Dump { nodes, lines })
}

/// Reads a dump of either layout: of layout 1 with 1 to 64 nodes, of layout 2 with 1 to 1,024. Ok with the value that the definition
/// of reading (`specs/Reading.antt`) reads, whose dump in that layout is this very text; else refusal 21 at the line of text that it
/// names, counted from 1. Refusal 7: a growth of memory was refused.
pub fn read_dump(alloc: Global, text: &[u8]) -> Result<Dump, DumpRefusal>
    ensures exact { Gives (λ d. d) result (dump_of text.now) }
    // What was read is written as the text that was read, in the layout that the text begins with.
    ensures dumped { IfOk result (λ d. (l : Layout) × (text.now ≡ dump_text l d.nodes d.lines)) }
    // Lines whose dump this is are read back, with zeros as the content of nodes that are Invalid.
    ensures read_back { (l : Layout) (nodes : ℕ) (lines : List ClosedLine) → CanBeDumped l nodes lines → text.now ≡ dump_text l nodes lines
        → Gives (λ d. d) result (Ok (dump_read nodes lines)) }
{
    parse(alloc, text)
}
