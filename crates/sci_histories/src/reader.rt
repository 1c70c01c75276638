//! The reader of a whole history.

ghost use Rattle.std.specs.Prelude.{◌≡◌, ◌≤◌, ℕ, List, Ok, length, All, IfOk};
ghost use Rattle.sci_core.specs.declared.whole.TheConstants.{MOST_NODES};
ghost use Rattle.sci_dump.specs.Reading.{Gives};
ghost use Rattle.sci_histories.specs.Histories.{LineReceipts};
ghost use Rattle.sci_histories.specs.ReadBack.{CanBeWritten};
ghost use Rattle.sci_histories.specs.Reading.{next, receipts_at, lists_at, line_at, lines_at, end_at, history_of};
ghost use Rattle.sci_histories.specs.Text.{history_text};

use crate::histories::{History, LineHistory, NodeReceipts};
use crate::rows::{begins, head, receipt, row};
use sci_core::Receipt;
use sci_dump::DumpRefusal;
use sci_dump::fields::behind;
use std::alloc::Global;

/// The number of the next line of text.
fn next(number: u64) -> u64
    ensures { result ≡ next number }
{
    number.saturating_add(1)
}

/// The receipts of a node, and where the reading goes on: the number of the line of text, and the text from there on.
#[derive(Drop)]
struct Receipts<'a> {
    receipts: Vec<Receipt>,
    number: u64,
    rest: &'a [u8],
}

/// The receipts of a node.
fn read_receipts(
    alloc: Global,
    node: u64,
    number: u64,
    text: &[u8],
) -> Result<Receipts<'_>, DumpRefusal>
    ensures { Gives (λ x. (x.receipts.items, x.number, x.rest.now)) result (receipts_at (length text.now) node number text.now) }
{
    let mut receipts = Vec::new(alloc);
    let mut at = number;
    let mut rest = text;
    for _ in 0..text.len() {
        if !begins(node, rest) {
            return Ok(Receipts {
                receipts,
                number: at,
                rest,
            });
        }
        let Some((receipt, behind)) = receipt(node, rest) else {
            return Err(DumpRefusal::DumpFault(at));
        };
        receipts.push(receipt)?;
        at = next(at);
        rest = behind;
    }
    Ok(Receipts {
        receipts,
        number: at,
        rest,
    })
}

/// The lists of all nodes, and where the reading goes on.
#[derive(Drop)]
struct Lists<'a> {
    lists: Vec<NodeReceipts>,
    number: u64,
    rest: &'a [u8],
}

/// The lists of all nodes.
fn read_lists(alloc: Global, nodes: u16, number: u64, text: &[u8]) -> Result<Lists<'_>, DumpRefusal>
    ensures exact { Gives (λ x. (x.lists.items, x.number, x.rest.now)) result (lists_at 0 nodes number text.now) }
    ensures nodes { IfOk result (λ x. length x.lists.items ≡ nodes) }
{
    let mut lists = Vec::with_capacity(alloc, usize::from(nodes))?;
    let mut at = number;
    let mut rest = text;
    for node in 0..u64::from(nodes) {
        let found = read_receipts(alloc, node, at, rest)?;
        at = found.number;
        rest = found.rest;
        lists.push(NodeReceipts::new(found.receipts))?;
    }
    Ok(Lists {
        lists,
        number: at,
        rest,
    })
}

/// A line's history, and where the reading goes on.
#[derive(Drop)]
struct Found<'a> {
    line: LineHistory,
    number: u64,
    rest: &'a [u8],
}

/// A line's history.
#[tactic(auto, unfolding(crate::specs::Reading::line_at))]
fn read_line(
    alloc: Global,
    line: u64,
    nodes: u16,
    number: u64,
    text: &[u8],
) -> Result<Found<'_>, DumpRefusal>
    ensures exact { Gives (λ x. (x.line, x.number, x.rest.now)) result (line_at line nodes number text.now) }
    ensures nodes { IfOk result (λ x. length x.line.lists ≡ nodes) }
{
    let Some((opening, text)) = row(b"line ", line, text) else {
        return Err(DumpRefusal::DumpFault(number));
    };
    let number = next(number);
    let Some((closing, text)) = row(b"closed ", line, text) else {
        return Err(DumpRefusal::DumpFault(number));
    };
    let found = read_lists(alloc, nodes, next(number), text)?;
    let number = found.number;
    let rest = found.rest;
    let line = LineHistory {
        opening,
        closing,
        lists: found.lists,
    };
    Ok(Found { line, number, rest })
}

/// The lines' histories, and where the reading goes on.
#[derive(Drop)]
struct Front<'a> {
    lines: Vec<LineHistory>,
    number: u64,
    rest: &'a [u8],
}

/// The lines' histories, from the second line of text on.
fn read_lines(alloc: Global, nodes: u16, count: u16, text: &[u8]) -> Result<Front<'_>, DumpRefusal>
    ensures exact { Gives (λ x. (x.lines.items, x.number, x.rest.now)) result (lines_at 0 count nodes 2 text.now) }
    ensures nodes { IfOk result (λ x. All (λ h. length h.lists ≡ nodes) x.lines.items) }
    ensures count { IfOk result (λ x. length x.lines.items ≡ count) }
{
    let mut lines = Vec::with_capacity(alloc, usize::from(count))?;
    let mut number = 2;
    let mut rest = text;
    for line in 0..u64::from(count) {
        let found = read_line(alloc, line, nodes, number, rest)?;
        number = found.number;
        rest = found.rest;
        lines.push(found.line)?;
    }
    Ok(Front {
        lines,
        number,
        rest,
    })
}

/// `end`, and nothing behind it.
#[tactic(auto, unfolding(crate::specs::Reading::end_at))]
fn end(number: u64, text: &[u8]) -> Result<(), DumpRefusal>
    ensures { Gives (λ x. x) result (end_at number text.now) }
{
    match behind(b"end\n", text) {
        None => Err(DumpRefusal::DumpFault(number)),
        Some([]) => Ok(()),
        Some(_) => Err(DumpRefusal::DumpFault(next(number))),
    }
}

/// The history that a text is.
#[tactic(auto, unfolding(crate::specs::Reading::history_of))]
fn parse(alloc: Global, text: &[u8]) -> Result<History, DumpRefusal>
    ensures { Gives (λ h. h) result (history_of text.now) }
{
    let Some((nodes, count, rest)) = head(text) else {
        return Err(DumpRefusal::DumpFault(1));
    };
    let front = read_lines(alloc, nodes, count, rest)?;
    end(front.number, front.rest)?;
    let lines = front.lines;
    Ok(History { nodes, lines })
}

/// Reads a history of 1 to 1,024 lines and as many nodes. Ok with the value that the definition of reading (`specs/Reading.antt`)
/// reads, whose text is this very one; else refusal 21 at the line of text that it names, counted from 1. Refusal 7: a growth of memory
/// was refused.
pub fn read_history(alloc: Global, text: &[u8]) -> Result<History, DumpRefusal>
    ensures exact { Gives (λ h. h) result (history_of text.now) }
    // What was read is written as the text that was read.
    ensures written { IfOk result (λ h. text.now ≡ history_text h.nodes h.lines) }
    // Lines whose text this is are read back.
    ensures read_back { (nodes : ℕ) (lines : List LineReceipts) → CanBeWritten nodes lines → text.now ≡ history_text nodes lines
        → Gives (λ h. h) result (Ok (record { nodes = nodes; lines = lines })) }
{
    parse(alloc, text)
}
