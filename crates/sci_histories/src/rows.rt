//! The lines of text of a history.

ghost use Rattle.std.specs.Prelude.{◌≡◌, ◌≤◌, IfSome, is_some};
ghost use Rattle.sci_core.specs.declared.whole.TheConstants.{MOST_NODES};
ghost use Rattle.sci_dump.specs.Reading.{Reads, counted_at};
ghost use Rattle.sci_histories.specs.Reading.{named_at, row_at, read_at, passed_at, wrote_at, begins_at, receipt_at, head_at};

use sci_core::{Line, MOST_NODES, Receipt};
use sci_dump::fields::{behind, content, count, numbered, value, values};

/// What stands behind a label and this number.
#[tactic(auto, unfolding(crate::specs::Reading::named_at))]
fn named<'a>(label: &[u8], number: u64, text: &'a [u8]) -> Option<&'a [u8]>
    ensures { Reads (λ t. t.now) result (named_at label.now number text.now) }
{
    numbered(number, behind(label, text)?)
}

/// A label, this number, a stamp and eight words.
#[tactic(auto, unfolding(crate::specs::Reading::row_at))]
pub fn row<'a>(label: &[u8], number: u64, text: &'a [u8]) -> Option<(Line, &'a [u8])>
    ensures { Reads (λ x. (x.0, x.1.now)) result (row_at label.now number text.now) }
{
    content(named(label, number, text)?)
}

#[tactic(auto, unfolding(crate::specs::Reading::read_at))]
fn read(text: &[u8]) -> Option<(Receipt, &[u8])>
    ensures { Reads (λ x. (x.0, x.1.now)) result (read_at text.now) }
{
    let (line, rest) = content(text)?;
    let Line { words, stamp } = line;
    Some((Receipt::Read { words, stamp }, rest))
}

#[tactic(auto, unfolding(crate::specs::Reading::passed_at))]
fn passed(text: &[u8]) -> Option<(Receipt, &[u8])>
    ensures { Reads (λ x. (x.0, x.1.now)) result (passed_at text.now) }
{
    let (line, rest) = content(text)?;
    let Line { words, stamp } = line;
    Some((Receipt::Passed { words, stamp }, rest))
}

#[tactic(auto, unfolding(crate::specs::Reading::wrote_at))]
fn wrote(text: &[u8]) -> Option<(Receipt, &[u8])>
    ensures { Reads (λ x. (x.0, x.1.now)) result (wrote_at text.now) }
{
    let (stamp, text) = value(text)?;
    let (words, text) = values(text)?;
    let text = behind(b" over", text)?;
    let (before, text) = values(text)?;
    let rest = behind(b"\n", text)?;
    let receipt = Receipt::Wrote {
        before,
        words,
        stamp,
    };
    Some((receipt, rest))
}

fn is_named(label: &[u8], number: u64, text: &[u8]) -> bool
    ensures { result ≡ is_some (named_at label.now number text.now) }
{
    match named(label, number, text) {
        Some(_) => true,
        None => false,
    }
}

/// Whether a receipt of a node begins here.
#[tactic(auto, unfolding(crate::specs::Reading::begins_at))]
pub fn begins(node: u64, text: &[u8]) -> bool
    ensures { result ≡ begins_at node text.now }
{
    is_named(b"read ", node, text)
        || is_named(b"passed ", node, text)
        || is_named(b"wrote ", node, text)
}

/// A receipt of a node.
#[tactic(auto, unfolding(crate::specs::Reading::receipt_at))]
pub fn receipt(node: u64, text: &[u8]) -> Option<(Receipt, &[u8])>
    ensures { Reads (λ x. (x.0, x.1.now)) result (receipt_at node text.now) }
{
    if let Some(rest) = named(b"read ", node, text) {
        return read(rest);
    }
    if let Some(rest) = named(b"passed ", node, text) {
        return passed(rest);
    }
    wrote(named(b"wrote ", node, text)?)
}

/// A label, and a number from 1 to this one.
fn counted<'a>(label: &[u8], most: u64, text: &'a [u8]) -> Option<(u64, &'a [u8])>
    ensures exact { Reads (λ x. (x.0, x.1.now)) result (counted_at label.now most text.now) }
    ensures range { IfSome result (λ x. (1 ≤ x.0) × (x.0 ≤ most)) }
{
    count(most, behind(label, text)?)
}

/// `scihistory 1 NODES LINES`.
#[tactic(auto, unfolding(crate::specs::Reading::head_at))]
pub fn head(text: &[u8]) -> Option<(u16, u16, &[u8])>
    ensures exact { Reads (λ x. (x.0, x.1, x.2.now)) result (head_at text.now) }
    ensures range { IfSome result (λ x. (1 ≤ x.0) × (x.0 ≤ MOST_NODES) × (1 ≤ x.1) × (x.1 ≤ 1024)) }
{
    let (nodes, text) = counted(b"scihistory 1 ", u64::from(MOST_NODES), text)?;
    let (lines, text) = counted(b" ", 1024, text)?;
    let rest = behind(b"\n", text)?;
    Some((nodes as u16, lines as u16, rest))
}
