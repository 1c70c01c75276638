//! Rules H1 and H2, of the stamps in each list.

ghost use Rattle.std.specs.Prelude.{◌≡◌};
ghost use Rattle.sci_core.specs.Legal.{stamp_of, is_write};
ghost use Rattle.sci_dump.specs.Rules.{Decides};
ghost use Rattle.sci_histories.specs.Each.{Each};
ghost use Rattle.sci_histories.specs.Rules.{IsWithin, IsBehind, IsOrdered, KeepsWithin, KeepsOrdered};

use crate::histories::{LineHistory, NodeReceipts, closing_of, lists_of, opening_of};
use sci_core::Receipt;

/// The stamp that a receipt shows; of a write that of the words written.
pub fn stamp_of(receipt: Receipt) -> u64
    ensures { result ≡ stamp_of receipt }
{
    match receipt {
        Receipt::Read { stamp, .. } => stamp,
        Receipt::Passed { stamp, .. } => stamp,
        Receipt::Wrote { stamp, .. } => stamp,
    }
}

fn is_write(receipt: Receipt) -> bool
    ensures { result ≡ is_write receipt }
{
    matches!(receipt, Receipt::Wrote { .. })
}

fn is_within(first: u64, last: u64, receipt: Receipt) -> bool
    ensures { Decides result (IsWithin first last receipt) }
{
    match receipt {
        Receipt::Read { stamp, .. } => first <= stamp && stamp <= last,
        Receipt::Passed { stamp, .. } => first <= stamp && stamp <= last,
        Receipt::Wrote { stamp, .. } => first < stamp && stamp <= last,
    }
}

fn list_is_within(first: u64, last: u64, receipts: &[Receipt]) -> bool
    ensures { Decides result (Each (IsWithin first last) receipts.now) }
{
    for place in 0..receipts.len() {
        if !is_within(first, last, receipts[place]) {
            return false;
        }
    }
    true
}

fn lists_are_within(first: u64, last: u64, lists: &[NodeReceipts]) -> bool
    ensures { Decides result (Each (Each (IsWithin first last)) lists.now) }
{
    for node in 0..lists.len() {
        if !list_is_within(first, last, lists[node].receipts()) {
            return false;
        }
    }
    true
}

/// Rule H1.
pub fn keeps_within(line: &LineHistory) -> bool
    ensures { Decides result (KeepsWithin line.now) }
{
    let first = opening_of(line).stamp;
    let last = closing_of(line).stamp;
    first <= last && lists_are_within(first, last, lists_of(line))
}

/// Whether a receipt may stand behind another.
fn is_behind(before: Receipt, receipt: Receipt) -> bool
    ensures { Decides result (IsBehind before receipt) }
{
    let earlier = stamp_of(before);
    let stamp = stamp_of(receipt);
    if is_write(receipt) {
        earlier < stamp
    } else {
        earlier <= stamp
    }
}

fn list_is_ordered(receipts: &[Receipt]) -> bool
    ensures { Decides result (IsOrdered receipts.now) }
{
    for place in 1..receipts.len() {
        if !is_behind(receipts[place - 1], receipts[place]) {
            return false;
        }
    }
    true
}

fn lists_are_ordered(lists: &[NodeReceipts]) -> bool
    ensures { Decides result (Each IsOrdered lists.now) }
{
    for node in 0..lists.len() {
        if !list_is_ordered(lists[node].receipts()) {
            return false;
        }
    }
    true
}

/// Rule H2.
pub fn keeps_ordered(line: &LineHistory) -> bool
    ensures { Decides result (KeepsOrdered line.now) }
{
    lists_are_ordered(lists_of(line))
}
