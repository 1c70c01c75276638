//! Rules H3 to H5, by a table of the words that the writes show.

ghost use Rattle.std.specs.Prelude.{◌≡◌, ◌<◌, ◌≤◌, ◌+◌, ◌-◌, ◌||◌, ℕ, Some, None, true, replicate, length, is_some, IfOk, MatchOption};
ghost use Rattle.sci_dump.specs.Rules.{Decides};
ghost use Rattle.sci_histories.specs.Each.{Each};
ghost use Rattle.sci_histories.specs.Counts.{count_of};
ghost use Rattle.sci_histories.specs.Rules.{IsWithin, KeepsWithin, KeepsWritten, KeepsOnce, KeepsAgreed, BreaksFirst, IsLegalLine};
ghost use Rattle.sci_histories.specs.Table.{IsTable, IsNoted, found, AgreesIn, AllAgree, BreaksOf};

use crate::histories::{LineHistory, NodeReceipts, closing_of, list_of, lists_of, opening_of};
use crate::ranges::{keeps_ordered, keeps_within};
use crate::rules::Rule;
use sci_core::Receipt;
use std::alloc::{AllocError, Global};

/// The words that the writes show, by stamp from the one above the opening one on; and whether two writes have one stamp.
#[derive(Drop)]
struct Table {
    words: Vec<Option<[u64; 8]>>,
    is_twice: bool,
}

/// How many stamps are left where each receipt has one of its own.
fn left(stamps: u64, lists: &[NodeReceipts]) -> u64
    ensures { result ≡ stamps - count_of lists.now }
{
    let mut left = stamps;
    for node in 0..lists.len() {
        left = left.saturating_sub(lists[node].receipts().len() as u64);
    }
    left
}

/// How many stamps there are above the opening one, up to the closing one.
fn stamps_of(line: &LineHistory) -> u64
    ensures { result ≡ line.now.closing.stamp - line.now.opening.stamp }
{
    closing_of(line)
        .stamp
        .saturating_sub(opening_of(line).stamp)
}

/// Whether there are as many receipts as stamps above the opening one. Where there aren't, rule H3 is broken.
pub fn has_room(line: &LineHistory) -> bool
    ensures { Decides result (line.now.closing.stamp - line.now.opening.stamp ≤ count_of line.now.lists) }
{
    left(stamps_of(line), lists_of(line)) == 0
}

/// Notes a receipt in the table, and says whether a write with its stamp stood there.
fn noted(first: u64, receipt: Receipt, words: &mut [Option<[u64; 8]>]) -> bool
    requires within { IsWithin first (first + length words.old) receipt }
    ensures { IsNoted first receipt words.old words.new result }
{
    match receipt {
        Receipt::Wrote {
            words: now,
            stamp,
            ..
        } => {
            let slot = (stamp - first - 1) as usize;
            let stood = words[slot].is_some();
            words[slot] = Some(now);
            stood
        }
        Receipt::Read { .. } => false,
        Receipt::Passed { .. } => false,
    }
}

fn either(one: bool, other: bool) -> bool
    ensures { result ≡ (one || other) }
{
    one || other
}

/// Notes the receipts of a node.
fn noted_list(
    line: &LineHistory,
    node: usize,
    was_twice: bool,
    words: &mut [Option<[u64; 8]>],
) -> bool
    requires within { KeepsWithin line.now }
    requires node { node < length line.now.lists }
    requires so_far { IsTable line.now node 0 words.old was_twice }
    ensures { IsTable line.now (node + 1) 0 words.new result }
{
    let first = opening_of(line).stamp;
    let receipts = list_of(line, node);
    let mut is_twice = was_twice;
    for place in 0..receipts.len() {
        let stood = noted(first, receipts[place], words);
        is_twice = either(is_twice, stood);
    }
    is_twice
}

/// So many empty slots.
fn empty(alloc: Global, count: u64) -> Result<Vec<Option<[u64; 8]>>, AllocError>
    ensures { IfOk result (λ words. words.items ≡ replicate count None) }
{
    vec![in alloc; None; count as usize]
}

/// The table of a line that keeps H1.
fn table_of(alloc: Global, line: &LineHistory) -> Result<Table, AllocError>
    requires { KeepsWithin line.now }
    ensures { IfOk result (λ table. IsTable line.now (length line.now.lists) 0 table.words.items table.is_twice) }
{
    let mut words = empty(alloc, stamps_of(line))?;
    let mut is_twice = false;
    for node in 0..lists_of(line).len() {
        is_twice = noted_list(line, node, is_twice, &mut words);
    }
    Ok(Table { words, is_twice })
}

fn is_full(slot: Option<[u64; 8]>) -> bool
    ensures { Decides result (is_some slot ≡ true) }
{
    slot.is_some()
}

fn are_full(words: &[Option<[u64; 8]>]) -> bool
    ensures { Decides result (Each (λ slot. is_some slot ≡ true) words.now) }
{
    for slot in 0..words.len() {
        if !is_full(words[slot]) {
            return false;
        }
    }
    true
}

/// The words at a stamp, or none where there are none.
fn found(line: &LineHistory, words: &[Option<[u64; 8]>], stamp: u64) -> Option<[u64; 8]>
    requires { line.now.opening.stamp ≤ stamp }
    ensures { result ≡ found line.now words.now stamp }
{
    let opening = opening_of(line);
    if stamp == opening.stamp {
        return Some(opening.words);
    }
    match words.get((stamp - opening.stamp - 1) as usize) {
        Some(slot) => *slot,
        None => None,
    }
}

/// Whether these words stand in the table at a stamp.
fn shows(line: &LineHistory, words: &[Option<[u64; 8]>], stamp: u64, shown: [u64; 8]) -> bool
    requires { line.now.opening.stamp ≤ stamp }
    ensures { Decides result (found line.now words.now stamp ≡ Some shown) }
{
    found(line, words, stamp) == Some(shown)
}

/// Whether what a receipt shows stands in the table.
fn agrees(line: &LineHistory, words: &[Option<[u64; 8]>], receipt: Receipt) -> bool
    requires { IsWithin line.now.opening.stamp line.now.closing.stamp receipt }
    ensures { Decides result (AgreesIn line.now words.now receipt) }
{
    match receipt {
        Receipt::Read { words: now, stamp } => shows(line, words, stamp, now),
        Receipt::Passed { words: now, stamp } => shows(line, words, stamp, now),
        Receipt::Wrote {
            before,
            words: now,
            stamp,
        } => shows(line, words, stamp - 1, before) && shows(line, words, stamp, now),
    }
}

fn list_agrees(line: &LineHistory, words: &[Option<[u64; 8]>], receipts: &[Receipt]) -> bool
    requires { Each (IsWithin line.now.opening.stamp line.now.closing.stamp) receipts.now }
    ensures { Decides result (Each (AgreesIn line.now words.now) receipts.now) }
{
    for place in 0..receipts.len() {
        if !agrees(line, words, receipts[place]) {
            return false;
        }
    }
    true
}

fn lists_agree(line: &LineHistory, words: &[Option<[u64; 8]>], lists: &[NodeReceipts]) -> bool
    requires { Each (Each (IsWithin line.now.opening.stamp line.now.closing.stamp)) lists.now }
    ensures { Decides result (Each (Each (AgreesIn line.now words.now)) lists.now) }
{
    for node in 0..lists.len() {
        if !list_agrees(line, words, lists[node].receipts()) {
            return false;
        }
    }
    true
}

fn all_agree(line: &LineHistory, words: &[Option<[u64; 8]>]) -> bool
    requires { KeepsWithin line.now }
    ensures { Decides result (AllAgree line.now words.now) }
{
    let closing = closing_of(line);
    shows(line, words, closing.stamp, closing.words) && lists_agree(line, words, lists_of(line))
}

/// The first of the rules H3 to H5 that a line breaks.
fn broken_in(line: &LineHistory, words: &[Option<[u64; 8]>], is_twice: bool) -> Option<Rule>
    requires within { KeepsWithin line.now }
    requires table { IsTable line.now (length line.now.lists) 0 words.now is_twice }
    ensures { MatchOption result (KeepsWritten line.now × KeepsOnce line.now × KeepsAgreed line.now) (λ rule. BreaksOf rule line.now) }
{
    if !are_full(words) {
        Some(Rule::Written)
    } else if is_twice {
        Some(Rule::Once)
    } else if !all_agree(line, words) {
        Some(Rule::Agreed)
    } else {
        None
    }
}

/// The first rule that a line breaks. Err: memory ran out.
pub fn first_broken(alloc: Global, line: &LineHistory) -> Result<Option<Rule>, AllocError>
    ensures { IfOk result (λ broken. MatchOption broken (IsLegalLine line.now) (λ rule. BreaksFirst rule line.now)) }
{
    if !keeps_within(line) {
        return Ok(Some(Rule::Within));
    }
    if !keeps_ordered(line) {
        return Ok(Some(Rule::Ordered));
    }
    if !has_room(line) {
        return Ok(Some(Rule::Written));
    }
    let table = table_of(alloc, line)?;
    Ok(broken_in(line, &table.words, table.is_twice))
}
