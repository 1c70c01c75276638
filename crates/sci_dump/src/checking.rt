//! Whether each line of a dump is an exact sharing list.

ghost use Rattle.std.specs.Prelude.{◌≡◌, ◌≢◌, ◌≤◌, ◌⊎◌, ◌↔◌, ℕ, List, true, false, length, Contains, Some, MatchOption};
ghost use Rattle.sci_words.specs.declared.tags.Kind.{Kind};
ghost use Rattle.sci_words.specs.declared.memory.MemState.{MemState};
ghost use Rattle.sci_core.specs.Exact.{is_closed_kind};
ghost use Rattle.sci_core.specs.Closed.{IsExactClosed};
ghost use Rattle.sci_dump.specs.declared.checking.Verdict.TheVariants.{Lawful};
ghost use Rattle.sci_dump.specs.Rules.{tag, line, Decides, KeepsSettled, KeepsEnding, Ends, KeepsListed, KeepsLinked, KeepsSuited, KeepsEqual, BreaksFirst, IsVerdictOf, AreExact};

use crate::dumps::{Dump, INVALID};
use sci_core::{Closed, Line};
use sci_words::{Kind, LineNo, Mem, MemState, NodeId, Tag};

/// What a closed line keeps that is an exact sharing list. The rules are looked at in this order.
#[derive(Clone, Copy, Debug, PartialEq, Eq)]
pub enum Rule {
    /// C1: memory isn't lent, no tag is held, and every kind is Invalid, Fresh, Dirty or Valid.
    Settled,
    /// C2: the forward links from memory name distinct nodes below the number of nodes, and end.
    Ending,
    /// C3: a node is on that chain exactly if it isn't Invalid.
    Listed,
    /// C4: the first entry is Fresh or Dirty, each later one is Valid with the entry before it as back link.
    Linked,
    /// C5: Fresh stands under FRESH, Dirty under GONE.
    Suited,
    /// C6: all lines on the chain are equal, and equal to memory's unless GONE.
    Equal,
}

impl Rule {
    ghost use Rattle.std.specs.Prelude.{◌≡◌};
    ghost use Rattle.sci_dump.specs.Rules.{rule_number};

    /// The rule's number, 1 to 6.
    pub fn number(self) -> u8
        ensures { result ≡ rule_number self }
    {
        match self {
            Rule::Settled => 1,
            Rule::Ending => 2,
            Rule::Listed => 3,
            Rule::Linked => 4,
            Rule::Suited => 5,
            Rule::Equal => 6,
        }
    }
}

/// What the check of a dump says.
#[derive(Clone, Copy, Debug, PartialEq, Eq)]
pub enum Verdict {
    /// Each line is an exact sharing list.
    Lawful,
    /// This line is the first that isn't one, and this is the first rule that it breaks.
    Unlawful { line: LineNo, rule: Rule },
}

/// How many nodes a line has.
fn nodes_of(closed: &Closed) -> usize
    ensures { result ≡ length closed.now.tags }
{
    closed.tags.len()
}

/// The tag of a node, or that of an Invalid one where there is no such node.
fn tag_of(closed: &Closed, node: usize) -> Tag
    ensures { result ≡ tag closed.now node }
{
    match closed.tags.get(node) {
        Some(tag) => *tag,
        None => INVALID,
    }
}

/// The line of a node, or zeros where there is no such node.
fn line_of(closed: &Closed, node: usize) -> Line
    ensures { result ≡ line closed.now node }
{
    match closed.lines.get(node) {
        Some(line) => *line,
        None => Line::ZERO,
    }
}

/// Memory's line.
fn memory_of(closed: &Closed) -> Line
    ensures { result ≡ closed.now.memory }
{
    closed.memory
}

/// Memory's word.
fn word_of(closed: &Closed) -> Mem
    ensures { result ≡ closed.now.mem }
{
    closed.mem
}

/// The number of a node.
fn number_of(node: NodeId) -> usize
    ensures { result ≡ node }
{
    usize::from(node.get())
}

/// Whether an entry isn't held, and its kind is one of a line at rest.
fn is_settled_tag(tag: Tag) -> bool
    ensures { Decides result ((tag.held ≡ false) × (is_closed_kind tag.kind ≡ true)) }
{
    !tag.held
        && matches!(
            tag.kind,
            Kind::Invalid | Kind::Fresh | Kind::Dirty | Kind::Valid
        )
}

/// Rule C1.
fn is_settled(closed: &Closed) -> bool
    ensures { Decides result (KeepsSettled closed.now) }
{
    if word_of(closed).lent {
        return false;
    }
    for node in 0..nodes_of(closed) {
        if !is_settled_tag(tag_of(closed, node)) {
            return false;
        }
    }
    true
}

/// Rule C2.
fn is_ending(closed: &Closed) -> bool
    ensures { Decides result (Ends closed.now) }
{
    let mut next = word_of(closed).forw;
    for _ in 0..nodes_of(closed) {
        let Some(node) = next else {
            return true;
        };
        if number_of(node) >= nodes_of(closed) {
            return false;
        }
        let place = number_of(node);
        next = tag_of(closed, place).forw;
    }
    next.is_none()
}

/// Whether a node is on the chain.
fn is_on_chain(closed: &Closed, wanted: usize) -> bool
    ensures { (nodes : List ℕ) → KeepsEnding closed.now nodes → Decides result (Contains nodes wanted) }
{
    let mut next = word_of(closed).forw;
    for _ in 0..nodes_of(closed) {
        let Some(node) = next else {
            return false;
        };
        if number_of(node) == wanted {
            return true;
        }
        let place = number_of(node);
        next = tag_of(closed, place).forw;
    }
    false
}

/// Whether a node isn't Invalid.
fn is_sharer(tag: Tag) -> bool
    ensures { Decides result (tag.kind ≢ Kind.Invalid) }
{
    !matches!(tag.kind, Kind::Invalid)
}

/// Whether a node is on the chain exactly if it isn't Invalid, where C2 is kept.
#[tactic(auto, using(crate::proofs::Deciding::sharer_listed, crate::proofs::Deciding::other_listed))]
fn is_listed(closed: &Closed, node: usize) -> bool
    ensures { (nodes : List ℕ) → KeepsEnding closed.now nodes → Decides result (((tag closed.now node).kind ≢ Kind.Invalid) ↔ Contains nodes node) }
{
    let tag = tag_of(closed, node);
    if is_sharer(tag) {
        is_on_chain(closed, node)
    } else {
        !is_on_chain(closed, node)
    }
}

/// Rule C3, where C2 is kept.
#[tactic(auto, using(crate::proofs::Deciding::listed, crate::proofs::Deciding::not_listed))]
fn lists_sharers(closed: &Closed) -> bool
    ensures { (nodes : List ℕ) → KeepsEnding closed.now nodes → Decides result (KeepsListed closed.now nodes) }
{
    for node in 0..nodes_of(closed) {
        if !is_listed(closed, node) {
            return false;
        }
    }
    true
}

/// Whether the entry at the head is Fresh or Dirty.
fn is_head(tag: Tag) -> bool
    ensures { Decides result ((tag.kind ≡ Kind.Fresh) ⊎ (tag.kind ≡ Kind.Dirty)) }
{
    matches!(tag.kind, Kind::Fresh | Kind::Dirty)
}

/// Whether the entry is Valid with this node as back link.
fn is_behind(tag: Tag, node: usize) -> bool
    ensures { Decides result ((tag.kind ≡ Kind.Valid) × (tag.back ≡ Some node)) }
{
    let is_back = match tag.back {
        Some(back) => usize::from(back.get()) == node,
        None => false,
    };
    is_back && matches!(tag.kind, Kind::Valid)
}

/// Rule C4, where C2 and C3 are kept.
fn is_linked_back(closed: &Closed) -> bool
    ensures { (nodes : List ℕ) → KeepsEnding closed.now nodes → KeepsListed closed.now nodes → Decides result (KeepsLinked closed.now nodes) }
{
    if let Some(head) = word_of(closed).forw {
        if !is_head(tag_of(closed, number_of(head))) {
            return false;
        }
    }
    for node in 0..nodes_of(closed) {
        let entry = tag_of(closed, node);
        if let Some(next) = entry.forw {
            if is_sharer(entry) && !is_behind(tag_of(closed, number_of(next)), node) {
                return false;
            }
        }
    }
    true
}

/// Whether Fresh stands under FRESH, and Dirty under GONE.
fn is_suited(tag: Tag, state: MemState) -> bool
    ensures { Decides result ((tag.kind ≡ Kind.Fresh → state ≡ MemState.Fresh) × (tag.kind ≡ Kind.Dirty → state ≡ MemState.Gone)) }
{
    match tag.kind {
        Kind::Fresh => matches!(state, MemState::Fresh),
        Kind::Dirty => matches!(state, MemState::Gone),
        _ => true,
    }
}

/// Rule C5, where C3 is kept.
fn suits_memory(closed: &Closed) -> bool
    ensures { (nodes : List ℕ) → KeepsEnding closed.now nodes → KeepsListed closed.now nodes → Decides result (KeepsSuited closed.now nodes) }
{
    let state = word_of(closed).state;
    for node in 0..nodes_of(closed) {
        if !is_suited(tag_of(closed, node), state) {
            return false;
        }
    }
    true
}

/// Whether two lines are the same.
fn is_same(one: Line, other: Line) -> bool
    ensures { Decides result (one ≡ other) }
{
    one == other
}

/// Rule C6, where C2 and C3 are kept.
fn has_equal_lines(closed: &Closed) -> bool
    ensures { (nodes : List ℕ) → KeepsEnding closed.now nodes → KeepsListed closed.now nodes → Decides result (KeepsEqual closed.now nodes) }
{
    let Some(head) = word_of(closed).forw else {
        return true;
    };
    let shared = line_of(closed, number_of(head));
    let is_gone = matches!(word_of(closed).state, MemState::Gone);
    if !is_gone && !is_same(shared, memory_of(closed)) {
        return false;
    }
    for node in 0..nodes_of(closed) {
        if is_sharer(tag_of(closed, node)) && !is_same(line_of(closed, node), shared) {
            return false;
        }
    }
    true
}

/// The first rule that a line breaks, unless it is an exact sharing list.
pub fn first_broken(closed: &Closed) -> Option<Rule>
    ensures { MatchOption result (IsExactClosed closed.now) (λ rule. BreaksFirst rule closed.now) }
{
    if !is_settled(closed) {
        Some(Rule::Settled)
    } else if !is_ending(closed) {
        Some(Rule::Ending)
    } else if !lists_sharers(closed) {
        Some(Rule::Listed)
    } else if !is_linked_back(closed) {
        Some(Rule::Linked)
    } else if !suits_memory(closed) {
        Some(Rule::Suited)
    } else if !has_equal_lines(closed) {
        Some(Rule::Equal)
    } else {
        None
    }
}

/// The first line that isn't an exact sharing list, with the first rule that it breaks.
fn verdict_of(lines: &[Closed]) -> Verdict
    requires { length lines.now ≤ 1024 }
    ensures exact { (result ≡ Lawful) ↔ AreExact lines.now }
    ensures first { IsVerdictOf lines.now result }
{
    for number in 0..lines.len() {
        if let Some(rule) = first_broken(&lines[number]) {
            return Verdict::Unlawful {
                line: number as u16,
                rule,
            };
        }
    }
    Verdict::Lawful
}

/// The lines of a dump.
fn lines_of(dump: &Dump) -> &[Closed]
    ensures lines { result.now ≡ dump.now.lines }
    ensures few { length result.now ≤ 1024 }
{
    &dump.lines
}

/// Whether each line of a dump is an exact sharing list, and else the first that isn't one, with the first rule that it breaks.
pub fn check(dump: &Dump) -> Verdict
    // Lawful exactly where each line is exact.
    ensures exact { (result ≡ Lawful) ↔ AreExact dump.now.lines }
    // Else the first line and rule.
    ensures first { IsVerdictOf dump.now.lines result }
{
    verdict_of(lines_of(dump))
}
