//! The text of a verdict on a dump.

ghost use Rattle.std.specs.Prelude.{◌≡◌, ◌≤◌, ◌++◌, ℕ, List, IfOk, OnOk, string_bytes, length, map, codes};
ghost use Rattle.sci_dump.specs.Rules.{tag, AreExact, KeepsEnding, IsVerdictOf};
ghost use Rattle.sci_serve.specs.Verdicts.{entry, list_of, AreListsOf, IsTextOf, unlawful_line};

use sci_core::Closed;
use sci_dump::{Dump, Rule, Verdict};
use sci_script::list_text;
use sci_words::{Kind, LineNo, Mem, NodeId, Tag};
use std::alloc::{AllocError, Global};

/// The tag of a node that there isn't.
const INVALID: Tag = Tag {
    kind: Kind::Invalid,
    held: false,
    forw: None,
    back: None,
};

fn tag_of(closed: &Closed, node: NodeId) -> Tag
    ensures { result ≡ tag closed.now node }
{
    match closed.tags.get(usize::from(node.get())) {
        Some(tag) => *tag,
        None => INVALID,
    }
}

fn mem_of(closed: &Closed) -> Mem
    ensures { result ≡ closed.now.mem }
{
    closed.mem
}

fn nodes_of(closed: &Closed) -> usize
    ensures { result ≡ length closed.now.tags }
{
    closed.tags.len()
}

/// The entries along the forward links, if these end.
fn entries(alloc: Global, closed: &Closed) -> Result<Vec<(NodeId, Tag)>, AllocError>
    ensures { IfOk result (λ v. (nodes : List ℕ) → KeepsEnding closed.now nodes → v.items ≡ map (entry closed.now) nodes) }
{
    let mut entries = Vec::new(alloc);
    let mut next = mem_of(closed).forw;
    for _ in 0..nodes_of(closed) {
        let Some(node) = next else {
            return Ok(entries);
        };
        let tag = tag_of(closed, node);
        next = tag.forw;
        entries.push((node, tag))?;
    }
    Ok(entries)
}

/// Adds a line's sharing list, as a script's `list` prints it.
pub fn push_list(
    alloc: Global,
    text: &mut String,
    number: LineNo,
    closed: &Closed,
) -> Result<(), AllocError>
    ensures { OnOk result ((nodes : List ℕ) → KeepsEnding closed.now nodes → string_bytes text.new ≡ string_bytes text.old ++ list_of number closed.now nodes) }
{
    let entries = entries(alloc, closed)?;
    let list = list_text(alloc, number, mem_of(closed), &entries)?;
    text.push_str(&list)
}

/// Each line's sharing list, and `lawful`.
fn lawful_text(alloc: Global, lines: &[Closed]) -> Result<String, AllocError>
    requires few { length lines.now ≤ 1024 }
    requires exact { AreExact lines.now }
    ensures { IfOk result (λ text. (lists : List ℕ) × AreListsOf 0 lines.now lists × (string_bytes text ≡ lists ++ codes "lawful\n")) }
{
    let mut text = String::new(alloc);
    for number in 0..lines.len() {
        push_list(alloc, &mut text, number as u16, &lines[number])?;
    }
    text.push_str("lawful\n")?;
    Ok(text)
}

/// `line L breaks CN`.
pub fn unlawful_text(alloc: Global, line: LineNo, rule: Rule) -> Result<String, AllocError>
    ensures { IfOk result (λ text. string_bytes text ≡ unlawful_line line rule) }
{
    let number = rule.number();
    format!(in alloc; "line {line} breaks C{number}\n")
}

/// The lines of a dump.
fn lines_of(dump: &Dump) -> &[Closed]
    ensures lines { result.now ≡ dump.now.lines }
    ensures few { length result.now ≤ 1024 }
{
    &dump.lines
}

/// What is printed of a dump with this verdict.
pub fn verdict_text(alloc: Global, dump: &Dump, verdict: Verdict) -> Result<String, AllocError>
    requires { IsVerdictOf dump.now.lines verdict }
    ensures { IfOk result (λ text. IsTextOf dump.now.lines verdict (string_bytes text)) }
{
    match verdict {
        Verdict::Lawful => lawful_text(alloc, lines_of(dump)),
        Verdict::Unlawful { line, rule } => unlawful_text(alloc, line, rule),
    }
}
