//! The printed lines.

ghost use Rattle.std.specs.Prelude.{◌≡◌, ◌<◌, ◌++◌, IfOk, OnOk, string_bytes, codes};
ghost use Rattle.std.specs.Fmt.{decimal};
ghost use Rattle.std.specs.List.{flat_map};
ghost use Rattle.sci_script.specs.Text.{read_line, wrote_line, out_line, spent_line, answer_line, wait_line, turn_text, entry_text, entries_text, chain_text, list_line, link_text, held_text, tag_line, residents_line, look_line};

use crate::desk::Look;
use sci_ops::{Answer, Turn};
use sci_words::{LineNo, Mem, NodeId, Tag, mem_name, name};
use std::alloc::{AllocError, Global};

fn read_text(text: &mut String, node: u16, value: u64, stamp: u64) -> Result<(), AllocError>
    ensures { OnOk result (string_bytes text.new ≡ string_bytes text.old ++ read_line node value stamp) }
{
    write!(text, "node {node} read {value} stamp {stamp}\n")
}

fn wrote_text(text: &mut String, node: u16, stamp: u64) -> Result<(), AllocError>
    ensures { OnOk result (string_bytes text.new ≡ string_bytes text.old ++ wrote_line node stamp) }
{
    write!(text, "node {node} wrote stamp {stamp}\n")
}

fn out_text(text: &mut String, node: u16) -> Result<(), AllocError>
    ensures { OnOk result (string_bytes text.new ≡ string_bytes text.old ++ out_line node) }
{
    write!(text, "node {node} out\n")
}

fn spent_text(text: &mut String, node: u16) -> Result<(), AllocError>
    ensures { OnOk result (string_bytes text.new ≡ string_bytes text.old ++ spent_line node) }
{
    write!(text, "node {node} refused 11\n")
}

/// How a call ended. Of the line that a load has seen the word with this number is shown.
fn answer_text(text: &mut String, node: u16, word: u8, answer: &Answer) -> Result<(), AllocError>
    requires { word < 8 }
    ensures { OnOk result (string_bytes text.new ≡ string_bytes text.old ++ answer_line node word answer.now) }
{
    match answer {
        Answer::Seen { words, stamp } => read_text(text, node, words[usize::from(word)], *stamp),
        Answer::Wrote { stamp, .. } => wrote_text(text, node, *stamp),
        Answer::Out => out_text(text, node),
        Answer::Spent => spent_text(text, node),
    }
}

fn wait_text(text: &mut String, node: u16) -> Result<(), AllocError>
    ensures { OnOk result (string_bytes text.new ≡ string_bytes text.old ++ wait_line node) }
{
    write!(text, "node {node} waits\n")
}

/// Adds what a turn prints.
pub fn turn_text(text: &mut String, node: NodeId, word: u8, turn: &Turn) -> Result<(), AllocError>
    requires { word < 8 }
    ensures { OnOk result (string_bytes text.new ≡ string_bytes text.old ++ turn_text node word turn.now) }
{
    match turn {
        Turn::Moved => Ok(()),
        Turn::Waiting => wait_text(text, node.get()),
        Turn::Done(answer) => answer_text(text, node.get(), word, answer),
    }
}

fn push_entry(text: &mut String, entry: (NodeId, Tag)) -> Result<(), AllocError>
    ensures { OnOk result (string_bytes text.new ≡ string_bytes text.old ++ entry_text entry) }
{
    let (node, tag) = entry;
    let node = node.get();
    write!(text, "{node} ")?;
    text.push_str(name(tag))
}

fn push_entries(text: &mut String, entries: &[(NodeId, Tag)]) -> Result<(), AllocError>
    ensures { OnOk result (string_bytes text.new ≡ string_bytes text.old ++ entries_text entries.now) }
{
    if let [first, others @ ..] = entries {
        text.push_str(" ")?;
        push_entry(text, *first)?;
        for entry in others {
            text.push_str(", ")?;
            push_entry(text, *entry)?;
        }
    }
    Ok(())
}

/// Adds the head and the entries behind it, ` F: N NAME, N NAME ..`, or nothing where there is no head.
fn push_chain(
    text: &mut String,
    head: Option<NodeId>,
    entries: &[(NodeId, Tag)],
) -> Result<(), AllocError>
    ensures { OnOk result (string_bytes text.new ≡ string_bytes text.old ++ chain_text head entries.now) }
{
    if let Some(head) = head {
        let head = head.get();
        write!(text, " {head}:")?;
        push_entries(text, entries)?;
    }
    Ok(())
}

/// What `list` prints, `line L HOME` or `line L STATE F: N NAME, N NAME ..`, and a line feed. The entries are those along the
/// line's sharing list, from the head on, each with its tag.
pub fn list_text(
    alloc: Global,
    line: LineNo,
    mem: Mem,
    entries: &[(NodeId, Tag)],
) -> Result<String, AllocError>
    ensures { IfOk result (λ text. string_bytes text ≡ list_line line mem entries.now) }
{
    let head = mem.forw;
    let mut text = format!(in alloc; "line {line} ")?;
    text.push_str(mem_name(mem))?;
    push_chain(&mut text, head, entries)?;
    text.push_str("\n")?;
    Ok(text)
}

/// A link: its node, or `-` for none.
fn push_link(text: &mut String, link: Option<NodeId>) -> Result<(), AllocError>
    ensures { OnOk result (string_bytes text.new ≡ string_bytes text.old ++ link_text link) }
{
    match link {
        Some(node) => {
            let node = node.get();
            write!(text, "{node}")
        }
        None => text.push_str("-"),
    }
}

/// ` held`, where the tag is held.
fn push_held(text: &mut String, held: bool) -> Result<(), AllocError>
    ensures { OnOk result (string_bytes text.new ≡ string_bytes text.old ++ held_text held) }
{
    if held {
        text.push_str(" held")?;
    }
    Ok(())
}

/// What `tag` prints, `tag L N NAME forw F back B`, ` held` where the tag is held, and a line feed. A link is `-` for none.
pub fn tag_text(alloc: Global, line: LineNo, node: NodeId, tag: Tag) -> Result<String, AllocError>
    ensures { IfOk result (λ text. string_bytes text ≡ tag_line line node tag) }
{
    let Tag {
        held,
        forw,
        back,
        ..
    } = tag;
    let mut text = format!(in alloc; "tag {line} ")?;
    push_entry(&mut text, (node, tag))?;
    text.push_str(" forw ")?;
    push_link(&mut text, forw)?;
    text.push_str(" back ")?;
    push_link(&mut text, back)?;
    push_held(&mut text, held)?;
    text.push_str("\n")?;
    Ok(text)
}

fn push_lines(text: &mut String, lines: &[LineNo]) -> Result<(), AllocError>
    ensures { OnOk result (string_bytes text.new ≡ string_bytes text.old ++ flat_map (λ line. codes " " ++ decimal line) lines.now) }
{
    for line in lines {
        write!(text, " {line}")?;
    }
    Ok(())
}

/// What `residents` prints, `node N residents`, each line after a space, and a line feed.
fn residents_text(alloc: Global, node: NodeId, lines: &[LineNo]) -> Result<String, AllocError>
    ensures { IfOk result (λ text. string_bytes text ≡ residents_line node lines.now) }
{
    let node = node.get();
    let mut text = format!(in alloc; "node {node} residents")?;
    push_lines(&mut text, lines)?;
    text.push_str("\n")?;
    Ok(text)
}

/// What is printed of what was asked.
pub(crate) fn look_text(alloc: Global, look: &Look) -> Result<String, AllocError>
    ensures { IfOk result (λ text. string_bytes text ≡ look_line look.now) }
{
    match look {
        Look::Residents { node, lines } => residents_text(alloc, *node, lines),
    }
}
