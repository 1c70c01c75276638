//! A sharing list with what listings don't show: what is lent and what is held.

ghost use Rattle.std.specs.Prelude.{◌≡◌, ◌<◌, ◌++◌, Some, OnOk, IfOk, IfSome};
ghost use Rattle.sci_trace.specs.NoteText.{note_bytes};
ghost use Rattle.sci_trace.specs.Short.{short_bytes};
ghost use Rattle.sci_words.specs.Mem.{mem_name_of};
ghost use Rattle.sci_script.specs.Wholes.{shared_of};
ghost use Rattle.sci_trace.specs.Lists.{entry_text, entries_text, lent_text, list_text, walked};

use crate::note_text::NoteText;
use crate::numbers::push_named;
use crate::short::Short;
use crate::tag_names::tag_name;
use crate::words::{push_held, push_node};
use sci_script::{Desk, WholeDesk};
use sci_words::{LineNo, Mem, MemState, NodeId, Tag};
use std::alloc::AllocError;

/// An entry as it stands behind a piece: `N NAME`, and ` held`. Answers the one behind it.
#[inline(always)]
fn push_entry<const A: usize>(
    text: &mut NoteText,
    before: &[u8; A],
    desk: &mut WholeDesk,
    line: LineNo,
    node: NodeId,
) -> Result<Option<NodeId>, AllocError>
    requires line { line < desk.old.size.lines }
    requires node { node < desk.old.size.nodes }
    ensures pushed { OnOk result (note_bytes text.new ≡ (note_bytes text.old ++ before.now) ++ entry_text (node, ((shared_of desk.old).lines line).tags node)) }
    ensures next { IfOk result (λ next. next ≡ (((shared_of desk.old).lines line).tags node).forw) }
    ensures link { IfOk result (λ next. IfSome next (λ n. n < desk.old.size.nodes)) }
    ensures same { shared_of desk.new ≡ shared_of desk.old }
    ensures size { desk.new.size ≡ desk.old.size }
{
    let Some(tag) = desk.tag(line, node) else {
        unreachable!()
    };
    let Tag { held, forw, .. } = tag;
    push_named(text, before, u64::from(node.get()), tag_name(tag))?;
    push_held(text, held)?;
    Ok(forw)
}

/// The entries along the links from `head` on, at most as many as there are nodes.
fn push_entries(
    text: &mut NoteText,
    desk: &mut WholeDesk,
    line: LineNo,
    head: NodeId,
    nodes: u16,
) -> Result<(), AllocError>
    requires line { line < desk.old.size.lines }
    requires head { head < desk.old.size.nodes }
    requires nodes { nodes ≡ desk.old.size.nodes }
    ensures pushed { OnOk result (note_bytes text.new ≡ note_bytes text.old ++ entries_text (walked ((shared_of desk.old).lines line).tags nodes (Some head))) }
    ensures same { shared_of desk.new ≡ shared_of desk.old }
    ensures size { desk.new.size ≡ desk.old.size }
{
    let mut next = push_entry(text, b": ", desk, line, head)?;
    for _ in 1..nodes {
        let Some(node) = next else {
            return Ok(());
        };
        next = push_entry(text, b", ", desk, line, node)?;
    }
    Ok(())
}

/// The state of the memory word, and ` lent`.
fn state_text(mem: Mem) -> Short
    ensures { short_bytes result ≡ mem_name_of mem ++ lent_text mem.lent }
{
    match (mem.state, mem.lent) {
        (MemState::Home, false) => Short::new(b"HOME            ", 4),
        (MemState::Home, true) => Short::new(b"HOME lent       ", 9),
        (MemState::Fresh, false) => Short::new(b"FRESH           ", 5),
        (MemState::Fresh, true) => Short::new(b"FRESH lent      ", 10),
        (MemState::Gone, false) => Short::new(b"GONE            ", 4),
        (MemState::Gone, true) => Short::new(b"GONE lent       ", 9),
    }
}

/// This memory word of the line and the entries as they stand: `HOME`, `FRESH F: N NAME, N NAME ..`, with ` lent` behind the state
/// and ` held` behind a name.
pub(crate) fn push_list(
    text: &mut NoteText,
    desk: &mut WholeDesk,
    line: LineNo,
    mem: Mem,
    nodes: u16,
) -> Result<(), AllocError>
    requires line { line < desk.old.size.lines }
    requires head { IfSome mem.forw (λ n. n < desk.old.size.nodes) }
    requires nodes { nodes ≡ desk.old.size.nodes }
    ensures pushed { OnOk result (note_bytes text.new ≡ note_bytes text.old ++ list_text mem (walked ((shared_of desk.old).lines line).tags nodes mem.forw)) }
    ensures same { shared_of desk.new ≡ shared_of desk.old }
    ensures size { desk.new.size ≡ desk.old.size }
{
    let head = mem.forw;
    text.push_short(state_text(mem))?;
    if let Some(head) = head {
        push_node(text, b" ", head, b"")?;
        push_entries(text, desk, line, head, nodes)?;
    }
    Ok(())
}
