//! The parts that the words of a note share.

ghost use Rattle.std.specs.Prelude.{◌≡◌, ◌++◌, OnOk};
ghost use Rattle.sci_trace.specs.NoteText.{note_bytes};
ghost use Rattle.std.specs.Fmt.{decimal};
ghost use Rattle.sci_script.specs.Text.{held_text};
ghost use Rattle.sci_trace.specs.Words.{link_word, found_text, tag_text};

use crate::note_text::NoteText;
use crate::numbers::{push_between, push_named};
use crate::tag_names::tag_name;
use sci_port::Load;
use sci_words::{NodeId, Tag};
use std::alloc::AllocError;

/// A node's number between two pieces.
#[inline(always)]
pub fn push_node<const A: usize, const B: usize>(
    text: &mut NoteText,
    before: &[u8; A],
    node: NodeId,
    after: &[u8; B],
) -> Result<(), AllocError>
    ensures { OnOk result (note_bytes text.new ≡ note_bytes text.old ++ (before.now ++ decimal node ++ after.now)) }
{
    push_between(text, before, u64::from(node.get()), after)
}

/// A link between two pieces: a node, or `none`.
#[inline(always)]
pub fn push_link<const A: usize, const B: usize>(
    text: &mut NoteText,
    before: &[u8; A],
    link: Option<NodeId>,
    after: &[u8; B],
) -> Result<(), AllocError>
    ensures { OnOk result (note_bytes text.new ≡ note_bytes text.old ++ (before.now ++ link_word link ++ after.now)) }
{
    match link {
        Some(node) => push_node(text, before, node, after),
        None => text.push_three(before, b"none", 4, after, B),
    }
}

/// The tag that an event found: `NAME` of the own tag, `N NAME` of another node's.
pub(crate) fn push_found(
    text: &mut NoteText,
    load: &Option<Load>,
    tag: Tag,
) -> Result<(), AllocError>
    ensures { OnOk result (note_bytes text.new ≡ note_bytes text.old ++ found_text load.now tag) }
{
    let name = tag_name(tag);
    match load {
        Some(Load::Tag(node, _)) => push_named(text, b"", u64::from(node.get()), name),
        _ => text.push_short(name),
    }
}

/// A node's tag, with its links: `node N is NAME forw F back B`, and ` held`.
pub fn push_tag(text: &mut NoteText, node: NodeId, tag: Tag) -> Result<(), AllocError>
    ensures { OnOk result (note_bytes text.new ≡ note_bytes text.old ++ tag_text node tag) }
{
    let Tag {
        held,
        forw,
        back,
        ..
    } = tag;
    push_node(text, b"node ", node, b" is ")?;
    text.push_short(tag_name(tag))?;
    push_link(text, b" forw ", forw, b"")?;
    push_link(text, b" back ", back, b"")?;
    push_held(text, held)
}

/// ` held`, where it is.
#[inline(always)]
pub(crate) fn push_held(text: &mut NoteText, held: bool) -> Result<(), AllocError>
    ensures { OnOk result (note_bytes text.new ≡ note_bytes text.old ++ held_text held) }
{
    if held {
        text.push(b" held")?;
    }
    Ok(())
}
