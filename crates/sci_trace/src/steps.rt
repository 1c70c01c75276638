//! Pending steps in words.

ghost use Rattle.std.specs.Prelude.{◌≡◌, ◌++◌, OnOk, codes, if◌then◌else◌};
ghost use Rattle.sci_trace.specs.NoteText.{note_bytes};
ghost use Rattle.sci_trace.specs.Words.{link_word};
ghost use Rattle.sci_trace.specs.Steps.{step_text};

use crate::note_text::NoteText;
use crate::words::push_link;
use sci_core::Stage;
use sci_words::NodeId;
use std::alloc::AllocError;

/// A step that keeps a node or none, and something else in mind: its name with the bracket, the node, and what closes it, with this
/// mark where that is so.
#[inline(always)]
fn push_marked<const N: usize, const M: usize>(
    text: &mut NoteText,
    name: &[u8; N],
    kept: Option<NodeId>,
    is_marked: bool,
    mark: &[u8; M],
) -> Result<(), AllocError>
    ensures { OnOk result (note_bytes text.new ≡ note_bytes text.old ++ (name.now ++ link_word kept ++ (if is_marked then mark.now else codes "); "))) }
{
    if is_marked {
        push_link(text, name, kept, mark)
    } else {
        push_link(text, name, kept, b"); ")
    }
}

/// A pending step, with the node that it keeps and its mark.
pub fn push_step(text: &mut NoteText, step: &Stage) -> Result<(), AllocError>
    ensures { OnOk result (note_bytes text.new ≡ note_bytes text.old ++ step_text step.now) }
{
    match *step {
        Stage::Idle => text.push(b"Idle; "),
        Stage::Holding { .. } => text.push(b"Holding; "),
        Stage::Queueing { forw } => push_link(text, b"Queueing(", forw, b"); "),
        Stage::Fetching { forw, dirty } => push_marked(
            text,
            b"Fetching(",
            forw,
            dirty,
            b") dirty; ",
        ),
        Stage::InQueue { forw, dirty, .. } => push_marked(
            text,
            b"InQueue(",
            forw,
            dirty,
            b") dirty; ",
        ),
        Stage::Copying { forw, .. } => push_link(text, b"Copying(", Some(forw), b"); "),
        Stage::Ready { forw, dirty } => push_marked(text, b"Ready(", forw, dirty, b") dirty; "),
        Stage::Converting { forw, turned } => push_marked(
            text,
            b"Converting(",
            forw,
            turned,
            b") turned; ",
        ),
        Stage::Purging { .. } => text.push(b"Purging; "),
        Stage::Advancing { victim, .. } => push_link(text, b"Advancing(", Some(victim), b"); "),
        Stage::Clearing { victim, .. } => push_link(text, b"Clearing(", Some(victim), b"); "),
        Stage::Leaving { dirty: false, .. } => text.push(b"Leaving; "),
        Stage::Leaving { .. } => text.push(b"Leaving dirty; "),
        Stage::Promoted { dirty, succ } => push_marked(
            text,
            b"Promoted(",
            Some(succ),
            dirty,
            b") dirty; ",
        ),
        Stage::WritingBack => text.push(b"WritingBack; "),
        Stage::Parted { forw } => push_link(text, b"Parted(", forw, b"); "),
        Stage::Rolling { told: false, .. } => text.push(b"Rolling; "),
        Stage::Rolling { .. } => text.push(b"Rolling told; "),
        Stage::Unlinked { forw, .. } => push_link(text, b"Unlinked(", forw, b"); "),
    }
}
