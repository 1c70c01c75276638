//! The lines of a log: its head, and what passed in each turn.

ghost use Rattle.std.specs.Prelude.{◌≡◌, ◌++◌, [], OnOk, codes};
ghost use Rattle.std.specs.List.{flat_map};
ghost use Rattle.sci_dump.specs.Text.{hexadecimal};
ghost use Rattle.sci_logs.specs.TurnText.{entry_place, look_line, repeated, outcome_text, exchange_line, entries_of, opening_line, log_head};
ghost use Rattle.sci_trace.specs.Events.{event_name, argument_text};
ghost use Rattle.sci_trace.specs.NoteText.{note_bytes};

use sci_core::Event;
use sci_port::{Ending, Load, Passed};
use sci_script::{Opening, Size};
use sci_trace::parts::{
    NoteText, Short, event_name, push_argument, push_between, push_node, push_words,
};
use sci_words::{LineNo, NodeId};
use std::alloc::{AllocError, Global};

/// `node N line L `.
fn push_place(text: &mut NoteText, node: NodeId, line: LineNo) -> Result<(), AllocError>
    ensures { OnOk result (note_bytes text.new ≡ note_bytes text.old ++ entry_place node line) }
{
    push_node(text, b"node ", node, b" line ")?;
    push_between(text, b"", u64::from(line), b" ")
}

/// A look at the own tag.
fn push_look(text: &mut NoteText, node: NodeId, line: LineNo) -> Result<(), AllocError>
    ensures { OnOk result (note_bytes text.new ≡ note_bytes text.old ++ look_line node line) }
{
    push_place(text, node, line)?;
    text.push(b"Look Done\n")
}

/// So many looks.
#[tactic(auto, using(crate::proofs::Repeated::none_pushed, crate::proofs::Repeated::more_pushed))]
fn push_looks(text: &mut NoteText, node: NodeId, line: LineNo, looks: u8) -> Result<(), AllocError>
    ensures { OnOk result (note_bytes text.new ≡ note_bytes text.old ++ repeated (look_line node line) looks) }
{
    for _ in 0..looks {
        push_look(text, node, line)?;
    }
    Ok(())
}

/// A word in 16 digits.
fn push_word(alloc: Global, text: &mut NoteText, word: u64) -> Result<(), AllocError>
    ensures { OnOk result (note_bytes text.new ≡ note_bytes text.old ++ hexadecimal 16 word) }
{
    let digits = format!(in alloc; "{word:016x}")?;
    text.push_bytes(digits.as_bytes())
}

/// How an exchange ended.
fn push_outcome(alloc: Global, text: &mut NoteText, ending: Ending) -> Result<(), AllocError>
    ensures { OnOk result (note_bytes text.new ≡ note_bytes text.old ++ outcome_text ending) }
{
    match ending {
        Ending::Done => text.push(b" Done"),
        Ending::Missed(word) => {
            text.push(b" Missed ")?;
            push_word(alloc, text, word)
        }
        Ending::Busy => text.push(b" Busy"),
    }
}

/// An event with its argument, behind this load.
fn push_event(text: &mut NoteText, load: &Option<Load>, event: &Event) -> Result<(), AllocError>
    ensures { OnOk result (note_bytes text.new ≡ note_bytes text.old ++ (event_name event.now ++ argument_text load.now event.now [] (codes ")"))) }
{
    let bare = Short::new(b"                ", 0);
    let closed = Short::new(b")               ", 1);
    text.push_short(event_name(event))?;
    push_argument(text, load, event, bare, closed)
}

/// The exchange of a turn, where it made one.
fn push_exchange(
    alloc: Global,
    text: &mut NoteText,
    node: NodeId,
    passed: &Passed,
) -> Result<(), AllocError>
    ensures { OnOk result (note_bytes text.new ≡ note_bytes text.old ++ exchange_line node passed.now) }
{
    let Some((event, ending)) = &passed.step else {
        return Ok(());
    };
    push_place(text, node, passed.line)?;
    push_event(text, &passed.load, event)?;
    push_outcome(alloc, text, *ending)?;
    text.push(b"\n")
}

/// What passed in a turn of the node: its looks at the own tag, and then its exchange, a line each.
pub(crate) fn push_entries(
    alloc: Global,
    text: &mut NoteText,
    node: NodeId,
    passed: &Passed,
) -> Result<(), AllocError>
    ensures { OnOk result (note_bytes text.new ≡ note_bytes text.old ++ entries_of node passed.now) }
{
    push_looks(text, node, passed.line, passed.looks)?;
    push_exchange(alloc, text, node, passed)
}

/// What a line opens with.
fn push_opening(text: &mut NoteText, opening: &Opening) -> Result<(), AllocError>
    ensures { OnOk result (note_bytes text.new ≡ note_bytes text.old ++ opening_line opening.now) }
{
    let content = &opening.content;
    push_between(text, b"open ", u64::from(opening.line), b"")?;
    push_words(text, &[content.stamp])?;
    push_words(text, &content.words)?;
    text.push(b"\n")
}

/// What lines open with.
fn push_openings(text: &mut NoteText, openings: &[Opening]) -> Result<(), AllocError>
    ensures { OnOk result (note_bytes text.new ≡ note_bytes text.old ++ flat_map opening_line openings.now) }
{
    for opening in openings {
        push_opening(text, opening)?;
    }
    Ok(())
}

/// The head of a log: `memory NODES LINES`, and what lines open with.
pub(crate) fn push_head(
    text: &mut NoteText,
    size: Size,
    openings: &[Opening],
) -> Result<(), AllocError>
    ensures { OnOk result (note_bytes text.new ≡ note_bytes text.old ++ log_head size openings.now) }
{
    push_between(text, b"memory ", u64::from(size.nodes), b" ")?;
    push_between(text, b"", u64::from(size.lines), b"\n")?;
    push_openings(text, openings)
}
