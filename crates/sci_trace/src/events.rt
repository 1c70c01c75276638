//! Events in words.

ghost use Rattle.std.specs.Prelude.{◌≡◌, ◌++◌, OnOk, codes};
ghost use Rattle.sci_trace.specs.NoteText.{note_bytes};
ghost use Rattle.std.specs.Fmt.{decimal};
ghost use Rattle.std.specs.List.{flat_map};
ghost use Rattle.sci_trace.specs.Short.{short_bytes};
ghost use Rattle.sci_trace.specs.Events.{written_text, ending_text, closed_ending, argument_text, event_text};

use crate::event_names::event_name;
use crate::note_text::NoteText;
use crate::numbers::push_between;
use crate::short::Short;
use crate::words::{push_found, push_link};
use sci_core::Event;
use sci_port::{Ending, Load};
use std::alloc::AllocError;

/// Words, each behind a space.
pub fn push_words(text: &mut NoteText, words: &[u64]) -> Result<(), AllocError>
    ensures { OnOk result (note_bytes text.new ≡ note_bytes text.old ++ flat_map (λ word. codes " " ++ decimal word) words.now) }
{
    for word in words {
        push_between(text, b" ", *word, b"")?;
    }
    Ok(())
}

/// The words that a write stores, or that there are none.
fn push_written(text: &mut NoteText, words: &Option<[u64; 8]>) -> Result<(), AllocError>
    ensures { OnOk result (note_bytes text.new ≡ note_bytes text.old ++ written_text words.now) }
{
    match words {
        Some(words) => {
            text.push(b"words")?;
            push_words(text, words)
        }
        None => text.push(b"none"),
    }
}

/// How an exchange ended, behind an event without an argument.
fn ending_text(ending: Ending) -> Short
    ensures { short_bytes result ≡ ending_text ending }
{
    match ending {
        Ending::Done => Short::new(b" Done;          ", 7),
        Ending::Missed(_) => Short::new(b" Missed;        ", 9),
        Ending::Busy => Short::new(b" Busy;          ", 7),
    }
}

/// How an exchange ended, behind an argument.
fn closed_ending(ending: Ending) -> Short
    ensures { short_bytes result ≡ closed_ending ending }
{
    match ending {
        Ending::Done => Short::new(b") Done;         ", 8),
        Ending::Missed(_) => Short::new(b") Missed;       ", 10),
        Ending::Busy => Short::new(b") Busy;         ", 8),
    }
}

/// What stands behind an event's name: a link, the words, or the tag that was found behind this load, and what closes it; or what
/// stands there without.
pub fn push_argument(
    text: &mut NoteText,
    load: &Option<Load>,
    event: &Event,
    bare: Short,
    closed: Short,
) -> Result<(), AllocError>
    ensures { OnOk result (note_bytes text.new ≡ note_bytes text.old ++ argument_text load.now event.now (short_bytes bare) (short_bytes closed)) }
{
    match event {
        Event::Queue(forw) | Event::Requeue(forw) => push_link(text, b"", *forw, b"")?,
        Event::Written(words) => push_written(text, words)?,
        Event::AttachFresh(found)
        | Event::Hold(found)
        | Event::Convert(found)
        | Event::BeginPurge(found)
        | Event::AttachDirty(found)
        | Event::PurgeOne(found)
        | Event::Roll(found)
        | Event::TellSuccessor(found)
        | Event::TellPredecessor(found)
        | Event::Adopt(found)
        | Event::Leave(found)
        | Event::Promote(found) => push_found(text, load, *found)?,
        _ => return text.push_short(bare),
    }
    text.push_short(closed)
}

/// An event with its argument, behind this load, and how the exchange ended.
pub(crate) fn push_event(
    text: &mut NoteText,
    load: &Option<Load>,
    event: &Event,
    ending: Ending,
) -> Result<(), AllocError>
    ensures { OnOk result (note_bytes text.new ≡ note_bytes text.old ++ event_text load.now event.now ending) }
{
    text.push_short(event_name(event))?;
    push_argument(
        text,
        load,
        event,
        ending_text(ending),
        closed_ending(ending),
    )
}
