//! The reader of a whole script.

ghost use Rattle.std.specs.Prelude.{◌≡◌, ◌<◌, ◌≤◌, ◌+◌, ◌^◌, ◌∷◌, [], ◌==◌, length, IfOk, IfErr};
ghost use Rattle.std.specs.List.{position};
ghost use Rattle.std.specs.Str.Lines.{lines, strip_carriage_return};
ghost use Rattle.sci_script.specs.Format.{Finds, Gives, entries_from, reading_of, script_of, view};

use crate::commands::Script;
use crate::drafts::Draft;
use crate::line_words::is_skipped;
use crate::refusals::ScriptRefusal;
use crate::unread::Unread;
use std::alloc::Global;

/// A line without the one carriage return at its end.
pub fn without_return(line: &[u8]) -> &[u8]
    ensures { result.now ≡ strip_carriage_return line.now }
{
    match line {
        [front @ .., b'\r'] => front,
        _ => line,
    }
}

/// Where the first line ends that has an end.
pub fn line_end(text: &[u8]) -> Option<usize>
    ensures { result ≡ position (λ b. b == 10) text.now }
{
    text.iter().position(|b| *b == b'\n')
}

/// The first line of a text that isn't empty, and the text behind it.
fn first_line(text: &[u8]) -> (&[u8], &[u8])
    requires { 0 < length text.now }
    ensures first { lines text.now ≡ result.0.now ∷ lines result.1.now }
    ensures shorter { length result.1.now < length text.now }
{
    match line_end(text) {
        Some(end) => (without_return(&text[..end]), &text[end + 1..]),
        None => (text, &[]),
    }
}

/// A line that isn't skipped, with its number, and where the reading goes on.
#[derive(Drop)]
struct Entry<'a> {
    number: u64,
    line: &'a [u8],
    rest: &'a [u8],
}

/// The first line from line `number` on that isn't skipped.
fn first_entry(number: u64, text: &[u8]) -> Result<Entry<'_>, u64>
    requires { number + length text.now < 2 ^ 64 }
    ensures found { IfOk result (λ e. entries_from number (lines text.now) ≡ (e.number, e.line.now) ∷ entries_from (e.number + 1) (lines e.rest.now)) }
    ensures shorter { IfOk result (λ e. (e.number + 1 + length e.rest.now ≤ number + length text.now) × (length e.rest.now < length text.now)) }
    ensures counted { IfOk result (λ e. e.number + 1 + length (lines e.rest.now) ≡ number + length (lines text.now)) }
    ensures none { IfErr result (λ end. (entries_from number (lines text.now) ≡ []) × (end ≡ number + length (lines text.now))) }
{
    let mut at = number;
    let mut rest = text;
    while !rest.is_empty() {
        let (line, after) = first_line(rest);
        if !is_skipped(line) {
            return Ok(Entry {
                number: at,
                line,
                rest: after,
            });
        }
        rest = after;
        at += 1;
    }
    Err(at)
}

/// Reads a script, or says why its first faulty line isn't taken.
pub(crate) fn read_lines(alloc: Global, text: &[u8]) -> Result<Script, Unread>
    ensures { Finds view result (reading_of text.now) }
{
    let mut draft = Draft::new(alloc);
    let mut words = Vec::new(alloc);
    let mut at = 1u64;
    let mut rest = text;
    loop {
        let entry = match first_entry(at, rest) {
            Ok(entry) => entry,
            Err(end) => return draft.ended(end),
        };
        let place = draft.place();
        let read = match place.read_line(&mut words, entry.number, entry.line) {
            Ok(read) => read,
            Err(unread) => return Err(unread),
        };
        draft.take(alloc, entry.number, read)?;
        at = entry.number + 1;
        rest = entry.rest;
    }
}

/// Reads a script: `Ok` exactly where the text is one. Else 16 or 17, with the lowest faulty line, which for a text without a command is
/// the one behind its last; or 7, where memory was refused.
pub fn read_script(alloc: Global, text: &[u8]) -> Result<Script, ScriptRefusal>
    ensures { Gives view result (script_of text.now) }
{
    Ok(read_lines(alloc, text)?)
}
