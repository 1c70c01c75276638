//! A page that shows a run.

ghost use Rattle.std.specs.Prelude.{◌≡◌, ◌<◌, ℕ, List, length, take, OnOk, OnErr, IfErr};
ghost use Rattle.std.specs.Io.KnownBytes.{Appends};
ghost use Rattle.sci_script.specs.Request.{no_words};
ghost use Rattle.sci_script.specs.Wholes.{shared_of};
ghost use Rattle.sci_trace.specs.Pages.{page_front, page_seam, page_end, play_front, play_seam, play_end, head_of, page_in, page_of, play_page, is_cut};
ghost use Rattle.sci_trace.specs.Telling.{TellsAll};
ghost use Rattle.sci_trace.specs.Traces.{FormLeaves};

use crate::coding::{Coding, put_coded};
use crate::desk::TraceDesk;
use crate::running::trace_as;
use sci_pages::{play, run};
use sci_script::{Script, ScriptRefusal, WriteFailed, put};
use std::alloc::Global;
use std::io::Write;

/// What stands around a page's trace: the page's front, the script's text, the seam between that and the trace, and the page's end.
#[derive(Clone, Copy)]
pub(crate) struct Frame<'a> {
    front: &'a [u8],
    source: &'a [u8],
    seam: &'a [u8],
    end: &'a [u8],
}

/// What stands in front of a page's script.
fn front() -> &'static str
    ensures { result.now ≡ page_front }
{
    run::FRONT
}

/// What stands between that and the trace.
fn seam() -> &'static str
    ensures { result.now ≡ page_seam }
{
    run::SEAM
}

/// What stands behind the trace.
fn end() -> &'static str
    ensures { result.now ≡ page_end }
{
    run::END
}

/// The writer failed.
fn is_cut(traced: &Result<(), ScriptRefusal>) -> bool
    ensures { result ≡ is_cut traced.now }
{
    matches!(traced, Err(ScriptRefusal::WriteFailed))
}

/// Writes what stands in front of a page's trace; on a failure it has written a front of that, and not all.
fn put_head<W: Write>(out: &mut W, frame: Frame) -> Result<(), WriteFailed>
    ensures ok { OnOk result (Appends (W.contents out.old) (W.contents out.new) (head_of frame.entry)) }
    ensures err { OnErr result ((n : ℕ) × (n < length (head_of frame.entry)) × Appends (W.contents out.old) (W.contents out.new) (take n (head_of frame.entry))) }
{
    put(out, frame.front)?;
    put_coded(out, Coding::Escaped, frame.source)?;
    put(out, frame.seam)
}

/// Runs the script as `trace` does, and writes its trace, escaped, in this frame.
fn draw_in<W: Write>(
    alloc: Global,
    script: &Script,
    desk: &mut TraceDesk,
    frame: Frame,
    out: &mut W,
) -> Result<(), ScriptRefusal>
    requires { desk.old.size ≡ script.now.size }
    ensures ok { OnOk result ((traced : List ℕ) × TellsAll no_words (shared_of desk.old.desk) script.now.steps.items traced (shared_of desk.new.desk)
        × Appends (W.contents out.old) (W.contents out.new) (page_in (head_of frame.entry) frame.entry.end.now traced)) }
    ensures err { IfErr result (λ e. (written : List ℕ)
        × FormLeaves (page_in (head_of frame.entry) frame.entry.end.now) script.now.size.nodes script.now.steps.items (shared_of desk.old.desk) e written (shared_of desk.new.desk)
        × Appends (W.contents out.old) (W.contents out.new) written) }
    ensures size { desk.new.size ≡ desk.old.size }
{
    match put_head(out, frame) {
        Ok(()) => {}
        Err(_) => return Err(ScriptRefusal::WriteFailed),
    }
    let traced = trace_as(alloc, script, desk, Coding::Escaped, out);
    if is_cut(&traced) {
        return Err(ScriptRefusal::WriteFailed);
    }
    match put(out, frame.end) {
        Ok(()) => traced,
        Err(_) => Err(ScriptRefusal::WriteFailed),
    }
}

/// Runs the script as `trace` does, and writes a page of HTML with the script's text `source` and the trace in it, both escaped.
/// `source` is any bytes; the page shows them beside its turns, so they should be those that `script` was read from. Refusals are as
/// those of `trace`: the page then has what was traced before, and its end, unless the writer failed.
pub fn draw<W: Write>(
    alloc: Global,
    script: &Script,
    source: &[u8],
    desk: &mut TraceDesk,
    out: &mut W,
) -> Result<(), ScriptRefusal>
    requires { desk.old.size ≡ script.now.size }
    // The page of the whole trace is written.
    ensures ok { OnOk result ((traced : List ℕ) × TellsAll no_words (shared_of desk.old.desk) script.now.steps.items traced (shared_of desk.new.desk)
        × Appends (W.contents out.old) (W.contents out.new) (page_of source.now traced)) }
    // So is the page of what `trace` leaves; or, where the writer failed, a front of a page, and not all of it.
    ensures err { IfErr result (λ e. (written : List ℕ)
        × FormLeaves (page_of source.now) script.now.size.nodes script.now.steps.items (shared_of desk.old.desk) e written (shared_of desk.new.desk)
        × Appends (W.contents out.old) (W.contents out.new) written) }
    ensures size { desk.new.size ≡ desk.old.size }
{
    let frame = Frame {
        front: front().as_bytes(),
        source,
        seam: seam().as_bytes(),
        end: end().as_bytes(),
    };
    draw_in(alloc, script, desk, frame, out)
}

/// What stands in front of the script of a page of states.
fn play_front() -> &'static str
    ensures { result.now ≡ play_front }
{
    play::FRONT
}

/// What stands between that and the states.
fn play_seam() -> &'static str
    ensures { result.now ≡ play_seam }
{
    play::SEAM
}

/// What stands behind the states.
fn play_end() -> &'static str
    ensures { result.now ≡ play_end }
{
    play::END
}

/// Writes a text, escaped, in this frame; on a failure it has written a front of that, and not all.
fn put_in<W: Write>(out: &mut W, frame: Frame, text: &[u8]) -> Result<(), WriteFailed>
    ensures ok { OnOk result (Appends (W.contents out.old) (W.contents out.new) (page_in (head_of frame.entry) frame.entry.end.now text.now)) }
    ensures err { OnErr result ((n : ℕ) × (n < length (page_in (head_of frame.entry) frame.entry.end.now text.now)) × Appends (W.contents out.old) (W.contents out.new) (take n (page_in (head_of frame.entry) frame.entry.end.now text.now))) }
{
    put_head(out, frame)?;
    put_coded(out, Coding::Escaped, text)?;
    put(out, frame.end)
}

/// Writes a page of HTML with the script's text `source` and the text of its race's states, both escaped, on which the reader picks whose
/// turn it is; on a failure it has written a front of that, and not all.
pub fn put_play<W: Write>(out: &mut W, source: &[u8], text: &[u8]) -> Result<(), WriteFailed>
    ensures ok { OnOk result (Appends (W.contents out.old) (W.contents out.new) (play_page source.now text.now)) }
    ensures err { OnErr result ((n : ℕ) × (n < length (play_page source.now text.now)) × Appends (W.contents out.old) (W.contents out.new) (take n (play_page source.now text.now))) }
{
    let frame = Frame {
        front: play_front().as_bytes(),
        source,
        seam: play_seam().as_bytes(),
        end: play_end().as_bytes(),
    };
    put_in(out, frame, text)
}
