//! Runs a script, and writes its log.

ghost use Rattle.std.specs.Prelude.{◌≡◌, ℕ, List, false, OnOk, OnErr, IfErr};
ghost use Rattle.std.specs.Io.KnownBytes.{Appends};
ghost use Rattle.sci_script.specs.Wholes.{shared_of};
ghost use Rattle.sci_trace.specs.Coding.{IsFront};
ghost use Rattle.sci_logs.specs.Logging.{Logs, LogLeaves, PutLeaves};
ghost use Rattle.sci_trace.specs.NoteText.{note_bytes};

use crate::log_desk::{LogDesk, LogText};
use crate::turn_text::push_head;
use sci_script::{Script, ScriptRefusal, WriteFailed};
use sci_trace::parts::{Coding, NoteText, put_coded};
use std::alloc::Global;
use std::io::{Write, sink};

/// Writes a text; on a failure it has written a front of it, and not all.
fn put_text<W: Write>(out: &mut W, text: &NoteText) -> Result<(), WriteFailed>
    ensures ok { OnOk result (Appends (W.contents out.old) (W.contents out.new) (note_bytes text.now)) }
    ensures err { OnErr result ((written : List ℕ) × IsFront (note_bytes text.now) written × Appends (W.contents out.old) (W.contents out.new) written) }
{
    match put_coded(out, Coding::Plain, text.front()) {
        Ok(()) => {}
        Err(_) => return Err(WriteFailed),
    }
    match put_coded(out, Coding::Plain, text.waiting()) {
        Ok(()) => Ok(()),
        Err(_) => Err(WriteFailed),
    }
}

/// Writes the log of a run that came to this, where memory was refused for none of it.
fn put_log<W: Write>(
    out: &mut W,
    log: &LogText,
    ran: Result<(), ScriptRefusal>,
) -> Result<(), ScriptRefusal>
    ensures ok { OnOk result ((ran ≡ result) × (log.now.is_cut ≡ false) × Appends (W.contents out.old) (W.contents out.new) (note_bytes log.now.text)) }
    ensures err { IfErr result (λ e. (written : List ℕ) × PutLeaves ran log.now.is_cut (note_bytes log.now.text) e written
        × Appends (W.contents out.old) (W.contents out.new) written) }
{
    if log.is_cut {
        return Err(ScriptRefusal::OutOfMemory);
    }
    match ran {
        Err(ScriptRefusal::OutOfMemory) => return Err(ScriptRefusal::OutOfMemory),
        // a sink takes all, so this one doesn't come
        Err(ScriptRefusal::WriteFailed) => return Err(ScriptRefusal::OutOfMemory),
        _ => {}
    }
    match put_text(out, &log.text) {
        Ok(()) => ran,
        Err(_) => Err(ScriptRefusal::WriteFailed),
    }
}

/// Runs the script over a desk of its nodes and lines, and writes its log: its memory, what its lines open with, and the events of its
/// turns, a line each, looks at the own tag among them. Refusals are as those of `Script::run`; on 7 nothing is written, and on the
/// others the log to there.
pub fn log<W: Write>(
    alloc: Global,
    script: &Script,
    desk: &mut LogDesk,
    out: &mut W,
) -> Result<(), ScriptRefusal>
    requires { desk.old.size ≡ script.now.size }
    ensures ok { OnOk result ((written : List ℕ) × Logs script.now.size script.now.openings.items script.now.steps.items (shared_of desk.old.desk) written (shared_of desk.new.desk)
        × Appends (W.contents out.old) (W.contents out.new) written) }
    ensures err { IfErr result (λ e. (written : List ℕ)
        × LogLeaves script.now.size script.now.openings.items script.now.steps.items (shared_of desk.old.desk) e written (shared_of desk.new.desk)
        × Appends (W.contents out.old) (W.contents out.new) written) }
    ensures size { desk.new.size ≡ desk.old.size }
{
    // what was logged before is no part of this run
    desk.log = LogText::new(alloc);
    push_head(&mut desk.log.text, desk.size, script.openings())?;
    let ran = script.run(alloc, desk, &mut sink());
    put_log(out, &desk.log, ran)
}
