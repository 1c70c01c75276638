//! Runs a script with a line for each turn.

ghost use Rattle.std.specs.Prelude.{◌≡◌, ◌<◌, ◌≤◌, ◌++◌, ℕ, List, [], length, false, All, OnOk, IfErr, string_bytes};
ghost use Rattle.std.specs.Io.KnownBytes.{Appends};
ghost use Rattle.sci_core.specs.declared.whole.TheConstants.{MOST_NODES};
ghost use Rattle.sci_script.specs.declared.commands.Command.TheVariants.{Done};
ghost use Rattle.sci_script.specs.Request.{no_words};
ghost use Rattle.sci_script.specs.Run.{Prints};
ghost use Rattle.sci_script.specs.Size.{IsIn};
ghost use Rattle.sci_script.specs.Wholes.{shared_of};
ghost use Rattle.sci_trace.specs.NoteText.{note_bytes};
ghost use Rattle.sci_trace.specs.Notes.{AreNotes};
ghost use Rattle.sci_trace.specs.Telling.{is_wait, telling, telling_is_open, tells, TellsAll};
ghost use Rattle.sci_trace.specs.Coding.{coded};
ghost use Rattle.sci_trace.specs.Traces.{NotesLeft, StepLeaves, FormLeaves};

use crate::coding::{Coding, put_coded};
use crate::desk::TraceDesk;
use crate::notes::Notes;
use sci_ops::Turn;
use sci_script::{
    Command, Desk, NODES, Script, ScriptRefusal, Step, TURNS, is_end, note, perform, turn_text,
};
use sci_words::NodeId;
use std::alloc::Global;
use std::io::Write;

/// How many bytes of lines wait at the most, but for one line and a room of a text.
const LONG: usize = 65_536;

/// Writes the lines of the turns that were taken, and drops them.
fn put_notes<W: Write>(
    desk: &mut TraceDesk,
    coding: Coding,
    out: &mut W,
) -> Result<(), ScriptRefusal>
    ensures ok { OnOk result (Appends (W.contents out.old) (W.contents out.new) (coded coding (note_bytes desk.old.notes.text))) }
    ensures err { IfErr result (λ e. (written : List ℕ) × NotesLeft coding e (note_bytes desk.old.notes.text) written
        × Appends (W.contents out.old) (W.contents out.new) written) }
    ensures whole { OnOk result (desk.old.notes.is_cut ≡ false) }
    ensures dropped { OnOk result ((note_bytes desk.new.notes.text ≡ []) × (desk.new.notes.is_cut ≡ false)) }
    ensures desk { desk.new.desk ≡ desk.old.desk }
    ensures size { desk.new.size ≡ desk.old.size }
{
    if desk.notes.is_cut() {
        return Err(ScriptRefusal::OutOfMemory);
    }
    match put_coded(out, coding, desk.notes.front()) {
        Ok(()) => {}
        Err(_) => return Err(ScriptRefusal::WriteFailed),
    }
    match put_coded(out, coding, desk.notes.waiting()) {
        Ok(()) => {
            desk.notes.clear();
            Ok(())
        }
        Err(_) => Err(ScriptRefusal::WriteFailed),
    }
}

/// Writes the lines of the turns that were taken, and drops them, where they are long.
fn put_long_notes<W: Write>(
    desk: &mut TraceDesk,
    coding: Coding,
    out: &mut W,
) -> Result<(), ScriptRefusal>
    ensures ok { OnOk result ((put : List ℕ) × AreNotes put × (note_bytes desk.old.notes.text ≡ put ++ note_bytes desk.new.notes.text)
        × Appends (W.contents out.old) (W.contents out.new) (coded coding put)) }
    ensures err { IfErr result (λ e. (written : List ℕ) × NotesLeft coding e (note_bytes desk.old.notes.text) written
        × Appends (W.contents out.old) (W.contents out.new) written) }
    ensures cut { OnOk result (desk.new.notes.is_cut ≡ desk.old.notes.is_cut) }
    ensures few { OnOk result (length desk.new.notes.text.front.items ≤ 65536) }
    ensures desk { desk.new.desk ≡ desk.old.desk }
    ensures size { desk.new.size ≡ desk.old.size }
{
    if desk.notes.front().len() > LONG {
        return put_notes(desk, coding, out);
    }
    Ok(())
}

/// The turn waited.
fn is_wait(turn: &Turn) -> bool
    ensures { result ≡ is_wait turn.now }
{
    matches!(turn, Turn::Waiting)
}

/// `done`: writes the lines of the turns to the end of the node's open call, as they come. The text of that end is put behind an
/// empty text. Behind a turn that waits the call doesn't end: nobody else takes a turn, so each further one would wait just so. None
/// is taken, and the line of that turn stands for all of them.
fn trace_done<W: Write>(
    text: &mut String,
    desk: &mut TraceDesk,
    coding: Coding,
    out: &mut W,
    words: &[u8; NODES],
    number: u64,
    node: NodeId,
) -> Result<(), ScriptRefusal>
    requires empty { string_bytes text.old ≡ [] }
    requires none { note_bytes desk.old.notes.text ≡ [] }
    requires whole { desk.old.notes.is_cut ≡ false }
    requires node { node < desk.old.size.nodes }
    requires few { desk.old.size.nodes ≤ MOST_NODES }
    requires words { All (λ w. w < 8) words.now }
    ensures ok { OnOk result ((notes : List ℕ) × AreNotes notes
        × Prints telling_is_open tells words.now (telling (shared_of desk.old.desk) []) (Done node) (string_bytes text.new) (telling (shared_of desk.new.desk) notes)
        × Appends (W.contents out.old) (W.contents out.new) (coded coding notes)) }
    ensures err { IfErr result (λ e. (written : List ℕ)
        × StepLeaves coding desk.old.size.nodes (shared_of desk.old.desk) (record { number = number; command = Done node }) e written (shared_of desk.new.desk)
        × Appends (W.contents out.old) (W.contents out.new) written) }
    ensures dropped { OnOk result ((note_bytes desk.new.notes.text ≡ []) × (desk.new.notes.is_cut ≡ false)) }
    ensures size { desk.new.size ≡ desk.old.size }
{
    if !desk.open(node) {
        return Err(ScriptRefusal::BadCommand(number));
    }
    for taken in 0..TURNS {
        let turn = desk.take(node, TURNS - taken);
        if is_end(turn) {
            put_notes(desk, coding, out)?;
            return Ok(turn_text(text, node, words[usize::from(node.get())], &turn)?);
        }
        if is_wait(&turn) {
            put_notes(desk, coding, out)?;
            return Err(ScriptRefusal::NotDone(number));
        }
        put_long_notes(desk, coding, out)?;
    }
    put_notes(desk, coding, out)?;
    Err(ScriptRefusal::NotDone(number))
}

/// One command: writes the lines of its turns. What it prints is put behind an empty text.
fn trace_step<W: Write>(
    alloc: Global,
    text: &mut String,
    desk: &mut TraceDesk,
    coding: Coding,
    out: &mut W,
    words: &[u8; NODES],
    step: Step,
) -> Result<(), ScriptRefusal>
    requires empty { string_bytes text.old ≡ [] }
    requires none { note_bytes desk.old.notes.text ≡ [] }
    requires whole { desk.old.notes.is_cut ≡ false }
    requires command { IsIn desk.old.size step.command }
    requires few { desk.old.size.nodes ≤ MOST_NODES }
    requires words { All (λ w. w < 8) words.now }
    ensures ok { OnOk result ((notes : List ℕ) × AreNotes notes
        × Prints telling_is_open tells words.now (telling (shared_of desk.old.desk) []) step.command (string_bytes text.new) (telling (shared_of desk.new.desk) notes)
        × Appends (W.contents out.old) (W.contents out.new) (coded coding notes)) }
    ensures err { IfErr result (λ e. (written : List ℕ) × StepLeaves coding desk.old.size.nodes (shared_of desk.old.desk) step e written (shared_of desk.new.desk)
        × Appends (W.contents out.old) (W.contents out.new) written) }
    ensures dropped { OnOk result ((note_bytes desk.new.notes.text ≡ []) × (desk.new.notes.is_cut ≡ false)) }
    ensures size { desk.new.size ≡ desk.old.size }
{
    let command = step.command;
    match command {
        Command::Done { node } => trace_done(text, desk, coding, out, words, step.number, node),
        _ => {
            let nodes = desk.size.nodes;
            let performed = perform(alloc, text, desk, nodes, words, step);
            put_notes(desk, coding, out)?;
            performed
        }
    }
}

/// Runs the script over a desk of its nodes and lines, and writes its trace in this way.
pub(crate) fn trace_as<W: Write>(
    alloc: Global,
    script: &Script,
    desk: &mut TraceDesk,
    coding: Coding,
    out: &mut W,
) -> Result<(), ScriptRefusal>
    requires { desk.old.size ≡ script.now.size }
    ensures ok { OnOk result ((traced : List ℕ) × TellsAll no_words (shared_of desk.old.desk) script.now.steps.items traced (shared_of desk.new.desk)
        × Appends (W.contents out.old) (W.contents out.new) (coded coding traced)) }
    ensures err { IfErr result (λ e. (written : List ℕ)
        × FormLeaves (coded coding) script.now.size.nodes script.now.steps.items (shared_of desk.old.desk) e written (shared_of desk.new.desk)
        × Appends (W.contents out.old) (W.contents out.new) written) }
    ensures size { desk.new.size ≡ desk.old.size }
{
    let size = desk.size;
    // what was told before is no part of this run
    desk.notes = Notes::new(alloc);
    let mut words = [0; NODES];
    // one text for all commands, so that not each takes memory
    let mut text = String::new(alloc);
    for step in script.steps() {
        text.clear();
        trace_step(alloc, &mut text, desk, coding, out, &words, *step)?;
        note(&mut words, size, step.command);
        match put_coded(out, coding, text.as_bytes()) {
            Ok(()) => {}
            Err(_) => return Err(ScriptRefusal::WriteFailed),
        }
    }
    Ok(())
}

/// Runs the script over a desk of its nodes and lines, and writes its text, with a line for each turn in front of what the turn's
/// command prints. Those of a `done` are written as they come, so they take little memory. A `done` that waits is refused at once: one
/// line stands for the first turn that waits and all behind it, up to 100,000, and says how many they are. Refusals are as those of
/// `Script::run`; the lines of the turns that a refused command took are written, but on 7 maybe not all of them.
pub fn trace<W: Write>(
    alloc: Global,
    script: &Script,
    desk: &mut TraceDesk,
    out: &mut W,
) -> Result<(), ScriptRefusal>
    requires { desk.old.size ≡ script.now.size }
    // What each command prints is written, in order, behind the lines of its turns.
    ensures ok { OnOk result ((traced : List ℕ) × TellsAll no_words (shared_of desk.old.desk) script.now.steps.items traced (shared_of desk.new.desk)
        × Appends (W.contents out.old) (W.contents out.new) traced) }
    // So it is of the commands before a refused one, and behind that stand the lines of its turns; or a front of all this.
    ensures err { IfErr result (λ e. (written : List ℕ) × FormLeaves (λ text. text) script.now.size.nodes script.now.steps.items (shared_of desk.old.desk) e written (shared_of desk.new.desk)
        × Appends (W.contents out.old) (W.contents out.new) written) }
    ensures size { desk.new.size ≡ desk.old.size }
{
    trace_as(alloc, script, desk, Coding::Plain, out)
}
