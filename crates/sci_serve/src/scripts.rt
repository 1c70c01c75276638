//! The commands `script` and `trace`, from the bytes of a script to what is written of its run.

ghost use Rattle.std.specs.Prelude.{◌≡◌, ◌≤◌, ℕ, List, [], length, OnOk, IfErr, IfSome};
ghost use Rattle.std.specs.Io.Buffered.{writer_contents};
ghost use Rattle.std.specs.Io.KnownBytes.{Appends, IsAtEnd};
ghost use Rattle.sci_serve.specs.declared.scripts.Form.TheVariants as forms;
ghost use Rattle.sci_serve.specs.Fault.{fault_of};
ghost use Rattle.sci_serve.specs.Input.{IsToldInTime};
ghost use Rattle.sci_serve.specs.Serve.{IsWritten, FailsWith, Serves, Stops, LeavesBehind};

use crate::faults::SimFault;
use crate::input::{INPUT_LIMIT, read_input};
use sci_logs::{LogDesk, log};
use sci_script::{Script, ScriptRefusal, WholeDesk, put, read_script};
use sci_trace::{TraceDesk, draw, trace};
use std::alloc::Global;
use std::io::{BufWriter, Read, Write};

/// The form in which a run is written.
#[derive(Clone, Copy, Debug, PartialEq, Eq)]
pub enum Form {
    /// The script's text.
    Script,
    /// That text with a line for each turn.
    Trace,
    /// A page of HTML that shows the script and the trace.
    Draw,
    /// The log of the run: its memory, what its lines open with, and its events.
    Log,
}

/// Runs a script, and writes its text.
fn run_script<W: Write>(alloc: Global, script: &Script, writer: &mut W) -> Result<(), ScriptRefusal>
    ensures ok { OnOk result ((text : List ℕ) × IsWritten forms.Script [] script.now.size script.now.capacity script.now.openings.items script.now.steps.items text
        × Appends (W.contents writer.old) (W.contents writer.new) text) }
    ensures err { IfErr result (λ e. (written : List ℕ) × FailsWith forms.Script [] script.now.size script.now.capacity script.now.openings.items script.now.steps.items e written
        × Appends (W.contents writer.old) (W.contents writer.new) written) }
{
    let mut desk = WholeDesk::open(alloc, script)?;
    script.run(alloc, &mut desk, writer)
}

/// Runs a script, and writes its text with a line for each turn.
fn run_trace<W: Write>(alloc: Global, script: &Script, writer: &mut W) -> Result<(), ScriptRefusal>
    ensures ok { OnOk result ((text : List ℕ) × IsWritten forms.Trace [] script.now.size script.now.capacity script.now.openings.items script.now.steps.items text
        × Appends (W.contents writer.old) (W.contents writer.new) text) }
    ensures err { IfErr result (λ e. (written : List ℕ) × FailsWith forms.Trace [] script.now.size script.now.capacity script.now.openings.items script.now.steps.items e written
        × Appends (W.contents writer.old) (W.contents writer.new) written) }
{
    let mut desk = TraceDesk::open(alloc, script)?;
    trace(alloc, script, &mut desk, writer)
}

/// Runs the script that an input is, and writes the page of that and its trace.
fn run_draw<W: Write>(
    alloc: Global,
    input: &[u8],
    script: &Script,
    writer: &mut W,
) -> Result<(), ScriptRefusal>
    ensures ok { OnOk result ((text : List ℕ) × IsWritten forms.Draw input.now script.now.size script.now.capacity script.now.openings.items script.now.steps.items text
        × Appends (W.contents writer.old) (W.contents writer.new) text) }
    ensures err { IfErr result (λ e. (written : List ℕ) × FailsWith forms.Draw input.now script.now.size script.now.capacity script.now.openings.items script.now.steps.items e written
        × Appends (W.contents writer.old) (W.contents writer.new) written) }
{
    let mut desk = TraceDesk::open(alloc, script)?;
    draw(alloc, script, input, &mut desk, writer)
}

/// Runs a script, and writes its log.
fn run_log<W: Write>(alloc: Global, script: &Script, writer: &mut W) -> Result<(), ScriptRefusal>
    ensures ok { OnOk result ((text : List ℕ) × IsWritten forms.Log [] script.now.size script.now.capacity script.now.openings.items script.now.steps.items text
        × Appends (W.contents writer.old) (W.contents writer.new) text) }
    ensures err { IfErr result (λ e. (written : List ℕ) × FailsWith forms.Log [] script.now.size script.now.capacity script.now.openings.items script.now.steps.items e written
        × Appends (W.contents writer.old) (W.contents writer.new) written) }
{
    let mut desk = LogDesk::open(alloc, script)?;
    log(alloc, script, &mut desk, writer)
}

/// Runs the script that an input is, and writes its run in this form.
fn run<W: Write>(
    alloc: Global,
    form: Form,
    input: &[u8],
    script: &Script,
    writer: &mut W,
) -> Result<(), ScriptRefusal>
    ensures ok { OnOk result ((text : List ℕ) × IsWritten form input.now script.now.size script.now.capacity script.now.openings.items script.now.steps.items text
        × Appends (W.contents writer.old) (W.contents writer.new) text) }
    ensures err { IfErr result (λ e. (written : List ℕ) × FailsWith form input.now script.now.size script.now.capacity script.now.openings.items script.now.steps.items e written
        × Appends (W.contents writer.old) (W.contents writer.new) written) }
{
    match form {
        Form::Script => run_script(alloc, script, writer),
        Form::Trace => run_trace(alloc, script, writer),
        Form::Draw => run_draw(alloc, input, script, writer),
        Form::Log => run_log(alloc, script, writer),
    }
}

/// Runs the script that an input is.
fn serve_input<W: Write>(
    alloc: Global,
    limit: usize,
    form: Form,
    input: &[u8],
    writer: &mut W,
) -> Result<(), ScriptRefusal>
    requires { length input.now ≤ limit }
    ensures ok { OnOk result ((text : List ℕ) × Serves limit form input.now text × Appends (W.contents writer.old) (W.contents writer.new) text) }
    ensures err { IfErr result (λ e. (written : List ℕ) × Stops limit form (fault_of e) input.now written
        × Appends (W.contents writer.old) (W.contents writer.new) written) }
{
    let script = read_script(alloc, input)?;
    run(alloc, form, input, &script, writer)
}

/// Reads a script of at most so many bytes to its end, runs it, and writes its run in this form.
pub fn serve<R: Read, W: Write>(
    alloc: Global,
    limit: usize,
    form: Form,
    reader: &mut R,
    writer: &mut W,
) -> Result<(), SimFault>
    ensures ok { OnOk result (IfSome (R.remaining reader.old) (λ input. (text : List ℕ) × Serves limit form input text
        × Appends (W.contents writer.old) (W.contents writer.new) text)) }
    ensures err { IfErr result (λ e. IfSome (R.remaining reader.old) (λ input. (written : List ℕ) × Stops limit form e input written
        × Appends (W.contents writer.old) (W.contents writer.new) written)) }
    ensures end { OnOk result (IsAtEnd (R.remaining reader.new)) }
    ensures in_time { IfErr result (λ e. IsToldInTime e (R.remaining reader.new)) }
{
    let input = read_input(alloc, limit, reader)?;
    serve_input(alloc, limit, form, &input, writer)?;
    Ok(())
}

/// Reads a script to its end, runs it, and writes its text.
pub fn serve_script<R: Read, W: Write>(
    alloc: Global,
    reader: &mut R,
    writer: &mut W,
) -> Result<(), SimFault>
    ensures ok { OnOk result (IfSome (R.remaining reader.old) (λ input. (text : List ℕ) × Serves 1048576 forms.Script input text
        × Appends (W.contents writer.old) (W.contents writer.new) text)) }
    ensures err { IfErr result (λ e. IfSome (R.remaining reader.old) (λ input. (written : List ℕ) × Stops 1048576 forms.Script e input written
        × Appends (W.contents writer.old) (W.contents writer.new) written)) }
    ensures end { OnOk result (IsAtEnd (R.remaining reader.new)) }
    ensures in_time { IfErr result (λ e. IsToldInTime e (R.remaining reader.new)) }
{
    serve(alloc, INPUT_LIMIT, Form::Script, reader, writer)
}

/// Reads a script to its end, runs it, and writes its text with a line for each turn.
pub fn serve_trace<R: Read, W: Write>(
    alloc: Global,
    reader: &mut R,
    writer: &mut W,
) -> Result<(), SimFault>
    ensures ok { OnOk result (IfSome (R.remaining reader.old) (λ input. (traced : List ℕ) × Serves 1048576 forms.Trace input traced
        × Appends (W.contents writer.old) (W.contents writer.new) traced)) }
    ensures err { IfErr result (λ e. IfSome (R.remaining reader.old) (λ input. (written : List ℕ) × Stops 1048576 forms.Trace e input written
        × Appends (W.contents writer.old) (W.contents writer.new) written)) }
    ensures end { OnOk result (IsAtEnd (R.remaining reader.new)) }
    ensures in_time { IfErr result (λ e. IsToldInTime e (R.remaining reader.new)) }
{
    serve(alloc, INPUT_LIMIT, Form::Trace, reader, writer)
}

/// Reads a script to its end, runs it, and writes a page of HTML that shows it and its trace.
pub fn serve_draw<R: Read, W: Write>(
    alloc: Global,
    reader: &mut R,
    writer: &mut W,
) -> Result<(), SimFault>
    ensures ok { OnOk result (IfSome (R.remaining reader.old) (λ input. (page : List ℕ) × Serves 1048576 forms.Draw input page
        × Appends (W.contents writer.old) (W.contents writer.new) page)) }
    ensures err { IfErr result (λ e. IfSome (R.remaining reader.old) (λ input. (written : List ℕ) × Stops 1048576 forms.Draw e input written
        × Appends (W.contents writer.old) (W.contents writer.new) written)) }
    ensures end { OnOk result (IsAtEnd (R.remaining reader.new)) }
    ensures in_time { IfErr result (λ e. IsToldInTime e (R.remaining reader.new)) }
{
    serve(alloc, INPUT_LIMIT, Form::Draw, reader, writer)
}

/// The same through a buffer, which is written out before the writer comes back: what is written of a script that ends or is
/// refused has gone out whole, and a write that fails comes before a refusal.
pub fn serve_buffered<R: Read, W: Write + Drop>(
    alloc: Global,
    limit: usize,
    form: Form,
    reader: &mut R,
    mut output: BufWriter<W>,
) -> (W, Result<(), SimFault>)
    ensures ok { OnOk result.1 (IfSome (R.remaining reader.old) (λ input. (text : List ℕ) × Serves limit form input text
        × Appends (writer_contents W.contents output) (W.contents result.0) text)) }
    ensures err { IfErr result.1 (λ e. IfSome (R.remaining reader.old) (λ input.
        LeavesBehind limit form e input (writer_contents W.contents output) (W.contents result.0))) }
{
    let served = serve(alloc, limit, form, reader, &mut output);
    let (mut writer, rest) = output.into_parts();
    match put(&mut writer, &rest) {
        Ok(()) => (writer, served),
        Err(_) => (writer, Err(SimFault::CannotWrite)),
    }
}
