//! The command `run`, from the bytes of settings to the text of the workload's result, or of its lines' histories.

ghost use Rattle.std.specs.Prelude.{◌≤◌, [], length, string_bytes, IfOk, OnOk, IfErr};
ghost use Rattle.std.specs.Io.KnownBytes.{IsAtEnd};
ghost use Rattle.sci_serve.specs.Input.{IsToldInTime};
ghost use Rattle.sci_serve.specs.Runs.{AreWithin, ComesInRun};
ghost use Rattle.sci_serve.specs.Shown.{IsPrinted, IsShownOf, IsStopped, Prints, StopsPrinting};
ghost use Rattle.sci_serve.specs.declared.running.Shown.TheVariants as shows;

use crate::faults::SimFault;
use crate::histories::history_of;
use crate::input::{INPUT_LIMIT, read_input};
use crate::results::result_text;
use sci_script::put;
use sci_settings::{Settings, read_settings};
use sci_work::{Gate, OpenGate};
use std::alloc::Global;
use std::io::{Read, Write};
use std::sync::Wait;
use std::thread::Threads;

/// What is printed of a run.
#[derive(Clone, Copy)]
enum Shown {
    Result,
    History,
}

/// Runs the workload of settings: what is printed of it.
fn shown_text<T: Threads + Wait + Sync, G: Gate>(
    rt: &T,
    alloc: Global,
    gate: &G,
    shown: Shown,
    settings: &Settings,
) -> Result<String, SimFault>
    requires { AreWithin settings.now }
    ensures ok { IfOk result (λ text. IsShownOf shown settings.now (string_bytes text)) }
    ensures err { IfErr result ComesInRun }
{
    match shown {
        Shown::Result => result_text(rt, alloc, gate, settings),
        Shown::History => history_of(rt, alloc, gate, settings),
    }
}

/// What is printed of the run of an input's settings.
fn run<T: Threads + Wait + Sync, G: Gate>(
    rt: &T,
    alloc: Global,
    gate: &G,
    shown: Shown,
    input: &[u8],
) -> Result<String, SimFault>
    requires { length input.now ≤ 1048576 }
    ensures ok { IfOk result (λ text. Prints shown input.now (string_bytes text)) }
    ensures err { IfErr result (λ e. StopsPrinting shown e input.now []) }
{
    let settings = read_settings(alloc, input)?;
    shown_text(rt, alloc, gate, shown, &settings)
}

/// Reads settings to their end, runs their workload, and writes what is to be printed of it.
fn serve_shown<T: Threads + Wait + Sync, G: Gate, R: Read, W: Write>(
    rt: &T,
    alloc: Global,
    gate: &G,
    shown: Shown,
    reader: &mut R,
    writer: &mut W,
) -> Result<(), SimFault>
    ensures ok { OnOk result (IsPrinted shown (R.remaining reader.old) (W.contents writer.old) (W.contents writer.new)) }
    ensures err { IfErr result (λ e. IsStopped shown e (R.remaining reader.old) (W.contents writer.old) (W.contents writer.new)) }
    ensures end { OnOk result (IsAtEnd (R.remaining reader.new)) }
    ensures in_time { IfErr result (λ e. IsToldInTime e (R.remaining reader.new)) }
{
    let input = read_input(alloc, INPUT_LIMIT, reader)?;
    let text = run(rt, alloc, gate, shown, &input)?;
    match put(writer, text.as_bytes()) {
        Ok(()) => Ok(()),
        Err(_) => Err(SimFault::CannotWrite),
    }
}

/// Reads settings to their end, runs their workload under a gate, and writes its result: `cells` or `items` with each value, or
/// `count` and the word, and then, where the settings want it, the dump of the lines, exact sharing lists all. Nothing is written
/// where the settings or their run are refused. It may wait for ever.
pub fn serve_run_by<T: Threads + Wait + Sync, G: Gate, R: Read, W: Write>(
    rt: &T,
    alloc: Global,
    gate: &G,
    reader: &mut R,
    writer: &mut W,
) -> Result<(), SimFault>
    ensures ok { OnOk result (IsPrinted shows.Result (R.remaining reader.old) (W.contents writer.old) (W.contents writer.new)) }
    ensures err { IfErr result (λ e. IsStopped shows.Result e (R.remaining reader.old) (W.contents writer.old) (W.contents writer.new)) }
    ensures end { OnOk result (IsAtEnd (R.remaining reader.new)) }
    ensures in_time { IfErr result (λ e. IsToldInTime e (R.remaining reader.new)) }
{
    serve_shown(rt, alloc, gate, Shown::Result, reader, writer)
}

/// The same under a gate that is always open.
pub fn serve_run<T: Threads + Wait + Sync, R: Read, W: Write>(
    rt: &T,
    alloc: Global,
    reader: &mut R,
    writer: &mut W,
) -> Result<(), SimFault>
    ensures ok { OnOk result (IsPrinted shows.Result (R.remaining reader.old) (W.contents writer.old) (W.contents writer.new)) }
    ensures err { IfErr result (λ e. IsStopped shows.Result e (R.remaining reader.old) (W.contents writer.old) (W.contents writer.new)) }
    ensures end { OnOk result (IsAtEnd (R.remaining reader.new)) }
    ensures in_time { IfErr result (λ e. IsToldInTime e (R.remaining reader.new)) }
{
    serve_run_by(rt, alloc, &OpenGate, reader, writer)
}

/// Reads settings to their end, runs their workload under a gate, and writes the history of its lines: with what each was closed, and
/// in each node's order what that read and wrote there. It is legal, whatever the threads did. A receipt takes 144 bytes; a write keeps
/// up to two, and any other call up to one. Nothing is written where the settings or their run are refused. It may wait for ever.
pub fn serve_history_by<T: Threads + Wait + Sync, G: Gate, R: Read, W: Write>(
    rt: &T,
    alloc: Global,
    gate: &G,
    reader: &mut R,
    writer: &mut W,
) -> Result<(), SimFault>
    ensures ok { OnOk result (IsPrinted shows.History (R.remaining reader.old) (W.contents writer.old) (W.contents writer.new)) }
    ensures err { IfErr result (λ e. IsStopped shows.History e (R.remaining reader.old) (W.contents writer.old) (W.contents writer.new)) }
    ensures end { OnOk result (IsAtEnd (R.remaining reader.new)) }
    ensures in_time { IfErr result (λ e. IsToldInTime e (R.remaining reader.new)) }
{
    serve_shown(rt, alloc, gate, Shown::History, reader, writer)
}

/// The same under a gate that is always open.
pub fn serve_history<T: Threads + Wait + Sync, R: Read, W: Write>(
    rt: &T,
    alloc: Global,
    reader: &mut R,
    writer: &mut W,
) -> Result<(), SimFault>
    ensures ok { OnOk result (IsPrinted shows.History (R.remaining reader.old) (W.contents writer.old) (W.contents writer.new)) }
    ensures err { IfErr result (λ e. IsStopped shows.History e (R.remaining reader.old) (W.contents writer.old) (W.contents writer.new)) }
    ensures end { OnOk result (IsAtEnd (R.remaining reader.new)) }
    ensures in_time { IfErr result (λ e. IsToldInTime e (R.remaining reader.new)) }
{
    serve_history_by(rt, alloc, &OpenGate, reader, writer)
}
