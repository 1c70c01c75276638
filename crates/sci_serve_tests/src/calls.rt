//! The calls that serve a command, by their names.
use sci_serve::{
    Form, INPUT_LIMIT, SimFault, serve, serve_buffered, serve_check, serve_draw, serve_history,
    serve_history_by, serve_legal, serve_run, serve_run_by, serve_script, serve_trace,
};
use sci_work::OpenGate;
use std::alloc::Global;
use std::io;
use std::io::{BufWriter, Read, Write};
use std::sync::Wait;
use std::thread::Threads;

/// A call that serves a command.
#[derive(Clone, Copy, Debug)]
pub(crate) enum Call {
    Script,
    Trace,
    Draw,
    /// `serve`, in this form.
    Serve(Form),
    Check,
    Legal,
    Run,
    RunBy,
    History,
    HistoryBy,
}

/// The fault of the call, if it has one.
pub(crate) fn served<T: Threads + Wait + Sync, R: Read, W: Write>(
    rt: &T,
    alloc: Global,
    call: Call,
    reader: &mut R,
    writer: &mut W,
) -> Option<SimFault> {
    let end = match call {
        Call::Script => serve_script(alloc, reader, writer),
        Call::Trace => serve_trace(alloc, reader, writer),
        Call::Draw => serve_draw(alloc, reader, writer),
        Call::Serve(form) => serve(alloc, INPUT_LIMIT, form, reader, writer),
        Call::Check => serve_check(alloc, reader, writer),
        Call::Legal => serve_legal(alloc, reader, writer),
        Call::Run => serve_run(rt, alloc, reader, writer),
        Call::RunBy => serve_run_by(rt, alloc, &OpenGate, reader, writer),
        Call::History => serve_history(rt, alloc, reader, writer),
        Call::HistoryBy => serve_history_by(rt, alloc, &OpenGate, reader, writer),
    };
    end.err()
}

/// A script through a buffer of so many bytes before this writer: the writer, and the fault.
pub(crate) fn buffered<W: Write + Drop>(
    alloc: Global,
    form: Form,
    script: &str,
    capacity: usize,
    writer: W,
) -> io::Result<(W, Option<SimFault>)> {
    let output = BufWriter::with_capacity(alloc, capacity, writer)?;
    let (writer, end) = serve_buffered(alloc, INPUT_LIMIT, form, &mut script.as_bytes(), output);
    Ok((writer, end.err()))
}
