//! What each command does with what it reads.

use crate::failures::{Failure, reason_of};
use crate::streams::{Input, Output};
use sci_serve::{
    Beginning, Form, INPUT_LIMIT, Kind, Progress, RaceFault, ReasonPrinter, SimFault, Text, Visits,
    read_input, serve_buffered, serve_check, serve_check_large_told, serve_follow_told,
    serve_history, serve_history_by, serve_legal, serve_outcomes, serve_play, serve_run,
    serve_run_by, serve_talk, serve_talk_by,
};
use std::alloc::{AllocError, Global};
use std::io::{BufReader, BufWriter, ErrorKind, Read};
use std::sync::Wait;
use std::thread::Threads;

/// How many bytes wait to be read or written together.
const BUFFER: usize = 65_536;

/// What a command does with a text.
#[derive(Clone, Copy)]
pub(crate) enum Task {
    /// Writes the run of a script in this form.
    Script(Form),
    /// Writes the outcomes of its open calls, or their page, where they have at most so many states.
    Race { page: bool, most: usize },
    /// Runs a workload, and prints its result or its history.
    Run { history: bool, progress: bool },
    /// Judges a dump that is no longer than other inputs.
    Dump,
    /// Judges a history.
    History,
}

impl Task {
    /// What the text is that is read for it.
    fn text(self) -> Text {
        match self {
            Task::Script(_) | Task::Race { .. } => Text::Script,
            Task::Run { .. } => Text::Settings,
            Task::Dump => Text::Dump,
            Task::History => Text::History,
        }
    }
}

/// Where a command is run: the handles, how many bytes a script or a dump may have, and whether the reason of a failure is wanted.
#[derive(Drop)]
pub(crate) struct Place<'r, T> {
    pub(crate) rt: &'r HostRuntime,
    /// It starts the nodes' threads.
    pub(crate) threads: &'r T,
    pub(crate) limit: usize,
    pub(crate) why: bool,
}

fn script<R: Read>(
    rt: &HostRuntime,
    limit: usize,
    form: Form,
    reader: &mut R,
    output: &mut Output,
) -> Result<(), SimFault> {
    let buffered = BufWriter::with_capacity(rt.alloc(), BUFFER, output).map_err(|_| SimFault::from(
        AllocError,
    ))?;
    let (_, served) = serve_buffered(rt.alloc(), limit, form, reader, buffered);
    served
}

fn race<R: Read>(
    rt: &HostRuntime,
    limit: usize,
    page: bool,
    most: usize,
    reader: &mut R,
    output: &mut Output,
) -> Result<(), RaceFault> {
    let visits = Visits::new(rt, "outcomes");
    if page {
        serve_play(rt.alloc(), &visits, limit, most, reader, output)
    } else {
        serve_outcomes(rt.alloc(), &visits, limit, most, reader, output)
    }
}

/// Runs a workload, and says meanwhile on standard error how many calls have ended.
fn run_told<T: Threads + Wait + Eprint + Sync, R: Read>(
    threads: &T,
    alloc: Global,
    history: bool,
    reader: &mut R,
    output: &mut Output,
) -> Result<(), SimFault> {
    let progress = Progress::new(threads, "run");
    if history {
        serve_history_by(threads, alloc, &progress, reader, output)
    } else {
        serve_run_by(threads, alloc, &progress, reader, output)
    }
}

fn run<T: Threads + Wait + Sync, R: Read>(
    threads: &T,
    alloc: Global,
    history: bool,
    reader: &mut R,
    output: &mut Output,
) -> Result<(), SimFault> {
    if history {
        serve_history(threads, alloc, reader, output)
    } else {
        serve_run(threads, alloc, reader, output)
    }
}

/// Does a task.
fn perform<T: Threads + Wait + Eprint + Sync, R: Read>(
    place: &Place<'_, T>,
    task: Task,
    reader: &mut R,
    output: &mut Output,
) -> Result<(), RaceFault> {
    let alloc = place.rt.alloc();
    let served = match task {
        Task::Race { page, most } => {
            return race(place.rt, place.limit, page, most, reader, output);
        }
        Task::Script(form) => script(place.rt, place.limit, form, reader, output),
        Task::Run {
            history,
            progress: true,
        } => run_told(place.threads, alloc, history, reader, output),
        Task::Run {
            history,
            progress: false,
        } => run(place.threads, alloc, history, reader, output),
        Task::Dump => serve_check(alloc, reader, output),
        Task::History => serve_legal(alloc, reader, output),
    };
    served.map_err(|fault| RaceFault::Fault(fault))
}

/// The whole of a text: a history may have any length.
fn read_text<R: Read>(
    alloc: Global,
    limit: usize,
    text: Text,
    reader: &mut R,
) -> Result<Vec<u8>, SimFault> {
    if text != Text::History {
        return read_input(alloc, limit, reader);
    }
    let mut input = Vec::new(alloc);
    match reader.read_to_end(&mut input) {
        Ok(_) => Ok(input),
        Err(error) if error.kind() == ErrorKind::OutOfMemory => Err(SimFault::from(AllocError)),
        Err(_) => Err(SimFault::CannotRead),
    }
}

/// Why a task over this text fails, in words, where that is known.
fn reason(alloc: Global, task: Task, fault: RaceFault, text: Text, input: &[u8]) -> Option<String> {
    match (fault, task) {
        (RaceFault::Fault(fault), _) => reason_of(alloc, fault, text, input),
        (RaceFault::TooManyStates, Task::Race { most, .. }) => {
            format!(in alloc; "turns lead to more than {most} states").ok()
        }
        (RaceFault::TooManyStates, _) => None,
    }
}

/// Does a task over a text that is kept, so that it can say why that is refused.
fn perform_kept<T: Threads + Wait + Eprint + Sync, R: Read>(
    place: &Place<'_, T>,
    task: Task,
    reader: &mut R,
    output: &mut Output,
) -> Result<(), Failure> {
    let (alloc, text) = (place.rt.alloc(), task.text());
    let input = read_text(alloc, place.limit, text, reader)?;
    match perform(place, task, &mut input.as_slice(), output) {
        Ok(()) => Ok(()),
        Err(fault) => Err(Failure {
            fault,
            reason: reason(alloc, task, fault, text, &input),
        }),
    }
}

/// Does a task over a text, and says why it is refused where that is wanted.
pub(crate) fn serve<T: Threads + Wait + Eprint + Sync, R: Read>(
    place: &Place<'_, T>,
    task: Task,
    reader: &mut R,
    output: &mut Output,
) -> Result<(), Failure> {
    if place.why {
        return perform_kept(place, task, reader, output);
    }
    perform(place, task, reader, output).map_err(|fault| Failure {
        fault,
        reason: None,
    })
}

/// Follows a log, line by line, and says of a line that is refused why, where that is wanted.
fn follow<T, R: Read>(
    place: &Place<'_, T>,
    reader: &mut R,
    output: &mut Output,
) -> Result<(), Failure> {
    let alloc = place.rt.alloc();
    let mut buffered = BufReader::with_capacity(alloc, BUFFER, reader).map_err(|_| SimFault::from(
        AllocError,
    ))?;
    match serve_follow_told(alloc, &mut buffered, output) {
        Ok(()) => Ok(()),
        Err((fault, reason)) => Err(Failure::told(alloc, fault, reason, place.why)),
    }
}

/// Judges a dump of any length, line by line, and says of a line of text that is refused why, where that is wanted.
fn judge<T, R: Read>(
    place: &Place<'_, T>,
    reader: &mut R,
    output: &mut Output,
) -> Result<(), Failure> {
    let alloc = place.rt.alloc();
    let mut buffered = BufReader::with_capacity(alloc, BUFFER, reader).map_err(|_| SimFault::from(
        AllocError,
    ))?;
    match serve_check_large_told(alloc, &mut buffered, output) {
        Ok(()) => Ok(()),
        Err((fault, reason)) => Err(Failure::told(alloc, fault, reason, place.why)),
    }
}

/// Judges a text of whatever kind its first word tells.
pub(crate) fn check<T: Threads + Wait + Eprint + Sync>(
    place: &Place<'_, T>,
    input: &mut Input<'_>,
    output: &mut Output,
) -> Result<(), Failure> {
    let beginning = Beginning::read(place.rt.alloc(), input)?;
    let kind = beginning.kind;
    // the reads of a dump are limited
    let reads = match kind {
        Kind::Dump => beginning.reads,
        Kind::History | Kind::Log => 0,
    };
    input.put_before(beginning.feeds, beginning.front, reads);
    match kind {
        Kind::Dump if place.limit > INPUT_LIMIT => judge(place, input, output),
        Kind::Dump => serve(place, Task::Dump, input, output),
        Kind::History => serve(place, Task::History, input, output),
        Kind::Log => follow(place, input, output),
    }
}

/// Answers the commands that standard input has.
pub(crate) fn talk(
    rt: &HostRuntime,
    why: bool,
    input: &mut Input<'_>,
    output: &mut Output,
) -> Result<(), SimFault> {
    let mut buffered = BufWriter::with_capacity(rt.alloc(), BUFFER, output).map_err(
        |_| SimFault::from(AllocError),
    )?;
    if why {
        serve_talk_by(rt.alloc(), &ReasonPrinter::new(rt), input, &mut buffered)
    } else {
        serve_talk(rt.alloc(), input, &mut buffered)
    }
}
