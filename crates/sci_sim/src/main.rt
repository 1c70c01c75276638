//! `scisim script [FILE]` runs a script; `scisim trace [FILE]` says of each turn what it did; `scisim outcomes [FILE]` lists what the calls
//! come to that it leaves open; `scisim talk` answers its commands one by one; `scisim run [FILE]` runs a workload; and
//! `scisim check [FILE]` judges a dump, a history or a log.
#![tactic(auto)]

mod failures;
mod streams;
mod tasks;

use clap::{ArgMatches, Error, error};
use failures::{Failure, stream_reason};
use sci_commands::{Named, asks_why, commands};
use sci_serve::{Form, INPUT_LIMIT, RaceFault, SimFault};
use std::alloc::AllocError;
use std::io::{ErrorKind, IsTerminal};
use std::process::ExitCode;
use std::sync::Wait;
use std::thread::Threads;
use streams::{Input, Output, Said, words_of};
use tasks::{Place, Task, check, serve, talk};

/// The form in which `trace` writes a run.
fn trace_form(options: &ArgMatches<'_>) -> Form {
    if options.get_flag("page") {
        Form::Draw
    } else if options.get_flag("log") {
        Form::Log
    } else {
        Form::Trace
    }
}

/// What `outcomes` does.
fn race(options: &ArgMatches<'_>) -> Task {
    let most: u32 = options.get_one("most").unwrap_or(0);
    Task::Race {
        page: options.get_flag("page"),
        most: most as usize,
    }
}

/// Does the program's command of this name.
fn command<T: Threads + Wait + Eprint + Sync>(
    place: &Place<'_, T>,
    name: &str,
    options: &ArgMatches<'_>,
    input: &mut Input<'_>,
    output: &mut Output,
) -> Result<(), Failure> {
    let task = match name {
        "script" => Task::Script(Form::Script),
        "trace" => Task::Script(trace_form(options)),
        "outcomes" => race(options),
        "run" => Task::Run {
            history: options.get_flag("history"),
            progress: options.get_flag("progress"),
        },
        "talk" => {
            return talk(place.rt, place.why, input, output).map_err(|fault| Failure::from(fault));
        }
        _ => return check(place, input, output),
    };
    serve(place, task, input, output)
}

/// Opens what the command reads.
fn open<'a, T>(place: &Place<'_, T>, path: Option<&'a str>) -> Result<Input<'a>, Failure> {
    match Input::open(place.rt, path) {
        Ok(input) => Ok(input),
        Err(error) => Err(Failure::of(
            place.rt.alloc(),
            SimFault::CannotRead,
            place.why,
            path.unwrap_or("standard input"),
            words_of(&error),
        )),
    }
}

/// Does the command over its streams; where one of these fails, it says which, and what the system says.
fn served<T: Threads + Wait + Eprint + Sync>(
    place: &Place<'_, T>,
    name: &str,
    options: &ArgMatches<'_>,
) -> Result<(), Failure> {
    let mut input = open(place, options.get_str("FILE"))?;
    let mut output = Output::new(place.rt);
    match command(place, name, options, &mut input, &mut output) {
        Ok(()) => Ok(()),
        Err(failure) if place.why && failure.reason.is_none() => Err(Failure {
            fault: failure.fault,
            reason: stream_reason(place.rt.alloc(), failure.fault, &input, &output),
        }),
        Err(failure) => Err(failure),
    }
}

/// The status of the program where its arguments are no command to be served: they ask for help, or are a fault of usage.
fn told(rt: &HostRuntime, why: bool, error: &Error) -> Result<ExitCode, Failure> {
    if error.kind() == error::ErrorKind::OutOfMemory {
        return Err(Failure::from(AllocError));
    }
    match (error.exit_code(), error.print(rt)) {
        (0, Err(error)) => {
            let name = "standard output";
            Err(Failure::of(
                rt.alloc(),
                SimFault::CannotWrite,
                why,
                name,
                words_of(&error),
            ))
        }
        (status, _) => Ok(ExitCode::from(status as u8)),
    }
}

/// The words of the command line. One that isn't UTF-8 can't be read; the program's own name may be any bytes.
fn words(rt: &HostRuntime, why: bool) -> Result<Vec<String>, Failure> {
    match std::env::args(&(Named(rt), rt.alloc())) {
        Ok(arguments) => Ok(arguments.collect(rt.alloc())?),
        Err(error) if error.kind() == ErrorKind::OutOfMemory => Err(Failure::from(AllocError)),
        Err(_) => {
            let (why, words) = (why || asks_why(rt), Said::Words("not UTF-8"));
            Err(Failure::of(rt.alloc(), SimFault::CannotRead, why, "an argument", words))
        }
    }
}

/// The status of the program with its arguments. At a terminal it says why it fails without being asked.
fn scisim<T: Threads + Wait + Eprint + Sync>(
    rt: &HostRuntime,
    threads: &T,
) -> Result<ExitCode, Failure> {
    let is_shown = rt.stderr().is_terminal();
    let words = words(rt, is_shown)?;
    match commands(rt)?.try_get_matches_from(words.as_slice()) {
        Ok(matches) => {
            let Some((name, options)) = matches.subcommand() else {
                return Ok(ExitCode::from(2));
            };
            let is_large = options.get_flag("large");
            // a reason of a script keeps the text: of a large one only where it is asked for
            let is_told = is_shown && (!is_large || name == "check");
            let place = Place {
                rt,
                threads,
                limit: if is_large { usize::MAX } else { INPUT_LIMIT },
                why: options.get_flag("why") || is_told,
            };
            served(&place, name, options)?;
            Ok(ExitCode::SUCCESS)
        }
        Err(error) => told(rt, is_shown, &error),
    }
}

fn main(rt: HostRuntime) -> ExitCode {
    match scisim(&rt, &rt) {
        Ok(status) => status,
        Err(failure) => {
            // the verdict of a check that says no stands on standard output
            let fault = failure.fault;
            if fault != RaceFault::Fault(SimFault::Unlawful) {
                let _ = eprintln!(rt; "scisim: {fault}");
            }
            if let Some(reason) = &failure.reason {
                let _ = eprintln!(rt; "{reason}");
            }
            ExitCode::from(fault.status())
        }
    }
}
