//! The program's command line.

use crate::help;
use clap::{Arg, ArgAction, Command};
use std::alloc::AllocError;

/// An option that is given or isn't.
fn flag<'a>(rt: &impl AllocGlobal, name: &'a str, help: &'a str) -> Arg<'a> {
    Arg::new(rt.alloc(), name)
        .long(name)
        .action(ArgAction::SetTrue)
        .help(help)
}

fn page<'a>(rt: &impl AllocGlobal) -> Arg<'a> {
    flag(rt, "page", "writes a page")
}

fn log<'a>(rt: &impl AllocGlobal) -> Result<Arg<'a>, AllocError> {
    flag(rt, "log", "writes a log").conflicts_with("page")
}

fn history<'a>(rt: &impl AllocGlobal) -> Arg<'a> {
    flag(rt, "history", "prints the history")
}

fn progress<'a>(rt: &impl AllocGlobal) -> Arg<'a> {
    flag(rt, "progress", "tells of each 100000 calls that end")
}

fn most<'a>(rt: &impl AllocGlobal) -> Arg<'a> {
    Arg::new(rt.alloc(), "most")
        .long("most")
        .value_name("N")
        .value_parser(clap::value_parser!(u32))
        .default_value("100000")
        .help("visits at most N states")
}

/// A command. It says nothing of its texts, so that no proof of the commands above it carries them.
fn command<'a>(
    rt: &impl AllocGlobal,
    name: &'a str,
    about: &'a str,
    help: &'a str,
) -> Result<Command<'a>, AllocError> {
    Command::new(rt.alloc(), name)
        .about(about)
        .after_help(help)
        .arg(flag(rt, "why", "says why it fails"))
}

/// A command that reads a file.
fn reader_of<'a>(
    rt: &impl AllocGlobal,
    name: &'a str,
    about: &'a str,
    help: &'a str,
) -> Result<Command<'a>, AllocError> {
    let file = Arg::new(rt.alloc(), "FILE").help("none or -: standard input");
    command(rt, name, about, help)?.arg(file)
}

/// A command that reads a script or a dump.
fn limited<'a>(
    rt: &impl AllocGlobal,
    name: &'a str,
    about: &'a str,
    help: &'a str,
) -> Result<Command<'a>, AllocError> {
    let large = flag(rt, "large", "takes any length");
    reader_of(rt, name, about, help)?.arg(large)
}

fn script<'a>(rt: &impl AllocGlobal) -> Result<Command<'a>, AllocError> {
    limited(rt, "script", "Runs a script", help::SCRIPT)
}

fn trace<'a>(rt: &impl AllocGlobal) -> Result<Command<'a>, AllocError> {
    let about = "Says of each turn of a script what it did";
    limited(rt, "trace", about, help::TRACE)?
        .arg(page(rt))?
        .arg(log(rt)?)
}

fn outcomes<'a>(rt: &impl AllocGlobal) -> Result<Command<'a>, AllocError> {
    let about = "Lists every outcome of a script's open calls";
    limited(rt, "outcomes", about, help::OUTCOMES)?
        .arg(page(rt))?
        .arg(most(rt))
}

fn talk<'a>(rt: &impl AllocGlobal) -> Result<Command<'a>, AllocError> {
    command(
        rt,
        "talk",
        "Answers a script's commands one by one",
        help::TALK,
    )
}

fn run<'a>(rt: &impl AllocGlobal) -> Result<Command<'a>, AllocError> {
    reader_of(rt, "run", "Runs a workload in threads", help::RUN)?
        .arg(history(rt))?
        .arg(progress(rt))
}

fn check<'a>(rt: &impl AllocGlobal) -> Result<Command<'a>, AllocError> {
    let about = "Judges a dump, a history or a log";
    limited(rt, "check", about, help::CHECK)
}

/// The program without its commands.
fn program<'a>(rt: &impl AllocGlobal) -> Result<Command<'a>, AllocError> {
    let named = Command::new(rt.alloc(), "scisim").bin_name("scisim")?;
    Ok(
        named
            .version("0.1.0")
            .override_help(help::PROGRAM)
            .subcommand_required(true),
    )
}

/// The program with one more command.
fn with<'a>(
    program: Result<Command<'a>, AllocError>,
    command: Result<Command<'a>, AllocError>,
) -> Result<Command<'a>, AllocError> {
    program?.subcommand(command?)
}

/// The program's commands.
pub fn commands<'a>(rt: &impl AllocGlobal) -> Result<Command<'a>, AllocError> {
    let program = with(program(rt), script(rt));
    let program = with(program, trace(rt));
    let program = with(program, outcomes(rt));
    let program = with(program, talk(rt));
    let program = with(program, run(rt));
    with(program, check(rt))
}
