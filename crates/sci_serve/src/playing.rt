//! The command `outcomes --page`, from the bytes of a script to the page of the states of the calls that it leaves open.

ghost use Rattle.std.specs.Prelude.{◌≡◌, ◌≤◌, [], ℕ, List, length, IfOk, OnOk, IfErr, IfSome};
ghost use Rattle.std.specs.Io.KnownBytes.{Appends, IsAtEnd};
ghost use Rattle.sci_trace.specs.Pages.{play_page};
ghost use Rattle.sci_serve.specs.Races.{IsRaceToldInTime};
ghost use Rattle.sci_serve.specs.Plays.{Plays, StopsPlaying};

use crate::faults::SimFault;
use crate::input::read_input;
use crate::racing::RaceFault;
use sci_outcomes::race_after;
use sci_play::play_text;
use sci_script::{put, read_script};
use sci_search::Watch;
use sci_trace::put_play;
use std::alloc::{AllocError, Global};
use std::io::{Read, Write};

/// The page of a script and of the text of its states.
fn page_of(alloc: Global, input: &[u8], text: &[u8]) -> Result<Vec<u8>, AllocError>
    ensures { IfOk result (λ page. page.items ≡ play_page input.now text.now) }
{
    let mut page = Vec::new(alloc);
    match put_play(&mut page, input, text) {
        Ok(()) => Ok(page),
        Err(_) => Err(AllocError),
    }
}

/// The page of the states of the calls that a script leaves open.
fn played<C: Watch>(
    alloc: Global,
    watch: &C,
    limit: usize,
    input: &[u8],
    most: usize,
) -> Result<Vec<u8>, RaceFault>
    requires { length input.now ≤ limit }
    ensures ok { IfOk result (λ page. Plays limit most input.now page.items) }
    ensures err { IfErr result (λ e. StopsPlaying limit most e input.now []) }
{
    let script = read_script(alloc, input)?;
    let race = race_after(alloc, &script)?;
    let text = play_text(alloc, watch, race, most)?;
    let page = page_of(alloc, input, &text)?;
    Ok(page)
}

/// Reads a script of at most `limit` bytes to its end, runs it, and writes a page of HTML that shows all states which turns of the calls that it leaves open lead
/// to, and on which the reader picks whose turn it is. Nothing is written where they are more than `most`. How many are visited is told
/// meanwhile.
pub fn serve_play<C: Watch, R: Read, W: Write>(
    alloc: Global,
    watch: &C,
    limit: usize,
    most: usize,
    reader: &mut R,
    writer: &mut W,
) -> Result<(), RaceFault>
    ensures ok { OnOk result (IfSome (R.remaining reader.old) (λ input. (page : List ℕ) × Plays limit most input page
        × Appends (W.contents writer.old) (W.contents writer.new) page)) }
    ensures err { IfErr result (λ e. IfSome (R.remaining reader.old) (λ input. (written : List ℕ) × StopsPlaying limit most e input written
        × Appends (W.contents writer.old) (W.contents writer.new) written)) }
    ensures end { OnOk result (IsAtEnd (R.remaining reader.new)) }
    ensures in_time { IfErr result (λ e. IsRaceToldInTime e (R.remaining reader.new)) }
{
    let input = read_input(alloc, limit, reader)?;
    let page = played(alloc, watch, limit, &input, most)?;
    match put(writer, &page) {
        Ok(()) => Ok(()),
        Err(_) => Err(RaceFault::Fault(SimFault::CannotWrite)),
    }
}
