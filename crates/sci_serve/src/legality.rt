//! The command `check` of a history, from its bytes to the verdict.

ghost use Rattle.std.specs.Prelude.{◌≡◌, [], ℕ, List, string_bytes, IfOk, OnOk, IfErr, IfSome};
ghost use Rattle.std.specs.Io.KnownBytes.{Appends, IsAtEnd};
ghost use Rattle.sci_histories.specs.declared.rules.Verdict.TheVariants.{Legal, Illegal};
ghost use Rattle.sci_serve.specs.Legality.{legal_text, Judges, StopsJudging};

use crate::faults::SimFault;
use crate::wholly::read_whole;
use sci_histories::{Rule, Verdict, check_history, read_history};
use sci_script::put;
use sci_words::LineNo;
use std::alloc::{AllocError, Global};
use std::io::{Read, Write};

/// `line L breaks HN`.
fn illegal_text(alloc: Global, line: LineNo, rule: Rule) -> Result<String, AllocError>
    ensures { IfOk result (λ text. string_bytes text ≡ legal_text (Illegal line rule)) }
{
    let number = rule.number();
    format!(in alloc; "line {line} breaks H{number}\n")
}

/// What is printed with a verdict.
fn verdict_text(alloc: Global, verdict: Verdict) -> Result<String, AllocError>
    ensures { IfOk result (λ text. string_bytes text ≡ legal_text verdict) }
{
    match verdict {
        Verdict::Legal => format!(in alloc; "legal\n"),
        Verdict::Illegal { line, rule } => illegal_text(alloc, line, rule),
    }
}

/// The verdict on the history that an input is, and its text.
fn judge(alloc: Global, input: &[u8]) -> Result<(Verdict, String), SimFault>
    ensures ok { IfOk result (λ x. Judges input.now x.0 (string_bytes x.1)) }
    ensures err { IfErr result (λ e. StopsJudging e input.now []) }
{
    let history = read_history(alloc, input)?;
    let verdict = check_history(alloc, &history)?;
    let text = verdict_text(alloc, verdict)?;
    Ok((verdict, text))
}

/// Reads a history to its end, however long, checks it, and writes the verdict: `legal`, or `line L breaks HN`, the first line whose
/// receipts are no one history of it and the first rule that they break, which is the fault Unlawful. Nothing is written where the
/// input is refused: 21 at a line of text, or 7.
pub fn serve_legal<R: Read, W: Write>(
    alloc: Global,
    reader: &mut R,
    writer: &mut W,
) -> Result<(), SimFault>
    ensures ok { OnOk result (IfSome (R.remaining reader.old) (λ input. (text : List ℕ) × Judges input Legal text
        × Appends (W.contents writer.old) (W.contents writer.new) text)) }
    ensures err { IfErr result (λ e. IfSome (R.remaining reader.old) (λ input. (written : List ℕ) × StopsJudging e input written
        × Appends (W.contents writer.old) (W.contents writer.new) written)) }
    ensures end { OnOk result (IsAtEnd (R.remaining reader.new)) }
{
    let input = read_whole(alloc, reader)?;
    let (verdict, text) = judge(alloc, &input)?;
    match put(writer, text.as_bytes()) {
        Err(_) => Err(SimFault::CannotWrite),
        Ok(()) => match verdict {
            Verdict::Legal => Ok(()),
            Verdict::Illegal { .. } => Err(SimFault::Unlawful),
        },
    }
}
