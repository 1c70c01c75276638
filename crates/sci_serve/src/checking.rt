//! The command `check`, from the bytes of a dump to the verdict.

ghost use Rattle.std.specs.Prelude.{◌≡◌, ◌≤◌, [], ℕ, List, length, string_bytes, IfOk, OnOk, IfErr, IfSome};
ghost use Rattle.std.specs.Io.KnownBytes.{Appends, IsAtEnd};
ghost use Rattle.sci_dump.specs.declared.checking.Verdict.TheVariants.{Lawful};
ghost use Rattle.sci_serve.specs.Input.{IsToldInTime};
ghost use Rattle.sci_serve.specs.Verdicts.{Checks, StopsChecking};

use crate::faults::SimFault;
use crate::input::{INPUT_LIMIT, read_input};
use crate::verdicts::verdict_text;
use sci_dump::{Verdict, check, read_dump};
use sci_script::put;
use std::alloc::Global;
use std::io::{Read, Write};

/// The verdict on the dump that an input is, and its text.
fn judge(alloc: Global, input: &[u8]) -> Result<(Verdict, String), SimFault>
    requires { length input.now ≤ 1048576 }
    ensures ok { IfOk result (λ x. Checks input.now x.0 (string_bytes x.1)) }
    ensures err { IfErr result (λ e. StopsChecking e input.now []) }
{
    let dump = read_dump(alloc, input)?;
    let verdict = check(&dump);
    let text = verdict_text(alloc, &dump, verdict)?;
    Ok((verdict, text))
}

/// Reads a dump to its end, checks it, and writes the verdict: each line's sharing list and `lawful`, or `line L breaks CN`, the
/// first line that is no exact sharing list and the first rule that it breaks, which is the fault Unlawful. Nothing is written
/// where the input is refused.
pub fn serve_check<R: Read, W: Write>(
    alloc: Global,
    reader: &mut R,
    writer: &mut W,
) -> Result<(), SimFault>
    ensures ok { OnOk result (IfSome (R.remaining reader.old) (λ input. (text : List ℕ) × Checks input Lawful text
        × Appends (W.contents writer.old) (W.contents writer.new) text)) }
    ensures err { IfErr result (λ e. IfSome (R.remaining reader.old) (λ input. (written : List ℕ) × StopsChecking e input written
        × Appends (W.contents writer.old) (W.contents writer.new) written)) }
    ensures end { OnOk result (IsAtEnd (R.remaining reader.new)) }
    ensures in_time { IfErr result (λ e. IsToldInTime e (R.remaining reader.new)) }
{
    let input = read_input(alloc, INPUT_LIMIT, reader)?;
    let (verdict, text) = judge(alloc, &input)?;
    match put(writer, text.as_bytes()) {
        Err(_) => Err(SimFault::CannotWrite),
        Ok(()) => match verdict {
            Verdict::Lawful => Ok(()),
            Verdict::Unlawful { .. } => Err(SimFault::Unlawful),
        },
    }
}
