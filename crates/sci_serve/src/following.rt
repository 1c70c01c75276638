//! The command `check` of a log, from its bytes to whether it is a run.

ghost use Rattle.std.specs.Prelude.{◌≡◌, ℕ, List, IfOk, IfErr, IfSome, OnOk, codes, string_bytes};
ghost use Rattle.std.specs.Io.KnownBytes.{Appends};
ghost use Rattle.sci_logs.specs.Streams.{FollowsAll};
ghost use Rattle.sci_serve.specs.Followed.{departure_line, reason, IsWhyUnfollowed, StopsFollowing};

use crate::faults::SimFault;
use sci_logs::{Deviation, LineReason, LogFault, follow_told};
use sci_script::{ScriptRefusal, put};
use std::alloc::{AllocError, Global};
use std::io::{BufRead, Write};

/// Why no lawful line answers so.
fn reason(why: Deviation) -> &'static str
    ensures { result.now ≡ reason why }
{
    match why {
        Deviation::NotInTurn => "not in turn",
        Deviation::AnotherWord => "another word stood there",
        Deviation::AnotherLine => "another line is answered",
        Deviation::CannotBe => "it can't end so",
    }
}

/// `line K: WHY`.
fn departure_text(alloc: Global, number: u64, why: Deviation) -> Result<String, AllocError>
    ensures { IfOk result (λ text. string_bytes text ≡ departure_line number why) }
{
    let reason = reason(why);
    format!(in alloc; "line {number}: {reason}\n")
}

/// Follows a log to its end, and writes `follows` where it is a run of the table from its opening; or `line K: WHY`, the first line of
/// text that no lawful line answers so, which is the fault Unlawful. Nothing is written where the log is refused, or can't be read. A
/// faulty line is refused 16, and one of a node or line that isn't there 17, as `follow_told` has it: with why, in words.
#[tactic(auto, using(crate::proofs::Departing::follows_written, crate::proofs::Departing::follows_cut, crate::proofs::Departing::departs_written, crate::proofs::Departing::departs_cut, crate::proofs::Departing::unread, crate::proofs::Departing::no_memory, crate::proofs::Departing::bad_line, crate::proofs::Departing::bad_number, crate::proofs::Departing::unexplained))]
pub fn serve_follow_told<R: BufRead, W: Write>(
    alloc: Global,
    reader: &mut R,
    writer: &mut W,
) -> Result<(), (SimFault, Option<LineReason>)>
    ensures ok { OnOk result (IfSome (R.remaining reader.old) (λ input. FollowsAll input
        × Appends (W.contents writer.old) (W.contents writer.new) (codes "follows\n"))) }
    ensures err { IfErr result (λ x. IfSome (R.remaining reader.old) (λ input. (written : List ℕ) × StopsFollowing x.0 input written
        × Appends (W.contents writer.old) (W.contents writer.new) written)) }
    ensures why { IfErr result (λ x. IfSome (R.remaining reader.old) (IsWhyUnfollowed x.0 x.1)) }
{
    match follow_told(alloc, reader) {
        Ok(()) => match put(writer, b"follows\n") {
            Ok(()) => Ok(()),
            Err(_) => Err((SimFault::CannotWrite, None)),
        },
        Err((LogFault::Departs(number, why), _)) => {
            let Ok(text) = departure_text(alloc, number, why) else {
                return Err((SimFault::Refused(ScriptRefusal::OutOfMemory), None));
            };
            match put(writer, text.as_bytes()) {
                Ok(()) => Err((SimFault::Unlawful, None)),
                Err(_) => Err((SimFault::CannotWrite, None)),
            }
        }
        Err((LogFault::OutOfMemory, why)) => {
            Err((SimFault::Refused(ScriptRefusal::OutOfMemory), why))
        }
        Err((LogFault::BadLine(line), why)) => {
            Err((SimFault::Refused(ScriptRefusal::BadCommand(line)), why))
        }
        Err((LogFault::BadNumber(line), why)) => {
            Err((SimFault::Refused(ScriptRefusal::BadNumber(line)), why))
        }
        Err((LogFault::CannotRead, why)) => Err((SimFault::CannotRead, why)),
    }
}

/// The same without a reason.
pub fn serve_follow<R: BufRead, W: Write>(
    alloc: Global,
    reader: &mut R,
    writer: &mut W,
) -> Result<(), SimFault>
    ensures ok { OnOk result (IfSome (R.remaining reader.old) (λ input. FollowsAll input
        × Appends (W.contents writer.old) (W.contents writer.new) (codes "follows\n"))) }
    ensures err { IfErr result (λ e. IfSome (R.remaining reader.old) (λ input. (written : List ℕ) × StopsFollowing e input written
        × Appends (W.contents writer.old) (W.contents writer.new) written)) }
{
    match serve_follow_told(alloc, reader, writer) {
        Ok(()) => Ok(()),
        Err((fault, _)) => Err(fault),
    }
}
