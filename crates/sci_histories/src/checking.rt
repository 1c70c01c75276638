//! Whether the receipts of each line are one history of it.

ghost use Rattle.std.specs.Prelude.{◌≡◌, ◌≤◌, ◌↔◌, length, IfOk};
ghost use Rattle.sci_histories.specs.declared.rules.Verdict.TheVariants.{Legal};
ghost use Rattle.sci_histories.specs.Rules.{AreLegal, IsVerdictOf};

use crate::histories::{History, LineHistory};
use crate::rules::Verdict;
use crate::tables::first_broken;
use std::alloc::{AllocError, Global};

/// The verdict on these lines.
fn verdict_of(alloc: Global, lines: &[LineHistory]) -> Result<Verdict, AllocError>
    requires { length lines.now ≤ 1024 }
    ensures exact { IfOk result (λ verdict. (verdict ≡ Legal) ↔ AreLegal lines.now) }
    ensures first { IfOk result (λ verdict. IsVerdictOf lines.now verdict) }
{
    for number in 0..lines.len() {
        if let Some(rule) = first_broken(alloc, &lines[number])? {
            return Ok(Verdict::Illegal {
                line: number as u16,
                rule,
            });
        }
    }
    Ok(Verdict::Legal)
}

/// The lines of a history.
fn lines_of(history: &History) -> &[LineHistory]
    ensures lines { result.now ≡ history.now.lines }
    ensures few { length result.now ≤ 1024 }
{
    &history.lines
}

/// Whether the receipts of each line are one history of it, whole, and else the first line whose receipts aren't, with the first rule
/// that they break. It takes time in proportion to the number of receipts, and of the line at hand as much memory as has room for the
/// words of each write. Err: that memory was refused.
pub fn check_history(alloc: Global, history: &History) -> Result<Verdict, AllocError>
    // Legal exactly where each line's receipts are one history of it.
    ensures exact { IfOk result (λ verdict. (verdict ≡ Legal) ↔ AreLegal history.now.lines) }
    // Else the first line and rule.
    ensures first { IfOk result (λ verdict. IsVerdictOf history.now.lines verdict) }
{
    verdict_of(alloc, lines_of(history))
}
