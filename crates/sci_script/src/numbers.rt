//! Numbers: 1 to 20 decimal digits, at most u64::MAX; and those of a line's words.

ghost use Rattle.std.specs.Prelude.{◌≡◌, ◌≤◌, IfErr, IfOk, None, Some, length, map};
ghost use Rattle.std.specs.Char.{is_ascii_digit};
ghost use Rattle.std.specs.List.{list_all};
ghost use Rattle.sci_script.specs.Grammar.{AreFrom, is_within, number_reason, numbers_of, range_reason};
ghost use Rattle.sci_script.specs.Size.{IsSize};
ghost use Rattle.sci_script.specs.Words.{is_long, number_of};

use crate::commands::Size;
use crate::reasons::Reason;
use crate::verbs::{Argument, range};

fn is_digits(word: &[u8]) -> bool
    ensures { result ≡ list_all is_ascii_digit word.now }
{
    word.iter().all(|b| b.is_ascii_digit())
}

/// Digits alone, and more than a number may have.
fn is_long(word: &[u8]) -> bool
    ensures { result ≡ is_long word.now }
{
    is_digits(word) && word.len() > 20
}

/// What a word stands for, if it is a number.
#[tactic(auto, unfolding(crate::specs::Words::number_of))]
fn number(word: &[u8]) -> Option<u64>
    ensures { result ≡ number_of word.now }
{
    if word.is_empty() || word.len() > 20 {
        return None;
    }
    let mut value = 0u64;
    for byte in word {
        if !byte.is_ascii_digit() {
            return None;
        }
        value = value.checked_mul(10)?.checked_add(u64::from(*byte - b'0'))?;
    }
    Some(value)
}

/// Whether a word stands for a number from the lowest to the highest.
fn is_within(range: (u64, u64), value: Option<u64>) -> bool
    ensures { result ≡ is_within range value }
{
    match value {
        Some(value) => range.0 <= value && value <= range.1,
        None => false,
    }
}

/// Why the word with this number is no number in its range.
fn range_reason(number: usize, range: (u64, u64), word: &[u8]) -> Reason
    ensures { result ≡ range_reason number range word.now }
{
    if is_long(word) {
        Reason::Digits(number)
    } else {
        Reason::Number {
            word: number,
            low: range.0,
            high: range.1,
        }
    }
}

/// What the words behind a name stand for, with zeros behind it; or why the first that is no number in its range is none.
#[inline(always)]
pub(crate) fn numbers(size: Size, wanted: &[Argument], args: &[&[u8]]) -> Result<[u64; 10], Reason>
    requires size { IsSize size }
    requires each { length wanted.now ≡ length args.now }
    requires few { length args.now ≤ 10 }
    ensures value { IfOk result (λ numbers. numbers ≡ numbers_of (map (λ w. w.now) args.now)) }
    ensures range { IfOk result (AreFrom size 0 wanted.now) }
    ensures none { IfOk result (λ numbers. number_reason 2 size wanted.now (map (λ w. w.now) args.now) ≡ None) }
    ensures why { IfErr result (λ reason. number_reason 2 size wanted.now (map (λ w. w.now) args.now) ≡ Some reason) }
{
    let mut numbers = [0; 10];
    for i in 0..args.len() {
        let range = range(size, wanted[i]);
        let value = number(args[i]);
        if !is_within(range, value) {
            return Err(range_reason(i + 2, range, args[i]));
        }
        numbers[i] = value.unwrap_or(0);
    }
    Ok(numbers)
}
