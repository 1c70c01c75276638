//! The fields of a line of text: each reader gives a value and the text behind it, or None where the text begins otherwise.

ghost use Rattle.std.specs.Prelude.{◌≡◌, ◌<◌, ◌≤◌, ◌+◌, true, length, codes, min, IfSome};
ghost use Rattle.std.specs.Char.{is_ascii_digit, digit_value};
ghost use Rattle.std.specs.List.{list_all};
ghost use Rattle.std.specs.Str.Parse.{digits_value};
ghost use Rattle.sci_dump.specs.Reading.{Reads, behind, digits_in_front, number_at, is_hexadecimal, word_at, value_at, values_at, content_at, numbered_at, count_at, capped_at};

use sci_core::Line;

/// The text behind these bytes.
#[tactic(auto, unfolding(crate::specs::Reading::behind))]
pub fn behind<'a>(bytes: &[u8], text: &'a [u8]) -> Option<&'a [u8]>
    ensures exact { Reads (λ t. t.now) result (behind bytes.now text.now) }
    ensures shorter { IfSome result (λ t. length t.now + length bytes.now ≡ length text.now) }
{
    text.strip_prefix(bytes)
}

/// How many digits stand in front.
fn digits_in_front(text: &[u8]) -> usize
    ensures exact { result ≡ digits_in_front text.now }
    ensures within { result ≤ length text.now }
{
    text.iter()
        .position(|b| !b.is_ascii_digit())
        .unwrap_or(text.len())
}

/// What up to 20 decimal digits stand for.
fn decimal_value(digits: &[u8]) -> u128
    requires digits { list_all is_ascii_digit digits.now ≡ true }
    requires short { length digits.now ≤ 20 }
    ensures { result ≡ digits_value 10 digits.now }
{
    let mut value = 0u128;
    for digit in digits {
        value = value * 10 + u128::from(*digit - b'0');
    }
    value
}

/// A number below 2^64, in decimal without leading zeros.
#[tactic(auto, unfolding(crate::specs::Reading::number_at))]
pub fn number(text: &[u8]) -> Option<(u64, &[u8])>
    ensures exact { Reads (λ x. (x.0, x.1.now)) result (number_at text.now) }
{
    let (digits, rest) = text.split_at(digits_in_front(text));
    let is_short = digits.len() <= 20;
    match digits {
        [] => None,
        [b'0', _, ..] => None,
        _ if !is_short => None,
        _ => {
            let value = u64::try_from(decimal_value(digits)).ok()?;
            Some((value, rest))
        }
    }
}

/// What decimal digits stand for, or `most` where that is less.
fn capped_value(most: u16, digits: &[u8]) -> u16
    requires { list_all is_ascii_digit digits.now ≡ true }
    ensures { result ≡ min (digits_value 10 digits.now) most }
{
    let mut value = 0u32;
    for digit in digits {
        value = (value * 10 + u32::from(*digit - b'0')).min(u32::from(most));
    }
    value as u16
}

/// A number of any length, in decimal without leading zeros; one above `most` stands for that.
#[tactic(auto, unfolding(crate::specs::Reading::capped_at))]
pub fn capped(most: u16, text: &[u8]) -> Option<(u16, &[u8])>
    ensures exact { Reads (λ x. (x.0, x.1.now)) result (capped_at most text.now) }
    ensures range { IfSome result (λ x. x.0 ≤ most) }
{
    let (digits, rest) = text.split_at(digits_in_front(text));
    match digits {
        [] => None,
        [b'0', _, ..] => None,
        _ => Some((capped_value(most, digits), rest)),
    }
}

fn is_hexadecimal(digit: u8) -> bool
    ensures { result ≡ is_hexadecimal digit }
{
    matches!(digit, b'0'..=b'9' | b'a'..=b'f')
}

fn are_hexadecimal(digits: &[u8]) -> bool
    ensures { result ≡ list_all is_hexadecimal digits.now }
{
    digits.iter().all(|b| is_hexadecimal(*b))
}

fn hexadecimal_digit(digit: u8) -> u8
    requires { is_hexadecimal digit ≡ true }
    ensures { result ≡ digit_value digit }
{
    if digit <= b'9' {
        digit - b'0'
    } else {
        digit - b'a' + 10
    }
}

/// What 16 hexadecimal digits stand for.
fn hexadecimal_value(digits: &[u8]) -> u64
    requires digits { list_all is_hexadecimal digits.now ≡ true }
    requires sixteen { length digits.now ≡ 16 }
    ensures { result ≡ digits_value 16 digits.now }
{
    let mut value = 0;
    for digit in digits {
        value = value * 16 + u64::from(hexadecimal_digit(*digit));
    }
    value
}

/// A word of 64 bits in 16 digits.
#[tactic(auto, unfolding(crate::specs::Reading::word_at))]
pub fn word(text: &[u8]) -> Option<(u64, &[u8])>
    ensures { Reads (λ x. (x.0, x.1.now)) result (word_at text.now) }
{
    if text.len() < 16 {
        return None;
    }
    let (digits, rest) = text.split_at(16);
    if !are_hexadecimal(digits) {
        return None;
    }
    Some((hexadecimal_value(digits), rest))
}

/// A number behind a space.
#[tactic(auto, unfolding(crate::specs::Reading::value_at))]
pub fn value(text: &[u8]) -> Option<(u64, &[u8])>
    ensures { Reads (λ x. (x.0, x.1.now)) result (value_at text.now) }
{
    number(behind(b" ", text)?)
}

/// Eight numbers, each behind a space.
pub fn values(text: &[u8]) -> Option<([u64; 8], &[u8])>
    ensures { Reads (λ x. (x.0, x.1.now)) result (values_at 8 text.now) }
{
    let mut values = [0; 8];
    let mut rest = text;
    for i in 0..8 {
        (values[i], rest) = value(rest)?;
    }
    Some((values, rest))
}

/// A line's stamp and words, to the end of the line of text.
#[tactic(auto, unfolding(crate::specs::Reading::content_at))]
pub fn content(text: &[u8]) -> Option<(Line, &[u8])>
    ensures { Reads (λ x. (x.0, x.1.now)) result (content_at text.now) }
{
    let (stamp, rest) = value(text)?;
    let (words, rest) = values(rest)?;
    let rest = behind(b"\n", rest)?;
    Some((Line { words, stamp }, rest))
}

/// This number.
#[tactic(auto, unfolding(crate::specs::Reading::numbered_at))]
pub fn numbered(number: u64, text: &[u8]) -> Option<&[u8]>
    ensures { Reads (λ t. t.now) result (numbered_at number text.now) }
{
    let (found, rest) = self::number(text)?;
    if found == number { Some(rest) } else { None }
}

/// A number from 1 to this one.
#[tactic(auto, unfolding(crate::specs::Reading::count_at))]
pub fn count(most: u64, text: &[u8]) -> Option<(u64, &[u8])>
    ensures exact { Reads (λ x. (x.0, x.1.now)) result (count_at most text.now) }
    ensures range { IfSome result (λ x. (1 ≤ x.0) × (x.0 ≤ most)) }
{
    let (found, rest) = number(text)?;
    if 1 <= found && found <= most {
        Some((found, rest))
    } else {
        None
    }
}
