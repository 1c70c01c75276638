//! Parts of a line of a log: each reader gives a value and the text behind it, or says what is wanted here.

ghost use Rattle.std.specs.Prelude.{◌≡◌, ◌≤◌, IfOk};
ghost use Rattle.sci_logs.specs.LineText.{Gives, closed_at, content_at, count_at, end_at, label_at, space_at, value_at, values_at, word_and_space_at};

use crate::parts::{Lack, Part};
use sci_core::Line;
use sci_dump::fields::{behind, capped, number};

/// The highest number of a node that a word of layout 2 holds.
pub(crate) const MOST_NODE: u16 = 65_534;

/// The highest number of a line.
pub(crate) const MOST_LINE: u16 = u16::MAX;

/// These bytes, which are this part.
#[tactic(auto, unfolding(crate::specs::LineText::label_at))]
#[inline(always)]
pub(crate) fn label<'a>(part: Part, bytes: &[u8], text: &'a [u8]) -> Result<&'a [u8], Lack>
    ensures { Gives (λ t. t.now) result (label_at part bytes.now text.now) }
{
    match behind(bytes, text) {
        Some(rest) => Ok(rest),
        None => Err(Lack::new(part, text)),
    }
}

/// One space.
#[inline(always)]
pub(crate) fn space(text: &[u8]) -> Result<&[u8], Lack>
    ensures { Gives (λ t. t.now) result (space_at text.now) }
{
    label(Part::Space, b" ", text)
}

/// This word, and a space.
#[tactic(auto, unfolding(crate::specs::LineText::word_and_space_at))]
#[inline(always)]
pub(crate) fn word_and_space<'a>(part: Part, bytes: &[u8], text: &'a [u8]) -> Result<&'a [u8], Lack>
    ensures { Gives (λ t. t.now) result (word_and_space_at part bytes.now text.now) }
{
    let text = label(part, bytes, text)?;
    space(text)
}

/// The bracket behind an argument, and a space.
#[tactic(auto, unfolding(crate::specs::LineText::closed_at))]
pub(crate) fn closed(text: &[u8]) -> Result<&[u8], Lack>
    ensures { Gives (λ t. t.now) result (closed_at text.now) }
{
    word_and_space(Part::Bracket, b")", text)
}

/// Nothing more.
#[tactic(auto, unfolding(crate::specs::LineText::end_at))]
pub(crate) fn end(text: &[u8]) -> Result<(), Lack>
    ensures { Gives (λ u. u) result (end_at text.now) }
{
    if text.is_empty() {
        Ok(())
    } else {
        Err(Lack::new(Part::End, text))
    }
}

/// A number of any length; one above `most` stands for that.
#[tactic(auto, unfolding(crate::specs::LineText::count_at))]
pub(crate) fn count(part: Part, most: u16, text: &[u8]) -> Result<(u16, &[u8]), Lack>
    ensures exact { Gives (λ x. (x.0, x.1.now)) result (count_at part most text.now) }
    ensures range { IfOk result (λ x. x.0 ≤ most) }
{
    match capped(most, text) {
        Some(found) => Ok(found),
        None => Err(Lack::new(part, text)),
    }
}

/// A space, or what else may stand in its place, and a number below 2^64.
#[tactic(auto, unfolding(crate::specs::LineText::value_at))]
fn value(part: Part, text: &[u8]) -> Result<(u64, &[u8]), Lack>
    ensures { Gives (λ x. (x.0, x.1.now)) result (value_at part text.now) }
{
    let text = label(part, b" ", text)?;
    match number(text) {
        Some(found) => Ok(found),
        None => Err(Lack::new(Part::Value, text)),
    }
}

/// Eight of them.
pub(crate) fn values(text: &[u8]) -> Result<([u64; 8], &[u8]), Lack>
    ensures { Gives (λ x. (x.0, x.1.now)) result (values_at 8 text.now) }
{
    let mut values = [0; 8];
    let mut rest = text;
    for i in 0..8 {
        (values[i], rest) = value(Part::SpacedValue, rest)?;
    }
    Ok((values, rest))
}

/// A stamp and the words of a line, to the end.
#[tactic(auto, unfolding(crate::specs::LineText::content_at))]
pub(crate) fn content(part: Part, text: &[u8]) -> Result<Line, Lack>
    ensures { Gives (λ l. l) result (content_at part text.now) }
{
    let (stamp, text) = value(part, text)?;
    let (words, rest) = values(text)?;
    end(rest)?;
    Ok(Line { words, stamp })
}
