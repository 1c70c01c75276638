//! One line of a log. Each reader gives a value and the text behind it, or the first part that isn't there.

ghost use Rattle.std.specs.Prelude.{◌≡◌, ◌≤◌, IfOk};
ghost use Rattle.sci_logs.specs.LineText.{Gives, busy_at, claim_at, done_at, ended_at, may_miss, may_missed_at, memory_at, missed_at, noted_at, numbered_at, opening_at, placed_at};

use crate::entries::Claim;
use crate::event_text::told_event;
use crate::fields::{MOST_LINE, MOST_NODE, content, count, end, label, space, word_and_space};
use crate::parts::{Lack, Part};
use crate::told::{Found, Noted, Told};
use sci_core::Line;
use sci_dump::fields::{behind, word};
use sci_script::Size;
use sci_words::{LineNo, NodeId};

/// Behind `Done` the line that was answered, where that is told.
#[tactic(auto, unfolding(crate::specs::LineText::done_at))]
fn done(text: &[u8]) -> Result<Claim, Lack>
    ensures { Gives (λ c. c) result (done_at text.now) }
{
    if text.is_empty() {
        return Ok(Claim::Done);
    }
    match content(Part::EndOrValue, text) {
        Ok(line) => Ok(Claim::Answered(line)),
        Err(lack) => Err(lack),
    }
}

/// Nothing more behind `Busy`.
#[tactic(auto, unfolding(crate::specs::LineText::busy_at))]
fn busy(text: &[u8]) -> Result<Claim, Lack>
    ensures { Gives (λ c. c) result (busy_at text.now) }
{
    end(text)?;
    Ok(Claim::Busy)
}

/// Behind `Missed` the word that was found.
#[tactic(auto, unfolding(crate::specs::LineText::missed_at))]
fn missed(text: &[u8]) -> Result<Claim, Lack>
    ensures { Gives (λ c. c) result (missed_at text.now) }
{
    let text = space(text)?;
    let Some((word, rest)) = word(text) else {
        return Err(Lack::new(Part::Word, text));
    };
    end(rest)?;
    Ok(Claim::Missed(word))
}

/// An exchange that asks for the tag that stands can't miss: a miss tells the tag that was asked for in digits.
fn may_miss(told: &Told) -> bool
    ensures { result ≡ may_miss told.now }
{
    !matches!(
        told,
        Told::On {
            found: Found::Named(_),
            ..
        }
    )
}

/// `Missed WORD`, where that may be.
#[tactic(auto, unfolding(crate::specs::LineText::may_missed_at))]
fn may_missed(may: bool, text: &[u8]) -> Result<Claim, Lack>
    ensures { Gives (λ c. c) result (may_missed_at may text.now) }
{
    if may {
        let text = label(Part::Outcome, b"Missed", text)?;
        missed(text)
    } else {
        Err(Lack::new(Part::Hit, text))
    }
}

/// How this event ended.
#[tactic(auto, unfolding(crate::specs::LineText::claim_at))]
fn claim(told: &Told, text: &[u8]) -> Result<Claim, Lack>
    ensures { Gives (λ c. c) result (claim_at told.now text.now) }
{
    if let Some(rest) = behind(b"Done", text) {
        return done(rest);
    }
    if let Some(rest) = behind(b"Busy", text) {
        return busy(rest);
    }
    may_missed(may_miss(told), text)
}

/// A word and a number, each with a space behind it; a number above `most` stands for that.
#[tactic(auto, unfolding(crate::specs::LineText::numbered_at))]
#[inline(always)]
fn numbered<'a>(
    first: Part,
    bytes: &[u8],
    part: Part,
    most: u16,
    text: &'a [u8],
) -> Result<(u16, &'a [u8]), Lack>
    ensures exact { Gives (λ x. (x.0, x.1.now)) result (numbered_at first bytes.now part most text.now) }
    ensures range { IfOk result (λ x. x.0 ≤ most) }
{
    let text = word_and_space(first, bytes, text)?;
    let (number, text) = count(part, most, text)?;
    let rest = space(text)?;
    Ok((number, rest))
}

/// `EVENT OUTCOME`, of this node on this line.
#[tactic(auto, unfolding(crate::specs::LineText::ended_at))]
fn ended(node: NodeId, line: LineNo, text: &[u8]) -> Result<Noted, Lack>
    ensures { Gives (λ x. x) result (ended_at node line text.now) }
{
    let (told, text) = match told_event(text) {
        Ok(found) => found,
        Err(lack) => return Err(lack),
    };
    let claim = claim(&told, text)?;
    Ok(Noted {
        node,
        line,
        told,
        claim,
    })
}

/// The same behind the node, from the line on.
#[tactic(auto, unfolding(crate::specs::LineText::placed_at))]
fn placed(node: NodeId, text: &[u8]) -> Result<Noted, Lack>
    ensures { Gives (λ x. x) result (placed_at node text.now) }
{
    let (line, rest) = numbered(Part::OnLine, b"line", Part::LineNumber, MOST_LINE, text)?;
    ended(node, line, rest)
}

/// An event and its outcome: `node N line L EVENT OUTCOME`, with nothing behind; a number that is too large stays too large. Err: the
/// first part that isn't there.
#[tactic(auto, unfolding(crate::specs::LineText::noted_at))]
pub fn read_entry(text: &[u8]) -> Result<Noted, Lack>
    ensures { Gives (λ x. x) result (noted_at text.now) }
{
    let (node, rest) = numbered(Part::Node, b"node", Part::NodeNumber, MOST_NODE, text)?;
    placed(NodeId::new(node).unwrap(), rest)
}

/// `memory NODES LINES`, with nothing behind; a number that is too large stays too large. Err: the first part that isn't there.
#[tactic(auto, unfolding(crate::specs::LineText::memory_at))]
pub fn read_memory(text: &[u8]) -> Result<Size, Lack>
    ensures { Gives (λ s. s) result (memory_at text.now) }
{
    let size = Part::Number { low: 1, high: 1024 };
    let (nodes, text) = numbered(Part::Memory, b"memory", size, MOST_LINE, text)?;
    let (lines, rest) = count(size, MOST_LINE, text)?;
    end(rest)?;
    Ok(Size { nodes, lines })
}

/// `open L S V V V V V V V V`, with nothing behind: the line, and the content that it opens with. Err: the first part that isn't there.
#[tactic(auto, unfolding(crate::specs::LineText::opening_at))]
pub fn read_opening(text: &[u8]) -> Result<(LineNo, Line), Lack>
    ensures { Gives (λ x. x) result (opening_at text.now) }
{
    let text = word_and_space(Part::Open, b"open", text)?;
    let (line, text) = count(Part::LineNumber, MOST_LINE, text)?;
    let content = content(Part::SpacedValue, text)?;
    Ok((line, content))
}
