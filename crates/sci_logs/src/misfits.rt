//! Of a line of a log that is whole the first number that isn't in its range: where it stands.

ghost use Rattle.sci_logs.specs.LineText.{Gives};
ghost use Rattle.sci_logs.specs.Reasons.{event_misfit, line_misfit, memory_misfit, opening_misfit, whose_misfit};

use crate::event_names::other_asks;
use crate::fields::{MOST_LINE, MOST_NODE, count, label, space, word_and_space};
use crate::parts::{Lack, Part};
use sci_script::Size;

/// Of a memory.
#[tactic(auto, unfolding(crate::specs::Reasons::memory_misfit))]
pub(crate) fn memory_misfit(text: &[u8]) -> Result<Lack, Lack>
    ensures { Gives (λ l. l) result (memory_misfit text.now) }
{
    let size = Part::Number { low: 1, high: 1024 };
    let place = word_and_space(Part::Memory, b"memory", text)?;
    let (nodes, text) = count(size, MOST_LINE, place)?;
    let lines = space(text)?;
    let is_nodes = 1 <= nodes && nodes <= 1024;
    Ok(Lack::new(size, if is_nodes { lines } else { place }))
}

/// Of an opening.
#[tactic(auto, unfolding(crate::specs::Reasons::opening_misfit))]
pub(crate) fn opening_misfit(text: &[u8]) -> Result<Lack, Lack>
    ensures { Gives (λ l. l) result (opening_misfit text.now) }
{
    let place = word_and_space(Part::Open, b"open", text)?;
    Ok(Lack::new(Part::LineNumber, place))
}

/// Of an event's name: the node whose tag it asks for.
#[tactic(auto, unfolding(crate::specs::Reasons::whose_misfit))]
fn whose_misfit(text: &[u8]) -> Result<Lack, Lack>
    ensures { Gives (λ l. l) result (whose_misfit text.now) }
{
    let Some((_, text)) = other_asks(text) else {
        return Err(Lack::new(Part::Event, text));
    };
    let place = label(Part::Opened, b"(", text)?;
    Ok(Lack::new(Part::NodeNumber, place))
}

/// The same behind an event's node: its line, where there are so many, or that node.
#[tactic(auto, unfolding(crate::specs::Reasons::line_misfit))]
fn line_misfit(lines: u16, text: &[u8]) -> Result<Lack, Lack>
    ensures { Gives (λ l. l) result (line_misfit lines text.now) }
{
    let text = space(text)?;
    let place = word_and_space(Part::OnLine, b"line", text)?;
    let (line, text) = count(Part::LineNumber, MOST_LINE, place)?;
    if line < lines {
        whose_misfit(space(text)?)
    } else {
        Ok(Lack::new(Part::LineNumber, place))
    }
}

/// Of an event: its node, or the same behind it.
#[tactic(auto, unfolding(crate::specs::Reasons::event_misfit))]
pub(crate) fn event_misfit(size: Size, text: &[u8]) -> Result<Lack, Lack>
    ensures { Gives (λ l. l) result (event_misfit size text.now) }
{
    let place = word_and_space(Part::Node, b"node", text)?;
    let (node, text) = count(Part::NodeNumber, MOST_NODE, place)?;
    if node < size.nodes {
        line_misfit(size.lines, text)
    } else {
        Ok(Lack::new(Part::NodeNumber, place))
    }
}
