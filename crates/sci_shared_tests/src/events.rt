//! The events that pass on the nodes' ways to a line, in a list.
use sci_core::Event;
use sci_port::{Ending, Passed};
use sci_words::NodeId;

/// The events of a run, each with its node, in order.
pub(crate) type Events = Vec<(NodeId, Event)>;

/// Keeps what passed in a node's turn: each look that was answered, then the step, if it was done or missed. None: no memory.
pub(crate) fn keep(events: &mut Events, node: NodeId, passed: &Passed) -> Option<()> {
    for _ in 0..passed.looks {
        events.push((node, Event::Look)).ok()?;
    }
    if let Some((event, Ending::Done | Ending::Missed(_))) = passed.step {
        events.push((node, event)).ok()?;
    }
    Some(())
}
