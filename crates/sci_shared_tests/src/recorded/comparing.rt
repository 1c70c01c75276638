//! The line that is lent, beside one on which a run is made again.
use sci_core::{AnyWords, Closed, Event, Outcome, Whole};
use sci_words::NodeId;

/// An event on the line that is lent, if it is in turn.
pub(crate) fn step_whole(
    whole: &mut Whole<AnyWords>,
    node: NodeId,
    event: Event,
) -> Option<Outcome> {
    if node.get() < whole.nodes() {
        whole.step(node, event).ok()
    } else {
        None
    }
}

/// Whether a line closed with the words and bytes of the one that is lent.
pub(crate) fn is_left_as(closed: &Closed, whole: &Whole<AnyWords>) -> bool {
    for number in 0..whole.nodes() {
        let Some(node) = NodeId::new(number) else {
            return false;
        };
        let place = usize::from(number);
        if node.get() >= whole.nodes()
            || closed.tags.get(place) != Some(&whole.tag(node))
            || closed.lines.get(place) != Some(&whole.line(node))
        {
            return false;
        }
    }
    closed.mem == whole.mem() && closed.memory == whole.memory_line()
}
