//! The lines of a `Whole` as they stand, in a slot or in the hand that has it.
ghost use Rattle.std.specs.Prelude.{◌≡◌, ◌<◌, ◌↔◌, true, IsTrue, length};
ghost use Rattle.sci_core.specs.declared.lines.Line as a_line;
ghost use Rattle.sci_core.specs.Copies.{IsCopy, IsCopying, IsMemoryCopy};
ghost use Rattle.sci_core.specs.Hands.{FindsKept, HasMemorySlot};
ghost use Rattle.sci_core.specs.Laid.{slot_of, memory_slot_of, step_laid};
ghost use Rattle.sci_core.specs.Law.{has_memory_slot, has_slot};
ghost use Rattle.sci_core.specs.Shape.{phase_of};
ghost use Rattle.sci_core.specs.Stage.{pending_of};
ghost use Rattle.sci_core.specs.Sharers.{IsValidSharer};
ghost use Rattle.sci_core.specs.Whole.{nodes_of, state_of};

use crate::keeps::Keeps;
use crate::lines::Line;
use crate::pending::Pending;
use crate::stages::Stage;
use crate::whole::Whole;
use sci_words::{Mem, NodeId, Tag};
use std::fmt;

/// Its stage, and the line that it keeps, where it keeps one.
impl fmt::Debug for Pending {
    fn fmt<W: fmt::Write>(&self, f: &mut fmt::Formatter<W>) -> fmt::Result {
        fmt::Debug::fmt(&self.stage(), f)?;
        match self.kept_line() {
            Some(line) => write!(f, " with {line:?}"),
            None => Ok(()),
        }
    }
}

// The line in memory's slot, where it is at home.
fn memory_at_home(memory: &Mem, bytes: &Line) -> Option<Line>
    ensures { result ≡ memory_slot_of memory.now bytes.now }
{
    if memory.lent { None } else { Some(*bytes) }
}

// Whether a step has its node's own slot in hand.
fn has_slot(stage: &Stage) -> bool
    ensures { (l : a_line.Line) → result ≡ has_slot (phase_of (pending_of stage.now l)) }
{
    !matches!(
        stage,
        Stage::Idle | Stage::Converting { .. } | Stage::Rolling { .. } | Stage::Unlinked { .. }
    )
}

// The line in a node's slot, where it is at home.
pub(crate) fn at_home(tag: &Tag, stage: &Stage, line: &Line) -> Option<Line>
    ensures { result ≡ slot_of tag.now stage.now line.now }
{
    if has_slot(stage) || tag.held {
        None
    } else {
        Some(*line)
    }
}

// Whether a step has memory's slot in hand.
fn has_memory_slot(stage: &Stage) -> bool
    ensures { (l : a_line.Line) → result ≡ has_memory_slot (phase_of (pending_of stage.now l)) }
{
    matches!(stage, Stage::Fetching { .. } | Stage::WritingBack)
}

// The line of the step that has memory's slot in hand.
fn memory_in_hand(stages: &[Stage], lines: &[Line]) -> Option<Line>
    requires { length lines.now ≡ length stages.now }
    ensures { FindsKept HasMemorySlot (step_laid stages.now lines.now) result }
{
    for (place, stage) in stages.iter().enumerate() {
        if has_memory_slot(stage) {
            return Some(lines[place]);
        }
    }
    None
}

// Whether a step copies this node's bytes.
fn copies(stage: &Stage, node: NodeId) -> bool
    ensures { (l : a_line.Line) → IsTrue result ↔ IsCopying (pending_of stage.now l) node }
{
    match stage {
        Stage::Copying { forw, .. } => *forw == node,
        _ => false,
    }
}

// The line of the step that copies a node's bytes.
fn copied_from(stages: &[Stage], lines: &[Line], node: NodeId) -> Option<Line>
    requires { length lines.now ≡ length stages.now }
    ensures { FindsKept (λ p. IsCopying p node) (step_laid stages.now lines.now) result }
{
    for (place, stage) in stages.iter().enumerate() {
        if copies(stage, node) {
            return Some(lines[place]);
        }
    }
    None
}

impl<K: Keeps> Whole<K> {
    /// Memory's line as it stands: the line in its slot, or that of the step that has the slot in hand.
    pub fn memory_line(&self) -> Line
        ensures { IsMemoryCopy (state_of self.now) result }
    {
        memory_at_home(&self.memory, &self.memory_bytes)
            .or(memory_in_hand(&self.stages, &self.lines))
            .unwrap_or(Line::ZERO)
    }

    /// A node's line as it stands: the line in its slot, or that of the step that has the slot in hand. Where that step keeps
    /// no line, as between its queueing and its fetch, these bytes are nobody's, and the answer is open.
    pub fn line(&self, node: NodeId) -> Line
        requires { node < nodes_of self.now }
        ensures copy { (v : Line) → IsCopy (state_of self.now) node v → result ≡ v }
        ensures sharer { IsValidSharer (state_of self.now) node → IsCopy (state_of self.now) node result }
    {
        let place = usize::from(node.get());
        let (tag, stage, line) = (&self.tags[place], &self.stages[place], &self.lines[place]);
        at_home(tag, stage, line)
            .or(stage.with(line).kept_line())
            .or(copied_from(&self.stages, &self.lines, node))
            .unwrap_or(Line::ZERO)
    }
}
