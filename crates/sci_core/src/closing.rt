//! A line once nobody uses it any more.
ghost use Rattle.std.specs.Prelude.{◌≡◌, ◌≢◌, ℕ, ◌<◌, ◌≤◌, [], List, IfOk, Contains, length, map, slice_index_or, vec_capacity};
ghost use Rattle.sci_words.specs.declared.memory.MemState.TheVariants.{Gone};
ghost use Rattle.sci_core.specs.declared.pending.Pending.TheVariants.{Idle};
ghost use Rattle.sci_core.specs.Closed.{IsExactBy, IsExactClosed, IsReadOff, value_of};
ghost use Rattle.sci_core.specs.State.{blank};
ghost use Rattle.sci_core.specs.Step.{line_in};
ghost use Rattle.sci_core.specs.Whole.{nodes_of, state_of};

use crate::keeps::Keeps;
use crate::lines::Line;
use crate::whole::Whole;
use sci_words::{Mem, NodeId, Tag};
use std::alloc::{AllocError, Global};
use std::marker::Model;

/// A line of the shared memory at rest: the memory word and memory's line, and each node's tag and line. Its words are
/// well formed, and there are as many lines as tags.
#[derive(Drop, Debug)]
pub struct Closed {
    pub mem: Mem,
    pub memory: Line,
    pub tags: Vec<Tag>,
    pub lines: Vec<Line>,
}

impl Model for Closed {
    ghost use Rattle.sci_core.specs.Closed.{ClosedLine, IsClosed};

    ghost Value = { ClosedLine };

    ghost view = { λ c. record { mem = c.mem; memory = c.memory; tags = c.tags.items; lines = c.lines.items } };

    ghost invariant = { λ c. IsClosed record { mem = c.mem; memory = c.memory; tags = c.tags.items; lines = c.lines.items } };
}

impl Closed {
    // What stands in the node's slot; zeros where there is no such node.
    fn line_of(&self, node: NodeId) -> Line
        ensures { result ≡ slice_index_or self.now.lines node blank }
    {
        match self.lines.get(usize::from(node.get())) {
            Some(line) => *line,
            None => Line::ZERO,
        }
    }

    /// What the line holds, its words and their stamp: the bytes of the list's first node, or memory's where there is no list; zeros where
    /// memory's word names no node of the line. In an exact sharing list each node has it, and memory, but under GONE. All else
    /// that stands in a slot may be stale.
    pub fn value(&self) -> Line
        ensures value { result ≡ value_of self.now }
        ensures shared { (nodes : List ℕ) → IsExactBy self.now nodes → (i : ℕ) → Contains nodes i → slice_index_or self.now.lines i blank ≡ result }
        ensures memory { IsExactClosed self.now → self.now.mem.state ≢ Gone → self.now.memory ≡ result }
    {
        match self.mem.forw {
            None => self.memory,
            Some(head) => self.line_of(head),
        }
    }
}

// Copies, in room that was taken before.
fn copied_into<T: Copy>(mut room: Vec<T>, items: &[T]) -> Vec<T>
    requires empty { room.items ≡ [] }
    requires enough { length items.now ≤ vec_capacity room }
    ensures { result.items ≡ items.now }
{
    for item in items {
        room.push_reserved(*item);
    }
    room
}

impl<K: Keeps> Whole<K> {
    // The line at rest, with copies of its tags and of the lines in its slots.
    fn read_off(&self, tags: Vec<Tag>, lines: Vec<Line>) -> Closed
        requires idle { (i : ℕ) → i < nodes_of self.now → (state_of self.now).steps i ≡ Idle }
        requires tags { tags.items ≡ self.now.tags }
        requires lines { lines.items ≡ map line_in self.now.slots }
        ensures read { IsReadOff self.now result }
        ensures exact { IsExactClosed result }
    {
        Closed {
            mem: self.memory,
            memory: self.memory_bytes,
            tags,
            lines,
        }
    }

    /// The line as it stands while nobody is doing anything on it: an exact sharing list. Err: memory ran
    /// out.
    pub fn closed(&self, alloc: Global) -> Result<Closed, AllocError>
        requires { (i : ℕ) → i < nodes_of self.now → (state_of self.now).steps i ≡ Idle }
        ensures read { IfOk result (IsReadOff self.now) }
        ensures exact { IfOk result IsExactClosed }
    {
        let tags = Vec::from_slice(alloc, &self.tags)?;
        let lines = Vec::from_slice(alloc, &self.lines)?;
        Ok(self.read_off(tags, lines))
    }

    /// The same, in room for all nodes' tags and lines that was taken before.
    pub fn closed_in(&self, tags: Vec<Tag>, lines: Vec<Line>) -> Closed
        requires idle { (i : ℕ) → i < nodes_of self.now → (state_of self.now).steps i ≡ Idle }
        requires empty { (tags.items ≡ []) × (lines.items ≡ []) }
        requires tag_room { nodes_of self.now ≤ vec_capacity tags }
        requires line_room { nodes_of self.now ≤ vec_capacity lines }
        ensures read { IsReadOff self.now result }
        ensures exact { IsExactClosed result }
    {
        let tags = copied_into(tags, &self.tags);
        let lines = copied_into(lines, &self.lines);
        self.read_off(tags, lines)
    }
}
