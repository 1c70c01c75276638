//! One line's whole state as a value.
ghost use Rattle.std.specs.Prelude.{◌≡◌, ◌<◌, ◌≤◌, ◌⊎◌, ◌↔◌, true, false, IfOk, IsTrue};
ghost use Rattle.sci_words.specs.Tag.{tag_well_formed, tag_links_below};
ghost use Rattle.sci_words.specs.Mem.{mem_well_formed, mem_links_below};
ghost use Rattle.sci_core.specs.Run.{HasValue, IsLawfulLine};
ghost use Rattle.sci_core.specs.Stage.{stage_of};
ghost use Rattle.sci_core.specs.declared.whole.TheConstants.{MOST_NODES};
ghost use Rattle.sci_core.specs.Whole.{nodes_of, state_of, opened_whole};

use crate::keeps::Keeps;
use crate::lines::Line;
use crate::outcomes::OpenRefusal;
use crate::pending::Pending;
use crate::stages::Stage;
use sci_words::{Kind, LineNo, Mem, MemState, NodeId, Tag};
use std::alloc::Global;
use std::marker::Model;

/// How many nodes a line has at the most.
pub const MOST_NODES: u16 = 1024;

/// The state of one line of 1 to 1,024 nodes: the memory word, each node's tag and pending step, and all slots. Between any
/// two of its calls it is lawful.
#[derive(Drop)]
pub struct Whole<K: Keeps> {
    pub(crate) keep: K,
    pub(crate) number: LineNo,
    pub(crate) memory: Mem,
    pub(crate) tags: Vec<Tag>,
    pub(crate) stages: Vec<Stage>,
    // The bytes of each slot, also while a hand has it: then those of a node are the line that its step keeps, if it keeps one.
    pub(crate) memory_bytes: Line,
    pub(crate) lines: Vec<Line>,
}

impl<K: Keeps> Model for Whole<K> {
    ghost use Rattle.sci_core.specs.Whole.{WholeLine};
    ghost use Rattle.sci_core.specs.Laid.{seen_whole, IsLaid};

    ghost Value = { WholeLine K };

    ghost view = { λ w. seen_whole w.keep w.number w.memory w.tags.items w.stages.items w.memory_bytes w.lines.items };

    ghost invariant = { λ w. IsLaid (K.fits w.keep w.number) w.keep w.number w.memory w.tags.items w.stages.items w.memory_bytes w.lines.items };
}

// A line has at least one node, and no more than the most.
fn is_node_count(nodes: u16) -> bool
    ensures good { result ≡ true → (0 < nodes) × (nodes ≤ MOST_NODES) }
    ensures bad { result ≡ false → (nodes ≡ 0) ⊎ (MOST_NODES < nodes) }
{
    nodes != 0 && nodes <= MOST_NODES
}

impl<K: Keeps> Whole<K> {
    /// A line that nobody has used: HOME, all tags Invalid, and `line` in every slot. The refusals: 6 for 0 or more than
    /// 1,024 nodes, then 7 where memory ran out. The line is lawful, and its value is `line`.
    pub fn open(
        alloc: Global,
        nodes: u16,
        number: LineNo,
        line: Line,
        keep: K,
    ) -> Result<Whole<K>, OpenRefusal>
        requires { K.fits keep number line.words }
        ensures nodes { (result ≡ Err OpenRefusal.BadNodes) ↔ ((nodes ≡ 0) ⊎ (MOST_NODES < nodes)) }
        ensures opened { IfOk result (λ w. w ≡ opened_whole keep number nodes line) }
        ensures value { IfOk result (λ w. HasValue nodes (K.fits keep number) (state_of w) line) }
    {
        if !is_node_count(nodes) {
            return Err(OpenRefusal::BadNodes);
        }
        let invalid = Tag {
            kind: Kind::Invalid,
            held: false,
            forw: None,
            back: None,
        };
        let count = usize::from(nodes);
        let tags = vec![in alloc; invalid; count]?;
        let stages = vec![in alloc; Stage::Idle; count]?;
        let lines = vec![in alloc; line; count]?;
        Ok(Whole {
            keep,
            number,
            memory: Mem {
                state: MemState::Home,
                lent: false,
                forw: None,
            },
            tags,
            stages,
            memory_bytes: line,
            lines,
        })
    }

    /// The allocator that its memory came from.
    pub fn allocator(&self) -> Global {
        *self.tags.allocator()
    }

    /// How many nodes there are, 1 to 1,024. What stands is lawful, here and between any two calls.
    pub fn nodes(&self) -> u16
        ensures nodes { result ≡ nodes_of self.now }
        ensures range { (0 < result) × (result ≤ MOST_NODES) }
        ensures lawful { IsLawfulLine (nodes_of self.now) (K.fits self.now.keep self.now.number) (state_of self.now) }
    {
        self.tags.len() as u16
    }

    /// The line's number.
    pub fn number(&self) -> LineNo
        ensures { result ≡ self.now.number }
    {
        self.number
    }

    /// The fact that its words have.
    pub fn keep(&self) -> K
        ensures { result ≡ self.now.keep }
    {
        self.keep
    }

    /// The memory word as it stands.
    pub fn mem(&self) -> Mem
        ensures value { result ≡ (state_of self.now).memory }
        ensures well_formed { IsTrue (mem_well_formed result) }
        ensures links { IsTrue (mem_links_below (nodes_of self.now) result) }
    {
        self.memory
    }

    /// A node's tag as it stands.
    pub fn tag(&self, node: NodeId) -> Tag
        requires { node < nodes_of self.now }
        ensures value { result ≡ (state_of self.now).tags node }
        ensures well_formed { IsTrue (tag_well_formed result) }
        ensures links { IsTrue (tag_links_below (nodes_of self.now) result) }
    {
        self.tags[usize::from(node.get())]
    }

    /// A node's pending step as it stands.
    #[inline(always)]
    pub fn pending(&self, node: NodeId) -> Pending
        requires { node < nodes_of self.now }
        ensures { result ≡ (state_of self.now).steps node }
    {
        let place = usize::from(node.get());
        self.stages[place].with(&self.lines[place])
    }

    /// The same, but for its line.
    pub fn stage(&self, node: NodeId) -> &Stage
        requires { node < nodes_of self.now }
        ensures { result.now ≡ stage_of ((state_of self.now).steps node) }
    {
        &self.stages[usize::from(node.get())]
    }
}
