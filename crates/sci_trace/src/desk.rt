//! A desk that says of each turn what it did.

ghost use Rattle.std.specs.Prelude.{◌≡◌, ◌<◌, ◌≤◌, ◌⊎◌, ◌++◌, true, IfOk};
ghost use Rattle.sci_trace.specs.NoteText.{note_bytes};
ghost use Rattle.sci_core.specs.Stage.{stage_of};
ghost use Rattle.sci_script.specs.Event.{Turned, IsNoEnd};
ghost use Rattle.sci_script.specs.Shared.{shared_does};
ghost use Rattle.sci_script.specs.Wholes.{shared_of};
ghost use Rattle.sci_trace.specs.Lists.{walked};
ghost use Rattle.sci_trace.specs.Notes.{Told, line_of_turn};

use crate::notes::Notes;
use crate::texts::Wait;
use sci_cache::Request;
use sci_ops::{Goal, Turn};
use sci_port::Passed;
use sci_script::{Ask, Desk, Look, Script, Size, Toward, WholeDesk};
use sci_words::{LineNo, Mem, NodeId, Tag};
use std::alloc::{AllocError, Global};

/// A desk of whole lines, and the lines of the turns that were taken since they were dropped last.
#[derive(Drop)]
pub struct TraceDesk {
    pub(crate) size: Size,
    desk: WholeDesk,
    pub(crate) notes: Notes,
    ghost same: { desk.size ≡ size },
}

impl TraceDesk {
    ghost use Rattle.sci_script.specs.ScriptText.{Opens};
    ghost use Rattle.sci_script.specs.Wholes.{shared_of};
    ghost use Rattle.sci_trace.specs.Telling.{AddsLine, IsWait, telling_is_open, telling_of};

    /// A desk of the script's lines and nodes, as `WholeDesk::open` has it. Refusal 7 alone.
    pub fn open(alloc: Global, script: &Script) -> Result<TraceDesk, AllocError>
        ensures size { IfOk result (λ desk. desk.size ≡ script.now.size) }
        ensures opened { IfOk result (λ desk. Opens script.now.size script.now.capacity script.now.openings.items (shared_of desk.desk)) }
    {
        let size = Size {
            nodes: script.nodes(),
            lines: script.lines(),
        };
        let desk = WholeDesk::open(alloc, script)?;
        Ok(TraceDesk {
            size,
            desk,
            notes: Notes::new(alloc),
        })
    }

    /// The wait of a turn that was just taken, which stands for so many.
    #[inline(always)]
    fn wait_of(&self, node: NodeId, line: LineNo, turn: &Turn, times: u32) -> Option<Wait>
        requires node { node < self.now.size.nodes }
        requires line { line < self.now.size.lines }
        ensures { IsWait turn.now (shared_of self.now.desk) line node times result }
    {
        match turn {
            Turn::Waiting => Some(Wait {
                times,
                whom: self.desk.waits_for(line, node),
            }),
            Turn::Moved | Turn::Done(_) => None,
        }
    }

    /// Adds the line of a turn that was just taken. One that waits stands for so many.
    #[inline(always)]
    fn tell(&mut self, node: NodeId, goal: &Option<Goal>, passed: &Passed, turn: &Turn, times: u32)
        requires node { node < self.old.size.nodes }
        requires line { passed.now.line < self.old.size.lines }
        ensures same { shared_of self.new.desk ≡ shared_of self.old.desk }
        ensures told { (self.new.notes.is_cut ≡ true) ⊎ ((self.new.notes.is_cut ≡ self.old.notes.is_cut) × (told : Told) × (told.node ≡ node) × (told.goal ≡ goal.now) × (told.passed ≡ passed.now) × IsWait turn.now (shared_of self.old.desk) passed.now.line node times told.wait
            × (told.stage ≡ stage_of (((shared_of self.old.desk).lines passed.now.line).steps node)) × (told.mem ≡ ((shared_of self.old.desk).lines passed.now.line).memory)
            × (told.entries ≡ walked ((shared_of self.old.desk).lines passed.now.line).tags (shared_of self.old.desk).width told.mem.forw)
            × (note_bytes self.new.notes.text ≡ note_bytes self.old.notes.text ++ line_of_turn told)) }
        ensures size { self.new.size ≡ self.old.size }
    {
        let line = passed.line;
        let wait = self.wait_of(node, line, turn, times);
        let Some(mem) = self.desk.mem(line) else {
            unreachable!()
        };
        let stage = self.desk.stage(line, node);
        let nodes = self.size.nodes;
        let desk = &mut self.desk;
        self.notes
            .tell(desk, node, goal, passed, &stage, &wait, mem, nodes);
    }

    /// One turn of the node's open call, as `turn`. Where it waits, its line stands for so many turns.
    #[inline(always)]
    pub(crate) fn take(&mut self, node: NodeId, times: u32) -> Turn
        requires node { node < self.old.size.nodes }
        requires open { telling_is_open (telling_of self.old) node ≡ true }
        ensures turned { shared_does (shared_of self.old.desk) (Turned node result) (shared_of self.new.desk) }
        ensures told { AddsLine (telling_of self.old) node result times (telling_of self.new) }
        ensures open { IsNoEnd result → telling_is_open (telling_of self.new) node ≡ true }
        ensures size { self.new.size ≡ self.old.size }
    {
        let goal = self.desk.goal_at_work(node);
        let mut passed = Passed::NOTHING;
        let turn = self.desk.watched_turn(node, &mut passed);
        self.tell(node, &goal, &passed, &turn, times);
        turn
    }
}

impl Desk for TraceDesk {
    ghost use Rattle.sci_script.specs.Shared.{shared_far};
    ghost use Rattle.sci_trace.specs.Telling.{telling_of, telling_is_open, tells};

    ghost size = { λ desk. desk.size };

    ghost is_open = { λ desk node. telling_is_open (telling_of desk) node };

    ghost far = { λ desk line. shared_far (shared_of desk.desk) line };

    ghost does = { λ s call t. tells (telling_of s) call (telling_of t) };

    fn open(&self, node: NodeId) -> bool {
        self.desk.open(node)
    }

    fn begin(&mut self, node: NodeId, request: Request) -> Result<(), AllocError> {
        self.desk.begin(node, request)
    }

    fn turn(&mut self, node: NodeId) -> Turn {
        self.take(node, 1)
    }

    // Each turn adds its line.
    fn waits_on(&self) -> bool {
        false
    }

    fn rest_turn(&mut self, line: LineNo) -> Toward {
        let mut passed = Passed::NOTHING;
        let toward = self.desk.watched_rest_turn(line, &mut passed);
        let Toward::Turned(node) = toward else {
            return toward;
        };
        // no call ends or begins in a turn towards rest
        let goal = self.desk.goal_at_work(node);
        self.tell(node, &goal, &passed, &Turn::Moved, 1);
        toward
    }

    fn look(&self, alloc: Global, ask: Ask) -> Result<Look, AllocError> {
        self.desk.look(alloc, ask)
    }

    fn mem(&mut self, line: LineNo) -> Option<Mem> {
        self.desk.mem(line)
    }

    fn tag(&mut self, line: LineNo, node: NodeId) -> Option<Tag> {
        self.desk.tag(line, node)
    }
}
