//! A desk that logs the events of its turns.

ghost use Rattle.std.specs.Prelude.{◌≡◌, ◌⊎◌, ◌++◌, [], true, false, IfOk};
ghost use Rattle.sci_script.specs.ScriptText.{Opens};
ghost use Rattle.sci_script.specs.Wholes.{shared_of};
ghost use Rattle.sci_logs.specs.TurnText.{entries_of};
ghost use Rattle.sci_trace.specs.NoteText.{note_bytes};

use crate::turn_text::push_entries;
use sci_cache::Request;
use sci_ops::Turn;
use sci_port::Passed;
use sci_script::{Ask, Desk, Look, Script, Size, Toward, WholeDesk};
use sci_trace::parts::NoteText;
use sci_words::{LineNo, Mem, NodeId, Tag};
use std::alloc::{AllocError, Global};

/// Whole lines, a look or an exchange each. Where memory was refused for one, there is none, and it says so from then on.
#[derive(Drop)]
pub struct LogText {
    alloc: Global,
    pub(crate) text: NoteText,
    pub(crate) is_cut: bool,
}

impl LogText {
    /// No lines.
    pub(crate) fn new(alloc: Global) -> LogText
        ensures empty { note_bytes result.text ≡ [] }
        ensures whole { result.is_cut ≡ false }
    {
        LogText {
            alloc,
            text: NoteText::new(alloc),
            is_cut: false,
        }
    }

    /// Adds what passed in a turn.
    fn add(&mut self, node: NodeId, passed: &Passed)
        ensures { (self.new.is_cut ≡ true) ⊎ ((self.new.is_cut ≡ self.old.is_cut) × (note_bytes self.new.text ≡ note_bytes self.old.text ++ entries_of node passed.now)) }
    {
        match push_entries(self.alloc, &mut self.text, node, passed) {
            Ok(()) => {}
            Err(_) => self.is_cut = true,
        }
    }
}

/// A desk of whole lines, and what passed in the turns that were taken.
#[derive(Drop)]
pub struct LogDesk {
    pub(crate) size: Size,
    pub(crate) desk: WholeDesk,
    pub(crate) log: LogText,
    ghost same: { desk.size ≡ size },
}

impl LogDesk {
    /// A desk of the script's lines and nodes, as `WholeDesk::open` has it. Refusal 7 alone.
    pub fn open(alloc: Global, script: &Script) -> Result<LogDesk, AllocError>
        ensures size { IfOk result (λ desk. desk.size ≡ script.now.size) }
        ensures opened { IfOk result (λ desk. Opens script.now.size script.now.capacity script.now.openings.items (shared_of desk.desk)) }
    {
        let size = Size {
            nodes: script.nodes(),
            lines: script.lines(),
        };
        let desk = WholeDesk::open(alloc, script)?;
        Ok(LogDesk {
            size,
            desk,
            log: LogText::new(alloc),
        })
    }
}

impl Desk for LogDesk {
    ghost use Rattle.sci_script.specs.Shared.{shared_far};
    ghost use Rattle.sci_logs.specs.Logging.{logging_of, logs};
    ghost use Rattle.sci_trace.specs.Telling.{telling_is_open};

    ghost size = { λ desk. desk.size };

    ghost is_open = { λ desk node. telling_is_open (logging_of desk) node };

    ghost far = { λ desk line. shared_far (shared_of desk.desk) line };

    ghost does = { λ s call t. logs (logging_of s) call (logging_of t) };

    fn open(&self, node: NodeId) -> bool {
        self.desk.open(node)
    }

    fn begin(&mut self, node: NodeId, request: Request) -> Result<(), AllocError> {
        self.desk.begin(node, request)
    }

    fn turn(&mut self, node: NodeId) -> Turn {
        let mut passed = Passed::NOTHING;
        let turn = self.desk.watched_turn(node, &mut passed);
        self.log.add(node, &passed);
        turn
    }

    // Each turn adds its looks.
    fn waits_on(&self) -> bool {
        false
    }

    fn rest_turn(&mut self, line: LineNo) -> Toward {
        let mut passed = Passed::NOTHING;
        let toward = self.desk.watched_rest_turn(line, &mut passed);
        let Toward::Turned(mover) = toward else {
            return toward;
        };
        self.log.add(mover, &passed);
        toward
    }

    fn look(&self, alloc: Global, ask: Ask) -> Result<Look, AllocError> {
        self.desk.look(alloc, ask)
    }

    fn mem(&mut self, line: LineNo) -> Option<Mem> {
        self.desk.mem(line)
    }

    fn tag(&mut self, line: LineNo, node: NodeId) -> Option<Tag> {
        self.desk.tag(line, node)
    }
}
