//! The lines of the turns of one command, until they are written.

ghost use Rattle.std.specs.Prelude.{◌≡◌, ◌<◌, IfSome, ◌++◌, ◌⊎◌, [], true, false, take};
ghost use Rattle.sci_trace.specs.NoteText.{note_bytes};
ghost use Rattle.sci_script.specs.Wholes.{shared_of};
ghost use Rattle.sci_trace.specs.Lists.{walked};
ghost use Rattle.sci_trace.specs.Notes.{AreNotes};
ghost use Rattle.sci_trace.specs.Texts.{note_line};

use crate::note_text::NoteText;
use crate::texts::{Wait, push_note};
use sci_core::Stage;
use sci_ops::Goal;
use sci_port::Passed;
use sci_script::WholeDesk;
use sci_words::{Mem, NodeId};
use std::alloc::Global;

/// Whole lines, one for each turn. Where memory was refused for one, there is none, and it says so from then on.
#[derive(Drop)]
pub struct Notes {
    text: NoteText,
    is_cut: bool,
    ghost lines: { AreNotes (note_bytes text) },
}

impl Notes {
    /// No lines.
    pub(crate) fn new(alloc: Global) -> Notes
        ensures empty { note_bytes result.text ≡ [] }
        ensures whole { result.is_cut ≡ false }
    {
        Notes {
            text: NoteText::new(alloc),
            is_cut: false,
        }
    }

    /// Memory was refused for a line.
    pub(crate) fn is_cut(&self) -> bool
        ensures { result ≡ self.now.is_cut }
    {
        self.is_cut
    }

    /// Drops the lines.
    pub(crate) fn clear(&mut self)
        ensures empty { note_bytes self.new.text ≡ [] }
        ensures cut { self.new.is_cut ≡ self.old.is_cut }
    {
        self.text.clear();
    }

    /// The lines, but for what waits.
    pub(crate) fn front(&self) -> &[u8]
        ensures { result.now ≡ self.now.text.front.items }
    {
        self.text.front()
    }

    /// What waits behind them.
    pub(crate) fn waiting(&self) -> &[u8]
        ensures { result.now ≡ take self.now.text.waiting self.now.text.room }
    {
        self.text.waiting()
    }

    /// Adds the line of a turn.
    #[inline(always)]
    pub(crate) fn tell(
        &mut self,
        desk: &mut WholeDesk,
        node: NodeId,
        goal: &Option<Goal>,
        passed: &Passed,
        stage: &Stage,
        wait: &Option<Wait>,
        mem: Mem,
        nodes: u16,
    )
        requires line { passed.now.line < desk.old.size.lines }
        requires head { IfSome mem.forw (λ n. n < desk.old.size.nodes) }
        requires nodes { nodes ≡ desk.old.size.nodes }
        ensures told { (self.new.is_cut ≡ true) ⊎ ((self.new.is_cut ≡ self.old.is_cut) × (note_bytes self.new.text ≡ note_bytes self.old.text
            ++ note_line node goal.now passed.now stage.now wait.now mem (walked ((shared_of desk.old).lines passed.now.line).tags nodes mem.forw))) }
        ensures same { shared_of desk.new ≡ shared_of desk.old }
        ensures size { desk.new.size ≡ desk.old.size }
    {
        let text = &mut self.text;
        match push_note(text, desk, node, goal, passed, stage, wait, mem, nodes) {
            Ok(()) => {}
            Err(_) => {
                // the front of a line is no line
                self.text.clear();
                self.is_cut = true;
            }
        }
    }
}
