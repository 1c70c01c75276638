//! Why a command of a script was refused, by the desk as it stands.
ghost use Rattle.std.specs.Prelude.{◌≡◌, ◌<◌, ◌^◌, ℕ, List, Option, Some, Err, length, slice_get, IfOk};
ghost use Rattle.sci_script.specs.declared.commands.Step.{Step};
ghost use Rattle.sci_script.specs.declared.refusals.ScriptRefusal.{ScriptRefusal};
ghost use Rattle.sci_script.specs.Causes.{IsRefusedFor};
ghost use Rattle.sci_script.specs.Format.{reading_of, script_of};
ghost use Rattle.sci_script.specs.Reasons.{IsWhy, IsUnendedBy, wait_reason, unbegun_reason, IsWhyAt, IsWhyOn, refused_line, IsWhyStopped, IsWhyScript, IsWhySaid, IsWhyTaken};
ghost use Rattle.sci_script.specs.Run.{Leaves};
ghost use Rattle.sci_script.specs.Shared.{Shared, shared_is_open, shared_does};
ghost use Rattle.sci_script.specs.Size.{IsIn};
ghost use Rattle.sci_script.specs.Waiting.{IsAwaited};
ghost use Rattle.sci_script.specs.Wholes.{shared_of};

use crate::commands::{Command, Script};
use crate::desk::Desk;
use crate::reader::read_lines;
use crate::reasons::Reason;
use crate::refusals::ScriptRefusal;
use crate::said::Read;
use crate::talk::{Talk, TalkState};
use crate::unread::Unread;
use crate::whole_desk::WholeDesk;
use sci_words::{LineNo, NodeId};
use std::alloc::{AllocError, Global};
use std::io;

impl WholeDesk {
    /// Why the node's call on this line doesn't end.
    fn why_waiting(&self, line: LineNo, node: NodeId) -> Reason
        requires line { line < self.now.size.lines }
        requires node { node < self.now.size.nodes }
        ensures { (whom : Option ℕ) × IsAwaited (shared_of self.now) line node whom × (result ≡ wait_reason node whom) }
    {
        match self.waits_for(line, node) {
            Some(whom) => Reason::WaitsFor(node, whom),
            None => Reason::Unended(node),
        }
    }

    /// Why the node's call doesn't end, if it has one.
    fn why_unended(&self, node: NodeId) -> Reason
        requires { node < self.now.size.nodes }
        ensures { IsUnendedBy (shared_of self.now) node ((shared_of self.now).nodes node).call (Some result) }
    {
        match self.open_call(node) {
            Some(call) => self.why_waiting(call.line_at_work(), node),
            None => Reason::NoCall(node),
        }
    }

    /// Why a command was refused over this desk, as it stands behind the refusal: the node's call is open, or it has none; or, of a
    /// `done`, whom the node waits for. None where nothing is in the command's way.
    pub fn why(&self, command: Command) -> Option<Reason>
        requires { IsIn self.now.size command }
        ensures { IsWhy (shared_of self.now) command result }
    {
        match command {
            Command::Begin { node, .. } if self.open(node) => Some(Reason::CallOpen(node)),
            Command::Turn { node } if !self.open(node) => Some(Reason::NoCall(node)),
            Command::Done { node } => Some(self.why_unended(node)),
            _ => None,
        }
    }
}

impl Script {
    /// Why the command on this line of text was refused over this desk.
    fn why_at(&self, desk: &WholeDesk, number: u64) -> Option<Reason>
        requires { desk.now.size ≡ self.now.size }
        ensures { (k : ℕ) → (step : Step) → slice_get self.now.steps.items k ≡ Some step → step.number ≡ number → IsWhyAt self.now.steps.items (shared_of desk.now) number result }
    {
        for step in &self.steps {
            if step.number == number {
                return desk.why(step.command);
            }
        }
        None
    }

    /// Why its run, which left this desk, was refused so.
    fn why_left(
        &self,
        desk: &WholeDesk,
        refusal: ScriptRefusal,
    ) -> Result<Option<Reason>, AllocError>
        requires { desk.now.size ≡ self.now.size }
        ensures { IfOk result (λ why. (s : Shared) → (written : List ℕ) → Leaves shared_is_open shared_does self.now.size.nodes s self.now.steps.items refusal written (shared_of desk.now)
            → IsWhyOn self.now.steps.items (shared_of desk.now) (refused_line refusal) why) }
    {
        match refusal {
            ScriptRefusal::BadCommand(number) => Ok(self.why_at(desk, number)),
            ScriptRefusal::NotDone(number) => Ok(self.why_at(desk, number)),
            _ => Err(AllocError),
        }
    }

    /// Why its run is refused, in words.
    fn why_stopped(&self, alloc: Global) -> Result<Option<Reason>, AllocError>
        ensures { IfOk result (IsWhyStopped self.now.size self.now.capacity self.now.openings.items self.now.steps.items) }
    {
        let mut desk = WholeDesk::open(alloc, self)?;
        match self.run(alloc, &mut desk, &mut io::sink()) {
            Ok(()) => Ok(None),
            Err(refusal) => self.why_left(&desk, refusal),
        }
    }
}

/// Why a script is refused, in words: as it is read, or where it can be, as it is run. None where it isn't refused. What the reader
/// refuses has a reason of just that refusal. Refusal 7 alone.
pub fn why_script(alloc: Global, text: &[u8]) -> Result<Option<Reason>, AllocError>
    ensures why { IfOk result (IsWhyScript (reading_of text.now)) }
    ensures unread { IfOk result (λ why. (e : ScriptRefusal) → script_of text.now ≡ Err e → IsRefusedFor e why) }
{
    match read_lines(alloc, text) {
        Ok(script) => script.why_stopped(alloc),
        Err(Unread::OutOfMemory) => Err(AllocError),
        Err(Unread::Refused { reason, .. }) => Ok(Some(reason)),
    }
}

/// Why a command that would be the first was refused.
fn unbegun(command: Command) -> Option<Reason>
    ensures { result ≡ unbegun_reason command }
{
    match command {
        Command::Turn { node } | Command::Done { node } => Some(Reason::NoCall(node)),
        _ => None,
    }
}

impl Talk {
    ghost use Rattle.std.specs.Prelude.{Ok};
    ghost use Rattle.sci_script.specs.Size.{IsReadIn};
    ghost use Rattle.sci_script.specs.Talkers.{standing_of};
    ghost use Rattle.sci_script.specs.Talks.{place_of};

    /// Why what a line says was refused.
    fn why_taken(&self, read: Read) -> Option<Reason>
        requires { IsReadIn (place_of (standing_of self.now)).size read }
        ensures { IsWhyTaken (standing_of self.now) (Ok read) result }
    {
        let Read::Command(command) = read else {
            return None;
        };
        match &self.state {
            TalkState::Gathering(_) => unbegun(command),
            TalkState::Going(going) => going.desk.why(command),
        }
    }

    /// Why a line that isn't skipped was refused, in words, by the talk as it stands behind the refusal. Refusal 7 alone.
    pub fn why(&self, line: &[u8]) -> Result<Option<Reason>, AllocError>
        ensures { IfOk result (IsWhySaid (standing_of self.now) line.now) }
    {
        match self.heard(line) {
            Ok(read) => Ok(self.why_taken(read)),
            Err(Unread::OutOfMemory) => Err(AllocError),
            Err(Unread::Refused { reason, .. }) => Ok(Some(reason)),
        }
    }
}
