//! A script's commands, said one by one.
ghost use Rattle.std.specs.Prelude.{◌≡◌, ◌<◌, ◌⊎◌, [], string_bytes, Result, IfOk, IfErr, OnOk, OnErr, All};
ghost use Rattle.sci_script.specs.declared.commands.Size.{Size};
ghost use Rattle.sci_script.specs.declared.reasons.Reason.{Reason};
ghost use Rattle.sci_script.specs.declared.said.Read.{Read};
ghost use Rattle.sci_script.specs.Format.{Finds, on_line, sayings_of};
ghost use Rattle.sci_script.specs.Grammar.{first_place};
ghost use Rattle.sci_script.specs.Request.{words_after};
ghost use Rattle.sci_script.specs.Run.{Prints, StopsAt};
ghost use Rattle.sci_script.specs.Shared.{shared_is_open, shared_does};
ghost use Rattle.sci_script.specs.Size.{IsSize, IsIn, IsReadIn};
ghost use Rattle.sci_script.specs.Talks.{FailsFirst, Gathering, IsDeclined, Takes, Accepts, Refuses, begun, heard, place_of, said_step};
ghost use Rattle.sci_script.specs.Wholes.{shared_of};
ghost use Rattle.sci_script.specs.declared.refusals.ScriptRefusal.TheVariants.{OutOfMemory};
ghost use Rattle.sci_script.specs.declared.said.Read.TheVariants as reads;

use crate::commands::{Command, Step};
use crate::drafts::Draft;
use crate::line_words::is_skipped;
use crate::places::{Place, Stand};
use crate::reasons::Reason;
use crate::refusals::ScriptRefusal;
use crate::running::{NODES, note, perform};
use crate::said::Read;
use crate::unread::Unread;
use crate::whole_desk::WholeDesk;
use std::alloc::Global;

/// The number of a line that is said: each is a text of its own.
pub(crate) const HERE: u64 = 1;

/// A desk, and the words that the nodes' last loads are to show.
#[derive(Drop)]
pub(crate) struct Going {
    pub(crate) desk: WholeDesk,
    pub(crate) words: [u8; NODES],
    ghost is_size: { IsSize desk.size },
    ghost shown: { All (λ w. w < 8) words },
}

impl Going {
    ghost use Rattle.sci_script.specs.Request.{no_words};
    ghost use Rattle.sci_script.specs.Talkers.{going_of};

    /// A desk over which nothing was said.
    fn new(desk: WholeDesk) -> Going
        requires { IsSize desk.size }
        ensures desk { result.desk ≡ desk }
        ensures words { result.words ≡ no_words }
    {
        Going {
            desk,
            words: [0; NODES],
        }
    }

    /// One command: what it prints, behind an empty text.
    fn take(&mut self, alloc: Global, text: &mut String, step: &Step) -> Result<(), ScriptRefusal>
        requires empty { string_bytes text.old ≡ [] }
        requires command { IsIn self.old.desk.size step.now.command }
        ensures ok { OnOk result (Prints shared_is_open shared_does self.old.words (shared_of self.old.desk) step.now.command (string_bytes text.new) (shared_of self.new.desk)) }
        ensures noted { OnOk result (self.new.words ≡ words_after self.old.words step.now.command) }
        ensures err { IfErr result (λ e. StopsAt shared_is_open shared_does self.old.desk.size.nodes (shared_of self.old.desk) step.now e (shared_of self.new.desk)) }
        ensures kept { OnErr result (self.new.words ≡ self.old.words) }
        ensures size { self.new.desk.size ≡ self.old.desk.size }
    {
        let size = self.desk.size;
        perform(alloc, text, &mut self.desk, size.nodes, &self.words, *step)?;
        note(&mut self.words, size, step.command);
        Ok(())
    }
}

impl Draft {
    ghost use Rattle.sci_script.specs.Talkers.{going_of};

    /// The first command, over the desk that it opens.
    fn begin(&self, alloc: Global, text: &mut String, step: &Step) -> Result<Going, ScriptRefusal>
        requires empty { string_bytes text.old ≡ [] }
        requires command { IsIn self.now.script.size step.now.command }
        requires here { step.now ≡ said_step step.now.command }
        ensures ok { IfOk result (λ g. Takes (Gathering (sayings_of self.now)) (reads.Command step.now.command) (string_bytes text.new) (going_of g)) }
        ensures err { IfErr result (λ e. (e ≡ OutOfMemory) ⊎ FailsFirst (sayings_of self.now) step.now.command e) }
    {
        let mut going = Going::new(WholeDesk::open(alloc, &self.script)?);
        going.take(alloc, text, step)?;
        Ok(going)
    }
}

/// What a line that comes too late says, by what it says as the first of all.
fn begun(first: Result<Read, Unread>) -> Result<Read, Unread>
    ensures exact { (read : Result Read Reason) → Finds (λ r. r) first (on_line 1 read) → Finds (λ r. r) result (on_line 1 (begun read)) }
    ensures fits { IfOk first (IsReadIn first_place.size) → (size : Size) → IfOk result (IsReadIn size) }
{
    match first {
        Ok(Read::Memory(size)) => Ok(Read::Memory(size)),
        Ok(_)
        | Err(
            Unread::Refused {
                reason: Reason::Early,
                ..
            },
        ) => Err(Unread::Refused {
            number: HERE,
            reason: Reason::Late,
        }),
        Err(unread) => Err(unread),
    }
}

/// How far a talk has come.
#[derive(Drop)]
pub(crate) enum TalkState {
    /// No command was said that needs a desk.
    Gathering(Draft),
    /// One was.
    Going(Going),
}

/// A script's commands, said one by one, each answered at once.
#[derive(Drop)]
pub struct Talk {
    pub(crate) alloc: Global,
    pub(crate) state: TalkState,
}

impl Talk {
    ghost use Rattle.sci_script.specs.Talks.{Silent};
    ghost use Rattle.sci_script.specs.Talkers.{standing_of};

    /// A talk in which nothing was said.
    pub fn start(alloc: Global) -> Talk
        ensures { standing_of result ≡ Silent }
    {
        let state = TalkState::Gathering(Draft::new(alloc));
        Talk { alloc, state }
    }

    /// Where the next line stands.
    pub(crate) fn place(&self) -> Place
        ensures value { result ≡ place_of (standing_of self.now) }
        ensures size { IsSize result.size }
    {
        match &self.state {
            TalkState::Gathering(draft) => draft.place(),
            TalkState::Going(going) => Place {
                stand: Stand::Commands,
                size: going.desk.size,
            },
        }
    }

    /// What a line says. While no command was said that needs a desk, `memory` may be said again.
    pub(crate) fn heard(&self, line: &[u8]) -> Result<Read, Unread>
        ensures exact { Finds (λ r. r) result (on_line 1 (heard (standing_of self.now) line.now)) }
        ensures fits { IfOk result (IsReadIn (place_of (standing_of self.now)).size) }
    {
        let mut words = Vec::new(self.alloc);
        match (&self.state, self.place().read_line(&mut words, HERE, line)) {
            (
                TalkState::Gathering(_),
                Err(
                    Unread::Refused {
                        reason: Reason::Late,
                        ..
                    },
                ),
            ) => begun(Place::first().read_line(&mut words, HERE, line)),
            (_, read) => read,
        }
    }

    /// Takes what a line says.
    fn take(&mut self, text: &mut String, read: Read) -> Result<(), ScriptRefusal>
        requires empty { string_bytes text.old ≡ [] }
        requires read { IsReadIn (place_of (standing_of self.old)).size read }
        ensures ok { OnOk result (Takes (standing_of self.old) read (string_bytes text.new) (standing_of self.new)) }
        ensures err { IfErr result (λ e. IsDeclined (standing_of self.old) read e (standing_of self.new)) }
    {
        let number = HERE;
        match &mut self.state {
            TalkState::Gathering(draft) => match read {
                Read::Command(command) => {
                    let going = draft.begin(self.alloc, text, &Step { number, command })?;
                    self.state = TalkState::Going(going);
                }
                _ => draft.take(self.alloc, number, read)?,
            },
            TalkState::Going(going) => {
                if let Read::Command(command) = read {
                    going.take(self.alloc, text, &Step { number, command })?;
                }
            }
        }
        Ok(())
    }

    /// One line of a script, without its line end, and the text that it prints, in place of what stood there. The first lines are
    /// `memory`, `capacity` and each `open`, as in a script; the first other command opens the desk. Until then `memory` may be said
    /// again, as where the desk found no memory: what was said before is forgotten. A comment, or blanks, print nothing and change
    /// nothing.
    ///
    /// Behind a refusal the text may hold anything. The refusals: 16 for a faulty line, for one out of place, for a call begun while the
    /// node's call is open, and for a turn without a call, and 17 for a faulty number: all is as before. 18 for a call that didn't
    /// end within 100,000 turns: those were taken. 7 where memory ran out: what a command of the desk did before stays. No desk is
    /// opened by a refused command. The number of a line in a refusal is 1.
    pub fn say(&mut self, line: &[u8], text: &mut String) -> Result<(), ScriptRefusal>
        ensures ok { OnOk result (Accepts (standing_of self.old) line.now (string_bytes text.new) (standing_of self.new)) }
        ensures err { IfErr result (λ e. Refuses (standing_of self.old) line.now e (standing_of self.new)) }
    {
        text.clear();
        if is_skipped(line) {
            return Ok(());
        }
        match self.heard(line) {
            Ok(read) => self.take(text, read),
            Err(unread) => Err(ScriptRefusal::from(unread)),
        }
    }
}
