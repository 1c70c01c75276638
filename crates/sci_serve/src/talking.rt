//! The command `talk`: a script's commands one by one, each answered before more is read.

ghost use Rattle.std.specs.Prelude.{◌≡◌, ◌<◌, ◌++◌, ◌∷◌, [], ℕ, false, List, All, length, take, string_bytes, ◌==◌, IfErr, IfOk, IfSome, OnOk, OnErr, MatchOption};
ghost use Rattle.std.specs.Io.KnownBytes.{Appends, IsAtEnd};
ghost use Rattle.std.specs.Str.Lines.{lines};
ghost use Rattle.sci_script.specs.Talks.{Standing, Silent};
ghost use Rattle.sci_script.specs.Talkers.{standing_of};
ghost use Rattle.sci_serve.specs.Explained.{IsExplainedIn, IsToldOf};
ghost use Rattle.sci_serve.specs.Talked.{refused_line, ending_line, IsAccepted, IsRefused, Answers, Talks, StopsTalking, IsKeptBut, IsPart, line_by, Ends, Begins};

use crate::faults::SimFault;
use crate::reasons::{Explain, Untold, has_reason};
use sci_script::{Reason, ScriptRefusal, Talk, WriteFailed, line_end, put, without_return};
use std::alloc::{AllocError, Global};
use std::io::{ErrorKind, Read, Write};

/// How many bytes a line may have: as many as a script.
const LINE: usize = 1_048_576;

/// What is kept of the front of a line: all of it, or why it is lost.
#[derive(Drop)]
pub(crate) struct Held {
    pub(crate) bytes: Vec<u8>,
    pub(crate) lost: Option<ScriptRefusal>,
}

impl Held {
    fn new(alloc: Global) -> Held
        ensures { IsPart result [] }
    {
        Held {
            bytes: Vec::new(alloc),
            lost: None,
        }
    }

    /// Whether no byte of the line has come.
    fn is_empty(&self) -> bool
        ensures { (seen : List ℕ) → IsKeptBut self.now.lost self.now.bytes.items seen → result ≡ (length seen == 0) }
    {
        self.bytes.is_empty() && self.lost.is_none()
    }

    /// Keeps more of the line; one byte more than a line may have, for a carriage return.
    fn hold(&mut self, bytes: &[u8])
        ensures { (seen : List ℕ) → IsKeptBut self.old.lost self.old.bytes.items seen → IsKeptBut self.new.lost self.new.bytes.items (seen ++ bytes.now) }
    {
        if bytes.is_empty() || self.lost.is_some() {
            return;
        }
        if self.bytes.len() + bytes.len() > LINE + 1 {
            self.lost = Some(ScriptRefusal::BadCommand(1));
        } else if self.bytes.extend_from_slice(bytes).is_err() {
            self.lost = Some(ScriptRefusal::OutOfMemory);
        }
    }

    /// Keeps nothing, for the next line.
    fn release(&mut self)
        ensures { IsPart self.new [] }
    {
        self.bytes.clear();
        self.lost = None;
    }

    /// Says the line: what it prints, or why it is refused.
    fn say(&self, is_ended: bool, talk: &mut Talk, text: &mut String) -> Result<(), ScriptRefusal>
        ensures ok { OnOk result ((seen : List ℕ) → IsKeptBut self.now.lost self.now.bytes.items seen → IsAccepted (standing_of talk.old) (line_by is_ended seen) (string_bytes text.new) (standing_of talk.new)) }
        ensures err { IfErr result (λ e. (seen : List ℕ) → IsKeptBut self.now.lost self.now.bytes.items seen → IsRefused (standing_of talk.old) (line_by is_ended seen) e (standing_of talk.new)) }
    {
        if let Some(refusal) = self.lost {
            return Err(refusal);
        }
        let bytes = self.bytes.as_slice();
        let line = if is_ended {
            without_return(bytes)
        } else {
            bytes
        };
        if line.len() > LINE {
            return Err(ScriptRefusal::BadCommand(1));
        }
        talk.say(line, text)
    }

    /// Why the line was refused, by the talk behind that. Refusal 7 alone.
    fn why(&self, is_ended: bool, talk: &Talk) -> Result<Option<Reason>, AllocError>
        ensures { IfOk result (λ why. (seen : List ℕ) → IsKeptBut self.now.lost self.now.bytes.items seen → IsExplainedIn (standing_of talk.now) (line_by is_ended seen) why) }
    {
        match self.lost {
            Some(ScriptRefusal::BadCommand(_)) => return Ok(Some(Reason::TooLong)),
            Some(_) => return Err(AllocError),
            None => {}
        }
        let bytes = self.bytes.as_slice();
        let line = if is_ended {
            without_return(bytes)
        } else {
            bytes
        };
        if line.len() > LINE {
            return Ok(Some(Reason::TooLong));
        }
        talk.why(line)
    }
}

/// The answer to a refused line.
fn refused(refusal: ScriptRefusal) -> &'static [u8]
    ensures { result.now ≡ refused_line refusal }
{
    match refusal {
        ScriptRefusal::OutOfMemory => b"refused 7\n",
        ScriptRefusal::BadCommand(_) => b"refused 16\n",
        ScriptRefusal::BadNumber(_) => b"refused 17\n",
        ScriptRefusal::NotDone(_) => b"refused 18\n",
        ScriptRefusal::WriteFailed => b"refused 24\n",
    }
}

/// How an answer ends.
fn ending(said: &Result<(), ScriptRefusal>) -> &'static [u8]
    ensures { result.now ≡ ending_line said.now }
{
    match said {
        Ok(()) => b"ok\n",
        Err(refusal) => refused(*refusal),
    }
}

/// A line that has ended, and the bytes behind its end.
#[derive(Drop)]
struct Ended<'a> {
    line: &'a [u8],
    behind: &'a [u8],
}

/// The first line of these bytes that has an end.
fn first_ended(bytes: &[u8]) -> Option<Ended<'_>>
    ensures cut { MatchOption result (All (λ b. (b == 10) ≡ false) bytes.now) (λ e. (bytes.now ≡ e.line.now ++ 10 ∷ e.behind.now) × All (λ b. (b == 10) ≡ false) e.line.now) }
    ensures shorter { IfSome result (λ e. length e.behind.now < length bytes.now) }
{
    match line_end(bytes) {
        Some(end) => Some(Ended {
            line: &bytes[..end],
            behind: &bytes[end + 1..],
        }),
        None => None,
    }
}

/// A talk with the line that is read and the text that is printed: their memory is used again for each line.
#[derive(Drop)]
struct Talker {
    talk: Talk,
    held: Held,
    text: String,
}

impl Talker {
    fn new(alloc: Global) -> Talker
        ensures talk { standing_of result.talk ≡ Silent }
        ensures held { IsPart result.held [] }
    {
        Talker {
            talk: Talk::start(alloc),
            held: Held::new(alloc),
            text: String::new(alloc),
        }
    }

    /// What is to be told of the line that was said: why it is refused, where it is, and that is wanted. Refusal 7 alone.
    fn why(
        &self,
        is_ended: bool,
        said: &Result<(), ScriptRefusal>,
        is_wanted: bool,
    ) -> Result<Option<Reason>, AllocError>
        ensures { IfOk result (λ why. (seen : List ℕ) → IsPart self.now.held seen → IsToldOf is_wanted said.now (standing_of self.now.talk) (line_by is_ended seen) why) }
    {
        if is_wanted && has_reason(said) {
            self.held.why(is_ended, &self.talk)
        } else {
            Ok(None)
        }
    }

    /// Answers the line that has come to its end, or to that of the input; where it is refused, it is told why behind that.
    fn answer<E: Explain, W: Write>(
        &mut self,
        is_ended: bool,
        explain: &E,
        out: &mut W,
    ) -> Result<(), WriteFailed>
        ensures ok { OnOk result ((seen : List ℕ) → IsPart self.old.held seen → (text : List ℕ) × Answers (standing_of self.old.talk) (line_by is_ended seen) text (standing_of self.new.talk)
            × Appends (W.contents out.old) (W.contents out.new) text) }
        ensures err { OnErr result ((seen : List ℕ) → IsPart self.old.held seen → (text : List ℕ) × (n : ℕ) × Answers (standing_of self.old.talk) (line_by is_ended seen) text (standing_of self.new.talk)
            × Appends (W.contents out.old) (W.contents out.new) (take n text)) }
        ensures held { OnOk result (IsPart self.new.held []) }
    {
        let said = self.held.say(is_ended, &mut self.talk, &mut self.text);
        let why = self.why(is_ended, &said, explain.is_wanted());
        self.held.release();
        if said.is_ok() {
            put(out, self.text.as_bytes())?;
        }
        put(out, ending(&said))?;
        match out.flush() {
            Ok(()) => {
                explain.explain(why.unwrap_or(None));
                Ok(())
            }
            Err(_) => Err(WriteFailed),
        }
    }

    /// Answers each line that ends in these bytes, and keeps what is left.
    fn hear<E: Explain, W: Write>(
        &mut self,
        bytes: &[u8],
        explain: &E,
        out: &mut W,
    ) -> Result<(), WriteFailed>
        ensures ok { OnOk result ((part : List ℕ) → IsPart self.old.held part → (ended : List (List ℕ)) × (left text : List ℕ) × Ends part bytes.now ended left × IsPart self.new.held left
            × Talks (standing_of self.old.talk) ended text (standing_of self.new.talk) × Appends (W.contents out.old) (W.contents out.new) text) }
        ensures err { OnErr result ((part : List ℕ) → IsPart self.old.held part → (ended : List (List ℕ)) × (text : List ℕ) × (n : ℕ) × Begins part bytes.now ended
            × Talks (standing_of self.old.talk) ended text (standing_of self.new.talk) × Appends (W.contents out.old) (W.contents out.new) (take n text)) }
    {
        let mut rest = bytes;
        while let Some(ended) = first_ended(rest) {
            self.held.hold(ended.line);
            self.answer(true, explain, out)?;
            rest = ended.behind;
        }
        self.held.hold(rest);
        Ok(())
    }

    /// Answers the last line, where it has no line end.
    fn finish<E: Explain, W: Write>(&mut self, explain: &E, out: &mut W) -> Result<(), WriteFailed>
        ensures ok { OnOk result ((part : List ℕ) → IsPart self.old.held part → (text : List ℕ) × Talks (standing_of self.old.talk) (lines part) text (standing_of self.new.talk)
            × Appends (W.contents out.old) (W.contents out.new) text) }
        ensures err { OnErr result ((part : List ℕ) → IsPart self.old.held part → (text : List ℕ) × (n : ℕ) × Talks (standing_of self.old.talk) (lines part) text (standing_of self.new.talk)
            × Appends (W.contents out.old) (W.contents out.new) (take n text)) }
    {
        if self.held.is_empty() {
            return Ok(());
        }
        self.answer(false, explain, out)
    }
}

/// Reads a script's commands one by one, and answers each before it reads on: what the line prints, then `ok`, or `refused N` alone.
/// It goes on behind a refusal, and a refused line is as `Talk::say` has it. A comment, or a line of blanks, is answered by `ok`. The
/// writer is flushed behind each answer. A line of more than 1,048,576 bytes is refused 16, and not kept; one that memory is refused
/// for 7. It ends at the end of the input. Behind each answer that refuses it is told why.
pub fn serve_talk_by<E: Explain, R: Read, W: Write>(
    alloc: Global,
    explain: &E,
    reader: &mut R,
    writer: &mut W,
) -> Result<(), SimFault>
    ensures ok { OnOk result (IfSome (R.remaining reader.old) (λ input. (text : List ℕ) × (t : Standing) × Talks Silent (lines input) text t
        × Appends (W.contents writer.old) (W.contents writer.new) text)) }
    ensures err { IfErr result (λ e. IfSome (R.remaining reader.old) (λ input. (written : List ℕ) × StopsTalking e input written
        × Appends (W.contents writer.old) (W.contents writer.new) written)) }
    ensures end { OnOk result (IsAtEnd (R.remaining reader.new)) }
{
    let mut talker = Talker::new(alloc);
    let mut buffer = [0u8; 4096];
    for _ in 0..u64::MAX {
        match reader.read(&mut buffer) {
            Ok(0) => return Ok(talker.finish(explain, writer)?),
            Ok(count) => talker.hear(&buffer[..count], explain, writer)?,
            Err(error) if error.kind() == ErrorKind::Interrupted => {}
            Err(_) => return Err(SimFault::CannotRead),
        }
    }
    Err(SimFault::CannotRead)
}

/// The same, and why a line is refused isn't told.
pub fn serve_talk<R: Read, W: Write>(
    alloc: Global,
    reader: &mut R,
    writer: &mut W,
) -> Result<(), SimFault>
    ensures ok { OnOk result (IfSome (R.remaining reader.old) (λ input. (text : List ℕ) × (t : Standing) × Talks Silent (lines input) text t
        × Appends (W.contents writer.old) (W.contents writer.new) text)) }
    ensures err { IfErr result (λ e. IfSome (R.remaining reader.old) (λ input. (written : List ℕ) × StopsTalking e input written
        × Appends (W.contents writer.old) (W.contents writer.new) written)) }
    ensures end { OnOk result (IsAtEnd (R.remaining reader.new)) }
{
    serve_talk_by(alloc, &Untold, reader, writer)
}
