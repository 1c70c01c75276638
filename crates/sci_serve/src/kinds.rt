//! Which of the texts that `check` judges an input is, by its first word, with no more kept of it than a dump may have.

ghost use Rattle.std.specs.Prelude.{◌≡◌, ◌<◌, ◌≤◌, ◌+◌, ◌^◌, ◌++◌, ◌∷◌, [], ℕ, List, length, take, MatchOption, IfOk, IfErr, IfSome, OnOk, slice_index, ◌==◌, if◌then◌else◌, true, false, nat_lt, ◌⊎◌, ◌&&◌, codes};
ghost use Rattle.std.specs.Str.{bytes_eq};
ghost use Rattle.std.specs.List.{list_all};
ghost use Rattle.sci_script.specs.Words.{is_blank};
ghost use Rattle.std.specs.Io.KnownBytes.{Consumes, IsAtEnd};
ghost use Rattle.sci_serve.specs.Legality.{IsUnread};
ghost use Rattle.sci_serve.specs.Kinds.{ends_word, first_word, kind_of, StandFor};
ghost use Rattle.sci_serve.specs.Gathered.{IsBefore, IsBegun, IsGathered, IsSaid, IsTold, StandsAt, is_start, is_told};

use crate::faults::SimFault;
use crate::input::INPUT_LIMIT;
use std::alloc::{AllocError, Global};
use std::io::{ErrorKind, Read};

/// How many bytes tell the first word: the longest, `scihistory`, and what ends it.
const WORD: usize = 11;

/// What `check` judges.
#[derive(Clone, Copy, Debug, PartialEq, Eq, Drop)]
pub enum Kind {
    /// The text of a memory at rest, or any other that is neither of those below.
    Dump,
    /// What each node read and wrote: its first word is `scihistory`, and nothing stands in front of it.
    History,
    /// The events of a run: the first word of its first line that isn't skipped is `memory`.
    Log,
}

/// Where a byte stands in front of the first word.
#[derive(Clone, Copy, PartialEq, Eq)]
enum Place {
    /// At the beginning of a line.
    Start,
    /// Behind blanks alone.
    Blank,
    /// Within a comment.
    Comment,
    /// Behind a carriage return that ended blanks alone.
    Return,
}

/// The place behind this byte, which ends no line, where nothing but blanks stands in front of it; or None where a word begins.
fn behind_blanks(byte: u8) -> Option<Place>
    requires { (byte == 10) ≡ false }
    ensures { MatchOption result ((is_blank byte ≡ false) × ((byte == 13) ≡ false))
        (λ place. (ends_word byte ≡ true) × ((line : List ℕ) → list_all is_blank line ≡ true → IsBefore place (line ++ byte ∷ []))) }
{
    if byte == b' ' || byte == b'\t' {
        Some(Place::Blank)
    } else if byte == b'\r' {
        Some(Place::Return)
    } else {
        None
    }
}

impl Place {
    /// The place behind this byte, or None where a word begins.
    fn behind(self, byte: u8) -> Option<Place>
        ensures { MatchOption result (IsSaid self byte) (λ place. (silent : List ℕ) → (lines : ℕ) → StandsAt self silent lines
            → StandsAt place (silent ++ byte ∷ []) (lines + (if byte == 10 then 1 else 0))) }
    {
        if byte == b'\n' {
            return Some(Place::Start);
        }
        match self {
            Place::Comment => Some(Place::Comment),
            Place::Return => None,
            Place::Start => {
                if byte == b'#' {
                    Some(Place::Comment)
                } else {
                    behind_blanks(byte)
                }
            }
            Place::Blank => behind_blanks(byte),
        }
    }
}

/// Whether a byte ends a word.
fn ends_word(byte: u8) -> bool
    ensures { result ≡ ends_word byte }
{
    matches!(byte, b' ' | b'\t' | b'\n' | b'\r')
}

/// What stands in front of the first blank or line end.
fn first_word(text: &[u8]) -> &[u8]
    ensures { result.now ≡ first_word text.now }
{
    for at in 0..text.len() {
        if ends_word(text[at]) {
            return &text[..at];
        }
    }
    text
}

/// What was read of an input: what says nothing in front of its first word, and the bytes from that on.
#[derive(Drop)]
struct Gathered {
    /// Where the first word begins, or the next byte stands.
    place: Place,
    /// How many lines of what says nothing have ended, and how many bytes it has.
    lines: u64,
    passed: u64,
    /// What says nothing, as long as it isn't longer than a dump may be.
    silent: Vec<u8>,
    word: Vec<u8>,
}

impl Gathered {
    /// Passes over what says nothing in front of these bytes, and returns how many of them that is.
    fn pass(&mut self, bytes: &[u8]) -> usize
        requires fewer { self.old.lines ≤ self.old.passed }
        requires fits { self.old.passed + length bytes.now < 2 ^ 64 }
        ensures count { result ≤ length bytes.now }
        ensures passed { self.new.passed ≡ self.old.passed + result }
        ensures fewer { self.new.lines ≤ self.new.passed }
        ensures stands { (silent : List ℕ) → StandsAt self.old.place silent self.old.lines → StandsAt self.new.place (silent ++ take result bytes.now) self.new.lines }
        ensures said { result < length bytes.now → IsSaid self.new.place (slice_index bytes.now result) }
        ensures silent { self.new.silent ≡ self.old.silent }
        ensures word { self.new.word ≡ self.old.word }
    {
        for at in 0..bytes.len() {
            let byte = bytes[at];
            let Some(place) = self.place.behind(byte) else {
                return at;
            };
            self.place = place;
            self.passed += 1;
            self.lines += u64::from(byte == b'\n');
        }
        bytes.len()
    }

    /// Keeps more bytes that say nothing; none of them where they are longer than a dump may be.
    fn keep(&mut self, bytes: &[u8]) -> Result<(), AllocError>
        ensures kept { OnOk result (self.new.silent.items ≡ (if nat_lt 1048576 self.new.passed then [] else self.old.silent.items ++ bytes.now)) }
        ensures place { self.new.place ≡ self.old.place }
        ensures lines { self.new.lines ≡ self.old.lines }
        ensures passed { self.new.passed ≡ self.old.passed }
        ensures word { self.new.word ≡ self.old.word }
    {
        if self.passed > INPUT_LIMIT as u64 {
            self.silent.clear();
            Ok(())
        } else {
            self.silent.extend_from_slice(bytes)
        }
    }

    /// Takes more bytes of the input.
    fn add(&mut self, bytes: &[u8]) -> Result<(), AllocError>
        requires fewer { self.old.lines ≤ self.old.passed }
        requires fits { self.old.passed + length bytes.now < 2 ^ 64 }
        ensures fewer { OnOk result (self.new.lines ≤ self.new.passed) }
        ensures read { OnOk result ((seen : List ℕ) → IsGathered self.old seen → IsGathered self.new (seen ++ bytes.now)) }
        ensures passed { OnOk result (self.new.passed ≤ self.old.passed + length bytes.now) }
    {
        if !self.word.is_empty() {
            return self.word.extend_from_slice(bytes);
        }
        let count = self.pass(bytes);
        self.keep(&bytes[..count])?;
        self.word.extend_from_slice(&bytes[count..])
    }

    /// Whether the first word is known.
    fn is_told(&self) -> bool
        ensures { result ≡ is_told self.now.word.items }
    {
        self.word.len() >= WORD || first_word(&self.word).len() < self.word.len()
    }

    /// Reads once, and returns whether it has come to the end, or the first word is known.
    fn read<R: Read>(&mut self, reader: &mut R) -> Result<bool, SimFault>
        requires fewer { self.old.lines ≤ self.old.passed }
        requires fits { self.old.passed + 4096 < 2 ^ 64 }
        ensures fewer { OnOk result (self.new.lines ≤ self.new.passed) }
        ensures passed { OnOk result (self.new.passed ≤ self.old.passed + 4096) }
        ensures read { OnOk result ((seen : List ℕ) → IsGathered self.old seen
            → (more : List ℕ) × IsGathered self.new (seen ++ more) × Consumes (R.remaining reader.old) (R.remaining reader.new) more) }
        ensures told { IfOk result (λ told. told ≡ true → IsAtEnd (R.remaining reader.new) ⊎ (is_told self.new.word.items ≡ true)) }
        ensures err { IfErr result IsUnread }
    {
        let mut buffer = [0u8; 4096];
        match reader.read(&mut buffer) {
            Ok(0) => Ok(true),
            Ok(count) => {
                self.add(&buffer[..count])?;
                Ok(self.is_told())
            }
            Err(error) if error.kind() == ErrorKind::Interrupted => Ok(false),
            Err(_) => Err(SimFault::CannotRead),
        }
    }

    fn is_history(&self) -> bool
        ensures { result ≡ (self.now.passed == 0 && bytes_eq (first_word self.now.word.items) (codes "scihistory")) }
    {
        self.passed == 0 && first_word(&self.word) == b"scihistory".as_slice()
    }

    fn is_log(&self) -> bool
        ensures { result ≡ (is_start self.now.place && bytes_eq (first_word self.now.word.items) (codes "memory")) }
    {
        match self.place {
            Place::Start => first_word(&self.word) == b"memory".as_slice(),
            Place::Blank | Place::Comment | Place::Return => false,
        }
    }

    /// Which text it begins.
    fn kind(&self) -> Kind
        ensures { (seen rest : List ℕ) → IsGathered self.now seen → IsTold self.now.word.items rest → result ≡ kind_of (seen ++ rest) }
    {
        if self.is_history() {
            Kind::History
        } else if self.is_log() {
            Kind::Log
        } else {
            Kind::Dump
        }
    }

    /// How many line feeds stand for what isn't kept.
    fn feeds(&self, kind: Kind) -> u64
        ensures { (seen rest : List ℕ) → IsGathered self.now seen → IsTold self.now.word.items rest → kind ≡ kind_of (seen ++ rest)
            → (gone : List ℕ) × (seen ≡ gone ++ (self.now.silent.items ++ self.now.word.items)) × StandFor kind result gone }
    {
        if self.passed <= INPUT_LIMIT as u64 {
            return 0;
        }
        match kind {
            Kind::Log => self.lines,
            _ => self.passed,
        }
    }
}

/// The beginning of an input, up to its first word. What says nothing in front of that, comments and lines of blanks, is kept as long as it
/// isn't longer than a dump may be.
#[derive(Drop)]
pub struct Beginning {
    /// Which text it begins.
    pub kind: Kind,
    /// How many reads it took.
    pub reads: usize,
    /// How many line feeds stand for what isn't kept: of a log as many as it has lines, each of which counts and is as good as an empty
    /// one; of any other text, which is too long or faulty at its first line, as many as it has bytes.
    pub feeds: u64,
    /// What was read behind that.
    pub front: Vec<u8>,
}

fn begun(gathered: Gathered, reads: usize) -> Result<Beginning, AllocError>
    ensures { IfOk result (λ b. (seen rest : List ℕ) → IsGathered gathered seen → IsTold gathered.word.items rest → IsBegun b seen rest) }
{
    let kind = gathered.kind();
    let feeds = gathered.feeds(kind);
    let Gathered {
        silent: mut front,
        word,
        ..
    } = gathered;
    front.extend_from_slice(&word)?;
    Ok(Beginning {
        kind,
        reads,
        feeds,
        front,
    })
}

impl Beginning {
    /// Reads an input until its first word is known. Refusal 7: a growth of memory was refused; `CannotRead`: a read failed, but where
    /// it was interrupted, or none of 2,097,152 reads ended the input or told the word. What was read is then gone.
    pub fn read<R: Read>(alloc: Global, reader: &mut R) -> Result<Beginning, SimFault>
        ensures kind { IfOk result (λ b. IfSome (R.remaining reader.old) (λ input. b.kind ≡ kind_of input)) }
        ensures kept { IfOk result (λ b. (gone : List ℕ) × Consumes (R.remaining reader.old) (R.remaining reader.new) (gone ++ b.front.items) × StandFor b.kind b.feeds gone) }
        ensures err { IfErr result IsUnread }
    {
        let mut gathered = Gathered {
            place: Place::Start,
            lines: 0,
            passed: 0,
            silent: Vec::new(alloc),
            word: Vec::new(alloc),
        };
        for earlier in 0..2 * INPUT_LIMIT {
            if gathered.read(reader)? {
                return Ok(begun(gathered, earlier + 1)?);
            }
        }
        Err(SimFault::CannotRead)
    }
}
