//! Where a line of a script stands, and what it says there.

ghost use Rattle.std.specs.Prelude.{◌≡◌, map, IfOk};
ghost use Rattle.sci_script.specs.Format.{Finds, on_line};
ghost use Rattle.sci_script.specs.Grammar.{first_place, is_first, is_second, is_in_front, is_in_time, verb_read, words_read, line_read};
ghost use Rattle.sci_script.specs.Size.{IsSize, IsReadIn};

use crate::commands::Size;
use crate::line_words::split_line;
use crate::numbers::numbers;
use crate::reasons::Reason;
use crate::said::{Read, said};
use crate::unread::Unread;
use crate::verbs::{Verb, arguments, verb_named};

/// What stands before a line.
#[derive(Clone, Copy, Debug)]
pub(crate) enum Stand {
    /// No command.
    Nothing,
    /// `memory` alone.
    Memory,
    /// `memory`, and `capacity` or `open`.
    Openings,
    /// A command of a desk.
    Commands,
}

/// What stands before a line, and the size that it says.
#[derive(Clone, Copy, Debug)]
pub(crate) struct Place {
    pub(crate) stand: Stand,
    pub(crate) size: Size,
}

pub(crate) fn is_first(stand: Stand) -> bool
    ensures { result ≡ is_first stand }
{
    matches!(stand, Stand::Nothing)
}

/// Whether a command may stand behind what stands before it.
fn is_in_time(verb: Verb, stand: Stand) -> bool
    ensures { result ≡ is_in_time verb stand }
{
    match verb {
        Verb::Memory => is_first(stand),
        Verb::Capacity => matches!(stand, Stand::Memory),
        Verb::Open => matches!(stand, Stand::Memory | Stand::Openings),
        _ => !is_first(stand),
    }
}

impl Place {
    /// The place of a script's first command.
    pub(crate) fn first() -> Place
        ensures value { result ≡ first_place }
        ensures size { IsSize result.size }
    {
        let size = Size { nodes: 1, lines: 1 };
        let stand = Stand::Nothing;
        Place { stand, size }
    }

    /// What a command says here with these words behind its name.
    #[inline(always)]
    #[tactic(auto, unfolding(crate::specs::Grammar::verb_read))]
    fn read_verb(&self, verb: Verb, args: &[&[u8]]) -> Result<Read, Reason>
        requires { IsSize self.now.size }
        ensures { result ≡ verb_read self.now verb (map (λ w. w.now) args.now) }
    {
        if !is_in_time(verb, self.stand) {
            return Err(if is_first(self.stand) {
                Reason::Early
            } else {
                Reason::Late
            });
        }
        let wanted = arguments(verb);
        if wanted.len() != args.len() {
            return Err(Reason::Words {
                wanted: wanted.len() + 1,
                found: args.len() + 1,
            });
        }
        let numbers = numbers(self.size, wanted, args)?;
        Ok(said(self.size, verb, &numbers))
    }

    /// What these words say here.
    #[inline(always)]
    fn read(&self, words: &[&[u8]]) -> Result<Read, Reason>
        requires { IsSize self.now.size }
        ensures { result ≡ words_read self.now (map (λ w. w.now) words.now) }
    {
        let [name, args @ ..] = words else {
            return Err(Reason::Unknown);
        };
        match verb_named(name) {
            Some(verb) => self.read_verb(verb, args),
            None => Err(Reason::Unknown),
        }
    }

    /// What line `number`, which isn't skipped, says here; its words are put into the list that was used for the lines before.
    #[inline(always)]
    pub(crate) fn read_line<'a>(
        &self,
        words: &mut Vec<&'a [u8]>,
        number: u64,
        line: &'a [u8],
    ) -> Result<Read, Unread>
        requires { IsSize self.now.size }
        ensures exact { Finds (λ r. r) result (on_line number (line_read self.now line.now)) }
        ensures fits { IfOk result (IsReadIn self.now.size) }
    {
        let read = if split_line(words, line)? {
            self.read(words)
        } else {
            Err(Reason::BadByte)
        };
        match read {
            Ok(read) => Ok(read),
            Err(reason) => Err(Unread::Refused { number, reason }),
        }
    }
}
