//! A script as far as it was said.

ghost use Rattle.std.specs.Prelude.{◌≡◌, [], OnErr, OnOk, Ok};
ghost use Rattle.sci_script.specs.Format.{Finds, ended, sayings_of, unsaid, view, with_read};
ghost use Rattle.sci_script.specs.Size.{IsReadIn, IsSize};

use crate::commands::{Script, Size, Step};
use crate::places::{Place, Stand, is_first};
use crate::reasons::Reason;
use crate::said::Read;
use crate::unread::Unread;
use std::alloc::{AllocError, Global};

/// How many lines a node may name where nothing is said of it.
const UNBOUNDED: u16 = 1024;

/// What stands before the next line, and what was said so far.
#[derive(Drop)]
pub(crate) struct Draft {
    pub(crate) stand: Stand,
    pub(crate) script: Script,
}

/// A script that says its size alone.
fn sized(alloc: Global, size: Size) -> Script
    requires { IsSize size }
    ensures { (result.size ≡ size) × (result.capacity ≡ 1024) × (result.openings.items ≡ []) × (result.steps.items ≡ []) }
{
    Script {
        size,
        capacity: UNBOUNDED,
        openings: Vec::new(alloc),
        steps: Vec::new(alloc),
    }
}

impl Draft {
    /// A script of which nothing was said.
    pub(crate) fn new(alloc: Global) -> Draft
        ensures { sayings_of result ≡ unsaid }
    {
        let place = Place::first();
        Draft {
            stand: place.stand,
            script: sized(alloc, place.size),
        }
    }

    /// Where the next line stands.
    pub(crate) fn place(&self) -> Place
        ensures value { result ≡ (sayings_of self.now).place }
        ensures size { IsSize result.size }
    {
        Place {
            stand: self.stand,
            size: self.script.size,
        }
    }

    /// What line `number` says, behind what was said so far. Where memory is refused, that stays as it was.
    #[inline(always)]
    pub(crate) fn take(&mut self, alloc: Global, number: u64, read: Read) -> Result<(), AllocError>
        requires { IsReadIn self.old.script.size read }
        ensures ok { OnOk result (sayings_of self.new ≡ with_read (sayings_of self.old) number read) }
        ensures err { OnErr result (sayings_of self.new ≡ sayings_of self.old) }
    {
        match read {
            Read::Memory(size) => {
                self.script = sized(alloc, size);
                self.stand = Stand::Memory;
            }
            Read::Capacity(capacity) => {
                self.script.capacity = capacity;
                self.stand = Stand::Openings;
            }
            Read::Open(opening) => {
                self.script.openings.push(opening)?;
                self.stand = Stand::Openings;
            }
            Read::Command(command) => {
                self.script.steps.push(Step { number, command })?;
                self.stand = Stand::Commands;
            }
        }
        Ok(())
    }

    /// The script, which ends in front of line `end`; one without any command lacks `memory`.
    pub(crate) fn ended(self, end: u64) -> Result<Script, Unread>
        ensures { Finds view result (ended end (Ok (sayings_of self))) }
    {
        if is_first(self.stand) {
            let reason = Reason::Early;
            return Err(Unread::Refused {
                number: end,
                reason,
            });
        }
        Ok(self.script)
    }
}
