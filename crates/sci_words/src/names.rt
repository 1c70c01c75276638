//! The names of words in listings.
ghost use Rattle.std.specs.Prelude.{◌≡◌};
ghost use Rattle.sci_words.specs.Mem.{mem_name_of};
ghost use Rattle.sci_words.specs.Tag.{name_of};

use crate::memory::{Mem, MemState};
use crate::tags::{Kind, Tag};

/// The name of a tag. It says whether an entry follows a Fresh, Dirty or Valid one, and doesn't show the held bit.
pub fn name(tag: Tag) -> &'static str
    ensures { result.now ≡ name_of tag }
{
    let is_followed = tag.forw.is_some();
    match tag.kind {
        Kind::Invalid => "INVALID",
        Kind::Queued => "QUEUED",
        Kind::Fresh if is_followed => "HEAD_FRESH",
        Kind::Fresh => "ONLY_FRESH",
        Kind::Dirty if is_followed => "HEAD_DIRTY",
        Kind::Dirty => "ONLY_DIRTY",
        Kind::Convert => "CONVERT",
        Kind::Purging => "PURGING",
        Kind::Leaving => "LEAVING",
        Kind::Valid if is_followed => "MID_VALID",
        Kind::Valid => "TAIL_VALID",
        Kind::Roll => "ROLL",
        Kind::Purged => "PURGED",
    }
}

/// The name of a memory word: its state. It doesn't show whether the bytes are lent.
pub fn mem_name(mem: Mem) -> &'static str
    ensures { result.now ≡ mem_name_of mem }
{
    match mem.state {
        MemState::Home => "HOME",
        MemState::Fresh => "FRESH",
        MemState::Gone => "GONE",
    }
}
