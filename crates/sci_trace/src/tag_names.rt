//! The names of tags, in a table: which name it is takes no branch.

ghost use Rattle.std.specs.Prelude.{◌≡◌, ◌<◌, ◌≤◌, [], get_or, take};
ghost use Rattle.sci_words.specs.Tag.{name_of};
ghost use Rattle.sci_trace.specs.Short.{short_bytes};
ghost use Rattle.sci_trace.specs.declared.tag_names.TheConstants.{NAMES, LENGTHS};

use crate::short::Short;
use sci_words::{Kind, Tag};

/// The names of tags without a forward link, kind by kind, and of those with one. Spaces fill the 16 bytes.
static NAMES: [[u8; 16]; 20] = [
    *b"INVALID         ",
    *b"QUEUED          ",
    *b"ONLY_FRESH      ",
    *b"ONLY_DIRTY      ",
    *b"CONVERT         ",
    *b"PURGING         ",
    *b"LEAVING         ",
    *b"TAIL_VALID      ",
    *b"ROLL            ",
    *b"PURGED          ",
    *b"INVALID         ",
    *b"QUEUED          ",
    *b"HEAD_FRESH      ",
    *b"HEAD_DIRTY      ",
    *b"CONVERT         ",
    *b"PURGING         ",
    *b"LEAVING         ",
    *b"MID_VALID       ",
    *b"ROLL            ",
    *b"PURGED          ",
];

/// How many bytes each name has.
static LENGTHS: [usize; 20] = [
    7, 6, 10, 10, 7, 7, 7, 10, 4, 6, 7, 6, 10, 10, 7, 7, 7, 9, 4, 6,
];

/// The place of a tag's name.
fn place_of(tag: Tag) -> usize
    ensures within { result < 20 }
    ensures short { get_or LENGTHS result 0 ≤ 16 }
    ensures named { take (get_or LENGTHS result 0) (get_or NAMES result []) ≡ name_of tag }
{
    let kind = match tag.kind {
        Kind::Invalid => 0,
        Kind::Queued => 1,
        Kind::Fresh => 2,
        Kind::Dirty => 3,
        Kind::Convert => 4,
        Kind::Purging => 5,
        Kind::Leaving => 6,
        Kind::Valid => 7,
        Kind::Roll => 8,
        Kind::Purged => 9,
    };
    if tag.forw.is_some() { kind + 10 } else { kind }
}

/// A tag's name.
#[inline(always)]
pub(crate) fn tag_name(tag: Tag) -> Short
    ensures { short_bytes result ≡ name_of tag }
{
    let place = place_of(tag);
    Short::new(&NAMES[place], LENGTHS[place])
}
