//! The names of events, in a table: which event it is takes no branch.

ghost use Rattle.std.specs.Prelude.{◌≡◌, ◌<◌, ◌≤◌, [], get_or, take};
ghost use Rattle.sci_trace.specs.Events.{event_name};
ghost use Rattle.sci_trace.specs.Short.{short_bytes};
ghost use Rattle.sci_trace.specs.declared.event_names.TheConstants.{NAMES, LENGTHS};

use crate::short::Short;
use sci_core::Event;

/// Each name, and the bracket in front of the event's argument, where it has one. Spaces fill the 16 bytes.
static NAMES: [[u8; 16]; 35] = [
    *b"Look            ",
    *b"Queue(          ",
    *b"Requeue(        ",
    *b"PrependValid    ",
    *b"ReturnMemory    ",
    *b"AttachFresh(    ",
    *b"Settle          ",
    *b"Hold(           ",
    *b"Unhold          ",
    *b"Convert(        ",
    *b"FreshToGone     ",
    *b"Converted       ",
    *b"Unconverted     ",
    *b"BeginPurge(     ",
    *b"Written(        ",
    *b"PrependGone     ",
    *b"AttachDirty(    ",
    *b"ReturnCopy      ",
    *b"PurgeOne(       ",
    *b"Advance         ",
    *b"Clear           ",
    *b"Roll(           ",
    *b"TellSuccessor(  ",
    *b"TellPredecessor(",
    *b"Adopt(          ",
    *b"Rolled          ",
    *b"Leave(          ",
    *b"Promote(        ",
    *b"PassOn          ",
    *b"Stay            ",
    *b"ReEnter         ",
    *b"ReturnHomeFresh ",
    *b"ReturnHomeDirty ",
    *b"Left            ",
    *b"HomeWrite       ",
];

/// How many bytes each name has.
static LENGTHS: [usize; 35] = [
    4, 6, 8, 12, 12, 12, 6, 5, 6, 8, 11, 9, 11, 11, 8, 11, 12, 10, 9, 7, 5, 5, 14, 16, 6, 6, 6, 8,
    6, 4, 7, 15, 15, 4, 9,
];

/// The place of an event's name.
fn place_of(event: &Event) -> usize
    ensures within { result < 35 }
    ensures short { get_or LENGTHS result 0 ≤ 16 }
    ensures named { take (get_or LENGTHS result 0) (get_or NAMES result []) ≡ event_name event.now }
{
    usize::from(event.number())
}

/// An event's name, and the bracket in front of its argument, where it has one.
#[inline(always)]
pub fn event_name(event: &Event) -> Short
    ensures { short_bytes result ≡ event_name event.now }
{
    let place = place_of(event);
    Short::new(&NAMES[place], LENGTHS[place])
}
