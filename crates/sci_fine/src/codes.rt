//! Where words and slots lie, and the codes of a row's words.
ghost use Rattle.std.specs.Prelude.{◌≡◌, ◌+◌, ◌<◌, true, IsTrue};
ghost use Rattle.sci_core.specs.WellFormed.{FindsWellFormed, LeavesWellFormed};
ghost use Rattle.sci_words.specs.Codes.{tag_code, mem_code};
ghost use Rattle.sci_words.specs.Mem.{mem_well_formed, mem_links_below};
ghost use Rattle.sci_words.specs.Tag.{tag_well_formed, tag_links_below};
ghost use Rattle.sci_fine.specs.Rule.{slot_number, lies_at};
ghost use Rattle.sci_fine.specs.Steps.{place_of, before_of, after_of, HasLinks};

use sci_core::{Change, Place};
use sci_words::{Mem, NodeId, Tag, write_mem, write_tag};

// The words of different nodes lie this many words apart: 64 bytes, so that who writes one disturbs no reader of another.
pub(crate) const WORDS_APART: usize = 8;

// Where the word with this number lies.
pub(crate) fn lies_at(number: usize) -> usize
    requires { number < 65536 }
    ensures { result ≡ lies_at number }
{
    number * WORDS_APART
}

// The number of a node's word and slot; 0 is that of memory's.
pub(crate) fn number_of(node: NodeId) -> usize
    ensures value { result ≡ node + 1 }
    ensures below { result < 65536 }
{
    usize::from(node.get()) + 1
}

// The number of a place's slot.
pub(crate) fn slot_of(place: &Place) -> usize
    ensures { result ≡ slot_number place.now }
{
    match place {
        Place::Memory => 0,
        Place::Node(node) => number_of(*node),
    }
}

#[inline(always)]
fn code_of_tag(tag: &Tag) -> u64
    requires { IsTrue (tag_well_formed tag.now) }
    ensures code { result ≡ tag_code tag.now }
    ensures links { tag_links_below 65535 tag.now ≡ true }
{
    write_tag(*tag)
}

#[inline(always)]
fn code_of_mem(mem: &Mem) -> u64
    requires { IsTrue (mem_well_formed mem.now) }
    ensures code { result ≡ mem_code mem.now }
    ensures links { mem_links_below 65535 mem.now ≡ true }
{
    write_mem(*mem)
}

// The number of the word of a change, and its codes before and after.
#[inline(always)]
pub(crate) fn codes(change: &Change) -> (usize, u64, u64)
    requires formed { FindsWellFormed change.now × LeavesWellFormed change.now }
    ensures number { result.0 ≡ place_of change.now }
    ensures before { result.1 ≡ before_of change.now }
    ensures after { result.2 ≡ after_of change.now }
    ensures links { HasLinks change.now }
{
    match change {
        Change::OfMemory { before, after } => (0, code_of_mem(before), code_of_mem(after)),
        Change::OfTag {
            node,
            before,
            after,
        } => (number_of(*node), code_of_tag(before), code_of_tag(after)),
    }
}
