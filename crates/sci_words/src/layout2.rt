//! Words of 64 bits by layout 2, which memory and new dumps have. Its links have 16 bits, so it has room for every node.
ghost use Rattle.std.specs.Prelude.{◌≡◌, IsTrue, IfOk, true};
ghost use Rattle.std.specs.Result.{result_err};
ghost use Rattle.sci_words.specs.Codes.{tag_code, mem_code};
ghost use Rattle.sci_words.specs.Mem.{mem_well_formed, mem_links_below};
ghost use Rattle.sci_words.specs.Refused.{tag_refusal, mem_refusal};
ghost use Rattle.sci_words.specs.Tag.{tag_well_formed, tag_links_below, link_below};

use crate::codec::{mem_word, tag_word, word_mem, word_tag};
use crate::layouts::Layout;
use crate::memory::Mem;
use crate::nodes::NodeId;
use crate::refusals::WordRefusal;
use crate::tags::Tag;

// A link names a node below 65,535, or none: it is part of each `NodeId`.
#[inline(always)]
fn look_at_link(link: Option<NodeId>)
    ensures { link_below 65535 link ≡ true }
{
    if let Some(node) = link {
        let _ = node.get();
    }
}

/// The tag's code in layout 2.
pub fn write_tag(tag: Tag) -> u64
    requires { IsTrue (tag_well_formed tag) }
    ensures code { result ≡ tag_code tag }
    ensures links { tag_links_below 65535 tag ≡ true }
{
    look_at_link(tag.forw);
    look_at_link(tag.back);
    tag_word(Layout::Two, tag)
}

/// The memory word's code in layout 2.
pub fn write_mem(mem: Mem) -> u64
    requires { IsTrue (mem_well_formed mem) }
    ensures code { result ≡ mem_code mem }
    ensures links { mem_links_below 65535 mem ≡ true }
{
    look_at_link(mem.forw);
    mem_word(Layout::Two, mem)
}

/// The tag whose code in layout 2 this is. Else the refusal of the lowest number that applies, 1 to 5.
pub fn read_tag(word: u64) -> Result<Tag, WordRefusal>
    ensures lowest_refusal { result_err result ≡ tag_refusal word }

    // Ok exactly at the code of a well-formed tag.
    ensures code { IfOk result (λ t. tag_code t ≡ word) }
    ensures well_formed { IfOk result (λ t. IsTrue (tag_well_formed t)) }
    ensures links { IfOk result (λ t. IsTrue (tag_links_below 65535 t)) }
    ensures of_code { (t : Tag) → IsTrue (tag_well_formed t) → IsTrue (tag_links_below 65535 t) → tag_code t ≡ word
        → result ≡ Ok t }
{
    word_tag(Layout::Two, word)
}

/// The memory word whose code in layout 2 this is. Else the refusal of the lowest number that applies, 1 to 4.
pub fn read_mem(word: u64) -> Result<Mem, WordRefusal>
    ensures lowest_refusal { result_err result ≡ mem_refusal word }

    // Ok exactly at the code of a well-formed memory word.
    ensures code { IfOk result (λ m. mem_code m ≡ word) }
    ensures well_formed { IfOk result (λ m. IsTrue (mem_well_formed m)) }
    ensures links { IfOk result (λ m. IsTrue (mem_links_below 65535 m)) }
    ensures of_code { (m : Mem) → IsTrue (mem_well_formed m) → IsTrue (mem_links_below 65535 m) → mem_code m ≡ word
        → result ≡ Ok m }
{
    word_mem(Layout::Two, word)
}
