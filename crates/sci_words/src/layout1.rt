//! Words of 64 bits by layout 1, which old dumps have. Its links have 8 bits, so it has room for the nodes 0 to 254.
ghost use Rattle.std.specs.Prelude.{◌≡◌, IsTrue, IfOk};
ghost use Rattle.std.specs.Result.{result_err};
ghost use Rattle.sci_words.specs.Codes.{tag_code_in, mem_code_in, fits_tag_in, fits_mem_in};
ghost use Rattle.sci_words.specs.Refused.{tag_refusal_in, mem_refusal_in};
ghost use Rattle.sci_words.specs.declared.layouts.Layout.TheVariants.{One};
ghost use Rattle.sci_words.specs.Tag.{link_below};

use crate::codec::{mem_word, tag_word, word_mem, word_tag};
use crate::layouts::Layout;
use crate::memory::Mem;
use crate::nodes::NodeId;
use crate::refusals::WordRefusal;
use crate::tags::Tag;

// Whether layout 1 has room for the link.
fn fits_link(link: Option<NodeId>) -> bool
    ensures { result ≡ link_below 255 link }
{
    match link {
        Some(node) => node.get() < 255,
        None => true,
    }
}

/// Whether the tag has a code in layout 1: it is well formed, and its links name nodes below 255.
pub fn fits_tag(tag: &Tag) -> bool
    ensures { result ≡ fits_tag_in One tag.now }
{
    tag.well_formed() && fits_link(tag.forw) && fits_link(tag.back)
}

/// Whether the memory word has a code in layout 1: it is well formed, and its link names a node below 255.
pub fn fits_mem(mem: &Mem) -> bool
    ensures { result ≡ fits_mem_in One mem.now }
{
    mem.well_formed() && fits_link(mem.forw)
}

/// The tag's code in layout 1.
pub fn write_tag(tag: Tag) -> u64
    requires { IsTrue (fits_tag_in One tag) }
    ensures { result ≡ tag_code_in One tag }
{
    tag_word(Layout::One, tag)
}

/// The memory word's code in layout 1.
pub fn write_mem(mem: Mem) -> u64
    requires { IsTrue (fits_mem_in One mem) }
    ensures { result ≡ mem_code_in One mem }
{
    mem_word(Layout::One, mem)
}

/// The tag whose code in layout 1 this is. Else the refusal of the lowest number that applies, 1 to 5.
pub fn read_tag(word: u64) -> Result<Tag, WordRefusal>
    ensures lowest_refusal { result_err result ≡ tag_refusal_in One word }

    // Ok exactly at the code of a tag that fits.
    ensures code { IfOk result (λ t. tag_code_in One t ≡ word) }
    ensures fits { IfOk result (λ t. IsTrue (fits_tag_in One t)) }
    ensures of_code { (t : Tag) → IsTrue (fits_tag_in One t) → tag_code_in One t ≡ word → result ≡ Ok t }
{
    word_tag(Layout::One, word)
}

/// The memory word whose code in layout 1 this is. Else the refusal of the lowest number that applies, 1 to 4.
pub fn read_mem(word: u64) -> Result<Mem, WordRefusal>
    ensures lowest_refusal { result_err result ≡ mem_refusal_in One word }

    // Ok exactly at the code of a memory word that fits.
    ensures code { IfOk result (λ m. mem_code_in One m ≡ word) }
    ensures fits { IfOk result (λ m. IsTrue (fits_mem_in One m)) }
    ensures of_code { (m : Mem) → IsTrue (fits_mem_in One m) → mem_code_in One m ≡ word → result ≡ Ok m }
{
    word_mem(Layout::One, word)
}
