//! Words of 64 bits, by a layout.
ghost use Rattle.std.specs.Prelude.{◌≡◌, IsTrue, IfOk};
ghost use Rattle.std.specs.Result.{result_err};
ghost use Rattle.sci_words.specs.Codes.{tag_code_in, mem_code_in, fits_tag_in, fits_mem_in};
ghost use Rattle.sci_words.specs.Refused.{tag_refusal_in, mem_refusal_in};

use crate::layouts::Layout;
use crate::memory::Mem;
use crate::numbers::{
    kind_numbered, link_numbered, number_of_bit, number_of_kind, number_of_link, number_of_state,
    state_numbered,
};
use crate::refusals::WordRefusal;
use crate::tags::Tag;

/// The tag's code in this layout.
#[inline(always)]
pub(crate) fn tag_word(layout: Layout, tag: Tag) -> u64
    requires { IsTrue (fits_tag_in layout tag) }
    ensures { result ≡ tag_code_in layout tag }
{
    Layout::KIND.write(number_of_kind(tag.kind))
        + Layout::HELD.write(number_of_bit(tag.held))
        + layout.write_forw(number_of_link(layout, tag.forw))
        + layout.write_back(number_of_link(layout, tag.back))
}

/// The memory word's code in this layout.
#[inline(always)]
pub(crate) fn mem_word(layout: Layout, mem: Mem) -> u64
    requires { IsTrue (fits_mem_in layout mem) }
    ensures { result ≡ mem_code_in layout mem }
{
    Layout::KIND.write(number_of_state(mem.state))
        + Layout::HELD.write(number_of_bit(mem.lent))
        + layout.write_forw(number_of_link(layout, mem.forw))
}

/// The tag whose code in this layout this is. Else the refusal of the lowest number that applies, 1 to 5.
#[inline(always)]
pub(crate) fn word_tag(layout: Layout, word: u64) -> Result<Tag, WordRefusal>
    ensures lowest_refusal { result_err result ≡ tag_refusal_in layout word }

    // Ok exactly at the code of a tag that fits.
    ensures code { IfOk result (λ t. tag_code_in layout t ≡ word) }
    ensures fits { IfOk result (λ t. IsTrue (fits_tag_in layout t)) }
    ensures of_code { (t : Tag) → IsTrue (fits_tag_in layout t) → tag_code_in layout t ≡ word → result ≡ Ok t }
{
    let Some(kind) = kind_numbered(Layout::KIND.read(word)) else {
        return Err(WordRefusal::UnknownKind);
    };
    if layout.gap(word) != 0 || layout.behind_tag(word) != 0 {
        return Err(WordRefusal::SpareBits);
    }
    let tag = Tag {
        kind,
        held: Layout::HELD.read(word) == 1,
        forw: link_numbered(layout, layout.forw(word)),
        back: link_numbered(layout, layout.back(word)),
    };
    tag.check()?;
    Ok(tag)
}

/// The memory word whose code in this layout this is. Else the refusal of the lowest number that applies, 1 to 4.
#[inline(always)]
pub(crate) fn word_mem(layout: Layout, word: u64) -> Result<Mem, WordRefusal>
    ensures lowest_refusal { result_err result ≡ mem_refusal_in layout word }

    // Ok exactly at the code of a memory word that fits.
    ensures code { IfOk result (λ m. mem_code_in layout m ≡ word) }
    ensures fits { IfOk result (λ m. IsTrue (fits_mem_in layout m)) }
    ensures of_code { (m : Mem) → IsTrue (fits_mem_in layout m) → mem_code_in layout m ≡ word → result ≡ Ok m }
{
    let Some(state) = state_numbered(Layout::KIND.read(word)) else {
        return Err(WordRefusal::UnknownKind);
    };
    if layout.gap(word) != 0 || layout.behind_mem(word) != 0 {
        return Err(WordRefusal::SpareBits);
    }
    let mem = Mem {
        state,
        lent: Layout::HELD.read(word) == 1,
        forw: link_numbered(layout, layout.forw(word)),
    };
    mem.check()?;
    Ok(mem)
}
