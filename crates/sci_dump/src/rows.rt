//! The lines of text of a dump.

ghost use Rattle.std.specs.Prelude.{◌≡◌, ◌≤◌, true, IfSome, IfOk};
ghost use Rattle.std.specs.Result.{result_err};
ghost use Rattle.sci_words.specs.Codes.{mem_code_in, tag_code_in, fits_mem_in, fits_tag_in};
ghost use Rattle.sci_words.specs.Mem.{mem_well_formed};
ghost use Rattle.sci_words.specs.Refused.{mem_refusal_in, tag_refusal_in};
ghost use Rattle.sci_words.specs.Tag.{is_invalid, tag_well_formed};
ghost use Rattle.sci_core.specs.declared.whole.TheConstants.{MOST_NODES};
ghost use Rattle.sci_dump.specs.Reading.{Reads, mem_of, tag_of, labelled_at, memory_at, node_at, tag_at, counted_at, layout_at, head_at};
ghost use Rattle.sci_dump.specs.Text.{nodes_in};

use crate::fields::{behind, content, count, numbered, word};
use sci_core::{Line, MOST_NODES};
use sci_words::{Kind, Layout, Mem, Tag, WordRefusal, layout1, read_mem, read_tag};

/// The memory word with this code in a layout, or why there is none.
fn read_mem_in(layout: Layout, word: u64) -> Result<Mem, WordRefusal>
    ensures refusal { result_err result ≡ mem_refusal_in layout word }
    ensures code { IfOk result (λ m. mem_code_in layout m ≡ word) }
    ensures fits { IfOk result (λ m. fits_mem_in layout m ≡ true) }
{
    match layout {
        Layout::One => layout1::read_mem(word),
        Layout::Two => read_mem(word),
    }
}

/// The tag with this code in a layout, or why there is none.
fn read_tag_in(layout: Layout, word: u64) -> Result<Tag, WordRefusal>
    ensures refusal { result_err result ≡ tag_refusal_in layout word }
    ensures code { IfOk result (λ t. tag_code_in layout t ≡ word) }
    ensures fits { IfOk result (λ t. fits_tag_in layout t ≡ true) }
{
    match layout {
        Layout::One => layout1::read_tag(word),
        Layout::Two => read_tag(word),
    }
}

/// The memory word with this code.
fn mem(layout: Layout, word: u64) -> Option<Mem>
    ensures exact { result ≡ mem_of layout word }
    ensures well_formed { IfSome result (λ m. mem_well_formed m ≡ true) }
{
    match read_mem_in(layout, word) {
        Ok(mem) => Some(mem),
        Err(_) => None,
    }
}

/// Whether a kind is Invalid.
fn is_invalid(kind: Kind) -> bool
    ensures { result ≡ is_invalid kind }
{
    matches!(kind, Kind::Invalid)
}

/// The tag with this code, if it isn't Invalid.
#[tactic(auto, using(crate::proofs::Tags::tag_read, crate::proofs::Tags::invalid_read, crate::proofs::Tags::refused_read))]
fn tag(layout: Layout, word: u64) -> Option<Tag>
    ensures exact { Reads (λ t. t) result (tag_of layout word) }
    ensures well_formed { IfSome result (λ t. tag_well_formed t ≡ true) }
{
    match read_tag_in(layout, word) {
        Err(_) => None,
        Ok(tag) => {
            if is_invalid(tag.kind) {
                None
            } else {
                Some(tag)
            }
        }
    }
}

/// What stands behind a label, this number and a space.
fn labelled<'a>(label: &[u8], number: u64, text: &'a [u8]) -> Option<&'a [u8]>
    ensures { Reads (λ t. t.now) result (labelled_at label.now number text.now) }
{
    let text = behind(label, text)?;
    let text = numbered(number, text)?;
    behind(b" ", text)
}

/// `line L`, the memory word, and memory's line.
pub fn memory_row(layout: Layout, number: u64, text: &[u8]) -> Option<(Mem, Line, &[u8])>
    ensures exact { Reads (λ x. (x.0, x.1, x.2.now)) result (memory_at layout number text.now) }
    ensures well_formed { IfSome result (λ x. mem_well_formed x.0 ≡ true) }
{
    let text = labelled(b"line ", number, text)?;
    let (word, text) = word(text)?;
    let mem = mem(layout, word)?;
    let (line, rest) = content(text)?;
    Some((mem, line, rest))
}

/// What stands behind `tag L N `.
pub fn behind_node(number: u64, node: u64, text: &[u8]) -> Option<&[u8]>
    ensures { Reads (λ t. t.now) result (node_at number node text.now) }
{
    let text = labelled(b"tag ", number, text)?;
    let text = numbered(node, text)?;
    behind(b" ", text)
}

/// A tag that isn't Invalid, and the node's line.
#[tactic(auto, unfolding(crate::specs::Reading::tag_at))]
pub fn tag_row(layout: Layout, text: &[u8]) -> Option<(Tag, Line, &[u8])>
    ensures exact { Reads (λ x. (x.0, x.1, x.2.now)) result (tag_at layout text.now) }
    ensures well_formed { IfSome result (λ x. tag_well_formed x.0 ≡ true) }
{
    let (word, text) = word(text)?;
    let tag = tag(layout, word)?;
    let (line, rest) = content(text)?;
    Some((tag, line, rest))
}

/// A label, and a number from 1 to this one.
fn counted<'a>(label: &[u8], most: u64, text: &'a [u8]) -> Option<(u64, &'a [u8])>
    ensures exact { Reads (λ x. (x.0, x.1.now)) result (counted_at label.now most text.now) }
    ensures range { IfSome result (λ x. (1 ≤ x.0) × (x.0 ≤ most)) }
{
    let text = behind(label, text)?;
    count(most, text)
}

/// The layout that a dump begins with, and what stands behind it.
fn layout(text: &[u8]) -> Option<(Layout, &[u8])>
    ensures exact { Reads (λ x. (x.0, x.1.now)) result (layout_at text.now) }
{
    if let Some(rest) = behind(b"scidump 1 ", text) {
        return Some((Layout::One, rest));
    }
    let rest = behind(b"scidump 2 ", text)?;
    Some((Layout::Two, rest))
}

/// How many nodes a dump in this layout has at the most.
fn nodes_in(layout: Layout) -> u64
    ensures { result ≡ nodes_in layout }
{
    match layout {
        Layout::One => 64,
        Layout::Two => u64::from(MOST_NODES),
    }
}

/// `scidump LAYOUT NODES LINES`.
pub fn head_row(text: &[u8]) -> Option<(Layout, u16, u16, &[u8])>
    ensures exact { Reads (λ x. (x.0, x.1, x.2, x.3.now)) result (head_at text.now) }
    ensures range { IfSome result (λ x. (1 ≤ x.1) × (x.1 ≤ MOST_NODES) × (1 ≤ x.2) × (x.2 ≤ 1024)) }
{
    let (layout, text) = layout(text)?;
    let (nodes, text) = count(nodes_in(layout), text)?;
    let (lines, text) = counted(b" ", 1024, text)?;
    let rest = behind(b"\n", text)?;
    Some((layout, nodes as u16, lines as u16, rest))
}
