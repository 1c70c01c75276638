//! From the parts of words to words, and back, in either layout.
ghost use Rattle.std.specs.Prelude.{◌≡◌, Some, None, true, IfOk, IfErr};
ghost use Rattle.sci_words.specs.Codes.{kind_number, state_number, kind_of, state_of, tag_code_in, mem_code_in, fits_tag_in, fits_mem_in};
ghost use Rattle.sci_words.specs.Layout.{no_link};
ghost use Rattle.sci_words.specs.Tag.{is_body, may_be_held, link_below};
ghost use Rattle.sci_c.specs.Links.{IsTagIn, IsMemIn};
ghost use Rattle.sci_c.specs.Words.{IsTagOf, IsMemOf, IsNoTag, IsNoMem, tag_numbers, mem_numbers, tag_meant, mem_meant, tag_rule, mem_rule, tag_overflows, mem_overflows, tag_parts_refusal, mem_parts_refusal};

use crate::faults::Fault;
use crate::links::{bit, link_meant, link_number};
use crate::words::{MemNumbers, TagNumbers};
use sci_words::{Kind, Layout, Mem, MemState, NodeId, Tag, WordRefusal, layout1};

fn kind_number(kind: Kind) -> u8
    ensures { result ≡ kind_number kind }
{
    match kind {
        Kind::Invalid => 0,
        Kind::Queued => 1,
        Kind::Fresh => 2,
        Kind::Dirty => 3,
        Kind::Convert => 4,
        Kind::Purging => 5,
        Kind::Leaving => 6,
        Kind::Valid => 7,
        Kind::Roll => 8,
        Kind::Purged => 9,
    }
}

fn state_number(state: MemState) -> u8
    ensures { result ≡ state_number state }
{
    match state {
        MemState::Home => 0,
        MemState::Fresh => 1,
        MemState::Gone => 2,
    }
}

/// The parts of a tag.
pub fn tag_numbers(tag: &Tag) -> TagNumbers
    ensures { result ≡ tag_numbers tag.now }
{
    TagNumbers {
        kind: kind_number(tag.kind),
        held: bit(tag.held),
        forw: link_number(tag.forw),
        back: link_number(tag.back),
    }
}

/// The parts of a memory word.
pub fn mem_numbers(mem: &Mem) -> MemNumbers
    ensures { result ≡ mem_numbers mem.now }
{
    MemNumbers {
        state: state_number(mem.state),
        lent: bit(mem.lent),
        forw: link_number(mem.forw),
    }
}

fn kind_meant(number: u8) -> Kind
    ensures { result ≡ kind_of number }
{
    match number {
        0 => Kind::Invalid,
        1 => Kind::Queued,
        2 => Kind::Fresh,
        3 => Kind::Dirty,
        4 => Kind::Convert,
        5 => Kind::Purging,
        6 => Kind::Leaving,
        7 => Kind::Valid,
        8 => Kind::Roll,
        _ => Kind::Purged,
    }
}

fn state_meant(number: u8) -> MemState
    ensures { result ≡ state_of number }
{
    match number {
        0 => MemState::Home,
        1 => MemState::Fresh,
        _ => MemState::Gone,
    }
}

// The tag that parts mean, where their numbers are those of a kind and of a bit.
fn tag_meant(parts: &TagNumbers) -> Tag
    ensures { result ≡ tag_meant parts.now }
{
    Tag {
        kind: kind_meant(parts.kind),
        held: parts.held == 1,
        forw: link_meant(parts.forw),
        back: link_meant(parts.back),
    }
}

// The memory word that parts mean, where their numbers are those of a state and of a bit.
fn mem_meant(parts: &MemNumbers) -> Mem
    ensures { result ≡ mem_meant parts.now }
{
    Mem {
        state: state_meant(parts.state),
        lent: parts.lent == 1,
        forw: link_meant(parts.forw),
    }
}

fn is_body(kind: Kind) -> bool
    ensures { result ≡ is_body kind }
{
    matches!(kind, Kind::Valid | Kind::Roll | Kind::Purged)
}

fn may_be_held(kind: Kind) -> bool
    ensures { result ≡ may_be_held kind }
{
    matches!(kind, Kind::Fresh | Kind::Dirty | Kind::Valid)
}

// The first rule that a tag breaks.
fn tag_rule(tag: &Tag) -> Option<WordRefusal>
    ensures { result ≡ tag_rule tag.now }
{
    if is_body(tag.kind) && tag.back.is_none() {
        return Some(WordRefusal::LinkMissing);
    }
    if !is_body(tag.kind) && tag.back.is_some() {
        return Some(WordRefusal::LinkUnwanted);
    }
    if matches!(tag.kind, Kind::Invalid) && tag.forw.is_some() {
        return Some(WordRefusal::LinkUnwanted);
    }
    if tag.held && !may_be_held(tag.kind) {
        return Some(WordRefusal::HeldNotValid);
    }
    None
}

// The rule that a memory word breaks.
fn mem_rule(mem: &Mem) -> Option<WordRefusal>
    ensures { result ≡ mem_rule mem.now }
{
    match (mem.state, mem.forw) {
        (MemState::Home, Some(_)) => Some(WordRefusal::LinkUnwanted),
        (MemState::Fresh | MemState::Gone, None) => Some(WordRefusal::LinkMissing),
        _ => None,
    }
}

// Whether the layout has room for a link.
fn has_room(layout: Layout, link: Option<NodeId>) -> bool
    ensures { result ≡ link_below (no_link layout) link }
{
    match link {
        Some(node) => match layout {
            Layout::One => node.get() < 255,
            Layout::Two => node.get() < 65535,
        },
        None => true,
    }
}

fn tag_overflows(layout: Layout, parts: &TagNumbers) -> bool
    ensures { result ≡ tag_overflows layout parts.now }
{
    let tag = tag_meant(parts);
    parts.held > 1 || !(has_room(layout, tag.forw) && has_room(layout, tag.back))
}

fn mem_overflows(layout: Layout, parts: &MemNumbers) -> bool
    ensures { result ≡ mem_overflows layout parts.now }
{
    let mem = mem_meant(parts);
    parts.lent > 1 || !has_room(layout, mem.forw)
}

/// Why parts are those of no tag in this layout.
pub fn tag_parts_refusal(layout: Layout, parts: &TagNumbers) -> Option<WordRefusal>
    ensures { result ≡ tag_parts_refusal layout parts.now }
{
    if parts.kind > 9 {
        return Some(WordRefusal::UnknownKind);
    }
    if tag_overflows(layout, parts) {
        return Some(WordRefusal::SpareBits);
    }
    tag_rule(&tag_meant(parts))
}

/// Why parts are those of no memory word in this layout.
pub fn mem_parts_refusal(layout: Layout, parts: &MemNumbers) -> Option<WordRefusal>
    ensures { result ≡ mem_parts_refusal layout parts.now }
{
    if parts.state > 2 {
        return Some(WordRefusal::UnknownKind);
    }
    if mem_overflows(layout, parts) {
        return Some(WordRefusal::SpareBits);
    }
    mem_rule(&mem_meant(parts))
}

/// The tag of this code.
pub fn read_tag(layout: Layout, word: u64) -> Result<Tag, Fault>
    ensures ok { IfOk result (λ t. IsTagIn layout word t) }
    ensures err { IfErr result (λ f. IsNoTag layout word f) }
{
    match layout {
        Layout::One => match layout1::read_tag(word) {
            Ok(tag) => Ok(tag),
            Err(refusal) => Err(Fault::Word(refusal)),
        },
        Layout::Two => match sci_words::read_tag(word) {
            Ok(tag) => Ok(tag),
            Err(refusal) => Err(Fault::Word(refusal)),
        },
    }
}

/// The memory word of this code.
pub fn read_mem(layout: Layout, word: u64) -> Result<Mem, Fault>
    ensures ok { IfOk result (λ m. IsMemIn layout word m) }
    ensures err { IfErr result (λ f. IsNoMem layout word f) }
{
    match layout {
        Layout::One => match layout1::read_mem(word) {
            Ok(mem) => Ok(mem),
            Err(refusal) => Err(Fault::Word(refusal)),
        },
        Layout::Two => match sci_words::read_mem(word) {
            Ok(mem) => Ok(mem),
            Err(refusal) => Err(Fault::Word(refusal)),
        },
    }
}

// A tag's code.
fn write_tag(layout: Layout, tag: Tag) -> u64
    requires { fits_tag_in layout tag ≡ true }
    ensures { result ≡ tag_code_in layout tag }
{
    match layout {
        Layout::One => layout1::write_tag(tag),
        Layout::Two => sci_words::write_tag(tag),
    }
}

// A memory word's code.
fn write_mem(layout: Layout, mem: Mem) -> u64
    requires { fits_mem_in layout mem ≡ true }
    ensures { result ≡ mem_code_in layout mem }
{
    match layout {
        Layout::One => layout1::write_mem(mem),
        Layout::Two => sci_words::write_mem(mem),
    }
}

/// The code of the tag that has these parts.
pub fn tag_code(layout: Layout, parts: &TagNumbers) -> u64
    requires { tag_parts_refusal layout parts.now ≡ None }
    ensures { IsTagOf layout parts.now result }
{
    write_tag(layout, tag_meant(parts))
}

/// The code of the memory word that has these parts.
pub fn mem_code(layout: Layout, parts: &MemNumbers) -> u64
    requires { mem_parts_refusal layout parts.now ≡ None }
    ensures { IsMemOf layout parts.now result }
{
    write_mem(layout, mem_meant(parts))
}
