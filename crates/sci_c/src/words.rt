//! The exports of the words' codec.
ghost use Rattle.std.specs.Prelude.{◌≡◌, IfOk, IfErr};
ghost use Rattle.sci_words.specs.declared.layouts.Layout.TheVariants.{One, Two};
ghost use Rattle.sci_c.specs.Words.{IsTagOf, IsMemOf, IsNoTag, IsNoMem, AreNoTag, AreNoMem};
ghost use Rattle.sci_c.specs.Asking.{Tells};

use crate::faults::Fault;
use crate::parts::{
    mem_code, mem_numbers, mem_parts_refusal, read_mem, read_tag, tag_code, tag_numbers,
    tag_parts_refusal,
};
use sci_words::Layout;

/// A tag's parts.
#[repr(C)]
#[derive(Clone, Copy, Debug, PartialEq, Eq)]
pub struct TagNumbers {
    /// 0 Invalid, 1 Queued, 2 Fresh, 3 Dirty, 4 Convert, 5 Purging, 6 Leaving, 7 Valid, 8 Roll, 9 Purged.
    pub kind: u8,
    /// 1 while its bytes are copied.
    pub held: u8,
    /// The next entry, away from the head; 65,535: none.
    pub forw: u16,
    /// The entry before it; 65,535: none.
    pub back: u16,
}

/// A memory word's parts.
#[repr(C)]
#[derive(Clone, Copy, Debug, PartialEq, Eq)]
pub struct MemNumbers {
    /// 0 HOME, 1 FRESH, 2 GONE.
    pub state: u8,
    /// 1 while its bytes are copied.
    pub lent: u8,
    /// The head of the list; 65,535: none.
    pub forw: u16,
}

fn tag_of(layout: Layout, word: u64) -> Result<TagNumbers, Fault>
    ensures ok { IfOk result (λ n. IsTagOf layout n word) }
    ensures err { IfErr result (λ f. IsNoTag layout word f) }
{
    match read_tag(layout, word) {
        Ok(tag) => Ok(tag_numbers(&tag)),
        Err(fault) => Err(fault),
    }
}

fn tag_word(layout: Layout, parts: &TagNumbers) -> Result<u64, Fault>
    ensures ok { IfOk result (λ w. IsTagOf layout parts.now w) }
    ensures err { IfErr result (λ f. AreNoTag layout parts.now f) }
{
    match tag_parts_refusal(layout, parts) {
        Some(refusal) => Err(Fault::Word(refusal)),
        None => Ok(tag_code(layout, parts)),
    }
}

fn mem_of(layout: Layout, word: u64) -> Result<MemNumbers, Fault>
    ensures ok { IfOk result (λ n. IsMemOf layout n word) }
    ensures err { IfErr result (λ f. IsNoMem layout word f) }
{
    match read_mem(layout, word) {
        Ok(mem) => Ok(mem_numbers(&mem)),
        Err(fault) => Err(fault),
    }
}

fn mem_word(layout: Layout, parts: &MemNumbers) -> Result<u64, Fault>
    ensures ok { IfOk result (λ w. IsMemOf layout parts.now w) }
    ensures err { IfErr result (λ f. AreNoMem layout parts.now f) }
{
    match mem_parts_refusal(layout, parts) {
        Some(refusal) => Err(Fault::Word(refusal)),
        None => Ok(mem_code(layout, parts)),
    }
}

/// Reads a tag's code in layout 2. Refused 1 to 5, by the lowest that applies.
#[unsafe(no_mangle)]
pub extern "C" fn sci_read_tag(word: u64, tag: &mut TagNumbers) -> u8
    ensures { Tells result (IsTagOf Two tag.new word) (λ f. IsNoTag Two word f × (tag.new ≡ tag.old)) }
{
    match tag_of(Layout::Two, word) {
        Ok(numbers) => {
            *tag = numbers;
            0
        }
        Err(fault) => fault.number(),
    }
}

/// Writes a tag's code in layout 2: that of which `sci_read_tag` reads these parts. Refused 1 to 5, where its parts are those of no
/// tag, by the lowest that applies; 2 is a held bit above 1.
#[unsafe(no_mangle)]
pub extern "C" fn sci_write_tag(tag: &TagNumbers, word: &mut u64) -> u8
    ensures { Tells result (IsTagOf Two tag.now word.new) (λ f. AreNoTag Two tag.now f × (word.new ≡ word.old)) }
{
    match tag_word(Layout::Two, tag) {
        Ok(code) => {
            *word = code;
            0
        }
        Err(fault) => fault.number(),
    }
}

/// Reads a memory word's code in layout 2. Refused 1 to 4, by the lowest that applies.
#[unsafe(no_mangle)]
pub extern "C" fn sci_read_mem(word: u64, mem: &mut MemNumbers) -> u8
    ensures { Tells result (IsMemOf Two mem.new word) (λ f. IsNoMem Two word f × (mem.new ≡ mem.old)) }
{
    match mem_of(Layout::Two, word) {
        Ok(numbers) => {
            *mem = numbers;
            0
        }
        Err(fault) => fault.number(),
    }
}

/// Writes a memory word's code in layout 2: that of which `sci_read_mem` reads these parts. Refused 1 to 4, where its parts are those
/// of no memory word, by the lowest that applies; 2 is a lent bit above 1.
#[unsafe(no_mangle)]
pub extern "C" fn sci_write_mem(mem: &MemNumbers, word: &mut u64) -> u8
    ensures { Tells result (IsMemOf Two mem.now word.new) (λ f. AreNoMem Two mem.now f × (word.new ≡ word.old)) }
{
    match mem_word(Layout::Two, mem) {
        Ok(code) => {
            *word = code;
            0
        }
        Err(fault) => fault.number(),
    }
}

/// Reads a tag's code in layout 1, that of old dumps. Refused 1 to 5, by the lowest that applies.
#[unsafe(no_mangle)]
pub extern "C" fn sci_read_tag_layout1(word: u64, tag: &mut TagNumbers) -> u8
    ensures { Tells result (IsTagOf One tag.new word) (λ f. IsNoTag One word f × (tag.new ≡ tag.old)) }
{
    match tag_of(Layout::One, word) {
        Ok(numbers) => {
            *tag = numbers;
            0
        }
        Err(fault) => fault.number(),
    }
}

/// Writes a tag's code in layout 1: that of which `sci_read_tag_layout1` reads these parts. Refused 1 to 5, where its parts are those
/// of no tag, by the lowest that applies; 2 is a held bit above 1, or a link to a node from 255 on.
#[unsafe(no_mangle)]
pub extern "C" fn sci_write_tag_layout1(tag: &TagNumbers, word: &mut u64) -> u8
    ensures { Tells result (IsTagOf One tag.now word.new) (λ f. AreNoTag One tag.now f × (word.new ≡ word.old)) }
{
    match tag_word(Layout::One, tag) {
        Ok(code) => {
            *word = code;
            0
        }
        Err(fault) => fault.number(),
    }
}

/// Reads a memory word's code in layout 1. Refused 1 to 4, by the lowest that applies.
#[unsafe(no_mangle)]
pub extern "C" fn sci_read_mem_layout1(word: u64, mem: &mut MemNumbers) -> u8
    ensures { Tells result (IsMemOf One mem.new word) (λ f. IsNoMem One word f × (mem.new ≡ mem.old)) }
{
    match mem_of(Layout::One, word) {
        Ok(numbers) => {
            *mem = numbers;
            0
        }
        Err(fault) => fault.number(),
    }
}

/// Writes a memory word's code in layout 1: that of which `sci_read_mem_layout1` reads these parts. Refused 1 to 4, where its parts
/// are those of no memory word, by the lowest that applies; 2 is a lent bit above 1, or a link to a node from 255 on.
#[unsafe(no_mangle)]
pub extern "C" fn sci_write_mem_layout1(mem: &MemNumbers, word: &mut u64) -> u8
    ensures { Tells result (IsMemOf One mem.now word.new) (λ f. AreNoMem One mem.now f × (word.new ≡ word.old)) }
{
    match mem_word(Layout::One, mem) {
        Ok(code) => {
            *word = code;
            0
        }
        Err(fault) => fault.number(),
    }
}
