//! The words of a line of text, and what may stand there.

use crate::reasons::RowReason;
use sci_dump::fields::{number, word};
use sci_words::{Kind, Layout, layout1, read_mem, read_tag};
use std::fmt;

/// The words of a line of text: its name is the first.
fn word_of(text: &[u8], place: usize) -> Option<&[u8]> {
    text.split(|byte| *byte == b' ').nth(place)
}

/// The first word.
pub fn name(text: &[u8]) -> &[u8] {
    word_of(text, 0).unwrap_or(b"")
}

/// The number that a word is.
fn number_of(word: &[u8]) -> Option<u64> {
    match number(word) {
        Some((value, [])) => Some(value),
        _ => None,
    }
}

/// The number that the word at this place is.
pub fn number_in(text: &[u8], place: usize) -> Option<u64> {
    number_of(word_of(text, place)?)
}

/// The layout that the first line of a dump tells.
pub fn layout_in(text: &[u8]) -> Layout {
    match number_in(text, 1) {
        Some(1) => Layout::One,
        _ => Layout::Two,
    }
}

/// A line of text.
#[derive(Clone, Copy, Drop)]
pub enum Row {
    /// `scidump` in this layout.
    Dump(Layout),
    /// `scihistory`.
    History,
    /// `line` of a dump.
    Memory(Layout, u64),
    /// `line` or `closed` of a history.
    Content(u64),
    /// `tag` of a line, of a node from `node` to `most`.
    Tag {
        layout: Layout,
        line: u64,
        node: u64,
        most: u64,
    },
    /// `read` or `passed`, of a node from `node` to `most`.
    Receipt {
        node: u64,
        most: u64,
    },
    /// `wrote`, of a node from `node` to `most`.
    Write {
        node: u64,
        most: u64,
    },
    /// `end`.
    End,
}

/// What is wanted as a word.
#[derive(Clone, Copy, Drop)]
pub enum Field {
    /// The name of the line.
    Name,
    /// A number from the first to the second.
    Number(u64, u64),
    /// A word in digits.
    Digits,
    /// A memory word.
    Memory(Layout),
    /// A tag that isn't Invalid.
    Tag(Layout),
    /// `over`.
    Over,
}

/// How many nodes a dump in this layout has at the most.
fn most_nodes(layout: Layout) -> u64 {
    match layout {
        Layout::One => 64,
        Layout::Two => 1024,
    }
}

impl Row {
    /// How many words it has.
    fn words(self) -> usize {
        match self {
            Row::Dump(_) | Row::History => 4,
            Row::Memory(..) => 12,
            Row::Content(_) | Row::Receipt { .. } => 11,
            Row::Tag { .. } => 13,
            Row::Write { .. } => 20,
            Row::End => 1,
        }
    }

    /// What is wanted as its word at this place, from 0.
    fn field(self, place: usize) -> Field {
        match (self, place) {
            (_, 0) => Field::Name,
            (Row::Dump(_), 1) => Field::Number(1, 2),
            (Row::Dump(layout), 2) => Field::Number(1, most_nodes(layout)),
            (Row::History, 1) => Field::Number(1, 1),
            (Row::Dump(_) | Row::History, _) => Field::Number(1, 1024),
            (Row::Memory(_, line) | Row::Content(line) | Row::Tag { line, .. }, 1) => {
                Field::Number(line, line)
            }
            (Row::Memory(layout, _), 2) => Field::Memory(layout),
            (Row::Tag { node, most, .. }, 2) => Field::Number(node, most),
            (Row::Tag { layout, .. }, 3) => Field::Tag(layout),
            (Row::Receipt { node, most } | Row::Write { node, most }, 1) => {
                Field::Number(node, most)
            }
            (Row::Write { .. }, 11) => Field::Over,
            _ => Field::Number(0, u64::MAX),
        }
    }

    /// Why a line of text isn't this one, if it isn't.
    pub(crate) fn fault(self, text: &[u8]) -> Option<RowReason<'_>> {
        let (wanted, found) = (self.words(), text.split(|byte| *byte == b' ').count());
        if wanted != found {
            return Some(RowReason::Words { wanted, found });
        }
        for place in 0..wanted {
            let word = word_of(text, place).unwrap_or(b"");
            let field = self.field(place);
            if !field.takes(word) {
                return Some(field.fault(place + 1, word));
            }
        }
        None
    }
}

/// Whether this is the code of a memory word.
fn is_memory(layout: Layout, code: u64) -> bool {
    match layout {
        Layout::One => layout1::read_mem(code).is_ok(),
        Layout::Two => read_mem(code).is_ok(),
    }
}

/// Whether this is the code of a tag that isn't Invalid.
fn is_tag(layout: Layout, code: u64) -> bool {
    let tag = match layout {
        Layout::One => layout1::read_tag(code),
        Layout::Two => read_tag(code),
    };
    match tag {
        Ok(tag) => !matches!(tag.kind, Kind::Invalid),
        Err(_) => false,
    }
}

/// The code that a word is.
fn code_of(found: &[u8]) -> Option<u64> {
    match word(found) {
        Some((code, [])) => Some(code),
        _ => None,
    }
}

impl Field {
    /// Whether this word is what is wanted.
    fn takes(self, found: &[u8]) -> bool {
        match self {
            Field::Name => true,
            Field::Number(low, high) => {
                number_of(found).is_some_and(|value| low <= value && value <= high)
            }
            Field::Digits => code_of(found).is_some(),
            Field::Memory(layout) => code_of(found).is_some_and(|code| is_memory(layout, code)),
            Field::Tag(layout) => code_of(found).is_some_and(|code| is_tag(layout, code)),
            Field::Over => found == b"over".as_slice(),
        }
    }

    /// Why this word, which is counted so, isn't what is wanted.
    fn fault(self, place: usize, found: &[u8]) -> RowReason<'_> {
        let wanted = match self {
            Field::Memory(_) | Field::Tag(_) if code_of(found).is_none() => Field::Digits,
            wanted => wanted,
        };
        RowReason::Word {
            place,
            wanted,
            found,
        }
    }
}

impl fmt::Display for Field {
    fn fmt<W: fmt::Write>(&self, f: &mut fmt::Formatter<W>) -> fmt::Result {
        match *self {
            Field::Name => f.write_str("a name"),
            Field::Number(low, high) if low == high => write!(f, "{low}"),
            Field::Number(low, high) => write!(f, "a number from {low} to {high}"),
            Field::Digits => f.write_str("16 hexadecimal digits in lower case"),
            Field::Memory(_) => f.write_str("a memory word of the layout"),
            Field::Tag(_) => f.write_str("a tag of the layout that isn't Invalid"),
            Field::Over => f.write_str("over"),
        }
    }
}
