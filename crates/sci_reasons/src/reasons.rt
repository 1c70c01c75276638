//! Why a line of text is refused, in words.

use crate::places::Due;
use crate::rows::{Field, name};
use sci_dump::ROW_LIMIT;
use std::ascii::escape_default;
use std::fmt;

/// A line of text that is refused where these lines are due. It is shown as why that is.
#[derive(Debug, PartialEq, Eq, Drop)]
pub struct RowFault {
    /// Which it is, counted from 1.
    pub line: u64,
    /// Its bytes, through its line feed; of a longer line the first 1,024; none at the end of the text.
    pub text: Vec<u8>,
    pub due: Due,
}

/// Why a line of text is refused. A word of it is counted from 1.
#[derive(Clone, Copy, Drop)]
pub enum RowReason<'a> {
    /// The text ends.
    End,
    /// Its first word, this one, is that of no line that is due.
    Other(&'a [u8]),
    /// It stands behind `end`, and its first word is this one.
    Behind(&'a [u8]),
    /// It is longer than any row.
    Long,
    /// No line feed ends it.
    Cut,
    /// How many words the line has, its name among them, and how many stand there.
    Words {
        wanted: usize,
        found: usize,
    },
    /// This word isn't what is wanted.
    Word {
        place: usize,
        wanted: Field,
        found: &'a [u8],
    },
}

impl RowFault {
    fn reason(&self) -> RowReason<'_> {
        let text = match self.text.as_slice() {
            [] => return RowReason::End,
            [text @ .., b'\n'] => text,
            text => text,
        };
        match self.due.row(text) {
            Some(_) if text.len() >= ROW_LIMIT => RowReason::Long,
            Some(row) => row.fault(text).unwrap_or(RowReason::Cut),
            None if self.due.is_done() => RowReason::Behind(name(text)),
            None => RowReason::Other(name(text)),
        }
    }
}

/// The word that was found, with escapes for what can't be printed; of one that is longer than a number can be, how many bytes it has.
fn write_found<W: fmt::Write>(f: &mut fmt::Formatter<W>, word: &[u8]) -> fmt::Result {
    match word.len() {
        0 => return f.write_str("nothing found"),
        1..=20 => {}
        // of a longer line only a front is there
        ROW_LIMIT.. => return f.write_str("1024 or more bytes found"),
        length => return write!(f, "{length} bytes found"),
    }
    for byte in word {
        let shown = escape_default(*byte);
        write!(f, "{shown}")?;
    }
    f.write_str(" found")
}

impl fmt::Display for RowFault {
    fn fmt<W: fmt::Write>(&self, f: &mut fmt::Formatter<W>) -> fmt::Result {
        let due = self.due;
        match self.reason() {
            RowReason::End => write!(f, "an early end: {due} wanted"),
            RowReason::Other(found) => {
                write!(f, "{due} wanted, ")?;
                write_found(f, found)
            }
            RowReason::Behind(b"") => write!(f, "{due} wanted behind end, an empty word found"),
            RowReason::Behind(found) => {
                write!(f, "{due} wanted behind end, ")?;
                write_found(f, found)
            }
            RowReason::Long => f.write_str("fewer than 1024 bytes wanted, 1024 or more found"),
            RowReason::Cut => {
                f.write_str("a line feed wanted at its end, the end of the text found")
            }
            RowReason::Words { wanted: 1, found } => write!(f, "1 word wanted, {found} found"),
            RowReason::Words { wanted, found } => write!(f, "{wanted} words wanted, {found} found"),
            RowReason::Word {
                place,
                wanted,
                found,
            } => {
                write!(f, "word {place}: {wanted} wanted, ")?;
                write_found(f, found)
            }
        }
    }
}
