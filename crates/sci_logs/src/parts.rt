//! Why a line of a log is refused, in words.

ghost use Rattle.std.specs.Prelude.{◌≡◌};
ghost use Rattle.sci_logs.specs.LineText.{lack};

use crate::seen::Seen;
use std::fmt;
use thiserror::Error;

/// Where a line of text stops being one of a log: the first word, number or sign of it at which no line of a log goes on.
#[derive(Clone, Copy, Debug, PartialEq, Eq, Drop, Error)]
#[error("column {column}: {wanted} wanted, {found} found")]
pub struct LineReason {
    /// The byte at which it begins, counted from 1.
    pub column: usize,
    /// What may stand there.
    pub wanted: Part,
    /// What stands there.
    pub found: Seen,
}

/// The same, counted from the end.
#[derive(Clone, Copy, Debug, PartialEq, Eq)]
pub struct Lack {
    /// What may stand there.
    pub wanted: Part,
    /// How many bytes of the line are left there.
    pub left: usize,
}

impl Lack {
    /// This part isn't there, but this text.
    pub(crate) fn new(wanted: Part, text: &[u8]) -> Lack
        ensures { result ≡ lack wanted text.now }
    {
        let left = text.len();
        Lack { wanted, left }
    }
}

/// A part of a line of a log.
#[derive(Clone, Copy, Debug, PartialEq, Eq, Drop)]
pub enum Part {
    /// `memory`, in front of all other lines.
    Memory,
    /// `open` or `node`.
    OpenOrNode,
    /// `open`.
    Open,
    /// `node`.
    Node,
    /// `line`.
    OnLine,
    /// A number from `low` to `high`.
    Number { low: u16, high: u16 },
    /// The number of a node.
    NodeNumber,
    /// The number of a line.
    LineNumber,
    /// One space.
    Space,
    /// A number below 2^64.
    Value,
    /// A space and a number below 2^64.
    SpacedValue,
    /// The same, or nothing more.
    EndOrValue,
    /// An event.
    Event,
    /// `(`.
    Opened,
    /// A tag's name, or its code.
    Tag,
    /// A node, or `none`.
    Link,
    /// `none` or `words`.
    NoneOrWords,
    /// `)`.
    Bracket,
    /// How the event ended.
    Outcome,
    /// An outcome that isn't `Missed`: the tag that was asked for isn't told by its code.
    Hit,
    /// A word's code.
    Word,
    /// Nothing more.
    End,
}

impl fmt::Display for Part {
    fn fmt<W: fmt::Write>(&self, f: &mut fmt::Formatter<W>) -> fmt::Result {
        match self {
            Part::Memory => f.write_str("memory NODES LINES"),
            Part::OpenOrNode => f.write_str("open L or node N"),
            Part::Open => f.write_str("open L"),
            Part::Node => f.write_str("node N"),
            Part::OnLine => f.write_str("line L"),
            Part::Number { low, high } if low == high => write!(f, "{low}"),
            Part::Number { low, high } => write!(f, "a number from {low} to {high}"),
            Part::NodeNumber => f.write_str("the number of a node"),
            Part::LineNumber => f.write_str("the number of a line"),
            Part::Space => f.write_str("a space"),
            Part::Value => f.write_str("a number from 0 to 18446744073709551615"),
            Part::SpacedValue => f.write_str("a space and a number"),
            Part::EndOrValue => f.write_str("the end, or a space and a number"),
            Part::Event => f.write_str("an event"),
            Part::Opened => f.write_str("("),
            Part::Tag => f.write_str("a tag"),
            Part::Link => f.write_str("a node or none"),
            Part::NoneOrWords => f.write_str("none or words"),
            Part::Bracket => f.write_str(")"),
            Part::Outcome => f.write_str("Done, Missed WORD or Busy"),
            Part::Hit => f.write_str("Done or Busy (behind a tag in 16 digits also Missed WORD)"),
            Part::Word => f.write_str("16 hexadecimal digits in lower case"),
            Part::End => f.write_str("the end of the line"),
        }
    }
}
