//! Why a command of a script is refused, in words.

use sci_words::NodeId;
use std::fmt;
use thiserror::Error;

/// Why a command of a script is refused. Its text is a line of its own.
#[derive(Clone, Copy, Debug, PartialEq, Eq, Drop, Error)]
pub enum Reason {
    /// Of refusal 16: a byte that is neither printable ASCII nor a tab.
    #[error("a byte that is no printable ASCII")]
    BadByte,
    /// Of refusal 16: a line of a talk has more bytes than a script may have.
    #[error("a line of more than 1048576 bytes")]
    TooLong,
    /// Of refusal 16: the first word names no command.
    #[error("unknown command")]
    Unknown,
    /// Of refusal 16: no `memory` stands before it, or anywhere.
    #[error("memory wanted first")]
    Early,
    /// Of refusal 16: a second `memory`, in a talk only behind a command of a desk; a `capacity` that isn't directly behind `memory`; or an
    /// `open` behind a command of a desk.
    #[error("too late for this command")]
    Late,
    /// Of refusal 16: how many words the command has, its name among them, and how many stand there.
    #[error("{wanted} words wanted, {found} found")]
    Words { wanted: usize, found: usize },
    /// Of refusal 17: the word with this number, counted from 1, is no number from `low` to `high`.
    #[error("word {word}: {} wanted", Numbers(*.low, *.high))]
    Number { word: usize, low: u64, high: u64 },
    /// Of refusal 17: the word with this number, counted from 1, has more than 20 digits.
    #[error("word {0}: at most 20 digits wanted")]
    Digits(usize),
    /// Of refusal 16: the node's last call is open.
    #[error("node {} has a call open", .0.get())]
    CallOpen(NodeId),
    /// Of refusal 16: the node has no call open.
    #[error("node {} has no call open", .0.get())]
    NoCall(NodeId),
    /// Of refusal 18: the first node waits for the second, which has to go on first.
    #[error("node {} waits for node {}", .0.get(), .1.get())]
    WaitsFor(NodeId, NodeId),
    /// Of refusal 18: the node's call hasn't ended.
    #[error("node {} has not ended its call", .0.get())]
    Unended(NodeId),
}

/// The numbers from one to another, in words.
#[derive(Drop)]
struct Numbers(u64, u64);

impl fmt::Display for Numbers {
    fn fmt<W: fmt::Write>(&self, f: &mut fmt::Formatter<W>) -> fmt::Result {
        match *self {
            Numbers(low, high) if low == high => write!(f, "{low}"),
            Numbers(low, high) => write!(f, "a number from {low} to {high}"),
        }
    }
}
