//! What a dump says.

ghost use Rattle.std.specs.Prelude.{◌≤◌, ◌+◌, ◌*◌};
ghost use Rattle.sci_core.specs.declared.whole.TheConstants.{MOST_NODES};

use crate::places::{DumpHead, DumpRow};
use sci_core::Closed;
use sci_words::{Kind, Tag};
use std::marker::Model;

/// The tag of a node that has none of its own in a dump.
pub(crate) const INVALID: Tag = Tag {
    kind: Kind::Invalid,
    held: false,
    forw: None,
    back: None,
};

/// The closed lines of a memory, from line 0 on: 1 to 1,024 lines, each of the same 1 to 1,024 nodes.
#[derive(Drop, Debug)]
pub struct Dump {
    /// How many nodes each line has.
    pub nodes: u16,
    /// The lines, from line 0 on.
    pub lines: Vec<Closed>,
}

impl Model for Dump {
    ghost use Rattle.sci_dump.specs.Dumps.{DumpLines, IsDump};

    ghost Value = { DumpLines };

    ghost view = { λ d. record { nodes = d.nodes; lines = d.lines.items } };

    ghost invariant = { λ d. IsDump record { nodes = d.nodes; lines = d.lines.items } };
}

/// A dump up to some closed line, and the line of text behind that.
#[derive(Drop)]
pub struct DumpStream {
    pub(crate) head: DumpHead,
    pub(crate) closed: u16,
    pub(crate) row: DumpRow,
    ghost sizes: { (head.nodes ≤ MOST_NODES) × (head.lines ≤ 1024) },
    ghost near: { row.number ≤ 2 + 1025 * closed },
}
