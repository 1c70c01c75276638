//! Where a text stands, by its lines so far, and which lines are due there.

use crate::rows::{Row, layout_in, name, number_in};
use sci_dump::{DumpHead, DumpPlace};
use std::fmt;

/// What the lines of a history lead to.
#[derive(Clone, Copy, Debug, PartialEq, Eq, Drop)]
pub enum Stage {
    /// The first line is due.
    Head,
    /// `line` with this number is due.
    Line(u64),
    /// `closed` with this number is due.
    Closed(u64),
    /// Lines of nodes from `node` on may stand here, as the last of this line of the memory.
    Nodes { line: u64, node: u64 },
    /// The text has ended.
    Done,
}

/// Where a history of this size stands.
#[derive(Clone, Copy, Debug, PartialEq, Eq, Drop)]
pub struct HistoryPlace {
    pub nodes: u64,
    pub lines: u64,
    pub stage: Stage,
}

/// The lines that are due where a text stands.
#[derive(Clone, Copy, Debug, PartialEq, Eq, Drop)]
pub enum Due {
    /// Those of a dump.
    Dump(DumpPlace),
    /// Those of a history.
    History(HistoryPlace),
}

/// Whether another line of a memory of so many is due behind this one.
fn has_next(line: u64, lines: u64) -> bool {
    line.saturating_add(1) < lines
}

/// What follows the rows of a line of the memory.
fn write_next<W: fmt::Write>(f: &mut fmt::Formatter<W>, line: u64, lines: u64) -> fmt::Result {
    if has_next(line, lines) {
        let next = line.saturating_add(1);
        write!(f, "line {next}")
    } else {
        f.write_str("end")
    }
}

impl HistoryPlace {
    /// In front of the first line.
    pub(crate) fn new() -> HistoryPlace {
        HistoryPlace {
            nodes: 0,
            lines: 0,
            stage: Stage::Head,
        }
    }

    /// Behind the first line.
    fn begun(text: &[u8]) -> HistoryPlace {
        HistoryPlace {
            nodes: number_in(text, 2).unwrap_or(0),
            lines: number_in(text, 3).unwrap_or(0),
            stage: Stage::Line(0),
        }
    }

    /// Behind this line of text, which was due.
    pub(crate) fn behind(self, text: &[u8]) -> HistoryPlace {
        let stage = match (self.stage, name(text)) {
            (Stage::Head, _) => return HistoryPlace::begun(text),
            (Stage::Line(line), _) => Stage::Closed(line),
            (Stage::Closed(line), _) => Stage::Nodes { line, node: 0 },
            (Stage::Nodes { line, .. }, b"line") => Stage::Closed(line.saturating_add(1)),
            (Stage::Nodes { .. }, b"end") | (Stage::Done, _) => Stage::Done,
            (Stage::Nodes { line, node }, _) => Stage::Nodes {
                line,
                node: number_in(text, 1).unwrap_or(node),
            },
        };
        HistoryPlace { stage, ..self }
    }

    /// The line that is due whose name this line of text has.
    fn row(self, text: &[u8]) -> Option<Row> {
        let most = self.nodes.saturating_sub(1);
        match (self.stage, name(text)) {
            (Stage::Head, b"scihistory") => Some(Row::History),
            (Stage::Line(line), b"line") | (Stage::Closed(line), b"closed") => {
                Some(Row::Content(line))
            }
            (Stage::Nodes { line, .. }, b"end") if !has_next(line, self.lines) => Some(Row::End),
            (Stage::Nodes { line, .. }, b"line") if has_next(line, self.lines) => {
                Some(Row::Content(line.saturating_add(1)))
            }
            (Stage::Nodes { node, .. }, b"read" | b"passed") => Some(Row::Receipt { node, most }),
            (Stage::Nodes { node, .. }, b"wrote") => Some(Row::Write { node, most }),
            _ => None,
        }
    }
}

/// The row of a dump that is due behind rows of this line of the memory, and none of its nodes from `node` on, with this name.
fn dump_row(head: DumpHead, line: u64, node: u64, name: &[u8]) -> Option<Row> {
    let DumpHead {
        layout,
        nodes,
        lines,
    } = head;
    let has_next = has_next(line, u64::from(lines));
    match name {
        b"end" if !has_next => Some(Row::End),
        b"line" if has_next => Some(Row::Memory(layout, line.saturating_add(1))),
        b"tag" if node < u64::from(nodes) => Some(Row::Tag {
            layout,
            line,
            node,
            most: u64::from(nodes).saturating_sub(1),
        }),
        _ => None,
    }
}

impl Due {
    /// The line that is due whose name this line of text has.
    pub(crate) fn row(self, text: &[u8]) -> Option<Row> {
        match (self, name(text)) {
            (Due::History(place), _) => place.row(text),
            (Due::Dump(DumpPlace::Start), b"scidump") => Some(Row::Dump(layout_in(text))),
            (Due::Dump(DumpPlace::Head(head)), b"line") => Some(Row::Memory(head.layout, 0)),
            (Due::Dump(DumpPlace::Line { head, line, node }), name) => {
                dump_row(head, line, node, name)
            }
            _ => None,
        }
    }

    /// Whether nothing is due.
    pub(crate) fn is_done(self) -> bool {
        match self {
            Due::Dump(place) => place == DumpPlace::End,
            Due::History(place) => place.stage == Stage::Done,
        }
    }
}

impl fmt::Display for HistoryPlace {
    fn fmt<W: fmt::Write>(&self, f: &mut fmt::Formatter<W>) -> fmt::Result {
        match self.stage {
            Stage::Head => f.write_str("scihistory 1"),
            Stage::Line(line) => write!(f, "line {line}"),
            Stage::Closed(line) => write!(f, "closed {line}"),
            Stage::Nodes { line, .. } => {
                f.write_str("read, passed, wrote or ")?;
                write_next(f, line, self.lines)
            }
            Stage::Done => f.write_str("nothing"),
        }
    }
}

impl fmt::Display for Due {
    fn fmt<W: fmt::Write>(&self, f: &mut fmt::Formatter<W>) -> fmt::Result {
        match *self {
            Due::History(place) => write!(f, "{place}"),
            Due::Dump(DumpPlace::Start) => f.write_str("scidump 1 or 2"),
            Due::Dump(DumpPlace::Head(_)) => f.write_str("line 0"),
            Due::Dump(DumpPlace::Line { head, line, node }) => {
                if node < u64::from(head.nodes) {
                    write!(f, "tag {line} or ")?;
                }
                write_next(f, line, u64::from(head.lines))
            }
            Due::Dump(DumpPlace::End) => f.write_str("nothing"),
        }
    }
}
