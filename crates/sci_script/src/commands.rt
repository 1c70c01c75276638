//! What a script says.

ghost use Rattle.std.specs.Prelude.{◌≡◌, true, false};
ghost use Rattle.sci_cache.specs.Requests.{has_bad_word};
ghost use Rattle.sci_script.specs.Request.{asked};
ghost use Rattle.sci_script.specs.Size.{IsSize, IsCapacity, AreIn, is_request};

use sci_core::Line;
use sci_words::{LineNo, NodeId};

/// How many nodes and lines a script's memory has.
#[derive(Clone, Copy, Debug, PartialEq, Eq)]
pub struct Size {
    pub nodes: u16,
    pub lines: u16,
}

/// What a call is to do on its line.
#[derive(Clone, Copy, Debug)]
pub enum Request {
    /// To see the word with this number, 0 to 7.
    Load { word: u8 },
    /// To set the word with this number, 0 to 7, to this value.
    Store { word: u8, value: u64 },
    /// To add this number to the word with this number, 0 to 7; the sum wraps.
    Add { word: u8, delta: u64 },
    /// To leave the line's sharing list.
    Evict,
}

impl Request {
    /// What the node is asked for, on this line.
    pub fn on(self, line: LineNo) -> sci_cache::Request
        requires { is_request self ≡ true }
        ensures value { result ≡ asked line self }
        ensures word { has_bad_word result ≡ false }
    {
        match self {
            Request::Load { .. } => sci_cache::Request::Load { line },
            Request::Store { word, value } => sci_cache::Request::Store { line, word, value },
            Request::Add { word, delta } => sci_cache::Request::Add { line, word, delta },
            Request::Evict => sci_cache::Request::Evict { line },
        }
    }
}

/// What a command prints without a turn.
#[derive(Clone, Copy, Debug)]
pub enum Ask {
    /// The lines that the node names.
    Residents { node: NodeId },
}

/// What one line of a script asks for.
#[derive(Clone, Copy, Debug)]
pub enum Command {
    /// Begins a call of the node on the line.
    Begin {
        node: NodeId,
        line: LineNo,
        request: Request,
    },
    /// Takes one turn of the node's call.
    Turn {
        node: NodeId,
    },
    /// Takes turns to the end of the node's call.
    Done {
        node: NodeId,
    },
    /// Brings the first `lines` lines to rest.
    Rest {
        lines: u16,
    },
    /// Brings the first `lines` lines to rest, and takes each open call of the first `nodes` nodes to its end, the lowest node first.
    End {
        nodes: u16,
        lines: u16,
    },
    /// Prints the line's sharing list.
    List {
        line: LineNo,
    },
    /// Prints the node's tag on the line.
    Tag {
        line: LineNo,
        node: NodeId,
    },
    /// Prints what is asked.
    Show(Ask),
}

/// A command, and the number of the line of text that it stands on, counted from 1.
#[derive(Clone, Copy, Debug)]
pub struct Step {
    pub number: u64,
    pub command: Command,
}

/// The content that a line opens with.
#[derive(Clone, Copy, Debug)]
pub struct Opening {
    pub line: LineNo,
    pub content: Line,
}

impl Opening {
    ghost use Rattle.std.specs.Prelude.{◌≡◌, ◌==◌, if◌then◌else◌};

    /// The content of the line, where it was this before.
    fn content_for(self, line: LineNo, before: Line) -> Line
        ensures { result ≡ (if self.line == line then self.content else before) }
    {
        if self.line == line {
            self.content
        } else {
            before
        }
    }
}

/// A script, as it was read. Its commands are of nodes, lines and words that its memory has.
#[derive(Debug, Drop)]
pub struct Script {
    pub(crate) size: Size,
    pub(crate) capacity: u16,
    pub(crate) openings: Vec<Opening>,
    pub(crate) steps: Vec<Step>,
    ghost is_size: { IsSize size },
    ghost is_capacity: { IsCapacity capacity },
    ghost fits: { AreIn size steps.items },
}

impl Script {
    ghost use Rattle.std.specs.Prelude.{◌≡◌, ◌≤◌};
    ghost use Rattle.sci_core.specs.declared.whole.TheConstants.{MOST_NODES};
    ghost use Rattle.sci_script.specs.Openings.{content_of, zeros};

    /// How many nodes its memory has, 1 to 1,024.
    pub fn nodes(&self) -> u16
        ensures value { result ≡ self.now.size.nodes }
        ensures range { (1 ≤ result) × (result ≤ MOST_NODES) }
    {
        self.size.nodes
    }

    /// Its commands, in order.
    pub fn steps(&self) -> &[Step]
        ensures { result.now ≡ self.now.steps.items }
    {
        self.steps.as_slice()
    }

    /// What its lines open with, in order; where a line has several, its last counts.
    pub fn openings(&self) -> &[Opening]
        ensures { result.now ≡ self.now.openings.items }
    {
        self.openings.as_slice()
    }

    /// How many lines its memory has, 1 to 1,024.
    pub fn lines(&self) -> u16
        ensures value { result ≡ self.now.size.lines }
        ensures range { (1 ≤ result) × (result ≤ 1024) }
    {
        self.size.lines
    }

    /// How many lines a node may name, 1 to 1,024: what the script says, or else 1,024.
    pub fn capacity(&self) -> u16
        ensures value { result ≡ self.now.capacity }
        ensures range { (1 ≤ result) × (result ≤ 1024) }
    {
        self.capacity
    }

    /// What the line opens with: its last opening, or zeros.
    #[tactic(auto, using(crate::proofs::Content::content_more, crate::proofs::Content::content_end))]
    pub fn opening(&self, line: LineNo) -> Line
        ensures { result ≡ content_of line zeros self.now.openings.items }
    {
        let mut content = Line::ZERO;
        for opening in &self.openings {
            content = opening.content_for(line, content);
        }
        content
    }
}
