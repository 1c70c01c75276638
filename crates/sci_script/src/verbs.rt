//! The commands by their names, and what numbers stand behind each name.

ghost use Rattle.std.specs.Prelude.{◌≡◌, ◌≤◌, length};
ghost use Rattle.sci_script.specs.Grammar.{verb_of, arguments_of, range_of};
ghost use Rattle.sci_script.specs.Size.{IsSize};

use crate::commands::Size;
use crate::line_words::is_word;
use sci_core::MOST_NODES;

/// A command's name.
#[derive(Clone, Copy, Debug)]
pub(crate) enum Verb {
    Memory,
    Capacity,
    Open,
    Load,
    Store,
    Add,
    Evict,
    Turn,
    Done,
    Rest,
    End,
    List,
    Tag,
    Residents,
}

/// What a word behind a name is a number of.
#[derive(Clone, Copy, Debug)]
pub(crate) enum Argument {
    Nodes,
    Lines,
    Capacity,
    Node,
    Line,
    Word,
    Value,
}

/// The command of this name.
#[tactic(auto, unfolding(crate::specs::Grammar::verb_of))]
#[inline(always)]
pub(crate) fn verb_named(name: &[u8]) -> Option<Verb>
    ensures { result ≡ verb_of name.now }
{
    if is_word(name, b"load") {
        Some(Verb::Load)
    } else if is_word(name, b"store") {
        Some(Verb::Store)
    } else if is_word(name, b"add") {
        Some(Verb::Add)
    } else if is_word(name, b"evict") {
        Some(Verb::Evict)
    } else if is_word(name, b"turn") {
        Some(Verb::Turn)
    } else if is_word(name, b"done") {
        Some(Verb::Done)
    } else if is_word(name, b"rest") {
        Some(Verb::Rest)
    } else if is_word(name, b"end") {
        Some(Verb::End)
    } else if is_word(name, b"list") {
        Some(Verb::List)
    } else if is_word(name, b"tag") {
        Some(Verb::Tag)
    } else if is_word(name, b"residents") {
        Some(Verb::Residents)
    } else if is_word(name, b"memory") {
        Some(Verb::Memory)
    } else if is_word(name, b"capacity") {
        Some(Verb::Capacity)
    } else if is_word(name, b"open") {
        Some(Verb::Open)
    } else {
        None
    }
}

/// What the words behind a name are numbers of.
pub(crate) fn arguments(verb: Verb) -> &'static [Argument]
    ensures value { result.now ≡ arguments_of verb }
    ensures few { length result.now ≤ 10 }
{
    match verb {
        Verb::Memory => &[Argument::Nodes, Argument::Lines],
        Verb::Capacity => &[Argument::Capacity],
        Verb::Open => &[
            Argument::Line,
            Argument::Value,
            Argument::Value,
            Argument::Value,
            Argument::Value,
            Argument::Value,
            Argument::Value,
            Argument::Value,
            Argument::Value,
            Argument::Value,
        ],
        Verb::Load => &[Argument::Node, Argument::Line, Argument::Word],
        Verb::Store | Verb::Add => &[
            Argument::Node,
            Argument::Line,
            Argument::Word,
            Argument::Value,
        ],
        Verb::Evict => &[Argument::Node, Argument::Line],
        Verb::Turn | Verb::Done | Verb::Residents => &[Argument::Node],
        Verb::Rest | Verb::End => &[],
        Verb::List => &[Argument::Line],
        Verb::Tag => &[Argument::Line, Argument::Node],
    }
}

/// The lowest and the highest number that a word may be.
pub(crate) fn range(size: Size, argument: Argument) -> (u64, u64)
    requires { IsSize size }
    ensures { result ≡ range_of size argument }
{
    match argument {
        Argument::Nodes => (1, u64::from(MOST_NODES)),
        Argument::Lines | Argument::Capacity => (1, 1024),
        Argument::Node => (0, u64::from(size.nodes - 1)),
        Argument::Line => (0, u64::from(size.lines - 1)),
        Argument::Word => (0, 7),
        Argument::Value => (0, u64::MAX),
    }
}
