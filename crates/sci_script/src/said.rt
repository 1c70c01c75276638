//! What a command says with its numbers.

ghost use Rattle.std.specs.Prelude.{◌≡◌, ◌<◌, ◌^◌};
ghost use Rattle.sci_core.specs.declared.whole.TheConstants.{MOST_NODES};
ghost use Rattle.sci_script.specs.Grammar.{AreFrom, arguments_of, at, said_by, opening_by};
ghost use Rattle.sci_script.specs.Size.{IsSize};
ghost use Rattle.sci_script.specs.declared.commands.Command.TheVariants.{Begin};
ghost use Rattle.sci_script.specs.declared.said.Read.TheVariants as reads;

use crate::commands::{Ask, Command, Opening, Request, Size};
use crate::verbs::Verb;
use sci_core::Line;
use sci_words::NodeId;

/// What a line says.
#[derive(Clone, Copy, Debug)]
pub(crate) enum Read {
    /// How many nodes and lines the memory has.
    Memory(Size),
    /// How many lines a node may name.
    Capacity(u16),
    /// What a line opens with.
    Open(Opening),
    /// A command of a desk.
    Command(Command),
}

fn short(number: u64) -> u16
    requires { number < 2 ^ 16 }
    ensures { result ≡ number }
{
    number as u16
}

fn node(number: u64) -> NodeId
    requires { number < MOST_NODES }
    ensures { result ≡ number }
{
    NodeId::new(number as u16).unwrap()
}

fn word(number: u64) -> u8
    requires { number < 8 }
    ensures { result ≡ number }
{
    number as u8
}

/// `NODES LINES`
fn memory(n: &[u64; 10]) -> Size
    requires nodes { at n.now 0 < 2 ^ 16 }
    requires lines { at n.now 1 < 2 ^ 16 }
    ensures { result ≡ record { nodes = at n.now 0; lines = at n.now 1 } }
{
    Size {
        nodes: short(n[0]),
        lines: short(n[1]),
    }
}

/// `L S V V V V V V V V`
fn opening(n: &[u64; 10]) -> Opening
    requires { at n.now 0 < 2 ^ 16 }
    ensures { result ≡ opening_by n.now }
{
    let words = [n[2], n[3], n[4], n[5], n[6], n[7], n[8], n[9]];
    Opening {
        line: short(n[0]),
        content: Line { words, stamp: n[1] },
    }
}

/// `N L ..`
fn begin(n: &[u64; 10], request: Request) -> Read
    requires node { at n.now 0 < MOST_NODES }
    requires line { at n.now 1 < 2 ^ 16 }
    ensures { result ≡ reads.Command (Begin (at n.now 0) (at n.now 1) request) }
{
    Read::Command(Command::Begin {
        node: node(n[0]),
        line: short(n[1]),
        request,
    })
}

/// What this command says with these numbers, which are in their ranges.
#[inline(always)]
pub(crate) fn said(size: Size, verb: Verb, n: &[u64; 10]) -> Read
    requires size { IsSize size }
    requires range { AreFrom size 0 (arguments_of verb) n.now }
    ensures { result ≡ said_by size verb n.now }
{
    let value = n[3];
    match verb {
        Verb::Memory => Read::Memory(memory(n)),
        Verb::Capacity => Read::Capacity(short(n[0])),
        Verb::Open => Read::Open(opening(n)),
        Verb::Load => {
            let word = word(n[2]);
            begin(n, Request::Load { word })
        }
        Verb::Store => {
            let word = word(n[2]);
            begin(n, Request::Store { word, value })
        }
        Verb::Add => {
            let word = word(n[2]);
            begin(n, Request::Add { word, delta: value })
        }
        Verb::Evict => begin(n, Request::Evict),
        Verb::Turn => Read::Command(Command::Turn { node: node(n[0]) }),
        Verb::Done => Read::Command(Command::Done { node: node(n[0]) }),
        Verb::Rest => Read::Command(Command::Rest { lines: size.lines }),
        Verb::End => Read::Command(Command::End {
            nodes: size.nodes,
            lines: size.lines,
        }),
        Verb::List => Read::Command(Command::List { line: short(n[0]) }),
        Verb::Tag => Read::Command(Command::Tag {
            line: short(n[0]),
            node: node(n[1]),
        }),
        Verb::Residents => Read::Command(Command::Show(Ask::Residents { node: node(n[0]) })),
    }
}
