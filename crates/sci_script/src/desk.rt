//! What a script is run over.
ghost use Rattle.std.specs.Prelude.{◌≡◌, ◌<◌, ℕ, Bool, true, false, Some, IfSome, IfOk, OnOk, OnErr};
ghost use Rattle.sci_cache.specs.Requests.{line_of, has_bad_word};
ghost use Rattle.sci_script.specs.declared.commands.Size.{Size};
ghost use Rattle.sci_script.specs.Event.{Event, Began, Turned, Rested, SawMem, SawTag, Saw, IsNoEnd, IsTurned, WaitsOn};
ghost use Rattle.sci_script.specs.Size.{is_ask};

use crate::commands::Ask;
use sci_cache::Request;
use sci_ops::Turn;
use sci_words::{LineNo, Mem, NodeId, Tag};
use std::alloc::{AllocError, Global};

/// What one turn towards rest came to.
#[derive(Clone, Copy, Debug, PartialEq, Eq)]
pub enum Toward {
    /// This node was under way, and made an exchange.
    Turned(NodeId),
    /// No node is under way.
    Reached,
    /// It isn't known who moves.
    Unknown,
}

/// What a desk has of what is asked.
#[derive(Debug, Drop)]
pub enum Look {
    /// The lines that the node names, most recent first.
    Residents { node: NodeId, lines: Vec<LineNo> },
}

/// Nodes and lines, the lines that each node names, and each node's open call, where it has one. What a call answers, and how the
/// desk stands after it, is the implementation's own to say, by `does`.
pub trait Desk {
    /// How many nodes and lines there are. No call changes it.
    ghost size: { Self → Size };

    /// Whether the node's call is open.
    ghost is_open: { Self → ℕ → Bool };

    /// How many turns a line is from rest at most, where it is known who moves.
    ghost far: { Self → ℕ → ℕ };

    /// From a desk as it stands, a call may give this answer and leave the desk so.
    ghost does: { Self → Event → Self → Type 0 };

    /// Whether the node's call is open.
    fn open(&self, node: NodeId) -> bool
        requires { node < (size self.now).nodes }
        ensures { result ≡ is_open self.now node };

    /// Begins a call of the node, which has none open. Where memory ran out, all is as before.
    fn begin(&mut self, node: NodeId, request: Request) -> Result<(), AllocError>
        requires node { node < (size self.old).nodes }
        requires line { line_of request < (size self.old).lines }
        requires word { has_bad_word request ≡ false }
        requires closed { is_open self.old node ≡ false }
        ensures began { OnOk result (does self.old (Began node request) self.new) }
        ensures same { OnErr result (self.new ≡ self.old) }
        ensures size { size self.new ≡ size self.old };

    /// Takes one turn of the node's open call. A call that a turn doesn't end stays open.
    fn turn(&mut self, node: NodeId) -> Turn
        requires node { node < (size self.old).nodes }
        requires open { is_open self.old node ≡ true }
        ensures turned { does self.old (Turned node result) self.new }
        ensures open { IsNoEnd result → is_open self.new node ≡ true }
        ensures size { size self.new ≡ size self.old };

    /// Whether behind a turn that waits the next one would wait, and change nothing. False: it isn't known.
    fn waits_on(&self) -> bool
        ensures { result ≡ true → WaitsOn does };

    /// One turn of a node under way on the line that moves, as a load takes it. It leads nearer to rest. No call ends.
    fn rest_turn(&mut self, line: LineNo) -> Toward
        requires { line < (size self.old).lines }
        ensures turned { does self.old (Rested line result) self.new }
        ensures nearer { IsTurned result → far self.new line < far self.old line }
        ensures size { size self.new ≡ size self.old };

    /// What it has of what is asked. It is to be had.
    fn look(&self, alloc: Global, ask: Ask) -> Result<Look, AllocError>
        requires { is_ask (size self.now) ask ≡ true }
        ensures { IfOk result (λ look. does self.now (Saw ask look) self.now) };

    /// The line's memory word. None: it was not to be had.
    fn mem(&mut self, line: LineNo) -> Option<Mem>
        requires { line < (size self.old).lines }
        ensures saw { does self.old (SawMem line result) self.new }
        ensures link { IfSome result (λ m. IfSome m.forw (λ n. n < (size self.old).nodes)) }
        ensures size { size self.new ≡ size self.old };

    /// The node's tag on the line. None: it was not to be had.
    fn tag(&mut self, line: LineNo, node: NodeId) -> Option<Tag>
        requires line { line < (size self.old).lines }
        requires node { node < (size self.old).nodes }
        ensures saw { does self.old (SawTag line node result) self.new }
        ensures link { IfSome result (λ t. IfSome t.forw (λ n. n < (size self.old).nodes)) }
        ensures size { size self.new ≡ size self.old };
}
