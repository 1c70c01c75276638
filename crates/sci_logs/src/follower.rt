//! Lines that a log is followed on.

ghost use Rattle.std.specs.Prelude.{◌≡◌, ◌≢◌, ◌<◌, ℕ, length, IfOk};
ghost use Rattle.sci_core.specs.Answers.{Answers};
ghost use Rattle.sci_core.specs.Whole.{nodes_of, state_of};
ghost use Rattle.sci_script.specs.Size.{IsSize};
ghost use Rattle.sci_logs.specs.Steps.{AreUnused, IsIn, Takes, Reopens, whole_at, lines_of};

use crate::entries::{Deviation, Entry, judge};
use crate::lines::Follower;
use sci_core::{AnyWords, Event, Line, NotInTurn, Outcome, Whole};
use sci_script::Size;
use sci_words::{LineNo, NodeId};
use std::alloc::{AllocError, Global};

/// One event of a node on one of these lines.
#[tactic(auto, using(sci_core::proofs::Fitting::any_event_fits))]
fn step_on(
    lines: &mut [Whole<AnyWords>],
    line: LineNo,
    node: NodeId,
    event: Event,
) -> Result<Outcome, NotInTurn>
    requires line { line < length lines.old }
    requires node { node < nodes_of (whole_at lines.old line) }
    ensures count { length lines.new ≡ length lines.old }
    ensures answers { Answers (nodes_of (whole_at lines.old line)) (state_of (whole_at lines.old line)) node event result (state_of (whole_at lines.new line)) }
    ensures others { (l : ℕ) → l ≢ line → whole_at lines.new l ≡ whole_at lines.old l }
    ensures widths { (l : ℕ) → nodes_of (whole_at lines.new l) ≡ nodes_of (whole_at lines.old l) }
{
    lines[usize::from(line)].step(node, event)
}

/// Another line in the place of this one.
fn put(lines: &mut [Whole<AnyWords>], line: LineNo, whole: Whole<AnyWords>)
    requires line { line < length lines.old }
    requires nodes { nodes_of whole ≡ nodes_of (whole_at lines.old line) }
    ensures count { length lines.new ≡ length lines.old }
    ensures put { whole_at lines.new line ≡ whole }
    ensures others { (l : ℕ) → l ≢ line → whole_at lines.new l ≡ whole_at lines.old l }
    ensures widths { (l : ℕ) → nodes_of (whole_at lines.new l) ≡ nodes_of (whole_at lines.old l) }
{
    lines[usize::from(line)] = whole;
}

/// Opens one of these lines anew, with this content.
#[tactic(auto, using(crate::proofs::Widths::opened_nodes))]
fn reopen_at(
    alloc: Global,
    lines: &mut [Whole<AnyWords>],
    nodes: u16,
    line: LineNo,
    content: Line,
) -> Result<(), AllocError>
    requires line { line < length lines.old }
    requires nodes { nodes_of (whole_at lines.old line) ≡ nodes }
    ensures count { length lines.new ≡ length lines.old }
    ensures opened { Reopens nodes (λ l. state_of (whole_at lines.old l)) line content result (λ l. state_of (whole_at lines.new l)) }
    ensures widths { (l : ℕ) → nodes_of (whole_at lines.new l) ≡ nodes_of (whole_at lines.old l) }
{
    match Whole::open(alloc, nodes, line, content, AnyWords) {
        Ok(whole) => {
            put(lines, line, whole);
            Ok(())
        }
        Err(_) => Err(AllocError),
    }
}

/// Lines of so many nodes that nobody has used, of zeros.
fn unused(alloc: Global, size: Size) -> Result<Vec<Whole<AnyWords>>, AllocError>
    requires { IsSize size }
    ensures count { IfOk result (λ lines. length lines.items ≡ size.lines) }
    ensures unused { IfOk result (λ lines. AreUnused size.nodes size.lines lines.items) }
{
    let mut lines = Vec::new(alloc);
    for number in 0..size.lines {
        match Whole::open(alloc, size.nodes, number, Line::ZERO, AnyWords) {
            Ok(whole) => lines.push(whole)?,
            Err(_) => return Err(AllocError),
        }
    }
    Ok(lines)
}

impl Follower {
    /// Lines of zeros that nobody has used. Refusal 7 alone.
    pub fn open(alloc: Global, size: Size) -> Result<Follower, AllocError>
        requires { IsSize size }
        ensures size { IfOk result (λ f. f.size ≡ size) }
        ensures unused { IfOk result (λ f. AreUnused size.nodes size.lines f.lines.items) }
    {
        let lines = unused(alloc, size)?;
        Ok(Follower { size, lines })
    }

    /// How many nodes and lines there are.
    pub fn size(&self) -> Size
        ensures value { result ≡ self.now.size }
        ensures range { IsSize result }
    {
        self.size
    }

    /// Opens a line anew, with this content. Refusal 7 alone; then all is as it was.
    #[tactic(auto, using(crate::proofs::Widths::kept_widths, crate::proofs::Widths::width_at))]
    pub fn reopen(&mut self, alloc: Global, line: LineNo, content: Line) -> Result<(), AllocError>
        requires { line < self.old.size.lines }
        ensures opened { Reopens self.old.size.nodes (lines_of self.old) line content result (lines_of self.new) }
        ensures size { self.new.size ≡ self.old.size }
    {
        reopen_at(alloc, &mut self.lines, self.size.nodes, line, content)
    }

    /// Has the node's event happen on its line. Ok: the line answers as the entry says. Err: it doesn't, and why. The lines after it
    /// are those of the table's step in both cases.
    #[tactic(auto, using(crate::proofs::Widths::kept_widths, crate::proofs::Widths::width_at))]
    pub fn take(&mut self, entry: &Entry) -> Result<(), Deviation>
        requires { IsIn self.old.size entry.now }
        ensures takes { Takes self.old.size.nodes (lines_of self.old) entry.now result (lines_of self.new) }
        ensures size { self.new.size ≡ self.old.size }
    {
        let answer = step_on(&mut self.lines, entry.line, entry.node, entry.event);
        judge(&entry.claim, &answer)
    }
}
