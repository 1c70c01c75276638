//! The call that a node has open.
ghost use Rattle.std.specs.Prelude.{◌≡◌};
ghost use Rattle.sci_cache.specs.Nodes.{goal_by, line_by};

use sci_ops::Goal;
use sci_words::LineNo;

/// An open call of a node: its line, its goal there, and the line that has to be left first, if there is one.
#[derive(Clone, Copy, Debug, PartialEq, Eq)]
pub struct OpenCall {
    pub line: LineNo,
    pub goal: Goal,
    pub victim: Option<LineNo>,
}

impl OpenCall {
    /// The line at work: the victim's, as long as there is one.
    #[inline(always)]
    pub fn line_at_work(&self) -> LineNo
        ensures { result ≡ line_by self.now.victim self.now.line }
    {
        self.victim.unwrap_or(self.line)
    }

    /// The goal there: that the victim leaves, as long as there is one.
    #[inline(always)]
    pub fn goal_at_work(&self) -> Goal
        ensures { result ≡ goal_by self.now.victim self.now.goal }
    {
        match self.victim {
            Some(_) => Goal::Evict,
            None => self.goal,
        }
    }
}
