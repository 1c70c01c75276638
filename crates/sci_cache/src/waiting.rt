//! Calls of a node that wait for their end. Unless the node keeps no receipts, each reserves room for its own first, on its line and
//! on the line that it puts out, and sets their marks. So refusal 7 changes nothing but room, and the other refusals of `begin`
//! nothing.
ghost use Rattle.std.specs.Prelude.{◌≡◌, ◌<◌, Some};
ghost use Rattle.sci_ops.specs.declared.goals.Goal as goal;
ghost use Rattle.sci_ops.specs.declared.goals.Write as write;
ghost use Rattle.sci_ops.specs.Change.{StoresFitting};
ghost use Rattle.sci_cache.specs.declared.requests.Request as request;
ghost use Rattle.sci_cache.specs.Requests.{line_of, goal_of};
ghost use Rattle.sci_cache.specs.Called.{HasCalled, HasMadeWay};
ghost use Rattle.sci_cache.specs.Nodes.{IsLine};

use crate::node::Node;
use crate::ports::turn_at;
use crate::refusals::NodeRefusal;
use crate::requests::Request;
use crossbeam_utils::Backoff;
use sci_core::Line;
use sci_ops::{Answer, Goal, Turn};
use sci_port::Bank;
use sci_words::LineNo;
use std::sync::Wait;

// Leaves the list of a line that the node puts out.
#[inline(never)]
fn leave<B: Bank, R: Wait>(rt: &R, bank: &mut B, victim: LineNo)
    requires line { victim < (B.way bank.old).lines }
    ensures { HasMadeWay B.way B.nodes_on B.keep B.gives B.readies B.at_step B.receipts (Some victim) bank.old bank.new }
{
    let mut shown = Line::ZERO;
    let backoff = Backoff::new();
    for _ in rt.forever() {
        match turn_at(bank, victim, &Goal::Evict, &mut shown) {
            Turn::Done(_) => return,
            Turn::Moved => backoff.reset(),
            Turn::Waiting => backoff.snooze(),
        }
    }
    unreachable!()
}

// The same, where there is one.
#[inline(always)]
fn make_way<B: Bank, R: Wait>(rt: &R, bank: &mut B, victim: Option<LineNo>)
    requires line { IsLine (B.way bank.old).lines victim }
    ensures { HasMadeWay B.way B.nodes_on B.keep B.gives B.readies B.at_step B.receipts victim bank.old bank.new }
{
    let Some(victim) = victim else {
        return;
    };
    leave(rt, bank, victim);
}

impl Node {
    // Takes a call's turns to the end. Its operation stays here, and the node has no call open.
    #[inline(always)]
    fn call<B: Bank, R: Wait>(
        &mut self,
        rt: &R,
        bank: &mut B,
        request: Request,
    ) -> Result<Answer, NodeRefusal>
        requires node { (B.way bank.old).node ≡ self.old.id }
        requires lines { (B.way bank.old).lines ≡ self.old.lines }
        requires fits { StoresFitting (B.Keep.fits (B.keep bank.old) (line_of request)) (goal_of request) }
        ensures { HasCalled B.way B.nodes_on B.keep B.Keep.fits B.gives B.readies B.at_step B.receipts self.old request bank.old result bank.new self.new }
    {
        if let Some(refusal) = self.refusal(&request) {
            return Err(refusal);
        }
        let Ok(victim) = self.enter(bank, &request) else {
            return Err(NodeRefusal::OutOfMemory);
        };
        make_way(rt, bank, victim);
        let line = request.line();
        let Ok(goal) = request.goal() else {
            unreachable!()
        };
        let mut shown = Line::ZERO;
        let backoff = Backoff::new();
        for _ in rt.forever() {
            match turn_at(bank, line, &goal, &mut shown) {
                Turn::Done(Answer::Spent) => return Err(NodeRefusal::StampsSpent),
                Turn::Done(answer) => {
                    self.close(&request);
                    return Ok(answer);
                }
                Turn::Moved => backoff.reset(),
                Turn::Waiting => backoff.snooze(),
            }
        }
        unreachable!()
    }

    /// Sees the line: Seen, with words that fit. It may wait for ever. The refusals: those of `begin`; 7 may have raised the room for
    /// receipts. None changes anything else, here and in the other calls that wait.
    #[inline(always)]
    pub fn load<B: Bank, R: Wait>(
        &mut self,
        rt: &R,
        bank: &mut B,
        line: LineNo,
    ) -> Result<Answer, NodeRefusal>
        requires node { (B.way bank.old).node ≡ self.old.id }
        requires lines { (B.way bank.old).lines ≡ self.old.lines }
        ensures { HasCalled B.way B.nodes_on B.keep B.Keep.fits B.gives B.readies B.at_step B.receipts self.old (request.Request.Load line) bank.old result bank.new self.new }
    {
        self.call(rt, bank, Request::Load { line })
    }

    /// Replaces a word, 0 to 7, by this value: Wrote. It may wait for ever. The refusals: those of `begin`, and
    /// 11 for a line whose stamp counts no more writes, which keeps its words.
    #[inline(always)]
    pub fn store<B: Bank, R: Wait>(
        &mut self,
        rt: &R,
        bank: &mut B,
        line: LineNo,
        word: u8,
        value: u64,
    ) -> Result<Answer, NodeRefusal>
        requires node { (B.way bank.old).node ≡ self.old.id }
        requires lines { (B.way bank.old).lines ≡ self.old.lines }
        requires fits { StoresFitting (B.Keep.fits (B.keep bank.old) line) (goal.Goal.Write (write.Write.Store word value)) }
        ensures { HasCalled B.way B.nodes_on B.keep B.Keep.fits B.gives B.readies B.at_step B.receipts self.old (request.Request.Store line word value) bank.old result bank.new self.new }
    {
        self.call(rt, bank, Request::Store { line, word, value })
    }

    /// Adds this number to a word, 0 to 7, modulo 2 to the 64: Wrote. It may wait for ever. The refusals: those of `begin`, and 11
    /// for a line whose stamp counts no more writes, which keeps its words.
    #[inline(always)]
    pub fn add<B: Bank, R: Wait>(
        &mut self,
        rt: &R,
        bank: &mut B,
        line: LineNo,
        word: u8,
        delta: u64,
    ) -> Result<Answer, NodeRefusal>
        requires node { (B.way bank.old).node ≡ self.old.id }
        requires lines { (B.way bank.old).lines ≡ self.old.lines }
        requires fits { StoresFitting (B.Keep.fits (B.keep bank.old) line) (goal.Goal.Write (write.Write.Add word delta)) }
        ensures { HasCalled B.way B.nodes_on B.keep B.Keep.fits B.gives B.readies B.at_step B.receipts self.old (request.Request.Add line word delta) bank.old result bank.new self.new }
    {
        self.call(rt, bank, Request::Add { line, word, delta })
    }

    /// Replaces all eight words: Wrote. It may wait for ever. The refusals: those of `begin`, and 11 for a line whose
    /// stamp counts no more writes, which keeps its words.
    #[inline(always)]
    pub fn write_line<B: Bank, R: Wait>(
        &mut self,
        rt: &R,
        bank: &mut B,
        line: LineNo,
        words: [u64; 8],
    ) -> Result<Answer, NodeRefusal>
        requires node { (B.way bank.old).node ≡ self.old.id }
        requires lines { (B.way bank.old).lines ≡ self.old.lines }
        requires fits { StoresFitting (B.Keep.fits (B.keep bank.old) line) (goal.Goal.Write (write.Write.Line words)) }
        ensures { HasCalled B.way B.nodes_on B.keep B.Keep.fits B.gives B.readies B.at_step B.receipts self.old (request.Request.WriteLine line words) bank.old result bank.new self.new }
    {
        self.call(rt, bank, Request::WriteLine { line, words })
    }

    /// Leaves the line's sharing list, and takes the line out of the table: Out. It may wait for ever. The refusals: those of
    /// `begin`.
    #[inline(always)]
    pub fn evict<B: Bank, R: Wait>(
        &mut self,
        rt: &R,
        bank: &mut B,
        line: LineNo,
    ) -> Result<Answer, NodeRefusal>
        requires node { (B.way bank.old).node ≡ self.old.id }
        requires lines { (B.way bank.old).lines ≡ self.old.lines }
        ensures { HasCalled B.way B.nodes_on B.keep B.Keep.fits B.gives B.readies B.at_step B.receipts self.old (request.Request.Evict line) bank.old result bank.new self.new }
    {
        self.call(rt, bank, Request::Evict { line })
    }
}
