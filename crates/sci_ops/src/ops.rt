//! Operations.
ghost use Rattle.std.specs.Prelude.{◌≡◌, ◌≢◌, ◌<◌, ◌≤◌, ◌↔◌, true, None, IfOk, IsErr};
ghost use Rattle.sci_core.specs.declared.pending.Pending.TheVariants.{Idle};
ghost use Rattle.sci_core.specs.Progress.{IsMover, Moves};
ghost use Rattle.sci_core.specs.Step.{looked};
ghost use Rattle.sci_core.specs.Whole.{IsSameLine, nodes_of, state_of};
ghost use Rattle.sci_ops.specs.declared.goals.Write as a_write;
ghost use Rattle.sci_ops.specs.Alone.{TakesTurn};
ghost use Rattle.sci_ops.specs.Answers.{AnswersAt};
ghost use Rattle.sci_ops.specs.Change.{StoresFitting};
ghost use Rattle.sci_ops.specs.Kept.{KeepsAnswer};
ghost use Rattle.sci_ops.specs.Plan.{Takes, LoadsAtMost};
ghost use Rattle.sci_ops.specs.Ranking.{ranking};
ghost use Rattle.sci_ops.specs.Rest.{due_turn, is_exchange, ComesTo};
ghost use Rattle.sci_ops.specs.Room.{IsProvided, KeepsTurn, need_of};
ghost use Rattle.sci_ops.specs.Table.{turn_of, begun, after_turn};
ghost use Rattle.sci_ops.specs.Values.{IsTrueTurn};

use crate::answers::{Answer, Turn};
use crate::goals::{Goal, WordNo, Write};
use crate::refusals::BadWord;
use sci_core::{Keeps, Line, Whole};
use sci_port::{Port, Receipts, Solo};
use sci_words::NodeId;
use std::marker::Model;

/// An operation of a node on a line: what it is for and, once it has ended, its answer.
#[derive(Clone, Copy, Debug, PartialEq, Eq)]
pub struct Op {
    goal: Goal,
    answer: Option<Answer>,
}

impl Model for Op {
    ghost use Rattle.sci_ops.specs.Operation.{Operation};

    ghost Value = { Operation };

    ghost view = { λ op. record { goal = op.goal; answer = op.answer } };

    ghost inverse = { λ op. record { goal = op.goal; answer = op.answer } };
}

impl Op {
    /// Towards this goal.
    #[inline(always)]
    pub fn towards(goal: Goal) -> Op
        ensures { result ≡ begun goal }
    {
        Op { goal, answer: None }
    }

    /// To see the line.
    #[inline(always)]
    pub fn load() -> Op
        ensures { result ≡ begun Goal.Load }
    {
        Op::towards(Goal::Load)
    }

    /// To replace a word, 0 to 7, by this value. Refusal 10 above 7, and only there.
    #[inline(always)]
    pub fn store(word: u8, value: u64) -> Result<Op, BadWord>
        ensures refused { IsErr result ↔ (7 < word) }
        ensures value { IfOk result (λ op. op ≡ begun (Goal.Write (a_write.Write.Store word value))) }
    {
        let word = WordNo::new(word)?;
        Ok(Op::towards(Goal::Write(Write::Store { word, value })))
    }

    /// To add this number to a word, 0 to 7, modulo 2 to the 64. Refusal 10 above 7, and only there.
    #[inline(always)]
    pub fn add(word: u8, delta: u64) -> Result<Op, BadWord>
        ensures refused { IsErr result ↔ (7 < word) }
        ensures value { IfOk result (λ op. op ≡ begun (Goal.Write (a_write.Write.Add word delta))) }
    {
        let word = WordNo::new(word)?;
        Ok(Op::towards(Goal::Write(Write::Add { word, delta })))
    }

    /// To replace all eight words.
    #[inline(always)]
    pub fn write_line(words: [u64; 8]) -> Op
        ensures { result ≡ begun (Goal.Write (a_write.Write.Line words)) }
    {
        Op::towards(Goal::Write(Write::Line(words)))
    }

    /// To leave the line's sharing list.
    #[inline(always)]
    pub fn evict() -> Op
        ensures { result ≡ begun Goal.Evict }
    {
        Op::towards(Goal::Evict)
    }

    /// What it is for.
    #[inline(always)]
    pub fn goal(&self) -> &Goal
        ensures { result.now ≡ self.now.goal }
    {
        &self.goal
    }

    /// Its answer, once it has ended.
    pub fn answer(&self) -> Option<Answer>
        ensures { result ≡ self.now.answer }
    {
        self.answer
    }

    /// For how many receipts there has to be room until its end, with the mark set for its goal: as `Goal::need`, and none after the end.
    pub fn need<P: Port>(&self, port: &P) -> usize
        ensures { result ≡ need_of self.now (P.at_step port.now) (P.receipts port.now) }
    {
        if self.answer.is_some() {
            return 0;
        }
        self.goal.need(port)
    }

    /// One turn, by the table of turns: at most three loads and then at most one exchange, which the pending step allows. An
    /// answer is what the last of these calls gave. Seen: a load; Settle or Unhold was done, and answered this line. Wrote: a
    /// write; from Purging of a line with these words and a stamp one less, what the write makes of them was written. Spent: a
    /// write; from Purging of a line whose stamp is `u64::MAX`, nothing was. Out: an eviction; the node's own tag was Invalid, or
    /// Left or Rolled made it so. A turn after the end gives the answer again, and asks nothing of the port. Where the port has room for
    /// one more receipt, and for a load the mark isn't set, what ends a load or a write is its last receipt, behind those that there
    /// were: of a load the line that it saw, of a write the words that it replaced, those that it wrote, and their stamp.
    /// Where the mark is set for the goal and there is the room that the operation needs (`need_in` in `specs/Room.antt`), each call finds
    /// room for its receipt, and the operation has what it needs from here on.
    #[inline(always)]
    pub fn turn<P: Port>(&mut self, port: &mut P) -> Turn
        requires fits { StoresFitting (P.Keep.fits (P.keep port.old) (P.way port.old).number) self.old.goal }
        ensures calls { Takes P.gives (turn_of self.old (P.way port.old).node (P.at_step port.old)) port.old result port.new }
        ensures answers { AnswersAt P.gives P.at_step self.old (P.way port.old).node port.old result port.new }
        ensures last { KeepsAnswer self.old result (P.receipts port.old) (P.receipts port.new) }
        ensures kept { IsProvided self.old.goal self.old.answer (P.at_step port.old) (P.receipts port.old) → KeepsTurn P.gives P.receipts self.old port.old result port.new (P.at_step port.new) }
        ensures loads { LoadsAtMost 3 (turn_of self.old (P.way port.old).node (P.at_step port.old)) }
        ensures op { self.new ≡ after_turn self.old result }
        ensures same_way { P.way port.new ≡ P.way port.old }
        ensures same_fact { P.keep port.new ≡ P.keep port.old }
    {
        if let Some(answer) = self.answer {
            return Turn::Done(answer);
        }
        let mut shown = Line::ZERO;
        let turn = self.goal.turn(port, &mut shown);
        if let Turn::Done(answer) = turn {
            self.answer = Some(answer);
        }
        turn
    }

    /// One turn of a node on a line that is lent to it: `turn` over its `Solo`. Nobody comes between its loads and its
    /// exchange, so it never misses: it makes the exchange that the table of turns has on the line as it stands, and waits only
    /// where the table says so. A node that moves, as `Whole::mover` gives one, makes an exchange. A node that isn't Idle and doesn't
    /// move, as one of which `Whole::waits_for` names another, waits, and all stays but for its look at its own tag. An exchange of a
    /// node that isn't Idle leads nearer to rest, and no turn of it farther (`ranking` in `specs/Ranking.antt`). An answer is true of the
    /// line before and after the turn. Seen: the line's value, and the node is a valid sharer of it. Wrote: the words before
    /// are those of the value before, whose stamp is one less, the value after is what the write makes of them, with the stamp,
    /// and the node is the only valid sharer before and after. Spent: the stamp of the value is `u64::MAX`, the value stays,
    /// and the node is the only valid sharer before and after. Out: the node's tag is Invalid. No `Receipts` keep what it shows.
    pub fn turn_on<K: Keeps>(&mut self, whole: &mut Whole<K>, node: NodeId) -> Turn
        requires node { node < nodes_of whole.old }
        requires fits { StoresFitting (K.fits whole.old.keep whole.old.number) self.old.goal }
        ensures same { IsSameLine whole.old whole.new }
        ensures calls { TakesTurn (nodes_of whole.old) (K.fits whole.old.keep whole.old.number) node self.old (state_of whole.old) result (state_of whole.new) }
        ensures in_one_go { ComesTo (due_turn self.old node (state_of whole.old)) result }
        ensures mover { self.old.answer ≡ None → IsMover (nodes_of whole.old) (state_of whole.old) node → (is_exchange (due_turn self.old node (state_of whole.old)) ≡ true) × (result ≢ Turn.Waiting) }
        ensures waits { self.old.answer ≡ None → (state_of whole.old).steps node ≢ Idle → (Moves (nodes_of whole.old) (state_of whole.old) node → ⊥) → (result ≡ Turn.Waiting) × (state_of whole.new ≡ looked (state_of whole.old) node) }
        ensures nearer { (state_of whole.old).steps node ≢ Idle → is_exchange (due_turn self.old node (state_of whole.old)) ≡ true → ranking (nodes_of whole.old) (state_of whole.new) < ranking (nodes_of whole.old) (state_of whole.old) }
        ensures no_farther { (state_of whole.old).steps node ≢ Idle → ranking (nodes_of whole.old) (state_of whole.new) ≤ ranking (nodes_of whole.old) (state_of whole.old) }
        ensures answers { IsTrueTurn (nodes_of whole.old) (K.fits whole.old.keep whole.old.number) self.old node (state_of whole.old) result (state_of whole.new) }
        ensures op { self.new ≡ after_turn self.old result }
    {
        let mut receipts = Receipts::new(whole.allocator());
        self.turn(&mut Solo::new(whole, &mut receipts, node))
    }
}
