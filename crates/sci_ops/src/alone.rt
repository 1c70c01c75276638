//! An operation to its end, on a line where nobody else works.
ghost use Rattle.std.specs.Prelude.{◌≡◌, ◌+◌, ◌*◌, ◌<◌, ◌≤◌};
ghost use Rattle.sci_core.specs.Whole.{nodes_of, state_of};
ghost use Rattle.sci_port.specs.Way.{way_to};
ghost use Rattle.sci_ops.specs.Alone.{IsAtRest, Ends};
ghost use Rattle.sci_ops.specs.Change.{StoresFitting};
ghost use Rattle.sci_ops.specs.Kept.{EndsWithAnswer};
ghost use Rattle.sci_ops.specs.Room.{IsProvided, KeepsSoFar};
ghost use Rattle.sci_ops.specs.Table.{after_turn};

use crate::answers::{Answer, Turn};
use crate::ops::Op;
use sci_core::Keeps;
use sci_port::Solo;
use std::marker::Model;
use std::sync::ledger::{Blank, Book, Ledger, Share};

/// How many turns were taken, for contracts alone: it takes no bytes, and only `count` changes it.
#[derive(Drop)]
pub struct Steps<L: Ledger> {
    book: Book<L>,
    share: Share<L>,
}

impl<L: Ledger> Model for Steps<L> {
    ghost use Rattle.std.specs.Prelude.{ℕ, ◌<◌};

    ghost Value = { ℕ };

    ghost view = { λ s. s.book.total };

    ghost invariant = { λ s. 0 < s.share.parts };
}

impl<L: Ledger> Steps<L> {
    /// No turns yet, in a new ledger.
    pub fn open(blank: Blank) -> Steps<L>
        requires name { blank.name ≡ L.name }
        requires parts { blank.parts ≡ L.parts }
        requires some { 0 < L.parts }
        ensures { result ≡ 0 }
    {
        let (book, share) = blank.open::<L>();
        Steps { book, share }
    }

    /// Counts one turn.
    pub fn count(&mut self)
        ensures { self.new ≡ self.old + 1 }
    {
        self.book.add(&mut self.share, 1);
    }
}

impl Op {
    ghost use Rattle.std.specs.Prelude.{None};

    /// Takes turns until the operation ends, where every node is Idle and no turn was taken yet: at most three for each
    /// node, and sixteen. Each turn is counted as one step. Where the mark is set for the goal and there is the room that the operation
    /// needs (`need`), of writes the receipts have one more, if it wrote, what stood there stands, and the answer Seen or Wrote is the last, behind it.
    pub fn alone<K: Keeps, L: Ledger>(&mut self, solo: &mut Solo<K>, steps: &mut Steps<L>) -> Answer
        requires fits { StoresFitting (K.fits solo.old.whole.now.keep solo.old.whole.now.number) self.old.goal }
        requires begins { self.old.answer ≡ None }
        requires rest { IsAtRest (state_of solo.old.whole.now) }
        ensures turns { (k : _) × (steps.new ≡ steps.old + k) × Ends (nodes_of solo.old.whole.now) (K.fits solo.old.whole.now.keep solo.old.whole.now.number) solo.old.node self.old (state_of solo.old.whole.now) k result (state_of solo.new.whole.now) }
        ensures bound { steps.new ≤ steps.old + (3 * nodes_of solo.old.whole.now + 16) }
        ensures op { self.new ≡ after_turn self.old (Turn.Done result) }
        ensures rest { IsAtRest (state_of solo.new.whole.now) }
        ensures kept { IsProvided self.old.goal self.old.answer ((state_of solo.old.whole.now).steps solo.old.node) solo.old.receipts.now → KeepsSoFar self.old solo.old.receipts.now (Turn.Done result) solo.new.receipts.now }
        ensures last { IsProvided self.old.goal self.old.answer ((state_of solo.old.whole.now).steps solo.old.node) solo.old.receipts.now → EndsWithAnswer self.old.goal result solo.old.receipts.now.list solo.new.receipts.now.list }
        ensures same_way { way_to solo.new.whole.ghost_name solo.new.whole.now solo.new.node ≡ way_to solo.old.whole.ghost_name solo.old.whole.now solo.old.node }
        ensures same_fact { solo.new.whole.now.keep ≡ solo.old.whole.now.keep }
    {
        'turns: loop {
            steps.count();
            match self.turn(solo) {
                Turn::Done(answer) => return answer,
                Turn::Moved => {}
                Turn::Waiting => unreachable!(),
            }
        }
    }
}
