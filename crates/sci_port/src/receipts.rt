//! The receipts of a node on a line.
ghost use Rattle.std.specs.Prelude.{◌≡◌, ℕ, ◌+◌, ◌<◌, ◌≤◌, [], true, false, IsOk, IfOk, OnOk, OnErr, length, replicate};
ghost use Rattle.sci_core.specs.Answers.{is_allowed};
ghost use Rattle.sci_core.specs.declared.pending.Pending.{Pending};
ghost use Rattle.sci_core.specs.declared.receipts.Receipt.TheVariants.{Read, Passed, Wrote};
ghost use Rattle.sci_port.specs.declared.calls.Call.TheVariants.{Stepped};
ghost use Rattle.sci_port.specs.KeepsTo.{is_passed};
ghost use Rattle.sci_port.specs.Readying.{no_receipts};
ghost use Rattle.sci_port.specs.ReceiptList.{Appends, CountsOver, HasRoom, Receives, ReceivesIfRoom, Replaces, Settles, WritesOver, has_room_for, last_passed, line_before, replaces};

use sci_core::{Event, Line, Outcome, Pending, Receipt};
use std::alloc::{AllocError, Global};
use std::marker::Model;

/// What a node was shown of a line and what it wrote there, in order; and a mark, whether the next settle is only passed, on the
/// node's way to a write or out of the list. It keeps its allocator, and takes memory in `reserve` alone: 144 bytes a receipt.
#[derive(Drop)]
pub struct Receipts {
    list: Vec<Receipt>,
    passing: bool,
}

// It is a Passed.
fn is_passed(receipt: &Receipt) -> bool
    ensures { result ≡ is_passed receipt.now }
{
    matches!(receipt, Receipt::Passed { .. })
}

// The line that a write from this step replaces; any line where it writes none.
#[inline(always)]
fn line_before(step: &Pending) -> Line
    ensures { result ≡ line_before step.now }
{
    match step {
        Pending::Purging { line, .. } => *line,
        _ => Line::ZERO,
    }
}

impl Model for Receipts {
    ghost use Rattle.std.specs.Prelude.{◌-◌, vec_len, vec_capacity};
    ghost use Rattle.sci_port.specs.ReceiptList.{ReceiptList};

    ghost Value = { ReceiptList };

    ghost view = { λ r. record { list = r.list.items; passing = r.passing; room = vec_capacity r.list - vec_len r.list } };
}

impl Receipts {
    /// No receipts, no room, and the mark not set. It takes no memory.
    pub fn new(alloc: Global) -> Receipts
        ensures list { result.list ≡ [] }
        ensures mark { result.passing ≡ false }
        ensures room { result.room ≡ 0 }
    {
        Receipts {
            list: Vec::new(alloc),
            passing: false,
        }
    }

    /// For each of so many lines no receipts, as `new` makes them. `AllocError`: memory was refused.
    pub fn of_lines(alloc: Global, lines: usize) -> Result<Vec<Receipts>, AllocError>
        ensures count { IfOk result (λ all. length all.items ≡ lines) }
        ensures none { IfOk result (λ all. all.items ≡ replicate lines no_receipts) }
    {
        let mut all = Vec::with_capacity(alloc, lines)?;
        for line in 0..lines {
            let _ = line;
            all.push_reserved(Receipts::new(alloc));
        }
        Ok(all)
    }

    /// Room for n more, at least; it never falls. Where it was there already, this takes no memory. `AllocError`: memory was
    /// refused, and all is as before.
    pub fn reserve(&mut self, n: usize) -> Result<(), AllocError>
        ensures list { self.new.list ≡ self.old.list }
        ensures mark { self.new.passing ≡ self.old.passing }
        ensures room { OnOk result (n ≤ self.new.room) }
        ensures grows { self.old.room ≤ self.new.room }
        ensures refused { OnErr result (self.new.room ≡ self.old.room) }
        ensures enough { n ≤ self.old.room → IsOk result }
    {
        self.list.reserve(n)
    }

    /// For how many more there is room.
    pub fn room(&self) -> usize
        ensures { result ≡ self.now.room }
    {
        self.list.capacity() - self.list.len()
    }

    /// The last of them is a Passed.
    pub fn last_passed(&self) -> bool
        ensures { result ≡ last_passed self.now.list }
    {
        match self.list.last() {
            Some(last) => is_passed(last),
            None => false,
        }
    }

    /// Sets the mark: whether the next settle is only passed (`Passed`), or is a `Read`.
    pub fn aim(&mut self, passing: bool)
        ensures list { self.new.list ≡ self.old.list }
        ensures mark { self.new.passing ≡ passing }
        ensures room { self.new.room ≡ self.old.room }
    {
        self.passing = passing;
    }

    /// The event has a receipt, and there is room for it.
    #[inline(always)]
    pub fn has_room_for(&self, event: &Event) -> bool
        ensures { result ≡ has_room_for event.now self.now }
    {
        match event {
            Event::Unhold | Event::Written(Some(_)) => self.room() > 0,
            Event::Settle => self.room() > 0 || self.passing && self.last_passed(),
            _ => false,
        }
    }

    /// Keeps what an event of this pending step, which allowed it, came to, as `receive` does. There is to be room.
    #[inline(always)]
    pub fn keep(&mut self, step: &Pending, event: &Event, outcome: &Outcome)
        requires allowed { (n : ℕ) × (me : ℕ) × (is_allowed n me step.now event.now ≡ true) }
        requires room { HasRoom event.now self.old }
        ensures { Receives step.now (Stepped event.now outcome.now) self.old self.new }
    {
        let before = line_before(step);
        self.receive(event, &before, outcome);
    }

    // The same, if the event `keeps` its receipt (`is_kept`), and else nothing.
    #[tactic(auto, using(crate::proofs::Before::room_to_keep, crate::proofs::Before::kept_so, crate::proofs::Before::unkept))]
    #[inline(always)]
    pub(crate) fn keep_if(
        &mut self,
        is_kept: bool,
        step: &Pending,
        event: &Event,
        outcome: &Outcome,
    )
        requires allowed { (n : ℕ) × (me : ℕ) × (is_allowed n me step.now event.now ≡ true) }
        requires asked { is_kept ≡ has_room_for event.now self.old }
        ensures { ReceivesIfRoom step.now (Stepped event.now outcome.now) self.old self.new }
    {
        if is_kept {
            self.keep(step, event, outcome);
        }
    }

    /// The receipts, in order.
    pub fn as_slice(&self) -> &[Receipt]
        ensures { result.now ≡ self.now.list }
    {
        self.list.as_slice()
    }

    /// The same, by themselves.
    pub fn into_vec(self) -> Vec<Receipt>
        ensures { result.items ≡ self.list }
    {
        let Receipts { list, passing: _ } = self;
        list
    }

    // One more.
    fn push(&mut self, receipt: Receipt)
        requires { 0 < self.old.room }
        ensures { Appends self.old receipt self.new }
    {
        self.list.push_reserved(receipt);
    }

    // The last, a Passed, gives way to this one.
    #[tactic(auto, using(crate::proofs::Lasting::last_is, crate::proofs::Lasting::replaced))]
    fn replace(&mut self, receipt: Receipt)
        requires { last_passed self.old.list ≡ true }
        ensures { Replaces self.old receipt self.new }
    {
        let last = self.list.len() - 1;
        self.list[last] = receipt;
    }

    // The node was given the line.
    #[inline(always)]
    fn read(&mut self, line: Line)
        requires { 0 < self.old.room }
        ensures { Appends self.old (Read line.words line.stamp) self.new }
    {
        let Line { words, stamp } = line;
        self.list.push_reserved(Receipt::Read { words, stamp });
    }

    // The node settled with the line.
    #[inline(always)]
    fn settled(&mut self, line: Line)
        requires { replaces self.old ≡ false → 0 < self.old.room }
        ensures { Settles self.old.passing (last_passed self.old.list) self.old line self.new }
    {
        let Line { words, stamp } = line;
        if !self.passing {
            self.push(Receipt::Read { words, stamp });
        } else if self.last_passed() {
            self.replace(Receipt::Passed { words, stamp });
        } else {
            self.push(Receipt::Passed { words, stamp });
        }
    }

    // The node wrote these words over the line.
    #[inline(always)]
    fn wrote(&mut self, before: Line, words: [u64; 8])
        requires room { 0 < self.old.room }
        requires counts { before.stamp < 18446744073709551615 }
        ensures { Appends self.old (Wrote before.words words (before.stamp + 1)) self.new }
    {
        let Line {
            words: replaced,
            stamp,
        } = before;
        self.list.push_reserved(Receipt::Wrote {
            before: replaced,
            words,
            stamp: stamp + 1,
        });
    }

    /// Keeps what a step of the node showed: `event` came to `outcome`, and `before` is the line that the pending step was to
    /// write over, if the event writes words (any line else). There is to be room for the receipt: for those of Settle, Unhold
    /// and Written with words; but for a settle that is to be passed where the last receipt is a `Passed`, whose place it takes.
    /// An exchange that isn't done, or answers no line and writes none, changes nothing.
    #[inline(always)]
    pub fn receive(&mut self, event: &Event, before: &Line, outcome: &Outcome)
        requires room { HasRoom event.now self.old }
        requires counts { CountsOver event.now before.now }
        ensures { (p : Pending) → WritesOver p event.now before.now → Receives p (Stepped event.now outcome.now) self.old self.new }
    {
        if let Outcome::Done(answer) = outcome {
            match event {
                Event::Unhold => {
                    if let Some(line) = answer {
                        self.read(*line);
                    }
                }
                Event::Settle => {
                    if let Some(line) = answer {
                        self.settled(*line);
                    }
                }
                Event::Written(Some(words)) => self.wrote(*before, *words),
                _ => (),
            }
        }
    }

    /// The same, if the event `keeps` its receipt (`is_kept`), and else nothing.
    #[tactic(auto, using(crate::proofs::Before::room_to_keep, crate::proofs::Before::kept_so, crate::proofs::Before::unkept))]
    #[inline(always)]
    pub fn receive_if(&mut self, is_kept: bool, event: &Event, before: &Line, outcome: &Outcome)
        requires asked { is_kept ≡ has_room_for event.now self.old }
        requires counts { CountsOver event.now before.now }
        ensures { (p : Pending) → WritesOver p event.now before.now → ReceivesIfRoom p (Stepped event.now outcome.now) self.old self.new }
    {
        if is_kept {
            self.receive(event, before, outcome);
        }
    }
}
