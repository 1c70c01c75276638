//! What operations are for.
ghost use Rattle.std.specs.Prelude.{◌≡◌, ◌<◌, ◌≤◌, ◌↔◌, None, IfOk, IsErr};
ghost use Rattle.sci_ops.specs.Answers.{AnswersAt};
ghost use Rattle.sci_ops.specs.Change.{change, StoresFitting};
ghost use Rattle.sci_ops.specs.Kept.{KeepsAnswer};
ghost use Rattle.sci_ops.specs.Plan.{Takes, LoadsAtMost};
ghost use Rattle.sci_ops.specs.Room.{IsProvided, KeepsTurn, need_in};
ghost use Rattle.sci_ops.specs.Table.{begun, turn_of};

use crate::answers::Turn;
use crate::refusals::BadWord;
use crate::turns::turn_towards;
use sci_core::{Line, Pending};
use sci_port::Port;
use std::marker::Model;

/// The number of a word of a line, 0 to 7. Contracts see it as that number.
#[derive(Clone, Copy, Debug, PartialEq, Eq)]
pub struct WordNo {
    number: u8,
}

impl Model for WordNo {
    ghost use Rattle.std.specs.Prelude.{ℕ, ◌<◌};

    ghost Value = { ℕ };

    ghost view = { λ w. w.number };

    ghost invariant = { λ w. w.number < 8 };

    ghost inverse = { λ n. record { number = n } };
}

impl WordNo {
    /// The word with this number. Refusal 10 above 7, and only there.
    pub fn new(number: u8) -> Result<WordNo, BadWord>
        ensures refused { IsErr result ↔ (7 < number) }
        ensures value { IfOk result (λ w. w ≡ number) }
    {
        if number > 7 {
            return Err(BadWord);
        }
        Ok(WordNo { number })
    }

    /// The word's number.
    pub fn get(self) -> u8
        ensures value { result ≡ self }
        ensures range { result ≤ 7 }
    {
        self.number
    }
}

/// What is written into a line.
#[derive(Clone, Copy, Debug, PartialEq, Eq)]
pub enum Write {
    /// This value into one word.
    Store { word: WordNo, value: u64 },
    /// One word's sum with this number. The sum wraps.
    Add { word: WordNo, delta: u64 },
    /// All eight words.
    Line([u64; 8]),
}

impl Write {
    /// The words after the write.
    pub fn change(&self, before: &[u64; 8]) -> [u64; 8]
        ensures { result ≡ change self.now before.now }
    {
        let mut words = *before;
        match self {
            Write::Store { word, value } => words[usize::from(word.get())] = *value,
            Write::Add { word, delta } => {
                let place = usize::from(word.get());
                words[place] = words[place].wrapping_add(*delta);
            }
            Write::Line(new) => words = *new,
        }
        words
    }
}

/// What an operation is for.
#[derive(Clone, Copy, Debug, PartialEq, Eq)]
pub enum Goal {
    /// To see the line.
    Load,
    /// To write into the line.
    Write(Write),
    /// To leave the line's sharing list.
    Evict,
}

impl Goal {
    /// For how many receipts there has to be room until an operation towards it ends, with the mark set for it. A load: one. A write two
    /// and an eviction one, or one less where the last receipt is a Passed, whose place the next settle takes. Where the node still holds
    /// the line, which it reads first, a write three and an eviction two.
    pub fn need<P: Port>(&self, port: &P) -> usize
        ensures { result ≡ need_in self.now (P.at_step port.now) (P.receipts port.now) }
    {
        match self {
            Goal::Load => 1,
            Goal::Write(_) => need_on_way(port) + 1,
            Goal::Evict => need_on_way(port),
        }
    }

    /// One turn towards it, as `Op::turn` takes one of an operation that goes on. `shown` is room for the line that the turn shows: what
    /// stands there before is of no account, and one does for many turns.
    #[inline(always)]
    pub fn turn<P: Port>(&self, port: &mut P, shown: &mut Line) -> Turn
        requires fits { StoresFitting (P.Keep.fits (P.keep port.old) (P.way port.old).number) self.now }
        ensures calls { Takes P.gives (turn_of (begun self.now) (P.way port.old).node (P.at_step port.old)) port.old result port.new }
        ensures answers { AnswersAt P.gives P.at_step (begun self.now) (P.way port.old).node port.old result port.new }
        ensures last { KeepsAnswer (begun self.now) result (P.receipts port.old) (P.receipts port.new) }
        ensures kept { IsProvided self.now None (P.at_step port.old) (P.receipts port.old) → KeepsTurn P.gives P.receipts (begun self.now) port.old result port.new (P.at_step port.new) }
        ensures loads { LoadsAtMost 3 (turn_of (begun self.now) (P.way port.old).node (P.at_step port.old)) }
        ensures same_way { P.way port.new ≡ P.way port.old }
        ensures same_fact { P.keep port.new ≡ P.keep port.old }
    {
        turn_towards(port, shown, self).with(shown)
    }
}

/// For how many receipts there has to be room on the way to a write or an exit.
fn need_on_way<P: Port>(port: &P) -> usize
    ensures value { result ≡ need_in Goal.Evict (P.at_step port.now) (P.receipts port.now) }
    ensures few { result ≤ 2 }
{
    match port.pending() {
        Pending::Holding { .. } => 2,
        _ => usize::from(!port.last_passed()),
    }
}
