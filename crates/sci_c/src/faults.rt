//! Why a call is refused.
use sci_words::WordRefusal;

/// Why an export refuses what it is given. Those of lower numbers are this repository's refusals.
#[derive(Clone, Copy, Debug, PartialEq, Eq)]
pub enum Fault {
    /// 1 to 5: the word is none, for this reason.
    Word(WordRefusal),
    /// 6: a line has 1 to 1,024 nodes.
    BadNodes,
    /// 8: the pending step doesn't allow the event.
    NotInTurn,
    /// 27: the acting node isn't one of the line.
    NoSuchNode,
    /// 28: these are the numbers of no pending step.
    NoSuchStep,
    /// 29: these are the numbers of no event.
    NoSuchEvent,
    /// 30: the row would have a word that is none, or the word or the slot of a node that isn't one of the line.
    NoSuchRow,
}

impl Fault {
    ghost use Rattle.std.specs.Prelude.{◌≡◌};
    ghost use Rattle.sci_c.specs.Faults.{fault_number};

    /// The fault's number.
    pub fn number(self) -> u8
        ensures { result ≡ fault_number self }
    {
        match self {
            Fault::Word(refusal) => refusal.number(),
            Fault::BadNodes => 6,
            Fault::NotInTurn => 8,
            Fault::NoSuchNode => 27,
            Fault::NoSuchStep => 28,
            Fault::NoSuchEvent => 29,
            Fault::NoSuchRow => 30,
        }
    }
}
