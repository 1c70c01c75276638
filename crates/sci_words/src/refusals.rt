//! Why a word is refused.
use thiserror::Error;

/// Why a word of 64 bits is no word of its sort. Where several reasons apply, the first of this list is answered.
#[derive(Clone, Copy, Debug, PartialEq, Eq, Error)]
pub enum WordRefusal {
    /// Refusal 1: no kind, or no state, has this number.
    #[error("unknown kind or state")]
    UnknownKind,
    /// Refusal 2: a bit that the layout fixes as 0 is set.
    #[error("a spare bit is set")]
    SpareBits,
    /// Refusal 3: the kind or state wants a link that is absent.
    #[error("a link is missing")]
    LinkMissing,
    /// Refusal 4: the kind or state has no room for a link that is there.
    #[error("a link is unwanted")]
    LinkUnwanted,
    /// Refusal 5: the held bit is set at a kind other than Fresh, Dirty and Valid.
    #[error("held, but not a valid copy at rest")]
    HeldNotValid,
}

impl WordRefusal {
    ghost use Rattle.std.specs.Prelude.{◌≡◌};
    ghost use Rattle.sci_words.specs.Refused.{refusal_number};

    /// The refusal's number, 1 to 5.
    pub fn number(self) -> u8
        ensures { result ≡ refusal_number self }
    {
        match self {
            WordRefusal::UnknownKind => 1,
            WordRefusal::SpareBits => 2,
            WordRefusal::LinkMissing => 3,
            WordRefusal::LinkUnwanted => 4,
            WordRefusal::HeldNotValid => 5,
        }
    }
}
