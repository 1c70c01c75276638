//! Why an operation is refused.

/// Refusal 10: a line has the words 0 to 7.
#[derive(Clone, Copy, Debug, PartialEq, Eq, thiserror::Error)]
#[error("10: a line has the words 0 to 7")]
pub struct BadWord;

impl BadWord {
    ghost use Rattle.std.specs.Prelude.{◌≡◌};

    /// The refusal's number.
    pub fn number(self) -> u8
        ensures { result ≡ 10 }
    {
        10
    }
}
