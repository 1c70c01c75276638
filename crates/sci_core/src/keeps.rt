//! Facts about what a line may hold.

/// A fact about a line's number and eight words, that they fit. Each content that is stored must have it, and each
/// content that is loaded has it. It is a fact of the contracts alone.
pub trait Keeps: Copy {
    ghost use Rattle.std.specs.Prelude.{ℕ, List};

    ghost fits: { Self → ℕ → List ℕ → Type 0 };
}

/// The fact that any words have.
#[derive(Clone, Copy, Debug, PartialEq, Eq)]
pub struct AnyWords;

impl Keeps for AnyWords {
    ghost fits = { λ _ _ _. Unit {0} };
}
