//! The lines that a log is followed on, as they are kept.

ghost use Rattle.std.specs.Prelude.{◌≡◌, All, vec_len};
ghost use Rattle.sci_core.specs.Whole.{nodes_of};
ghost use Rattle.sci_script.specs.Size.{IsSize};

use sci_core::{AnyWords, Whole};
use sci_script::Size;

/// The lines of a memory, each at the place of its number. Between any two calls each is lawful.
#[derive(Drop)]
pub struct Follower {
    pub(crate) size: Size,
    pub(crate) lines: Vec<Whole<AnyWords>>,
    ghost is_size: { IsSize size },
    ghost count: { vec_len lines ≡ size.lines },
    ghost widths: { All (λ w. nodes_of w ≡ size.nodes) lines.items },
}
