//! Short texts at a fixed place.

ghost use Rattle.std.specs.Prelude.{◌≡◌, ◌≤◌};

/// A text of at most 16 bytes. It is the front of 16 bytes that stand at a fixed place, so that it is written as one piece.
#[derive(Clone, Copy)]
pub struct Short {
    pub bytes: &'static [u8; 16],
    pub length: usize,
    ghost fits: { length ≤ 16 },
}

impl Short {
    /// The first so many of these bytes.
    #[inline(always)]
    pub fn new(bytes: &'static [u8; 16], length: usize) -> Short
        requires { length ≤ 16 }
        ensures bytes { result.bytes.now ≡ bytes.now }
        ensures length { result.length ≡ length }
    {
        Short { bytes, length }
    }
}
