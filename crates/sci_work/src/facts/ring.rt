//! What the lines of a ring hold.
ghost use Rattle.std.specs.Prelude.{◌≡◌, ◌≤◌};

use sci_port::Keeps;

/// The fact of the lines of a ring, which passes the items of a list in order over so many lines. Item i stands in the line i
/// modulo `lines`, with i + 1 in word 0, the item in word 1, and else zeros; until then the line is all zeros. The line behind
/// them, numbered `lines`, says in word 0 how many items were consumed. Any other line is all zeros.
#[derive(Clone, Copy, Debug)]
pub struct RingFact<'a> {
    source: &'a [u64],
    lines: u16,
}

impl<'a> Keeps for RingFact<'a> {
    ghost use Rattle.sci_work.specs.Ring.{FitsRing};

    ghost fits = { λ fact line words. FitsRing fact.source.now fact.lines line words };
}

impl<'a> RingFact<'a> {
    /// The fact of a ring that passes these items, over 1 or more lines.
    pub fn new(source: &'a [u64], lines: u16) -> RingFact<'a>
        requires { 1 ≤ lines }
        ensures source { result.source ≡ source.entry }
        ensures lines { result.lines ≡ lines }
    {
        RingFact { source, lines }
    }
}
