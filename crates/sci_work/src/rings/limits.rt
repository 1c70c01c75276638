//! How large a ring may be, and where its items stand.
ghost use Rattle.std.specs.Prelude.{◌≡◌, ◌%◌, ◌<◌, ◌↔◌, IsTrue};
ghost use Rattle.sci_work.specs.Ring.{IsRingSize};

/// A ring passes 0 to 100,000 items over 1 to 1,023 lines.
pub(crate) fn is_ring_size(items: usize, lines: u16) -> bool
    ensures { IsTrue result ↔ IsRingSize items lines }
{
    items <= 100_000 && lines >= 1 && lines <= 1023
}

/// The line of item i: the lines are used in turn.
pub(crate) fn line_of(i: u64, lines: u16) -> u16
    requires { 0 < lines }
    ensures place { result ≡ i % lines }
    ensures inside { result < lines }
{
    (i % u64::from(lines)) as u16
}
