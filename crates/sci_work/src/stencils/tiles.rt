//! A tile's lines, and its words, one phase on.
ghost use Rattle.std.specs.Prelude.{◌≡◌, ℕ, ◌+◌, ◌*◌, ◌%◌, ◌^◌, ◌<◌, ◌≤◌, length, slice_index};
ghost use Rattle.sci_work.specs.Stencil.{before, behind};

/// The line that a tile stands in at a phase.
pub(crate) fn line_at(tile: u16, phase: u64) -> u16
    requires { tile < 512 }
    ensures { result ≡ 2 * tile + phase % 2 }
{
    2 * tile + (phase % 2) as u16
}

/// The words of a tile one phase on, from its words and the cells at its two sides.
pub(crate) fn advanced(left: u64, own: &[u64; 8], right: u64) -> [u64; 8]
    requires { slice_index own.now 0 + 1 < 2 ^ 64 }
    ensures phase { slice_index result 0 ≡ slice_index own.now 0 + 1 }
    ensures cells { (j : ℕ) → j < 7 → slice_index result (j + 1) ≡ (before left own.now j + slice_index own.now (j + 1) + behind right own.now j) % 2 ^ 64 }
{
    let mut next = [0u64; 8];
    next[0] = own[0] + 1;
    for j in 0..7 {
        let before = if j == 0 { left } else { own[j] };
        let behind = if j == 6 { right } else { own[j + 2] };
        next[j + 1] = before.wrapping_add(own[j + 1]).wrapping_add(behind);
    }
    next
}

/// The first words of a tile: its cells, at phase 0.
pub(crate) fn opening(cells: &[u64], at: usize) -> [u64; 8]
    requires { at + 7 ≤ length cells.now }
    ensures phase { slice_index result 0 ≡ 1 }
    ensures cells { (j : ℕ) → j < 7 → slice_index result (j + 1) ≡ slice_index cells.now (at + j) }
{
    let mut words = [0u64; 8];
    words[0] = 1;
    for j in 0..7 {
        words[j + 1] = cells[at + j];
    }
    words
}
