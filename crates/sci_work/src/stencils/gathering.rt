//! The cells of all nodes, put together.
ghost use Rattle.std.specs.Prelude.{◌≡◌, ℕ, ◌+◌, ◌*◌, ◌%◌, ◌<◌, ◌≤◌, IfOk, IfErr, length, slice_index};
ghost use Rattle.sci_work.specs.Hands.{AtEach};
ghost use Rattle.sci_work.specs.Plain.{plain};
ghost use Rattle.sci_work.specs.Shares.{IsShare};

use crate::refusals::WorkRefusal;
use crate::stencils::worker::Work;
use std::alloc::Global;

// The cells of a tile, in its node's share.
fn tile_in<'d>(share: &'d [u64], work: Work<'_>, tile: u16) -> &'d [u64]
    requires nodes { 0 < work.nodes }
    requires tile { tile < work.tiles }
    requires share { IsShare (plain work.cells.now work.phases) work.nodes (tile % work.nodes) work.tiles share.now }
    ensures size { length result.now ≡ 7 }
    ensures cells { (j : ℕ) → j < 7 → slice_index result.now j ≡ slice_index (plain work.entry.cells.now work.entry.phases) (7 * tile + j) }
{
    let at = 7 * usize::from(tile / work.nodes);
    let end = at + 7;
    &share[at..end]
}

/// All cells, from the nodes' shares.
pub(crate) fn gathered(
    alloc: Global,
    shares: &[Vec<u64>],
    work: Work<'_>,
) -> Result<Vec<u64>, WorkRefusal>
    requires nodes { (0 < work.nodes) × (length shares.now ≡ work.nodes) }
    requires whole { length work.cells.now ≡ 7 * work.tiles }
    requires shares { AtEach (λ k share. IsShare (plain work.cells.now work.phases) work.nodes k work.tiles share.items) shares.now }
    ensures ok { IfOk result (λ all. all.items ≡ plain work.entry.cells.now work.entry.phases) }
    ensures err { IfErr result (λ e. e ≡ WorkRefusal.OutOfMemory) }
{
    let mut all = Vec::with_capacity(alloc, work.cells.len())?;
    for tile in 0..work.tiles {
        let share = &shares[usize::from(tile % work.nodes)];
        all.extend_from_slice(tile_in(share, work, tile))?;
    }
    Ok(all)
}
