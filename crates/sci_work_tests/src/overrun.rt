//! A node of a stencil that finds its neighbour's tile at a later phase than the one awaited.
ghost use Rattle.std.specs.Prelude.{◌≡◌, ◌*◌, ◌<◌, ◌≤◌, length};

use crate::checks::same;
use crate::turns::InOrder;
use sci_work::parts::{Program, Work, opened, run_all};
use sci_work::{OpenGate, Recording, StencilFact, WorkRefusal};
use std::alloc::Global;
use std::sync::Wait;
use std::test::Fail;
use std::thread::Threads;

// What the nodes answer that work on a stencil, and then once more over the same lines. Node 1 is then held back for three calls of
// node 0.
fn again<R: Threads + Wait + Sync>(rt: &R, alloc: Global, work: Work<'_>) -> Result<(), WorkRefusal>
    requires whole { length work.cells.now ≡ 7 * work.tiles }
    requires tiles { (0 < work.tiles) × (work.tiles ≤ 512) }
    requires phases { work.phases ≤ 1000000 }
    requires nodes { (0 < work.nodes) × (work.nodes ≤ 64) }
{
    let fact = StencilFact::new(work.cells, work.phases);
    let (lines, hands) = opened(alloc, work.nodes, 2 * work.tiles, fact)?;
    let program = Program::Stencil(work);
    let (hands, _) = run_all(
        rt,
        alloc,
        &OpenGate,
        &lines,
        hands,
        program,
        Recording::All,
        2,
    )?;
    let gate = InOrder::new(&[0; 3]);
    run_all(
        rt,
        alloc,
        &gate,
        &lines,
        hands,
        program,
        Recording::Nothing,
        2,
    )?;
    Ok(())
}

#[test]
fn a_tile_at_a_later_phase_is_19(rt: HostRuntime) -> Result<(), Fail> {
    // node 0 opens its tile, reads it, and then looks for tile 1 at phase 0, where it still stands at phase 2
    let work = Work {
        cells: &[0; 14],
        phases: 2,
        tiles: 2,
        nodes: 2,
    };
    same(
        &rt,
        &again(&rt, rt.alloc(), work),
        &Err(WorkRefusal::Overrun),
    );
    Ok(())
}
