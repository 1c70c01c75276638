//! What the lines of a stencil hold.
ghost use Rattle.std.specs.Prelude.{◌≡◌, ◌%◌, ◌<◌, length};

use sci_port::Keeps;

/// The fact of a stencil's lines: all zeros, or a tile of the cells as they are after some phase.
#[derive(Clone, Copy, Debug)]
pub struct StencilFact<'a> {
    pub(crate) cells: &'a [u64],
    pub(crate) phases: u64,
}

impl<'a> Keeps for StencilFact<'a> {
    ghost use Rattle.sci_work.specs.Stencil.{FitsStencil};

    ghost fits = { λ fact line words. FitsStencil fact.cells.now fact.phases line words };
}

impl<'a> StencilFact<'a> {
    /// The fact of these cells, in tiles of seven, up to the last phase.
    pub fn new(cells: &'a [u64], phases: u64) -> StencilFact<'a>
        requires { (length cells.now % 7 ≡ 0) × (0 < length cells.now) }
        ensures cells { result.cells ≡ cells.entry }
        ensures phases { result.phases ≡ phases }
    {
        StencilFact { cells, phases }
    }
}
