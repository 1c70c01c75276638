//! The line on its words.
ghost use Rattle.std.specs.Prelude.{◌≡◌, ◌+◌, ◌<◌, ◌≤◌};
ghost use Rattle.sci_core.specs.declared.whole.TheConstants.{MOST_NODES};
ghost use Rattle.sci_fine.specs.Rule.{lies_at};

use crate::views::{Sharing, Terms, View};
use atomic_table::Table;
use sci_core::{Keeps, Line};
use std::alloc::Global;

/// A line of 1 to 1,024 nodes that threads share: one memory word and one tag word per node, one slot for memory and one per
/// node. Nothing in it holds the list, the pending steps or the value. A thread reaches it by a node's seat alone.
#[derive(Drop)]
pub struct FineLine<K: Keeps> {
    pub(crate) table: Table<Line, View<K>, Terms<K>, Sharing<K>, Global>,
    pub(crate) terms: Terms<K>,
    ghost sized: { (table.shared.key ≡ terms) × (table.shared.table_id.words ≡ lies_at (terms.nodes + 1)) × (table.shared.table_id.slots ≡ terms.nodes + 1) × (0 < terms.nodes) × (terms.nodes ≤ MOST_NODES) },
}
