//! The line under its lock word.
ghost use Rattle.std.specs.Prelude.{◌≡◌, ◌<◌, ◌≤◌};
ghost use Rattle.sci_core.specs.declared.whole.TheConstants.{MOST_NODES};

use crate::views::{Locking, Terms, View};
use atomic_table::Table;
use sci_core::{Keeps, Whole};
use std::alloc::Global;

/// A line of 1 to 1,024 nodes that threads share: one lock word, and one slot that holds the line's whole state. A thread
/// reaches it by a node's seat alone.
#[derive(Drop)]
pub struct CoarseLine<K: Keeps> {
    pub(crate) table: Table<Whole<K>, View<K>, Terms<K>, Locking<K>, Global>,
    pub(crate) terms: Terms<K>,
    ghost sized: { (table.shared.key ≡ terms) × (table.shared.table_id.words ≡ 1) × (table.shared.table_id.slots ≡ 1) × (0 < terms.nodes) × (terms.nodes ≤ MOST_NODES) },
}
