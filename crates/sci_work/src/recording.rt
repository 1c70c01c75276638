//! What a workload keeps of its nodes' calls.
use sci_core::{Closed, Receipt};

/// What the nodes of a workload keep of their calls.
#[derive(Clone, Copy, Debug, PartialEq, Eq)]
pub enum Recording {
    /// A receipt of each read, up to two of each write, and one of each exit: so the receipts are one history of each line. A receipt
    /// takes 144 bytes. A node that awaits a write of another reads its line again and again, and keeps a receipt of each read.
    All,
    /// Nothing: no memory is taken for receipts.
    Nothing,
}

/// The lines of a workload, closed, and what its nodes kept of them.
#[derive(Drop)]
pub struct ClosedMemory {
    /// The lines, from line 0 on.
    pub lines: Vec<Closed>,
    /// The receipts: those of node i on line k, in its order, at place i of place k. Empty where nothing was kept.
    pub receipts: Vec<Vec<Vec<Receipt>>>,
}
