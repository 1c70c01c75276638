//! The sharing list of a `Whole`.
ghost use Rattle.std.specs.Prelude.{IfOk};
ghost use Rattle.sci_core.specs.Chain.{IsChain};
ghost use Rattle.sci_core.specs.Whole.{nodes_of, state_of};

use crate::keeps::Keeps;
use crate::whole::Whole;
use sci_words::NodeId;
use std::alloc::{AllocError, Global};

impl<K: Keeps> Whole<K> {
    /// The sharing list: the nodes from memory's forward link on, along the forward links. Empty under HOME. Err: memory ran
    /// out.
    pub fn chain(&self, alloc: Global) -> Result<Vec<NodeId>, AllocError>
        ensures { IfOk result (λ nodes. IsChain (nodes_of self.now) (state_of self.now) nodes.items) }
    {
        let mut chain = Vec::with_capacity(alloc, usize::from(self.nodes()))?;
        let mut next = self.mem().forw;
        while let Some(node) = next {
            chain.push(node)?;
            next = self.tag(node).forw;
        }
        Ok(chain)
    }
}
