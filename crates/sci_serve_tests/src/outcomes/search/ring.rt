//! A ring of numbers.
ghost use Rattle.std.specs.Prelude.{◌<◌, ℕ, true};
ghost use Rattle.sci_serve_tests.specs.Ring.{Leads, leads_below, same_number};

use sci_search::Graph;
use std::alloc::{AllocError, Global};

/// The numbers from 0 to the last. Turn 0 leads to the next, and from the last to 0; turn 1 leads to the half, and from 0 nowhere.
#[derive(Drop)]
pub(crate) struct Ring {
    pub(crate) last: u32,
}

impl Graph for Ring {
    type State = u32;

    type Key = u32;

    ghost width = { λ _. 2 };

    ghost leads = { λ g s turn t. Leads g.last s turn t };

    ghost key_of = { λ _ s. s };

    fn turns(&self) -> u32 {
        2
    }

    fn after(&self, _: Global, state: &u32, turn: u32) -> Result<Option<u32>, AllocError> {
        let state = *state;
        if turn == 0 {
            return Ok(Some(if state < self.last { state + 1 } else { 0 }));
        }
        Ok(if state == 0 { None } else { Some(state / 2) })
    }

    fn key(&self, _: Global, state: &u32) -> Result<u32, AllocError> {
        Ok(*state)
    }

    ghost below = { λ g s turn t h. leads_below g.last s turn t h };

    ghost tells = { λ g s t h. same_number s t h };
}
