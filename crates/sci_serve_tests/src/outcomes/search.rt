//! What a search finds in a ring of numbers, worked out by hand.
ghost use Rattle.std.specs.Prelude.{◌≡◌};

mod growths;
mod ring;

use crate::checks::{same, same_at};
use ring::Ring;
use sci_search::{SearchRefusal, Unwatched, search};
use std::alloc::Global;
use std::process::Abort;
use std::test::Fail;

// What is found from 5 in the ring of the numbers to 6, each with the turns that lead there.
const FOUND: [(u32, &[u32]); 7] = [
    (5, &[]),
    (6, &[0]),
    (2, &[1]),
    (0, &[0, 0]),
    (3, &[0, 1]),
    (1, &[1, 1]),
    (4, &[0, 1, 0]),
];

// Whether the search answers that.
pub(crate) fn finds(rt: &impl Abort, alloc: Global, most: usize) -> Result<(), SearchRefusal> {
    let found = search(alloc, &Ring { last: 6 }, &Unwatched, 5, most)?;
    same(rt, &found.len(), &FOUND.len());
    for (place, (state, turns)) in FOUND.iter().enumerate() {
        if let Some(one) = found.get(place) {
            same_at(rt, &place, &one.state, state);
            same_at(rt, &place, &one.turns.as_slice(), turns);
        }
    }
    Ok(())
}

#[test]
fn each_state_once_with_the_least_turns(rt: HostRuntime) -> Result<(), Fail> {
    for most in [7, 8, 100_000] {
        finds(&rt, rt.alloc(), most)?;
    }
    for most in 0..7 {
        let refused = finds(&rt, rt.alloc(), most);
        same_at(&rt, &most, &refused, &Err(SearchRefusal::TooManyStates));
    }
    Ok(())
}
