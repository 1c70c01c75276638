//! What races come to. The numbers of states and of outcomes were counted on another model of the protocol.
mod growths;

use crate::checks::{same, same_at};
use sci_outcomes::{Report, outcomes_text, race_after, search_outcomes};
use sci_script::read_script;
use sci_search::{SearchRefusal, Unwatched};
use std::alloc::Global;
use std::process::Abort;
use std::test::Fail;

// A script, and how many states and outcomes its open calls have.
const COUNTED: [(&str, usize, usize); 4] = [
    // nobody has the line: node 0 stores, and two others load
    (
        "memory 3 1\nstore 0 0 0 5\nload 1 0 0\nload 2 0 0\n",
        639,
        5,
    ),
    // nobody has the line, and three load: an outcome for each order of the list
    ("memory 3 1\nload 0 0 0\nload 1 0 0\nload 2 0 0\n", 293, 6),
    // three sharers, and each stores
    (
        "memory 3 1\nload 0 0 0\ndone 0\nload 1 0 0\ndone 1\nload 2 0 0\ndone 2\nstore 0 0 0 5\nstore 1 0 0 6\nstore 2 0 0 7\n",
        3597,
        6,
    ),
    // no call is open
    ("memory 1 1\n", 1, 1),
];

// One node loads a line that nobody has: Queue, PrependValid, ReturnMemory, Settle.
pub(crate) const LOADED: &str =
    "states 5\noutcomes 1\n\nnode 0 read 0 stamp 0\nline 0 FRESH 0: 0 ONLY_FRESH\nturn 0\nturn 0\nturn 0\nturn 0\n";

fn report(alloc: Global, text: &str, most: usize) -> Result<Report, SearchRefusal> {
    let Ok(script) = read_script(alloc, text.as_bytes()) else {
        return Err(SearchRefusal::OutOfMemory);
    };
    let Ok(race) = race_after(alloc, &script) else {
        return Err(SearchRefusal::OutOfMemory);
    };
    search_outcomes(alloc, &Unwatched, race, most)
}

#[test]
fn states_and_outcomes_are_as_counted(rt: HostRuntime) -> Result<(), Fail> {
    for (script, states, outcomes) in COUNTED {
        let found = report(rt.alloc(), script, 100_000)?;
        same_at(&rt, &script, &found.states, &states);
        same_at(&rt, &script, &found.outcomes.len(), &outcomes);
        let few = report(rt.alloc(), script, states.saturating_sub(1)).is_err();
        assert!(rt; few, "{script}");
    }
    Ok(())
}

#[test]
fn a_load_has_one_outcome(rt: HostRuntime) -> Result<(), Fail> {
    let found = report(rt.alloc(), "memory 1 1\nload 0 0 0\n", 100)?;
    let text = outcomes_text(rt.alloc(), &found)?;
    same(&rt, &text.as_str(), &LOADED);
    Ok(())
}
