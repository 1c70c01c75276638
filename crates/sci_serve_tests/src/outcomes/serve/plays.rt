//! The states of a race: a node that loads a line which nobody has used, worked out by hand.
use super::LOAD;
use crate::checks::{same, same_bytes_at};
use sci_outcomes::race_after;
use sci_play::play_text;
use sci_script::read_script;
use sci_search::{SearchRefusal, Unwatched};
use sci_serve::{INPUT_LIMIT, RaceFault, serve_play};
use std::alloc::Global;
use std::io::sink;
use std::test::Fail;

const STATES: &str = "\
state
line 0 is HOME forw none; has 0 0 0 0 0 0 0 0 0
node 0 is INVALID forw none back none; Idle; has 0 0 0 0 0 0 0 0 0
turn 0 1 line 0 Queue(none) Done; 
state
line 0 is HOME forw none; has 0 0 0 0 0 0 0 0 0
node 0 is QUEUED forw none back none; Queueing(none); 
turn 0 2 line 0 PrependValid Done; 
state
line 0 is FRESH forw 0 lent
node 0 is QUEUED forw none back none; Fetching(none);  keeps 0 0 0 0 0 0 0 0 0
turn 0 3 line 0 ReturnMemory Done; 
state
line 0 is FRESH forw 0; has 0 0 0 0 0 0 0 0 0
node 0 is QUEUED forw none back none; InQueue(none);  keeps 0 0 0 0 0 0 0 0 0
turn 0 4 line 0 Settle Done; 
node 0 read 0 stamp 0
state
line 0 is FRESH forw 0; has 0 0 0 0 0 0 0 0 0
node 0 is ONLY_FRESH forw none back none; Idle; has 0 0 0 0 0 0 0 0 0
";

// The states of a load, at most so many.
fn states(alloc: Global, most: usize) -> Result<Vec<u8>, Fail> {
    let script = read_script(alloc, LOAD.as_bytes()).map_err(|_| Fail::new("a script is refused"))?;
    let race = race_after(alloc, &script).map_err(|_| Fail::new("a run is refused"))?;
    match play_text(alloc, &Unwatched, race, most) {
        Ok(text) => Ok(text),
        Err(SearchRefusal::TooManyStates) => Ok(Vec::new(alloc)),
        Err(SearchRefusal::OutOfMemory) => Err(Fail::new("memory ran out")),
    }
}

#[test]
fn a_load_has_five_states(rt: HostRuntime) -> Result<(), Fail> {
    same_bytes_at(&rt, &5, &states(rt.alloc(), 5)?, STATES.as_bytes());
    same_bytes_at(&rt, &4, &states(rt.alloc(), 4)?, b"");
    Ok(())
}

#[test]
fn a_page_of_too_many_states_is_refused(rt: HostRuntime) -> Result<(), Fail> {
    let mut input = LOAD.as_bytes();
    let result = serve_play(
        rt.alloc(),
        &Unwatched,
        INPUT_LIMIT,
        4,
        &mut input,
        &mut sink(),
    );
    same(&rt, &result, &Err(RaceFault::TooManyStates));
    Ok(())
}
