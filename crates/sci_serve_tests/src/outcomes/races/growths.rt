//! Each growth may be refused: its call then answers 7, and lists nothing. With ample memory this test passes.
//! tools/allocations runs it once for each growth of its table, with that one refused, and the test ends by saying which call
//! answered it.
use super::LOADED;
use crate::checks::same;
use sci_outcomes::{outcomes_text, race_after, search_outcomes};
use sci_script::{ScriptRefusal, read_script};
use sci_search::{SearchRefusal, Unwatched};
use std::alloc::Global;
use std::process::Abort;
use std::test::Fail;

fn refuses(rt: &impl Abort, alloc: Global) -> Result<(), Fail> {
    let Ok(script) = read_script(alloc, b"memory 1 1\nload 0 0 0\n") else {
        return Err(Fail::new("read_script answered 7"));
    };
    let race = match race_after(alloc, &script) {
        Ok(race) => race,
        Err(refusal) => {
            same(rt, &refusal, &ScriptRefusal::OutOfMemory);
            return Err(Fail::new("race_after answered 7"));
        }
    };
    let found = match search_outcomes(alloc, &Unwatched, race, 100) {
        Ok(found) => found,
        Err(refusal) => {
            same(rt, &refusal, &SearchRefusal::OutOfMemory);
            return Err(Fail::new("search_outcomes answered 7"));
        }
    };
    let Ok(text) = outcomes_text(alloc, &found) else {
        return Err(Fail::new("outcomes_text answered 7"));
    };
    same(rt, &text.as_str(), &LOADED);
    Ok(())
}

/// Growths: 2 of read_script, 14 of race_after, 80 of search_outcomes, 5 of outcomes_text.
#[test]
fn refused_growths(rt: HostRuntime) -> Result<(), Fail> {
    refuses(&rt, rt.alloc())
}
