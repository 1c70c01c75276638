//! Desks are brought to rest, and calls end, without memory. tools/allocations runs this test with the allocation of its last line
//! refused, and wants it to fail there, and there alone.

use super::desks::{RACE, begun, bring_to_rest, take_to_end};
use sci_ops::Answer;
use sci_port::Passed;
use sci_script::{Toward, WholeDesk};
use std::process::Abort;

// How many turns towards rest were taken on the first line, of so many that are asked for. None: there is no such line.
fn turns_to_rest(desk: &mut WholeDesk, most: u32) -> Option<u32> {
    let mut turns: u32 = 0;
    for _ in 0..most {
        if desk.size().lines == 0 {
            return None;
        }
        let mut passed = Passed::NOTHING;
        if let Toward::Turned(_) = desk.watched_rest_turn(0, &mut passed) {
            turns = turns.saturating_add(1);
        }
    }
    Some(turns)
}

// How many calls ended.
fn ended(desk: WholeDesk) -> Option<u32> {
    if desk.size().nodes != 4 {
        return None;
    }
    let mut answers: [Option<Answer>; 4] = [None; 4];
    let _ = take_to_end(desk, &mut answers);
    let mut ended: u32 = 0;
    for answer in &answers {
        if answer.is_some() {
            ended = ended.saturating_add(1);
        }
    }
    Some(ended)
}

#[test]
fn desks_take_no_memory(rt: HostRuntime) {
    let Some(mut desk) = begun(rt.alloc(), RACE) else {
        panic!(rt; "refused")
    };
    let turns = turns_to_rest(&mut desk, 2);
    assert!(rt; turns == Some(2));
    let ended = ended(bring_to_rest(desk));
    assert!(rt; ended == Some(3));
    let last = Vec::<u8>::with_capacity(rt.alloc(), 1);
    assert!(rt; last.is_ok(), "allocation 48 is refused");
}
