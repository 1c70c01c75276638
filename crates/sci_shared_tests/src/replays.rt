//! Recorded runs, made again on a line under its lock word and on one on separate words.
use crate::lines::replaying;
use crate::recorded::Recorded;
use crate::recorded::crowds::crowd;
use crate::recorded::rows::{LAST_STAMPS, RUNS, Run, at_once, missing, recorded};
use sci_coarse::CoarseLine;
use sci_core::{AnyWords, Line};
use sci_fine::FineLine;
use std::alloc::Global;
use std::process::Abort;
use std::test::Fail;

// Makes a run again on both lines.
fn replay_run(rt: &impl Abort, alloc: Global, run: Result<Recorded, Fail>) -> Result<(), Fail> {
    let run = run?;
    replaying::replay_run::<CoarseLine<AnyWords>>(rt, alloc, &run)?;
    replaying::replay_run::<FineLine<AnyWords>>(rt, alloc, &run)
}

// Makes these runs again, on lines of zeros that open with this stamp.
fn replay_each(rt: &impl Abort, alloc: Global, stamp: u64, runs: &[Run]) -> Result<(), Fail> {
    let words = [0; 8];
    for run in runs {
        replay_run(rt, alloc, recorded(alloc, Line { words, stamp }, run))?;
    }
    Ok(())
}

/// Runs of one to four nodes, alone and in each other's way; writes that reach the last stamp, and go past it.
#[test]
fn runs_of_few_nodes(rt: HostRuntime) -> Result<(), Fail> {
    replay_each(&rt, rt.alloc(), 0, &RUNS)?;
    for stamp in [u64::MAX, u64::MAX - 1] {
        replay_each(&rt, rt.alloc(), stamp, &[LAST_STAMPS])?;
    }
    replay_run(&rt, rt.alloc(), at_once(rt.alloc()))?;
    replay_run(&rt, rt.alloc(), missing(rt.alloc()))
}

/// Runs of nodes that are all at work at once: how many there are, and after how many rounds a node takes many turns at once.
#[test]
fn runs_of_crowds(rt: HostRuntime) -> Result<(), Fail> {
    for (nodes, patience) in [(5, usize::MAX), (8, usize::MAX), (64, 20)] {
        replay_run(&rt, rt.alloc(), crowd(rt.alloc(), nodes, patience))?;
    }
    Ok(())
}
