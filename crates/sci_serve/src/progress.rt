//! What a run, and a search, say of themselves while they go on.
ghost use Rattle.std.specs.Prelude.{◌≡◌, IsTrue};

use sci_search::Watch;
use sci_work::{Gate, OpenGate};
use std::sync::atomic::{AtomicU64, Ordering};

/// So many calls of the nodes end between two lines.
const STEP: u64 = 100_000;

/// Each call may start at once. Each time that 100,000 more have ended, of all nodes together, a line of the console says how many
/// there were.
#[derive(Drop)]
pub struct Progress<'c, C> {
    console: &'c C,
    command: &'static str,
    ended: AtomicU64,
}

impl<'c, C> Progress<'c, C> {
    /// A gate that tells this console of a run by this command, from 0 calls on.
    pub fn new(console: &'c C, command: &'static str) -> Progress<'c, C> {
        Progress {
            console,
            command,
            ended: AtomicU64::new(0),
        }
    }
}

impl<C: Eprint + Sync> Gate for Progress<'_, C> {
    fn may_start(&self, node: u16, call: u64) -> bool
        ensures { IsTrue result }
    {
        OpenGate.may_start(node, call)
    }

    fn ended(&self, _node: u16, _call: u64) {
        let calls = self.ended.fetch_add(1, Ordering::SeqCst).wrapping_add(1);
        if calls % STEP == 0 {
            // a line that isn't written changes nothing of the run
            let command = self.command;
            let _ = eprintln!(self.console; "scisim: {command}: {calls} calls");
        }
    }

    fn limit(&self) -> u64
        ensures { result ≡ 1 }
    {
        OpenGate.limit()
    }
}

/// So many states are visited between two lines.
const STATES: usize = 20_000;

/// Each time that 20,000 more states are visited, a line of the console says how many there were.
#[derive(Drop)]
pub struct Visits<'c, C> {
    console: &'c C,
    command: &'static str,
}

impl<'c, C> Visits<'c, C> {
    /// The search of this command is told to this console.
    pub fn new(console: &'c C, command: &'static str) -> Visits<'c, C> {
        Visits { console, command }
    }
}

impl<C: Eprint> Watch for Visits<'_, C> {
    fn visited(&self, states: usize) {
        if states % STATES == 0 {
            // a line that isn't written changes nothing of the search
            let command = self.command;
            let _ = eprintln!(self.console; "scisim: {command}: {states} states");
        }
    }
}
