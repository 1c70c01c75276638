//! What a worker passes before each of its calls: the stop mark, and the gate.
ghost use Rattle.std.specs.Prelude.{◌≡◌, ◌+◌, ◌^◌, ◌<◌, IfErr};
ghost use Rattle.sci_work.specs.Made.{ComesInCall};

use crate::gates::Gate;
use crate::refusals::WorkRefusal;
use crossbeam_utils::Backoff;
use std::sync::atomic::{AtomicBool, Ordering};

/// A worker's door: its node, the number of its next call, and what may keep it from that call.
#[derive(Drop)]
pub struct Door<'w, G> {
    gate: &'w G,
    stop: &'w AtomicBool,
    node: u16,
    call: u64,
}

impl<'w, G: Gate> Door<'w, G> {
    pub fn new(gate: &'w G, stop: &'w AtomicBool, node: u16) -> Door<'w, G>
        ensures node { result.node ≡ node }
        ensures call { result.call ≡ 0 }
    {
        Door {
            gate,
            stop,
            node,
            call: 0,
        }
    }

    /// Asks until the next call may start. Refusal 25 where the stop mark is raised, 20 at the gate's limit.
    #[inline(always)]
    pub fn enter(&self) -> Result<(), WorkRefusal>
        ensures { IfErr result ComesInCall }
    {
        let backoff = Backoff::new();
        for _ in 0..self.gate.limit() {
            self.unstopped()?;
            if self.gate.may_start(self.node, self.call) {
                // the mark may have been raised while the gate thought it over
                return self.unstopped();
            }
            backoff.snooze();
        }
        Err(WorkRefusal::Stalled)
    }

    /// Refusal 25 where the stop mark is raised.
    #[inline(always)]
    pub(crate) fn unstopped(&self) -> Result<(), WorkRefusal>
        ensures { IfErr result (λ e. e ≡ WorkRefusal.Stopped) }
    {
        if self.stop.load(Ordering::SeqCst) {
            return Err(WorkRefusal::Stopped);
        }
        Ok(())
    }

    /// Says that the call has ended. The next one has the next number, up to the greatest.
    #[inline(always)]
    pub fn leave(&mut self)
        ensures node { self.new.node ≡ self.old.node }
        ensures next { self.old.call + 1 < 2 ^ 64 → self.new.call ≡ self.old.call + 1 }
        ensures last { self.old.call + 1 ≡ 2 ^ 64 → self.new.call ≡ self.old.call }
    {
        self.gate.ended(self.node, self.call);
        self.call = self.call.saturating_add(1);
    }

    /// Raises the stop mark: no node begins another call.
    pub fn raise(&self) {
        self.stop.store(true, Ordering::SeqCst);
    }

    /// Raises the stop mark where the worker has refused.
    pub fn told<T>(&self, ended: Result<T, WorkRefusal>) -> Result<T, WorkRefusal>
        ensures { result ≡ ended }
    {
        if ended.is_err() {
            self.raise();
        }
        ended
    }
}
