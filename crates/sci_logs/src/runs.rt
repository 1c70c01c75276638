//! A whole log on lines of the table.

ghost use Rattle.std.specs.Prelude.{◌≡◌, All};
ghost use Rattle.sci_logs.specs.Runs.{RunsTo};
ghost use Rattle.sci_logs.specs.Steps.{IsIn, lines_of};

use crate::entries::{Deviation, Entry};
use crate::lines::Follower;

/// The first entry that no lawful line answers so: its place, counted from 0, and why.
#[derive(Clone, Copy, Debug, PartialEq, Eq)]
pub struct Departure {
    pub place: usize,
    pub why: Deviation,
}

impl Follower {
    /// Has the entries happen in order, up to the first that no line answers so. Ok: they are a run of the table from the lines as
    /// they stood. Err: those before the first that isn't are, and it isn't; none behind it was taken.
    pub fn follow(&mut self, entries: &[Entry]) -> Result<(), Departure>
        requires { All (λ e. IsIn self.old.size e) entries.now }
        ensures runs { RunsTo self.old.size.nodes (lines_of self.old) entries.now result (lines_of self.new) }
        ensures size { self.new.size ≡ self.old.size }
    {
        for (place, entry) in entries.iter().enumerate() {
            match self.take(entry) {
                Ok(()) => {}
                Err(why) => return Err(Departure { place, why }),
            }
        }
        Ok(())
    }
}
