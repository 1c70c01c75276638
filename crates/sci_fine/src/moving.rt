//! The steps of a seat on the table's words and slots.
ghost use Rattle.std.specs.Prelude.{◌≡◌, ◌≢◌, ℕ, true, ◌+◌, ◌<◌, Some, [], ◌∷◌};
ghost use Rattle.sci_core.specs.declared.lines.Line as a_line;
ghost use Rattle.sci_core.specs.Answers.{FitsEvent};
ghost use Rattle.sci_core.specs.Stage.{motion_of, outline_of};
ghost use Rattle.sci_core.specs.Table.{has_row, row_of};
ghost use Rattle.sci_fine.specs.Standings.{IsStanding};
ghost use Rattle.sci_fine.specs.Steps.{slots_in, Carries, GivesTop, Took, place_of, before_of, after_of, HasLinks, IsLook, exchanged, loaded, looked};

use crate::codes::{lies_at, slot_of};
use crate::line::FineLine;
use crate::seats::Token;
use crate::standing::Standing;
use crate::views::{Asks, Loads, Looks, Makes, Notes};
use sci_core::{Event, Keeps, Line, Motion, Outline};

impl<K: Keeps> FineLine<K> {
    // Writes the node's line into the slot that it gives back in an allowed event.
    #[inline(always)]
    pub(crate) fn lay(
        &self,
        token: &mut Token<K>,
        standing: &Standing<K>,
        event: &Event,
        motion: &Motion,
    )
        requires of { token.old.table_id ≡ self.now.table.shared.table_id }
        requires allowed { has_row standing.now.terms.nodes standing.now.node standing.now.pending event.now ≡ true }
        requires motion { motion.now ≡ motion_of (row_of standing.now.node standing.now.pending event.now).carry }
        requires hand { GivesTop (row_of standing.now.node standing.now.pending event.now).carry (slots_in token.old.me.1) }
        ensures same { (token.new.table_id ≡ token.old.table_id) × (token.new.id ≡ token.old.id) × (token.new.me.0 ≡ token.old.me.0) }
        ensures hand { slots_in token.new.me.1 ≡ slots_in token.old.me.1 }
        ensures carries { Carries (row_of standing.now.node standing.now.pending event.now).carry token.new.me.1 }
    {
        if let Motion::Gives(place) = motion {
            let slot = token.slot_mut(&self.table.shared, slot_of(place));
            standing.give(event, slot);
        }
    }

    // The node's next step, with the line of the slot that was taken, and the line that the event answers.
    #[inline(always)]
    pub(crate) fn pick_up(
        &self,
        token: &mut Token<K>,
        standing: &mut Standing<K>,
        event: &Event,
        outline: &Outline,
    ) -> Option<Line>
        requires of { token.old.table_id ≡ self.now.table.shared.table_id }
        requires allowed { has_row standing.old.terms.nodes standing.old.node standing.old.pending event.now ≡ true }
        requires outline { outline.now ≡ outline_of (row_of standing.old.node standing.old.pending event.now) }
        requires hand { (y : a_line.Line) × Took (row_of standing.old.node standing.old.pending event.now).carry y token.old.me.1 × IsStanding standing.old.terms.nodes (K.fits standing.old.terms.keep standing.old.terms.number) standing.old.node ((row_of standing.old.node standing.old.pending event.now).after y) }
        ensures same { (token.new.table_id ≡ token.old.table_id) × (token.new.id ≡ token.old.id) × (token.new.me.0 ≡ token.old.me.0) }
        ensures hand { slots_in token.new.me.1 ≡ slots_in token.old.me.1 }
        ensures standing { (standing.new.terms ≡ standing.old.terms) × (standing.new.node ≡ standing.old.node) }
        ensures line { (y : a_line.Line) → Took (row_of standing.old.node standing.old.pending event.now).carry y token.old.me.1 → (standing.new.pending ≡ (row_of standing.old.node standing.old.pending event.now).after y) × (result ≡ (row_of standing.old.node standing.old.pending event.now).answer y) }
    {
        if let Motion::Takes(place) = &outline.motion {
            let taken = token.slot_mut(&self.table.shared, slot_of(place));
            standing.go_on(event, outline, taken)
        } else {
            standing.go_on(event, outline, &Line::ZERO)
        }
    }

    // One compare-exchange by the row of the event.
    pub(crate) fn swap<J: Asks>(
        &self,
        token: &mut Token<K>,
        event: &Event,
        number: usize,
        old: u64,
        new: u64,
    ) -> u64
        requires of { (token.old.table_id ≡ self.now.table.shared.table_id) × (token.old.me.0.of ≡ Some self.now.terms) }
        requires ask { J.event ≡ event.now }
        requires turn { has_row self.now.terms.nodes token.old.me.0.node token.old.me.0.pending event.now ≡ true }
        requires fits { FitsEvent (K.fits self.now.terms.keep self.now.terms.number) event.now }
        requires codes { (number ≡ place_of (row_of token.old.me.0.node token.old.me.0.pending event.now).change) × (old ≡ before_of (row_of token.old.me.0.node token.old.me.0.pending event.now).change) × (new ≡ after_of (row_of token.old.me.0.node token.old.me.0.pending event.now).change) × HasLinks (row_of token.old.me.0.node token.old.me.0.pending event.now).change }
        requires below { number < self.now.terms.nodes + 1 }
        requires carries { Carries (row_of token.old.me.0.node token.old.me.0.pending event.now).carry token.old.me.1 }
        ensures same { (token.new.table_id ≡ token.old.table_id) × (token.new.id ≡ token.old.id) }
        ensures exchanged { exchanged K.fits event.now old token.old.me result token.new.me }
    {
        let _ = event;
        let place = lies_at(number);
        self.table
            .shared
            .compare_exchange::<Makes<J, K>>(token, place, old, new)
    }

    // A word, as it stands.
    pub(crate) fn load(&self, token: &mut Token<K>, number: usize) -> u64
        requires of { (token.old.table_id ≡ self.now.table.shared.table_id) × (token.old.me.0.of ≡ Some self.now.terms) }
        requires below { number < self.now.terms.nodes + 1 }
        ensures same { (token.new.table_id ≡ token.old.table_id) × (token.new.id ≡ token.old.id) }
        ensures loaded { loaded K.fits number token.old.me result token.new.me }
    {
        let place = lies_at(number);
        self.table.shared.load::<Loads<K>>(token, place)
    }

    // The node's own tag word, which its step records.
    #[inline(always)]
    pub(crate) fn look<N: Notes>(&self, token: &mut Token<K>, number: usize) -> u64
        requires of { (token.old.table_id ≡ self.now.table.shared.table_id) × (token.old.me.0.of ≡ Some self.now.terms) }
        requires own { (number ≡ token.old.me.0.node + 1) × (token.old.me.0.node < self.now.terms.nodes) }
        requires note { IsLook N.call }
        ensures same { (token.new.table_id ≡ token.old.table_id) × (token.new.id ≡ token.old.id) }
        ensures looked { looked K.fits N.call token.old.me result token.new.me }
    {
        let place = lies_at(number);
        self.table.shared.load::<Looks<N, K>>(token, place)
    }
}
