//! A region of a seat: the lock word is taken, a call is made on the line in hand, and the lock word is given back.
ghost use Rattle.std.specs.Prelude.{◌≡◌, ◌≢◌, ◌<◌, ℕ, Some, true, false, [], ◌∷◌, MatchBool};
ghost use Rattle.sci_core.specs.Answers.{is_allowed, FitsEvent};
ghost use Rattle.sci_core.specs.Whole as wholes;
ghost use Rattle.sci_core.specs.Whole.{nodes_of, state_of};
ghost use Rattle.sci_port.specs.declared.calls.Call.TheVariants.{Own, MemWas, TagWas, Stepped};
ghost use Rattle.sci_coarse.specs.Regions.{HasTaken, HasMissed, HasCalled, given};
ghost use Rattle.sci_coarse.specs.Rule.{IsOn};
ghost use Rattle.sci_coarse.specs.Runs.{Calls};

use crate::calls::{look_whole, mem_of_whole, step_whole, tag_of_whole};
use crate::line::CoarseLine;
use crate::seats::Token;
use crate::standing::Standing;
use crate::views::{Gives, Takes, Tells};
use sci_core::{Event, Keeps, Outcome};
use sci_port::Call;
use sci_words::{Mem, NodeId, Tag};

const FREE: u64 = 0;

const TAKEN: u64 = 1;

impl<K: Keeps> CoarseLine<K> {
    // Takes the lock word, or finds it taken.
    #[inline(always)]
    pub(crate) fn take(&self, token: &mut Token<K>) -> bool
        requires of { (token.old.table_id ≡ self.now.table.shared.table_id) × (token.old.me.0.of ≡ Some self.now.terms) }
        requires free { (token.old.me.0.holds ≡ false) × (token.old.me.1 ≡ []) }
        ensures same { (token.new.table_id ≡ token.old.table_id) × (token.new.id ≡ token.old.id) }
        ensures taken { MatchBool result (HasTaken K.fits token.old.me token.new.me) (HasMissed token.old.me token.new.me) }
    {
        self.table
            .shared
            .compare_exchange::<Takes<K>>(token, 0, FREE, TAKEN)
            == FREE
    }

    // Gives the lock word back, and with it the line in hand, on which this call was made.
    #[inline(always)]
    pub(crate) fn give<J: Tells>(&self, token: &mut Token<K>, call: &Call)
        requires of { (token.old.table_id ≡ self.now.table.shared.table_id) × (token.old.me.0.of ≡ Some self.now.terms) }
        requires held { token.old.me.0.holds ≡ true }
        requires tells { J.call ≡ call.now }
        requires hand { (w : wholes.WholeLine _) × (x : wholes.WholeLine _) × (token.old.me.0.take ≡ Some w) × (token.old.me.1 ≡ (0, x) ∷ []) × Calls K.fits token.old.me.0.node call.now w x }
        ensures same { (token.new.table_id ≡ token.old.table_id) × (token.new.id ≡ token.old.id) }
        ensures given { given call.now token.old.me token.new.me }
    {
        let _ = call;
        self.table.shared.store::<Gives<J, K>>(token, 0, FREE)
    }

    // A node's step of the line in hand, from which its pending step goes on.
    #[inline(always)]
    pub(crate) fn step_in_hand(
        &self,
        token: &mut Token<K>,
        standing: &mut Standing<K>,
        node: NodeId,
        event: Event,
    ) -> Outcome
        requires of { token.old.table_id ≡ self.now.table.shared.table_id }
        requires hand { (w : wholes.WholeLine _) × (token.old.me.1 ≡ (0, w) ∷ []) × IsOn standing.old.terms w × (node < nodes_of w) × (is_allowed (nodes_of w) node ((state_of w).steps node) event ≡ true) }
        requires fits { FitsEvent (K.fits standing.old.terms.keep standing.old.terms.number) event }
        ensures same { (token.new.table_id ≡ token.old.table_id) × (token.new.id ≡ token.old.id) }
        ensures called { HasCalled K.fits node (Stepped event result) token.old.me token.new.me }
        ensures terms { standing.new.terms ≡ standing.old.terms }
        ensures pending { (x : wholes.WholeLine _) → token.new.me.1 ≡ (0, x) ∷ [] → standing.new.pending ≡ (state_of x).steps node }
    {
        let whole = token.slot_mut(&self.table.shared, 0);
        step_whole(whole, standing, node, event)
    }

    // A node's look at its own tag in the line in hand, in this pending step.
    #[inline(always)]
    pub(crate) fn own_in_hand(
        &self,
        token: &mut Token<K>,
        standing: &mut Standing<K>,
        node: NodeId,
    ) -> Tag
        requires of { token.old.table_id ≡ self.now.table.shared.table_id }
        requires hand { (w : wholes.WholeLine _) × (token.old.me.1 ≡ (0, w) ∷ []) × IsOn standing.old.terms w × (node < nodes_of w) × (standing.old.pending ≡ (state_of w).steps node) }
        ensures same { (token.new.table_id ≡ token.old.table_id) × (token.new.id ≡ token.old.id) }
        ensures called { HasCalled K.fits node (Own (Some result)) token.old.me token.new.me }
        ensures terms { standing.new.terms ≡ standing.old.terms }
        ensures pending { (x : wholes.WholeLine _) → token.new.me.1 ≡ (0, x) ∷ [] → standing.new.pending ≡ (state_of x).steps node }
    {
        let whole = token.slot_mut(&self.table.shared, 0);
        look_whole(whole, standing, node)
    }

    // The memory word of the line in hand.
    pub(crate) fn mem_in_hand(&self, token: &mut Token<K>) -> Mem
        requires of { token.old.table_id ≡ self.now.table.shared.table_id }
        requires hand { (w : wholes.WholeLine _) × (token.old.me.1 ≡ (0, w) ∷ []) }
        ensures same { (token.new.table_id ≡ token.old.table_id) × (token.new.id ≡ token.old.id) }
        ensures called { (node : ℕ) → HasCalled K.fits node (MemWas (Some result)) token.old.me token.new.me }
    {
        let whole = token.slot_mut(&self.table.shared, 0);
        mem_of_whole(whole)
    }

    // A node's tag in the line in hand.
    pub(crate) fn tag_in_hand(&self, token: &mut Token<K>, other: NodeId) -> Tag
        requires of { token.old.table_id ≡ self.now.table.shared.table_id }
        requires hand { (w : wholes.WholeLine _) × (token.old.me.1 ≡ (0, w) ∷ []) × (other < nodes_of w) }
        ensures same { (token.new.table_id ≡ token.old.table_id) × (token.new.id ≡ token.old.id) }
        ensures called { (node : ℕ) → HasCalled K.fits node (TagWas other (Some result)) token.old.me token.new.me }
    {
        let whole = token.slot_mut(&self.table.shared, 0);
        tag_of_whole(whole, other)
    }
}
