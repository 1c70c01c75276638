//! A node's calls on a whole line that it has in hand.
ghost use Rattle.std.specs.Prelude.{◌≡◌, ◌<◌, ℕ, Some, true};
ghost use Rattle.sci_core.specs.Answers.{is_allowed, FitsEvent};
ghost use Rattle.sci_core.specs.Whole.{nodes_of, state_of};
ghost use Rattle.sci_port.specs.declared.calls.Call.TheVariants.{Own, MemWas, TagWas, Stepped};
ghost use Rattle.sci_coarse.specs.Rule.{IsOn};
ghost use Rattle.sci_coarse.specs.Runs.{Calls};

use crate::standing::Standing;
use sci_core::{Event, Keeps, NotInTurn, Outcome, Whole};
use sci_words::{Mem, NodeId, Tag};

// An event that the node's pending step allows, which it goes on from.
#[inline(always)]
pub(crate) fn step_whole<K: Keeps>(
    whole: &mut Whole<K>,
    standing: &mut Standing<K>,
    node: NodeId,
    event: Event,
) -> Outcome
    requires on { IsOn standing.old.terms whole.old }
    requires node { node < nodes_of whole.old }
    requires allowed { is_allowed (nodes_of whole.old) node ((state_of whole.old).steps node) event ≡ true }
    requires fits { FitsEvent (K.fits standing.old.terms.keep standing.old.terms.number) event }
    ensures calls { Calls K.fits node (Stepped event result) whole.old whole.new }
    ensures terms { standing.new.terms ≡ standing.old.terms }
    ensures pending { standing.new.pending ≡ (state_of whole.new).steps node }
{
    match whole.step(node, event) {
        Ok(outcome) => {
            standing.follow(whole, node, &outcome);
            outcome
        }
        Err(NotInTurn) => unreachable!(),
    }
}

// The node, in this pending step, looks at its own tag.
#[inline(always)]
pub(crate) fn look_whole<K: Keeps>(
    whole: &mut Whole<K>,
    standing: &mut Standing<K>,
    node: NodeId,
) -> Tag
    requires on { IsOn standing.old.terms whole.old }
    requires node { node < nodes_of whole.old }
    requires pending { standing.old.pending ≡ (state_of whole.old).steps node }
    ensures calls { Calls K.fits node (Own (Some result)) whole.old whole.new }
    ensures terms { standing.new.terms ≡ standing.old.terms }
    ensures pending { standing.new.pending ≡ (state_of whole.new).steps node }
{
    let _ = whole.step(node, Event::Look);
    // The line stays lawful.
    let _ = whole.nodes();
    let tag = whole.tag(node);
    standing.look(&tag);
    tag
}

// The memory word as it stands.
pub(crate) fn mem_of_whole<K: Keeps>(whole: &Whole<K>) -> Mem
    ensures { (node : ℕ) → Calls K.fits node (MemWas (Some result)) whole.now whole.now }
{
    whole.mem()
}

// A node's tag as it stands.
pub(crate) fn tag_of_whole<K: Keeps>(whole: &Whole<K>, other: NodeId) -> Tag
    requires { other < nodes_of whole.now }
    ensures { (node : ℕ) → Calls K.fits node (TagWas other (Some result)) whole.now whole.now }
{
    whole.tag(other)
}
