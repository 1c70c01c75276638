//! The bank of a node over lines that it has alone.
ghost use Rattle.std.specs.Prelude.{◌≡◌, ◌<◌, length, slice_index_or, true};
ghost use Rattle.sci_core.specs.Answers.{is_allowed, FitsEvent};
ghost use Rattle.sci_core.specs.Whole.{WholeLine};
ghost use Rattle.sci_port.specs.Banks.{AreLinesOf, GivesAt, lent_lines, lent_way, nodes_at, step_at};
ghost use Rattle.sci_port.specs.declared.calls.Call.TheVariants.{Stepped};
ghost use Rattle.sci_port.specs.Readying.{ChangesAt, Readies, receipts_at};
ghost use Rattle.sci_port.specs.ReceiptList.{ReceivesIfRoom, has_room_for};

use crate::bank::Bank;
use crate::receipts::Receipts;
use crate::solo::step_lent;
use sci_core::{Event, Keeps, Outcome, Pending, Stage, Whole};
use sci_words::{LineNo, Mem, NodeId, Tag};
use std::alloc::AllocError;

/// A node's ports to `Whole`s that are given to it alone, with the node's receipts on each: its loads and steps are those of the
/// line's `Whole`, and the others stay as they are.
#[derive(Drop)]
pub struct SoloBank<K: Keeps> {
    wholes: Vec<Whole<K>>,
    receipts: Vec<Receipts>,
    node: NodeId,
    keep: K,
    ghost count: { length receipts.items ≡ length wholes.items },
    ghost of: { AreLinesOf keep node wholes.items },
}

impl<K: Keeps> SoloBank<K> {
    /// The node's bank of these lines: 1 to 1,024 of them, numbered from 0, under one fact, and each with the node.
    /// There are receipts for each line.
    pub fn new(wholes: Vec<Whole<K>>, receipts: Vec<Receipts>, node: NodeId) -> SoloBank<K>
        requires lines { (keep : K) × AreLinesOf keep node wholes.items }
        requires count { length receipts.items ≡ length wholes.items }
        ensures same_lines { result.wholes ≡ wholes }
        ensures same_receipts { result.receipts ≡ receipts }
        ensures node { result.node ≡ node }
    {
        let keep = wholes[0].keep();
        SoloBank {
            wholes,
            receipts,
            node,
            keep,
        }
    }

    /// Makes it another node's bank. The receipts stay.
    pub fn seat(&mut self, node: NodeId)
        requires { AreLinesOf self.old.keep node self.old.wholes.items }
        ensures same_lines { self.new.wholes ≡ self.old.wholes }
        ensures same_receipts { self.new.receipts ≡ self.old.receipts }
        ensures same_fact { self.new.keep ≡ self.old.keep }
        ensures node { self.new.node ≡ node }
    {
        self.node = node;
    }

    /// The line with this number, as it stands.
    pub fn whole(&self, line: LineNo) -> &Whole<K>
        requires { line < length self.now.wholes.items }
        ensures { (d : WholeLine K) → result.now ≡ slice_index_or self.now.wholes.items line d }
    {
        let wholes = &self.wholes;
        &wholes[usize::from(line)]
    }

    /// The lines as they stand, and the receipts on each.
    pub fn into_parts(self) -> (Vec<Whole<K>>, Vec<Receipts>)
        ensures same_lines { result.0 ≡ self.wholes }
        ensures same_receipts { result.1 ≡ self.receipts }
    {
        let SoloBank {
            wholes,
            receipts,
            node: _,
            keep: _,
        } = self;
        (wholes, receipts)
    }

    /// The lines as they stand.
    pub fn into_wholes(self) -> Vec<Whole<K>>
        ensures { result ≡ self.wholes }
    {
        self.into_parts().0
    }
}

impl<K: Keeps> SoloBank<K> {
    // The node's pending step on the line.
    #[inline(always)]
    fn step_on(&self, line: LineNo) -> Pending
        requires { line < length self.now.wholes.items }
        ensures { result ≡ step_at (lent_lines self.now.keep self.now.node self.now.wholes.items) line }
    {
        self.wholes[usize::from(line)].pending(self.node)
    }

    // The event has a receipt, and there is room for it on the line.
    #[inline(always)]
    fn has_room_for(&self, line: LineNo, event: &Event) -> bool
        requires { line < length self.now.wholes.items }
        ensures { result ≡ has_room_for event.now (receipts_at self.now.receipts.items line) }
    {
        self.receipts[usize::from(line)].has_room_for(event)
    }

    // An event on the line that the node's pending step there allows, without its receipt.
    #[inline(always)]
    fn make(&mut self, line: LineNo, event: Event) -> Outcome
        requires line { line < length self.old.wholes.items }
        requires allowed { is_allowed (nodes_at (lent_lines self.old.keep self.old.node self.old.wholes.items) line) self.old.node (step_at (lent_lines self.old.keep self.old.node self.old.wholes.items) line) event ≡ true }
        requires fits { FitsEvent (K.fits self.old.keep line) event }
        ensures gives { GivesAt K.fits (lent_lines self.old.keep self.old.node self.old.wholes.items) line (Stepped event result) (lent_lines self.new.keep self.new.node self.new.wholes.items) }
        ensures same_receipts { self.new.receipts ≡ self.old.receipts }
    {
        let me = self.node;
        let wholes = self.wholes.as_mut_slice();
        step_lent(&mut wholes[usize::from(line)], me, event)
    }

    // The same, with its receipt where there is room for one.
    #[inline(always)]
    fn make_in_room(&mut self, line: LineNo, event: Event) -> Outcome
        requires line { line < length self.old.wholes.items }
        requires allowed { is_allowed (nodes_at (lent_lines self.old.keep self.old.node self.old.wholes.items) line) self.old.node (step_at (lent_lines self.old.keep self.old.node self.old.wholes.items) line) event ≡ true }
        requires fits { FitsEvent (K.fits self.old.keep line) event }
        ensures gives { GivesAt K.fits (lent_lines self.old.keep self.old.node self.old.wholes.items) line (Stepped event result) (lent_lines self.new.keep self.new.node self.new.wholes.items) }
        ensures receives { ChangesAt (ReceivesIfRoom (step_at (lent_lines self.old.keep self.old.node self.old.wholes.items) line) (Stepped event result)) (λ m. receipts_at self.old.receipts.items m) line (λ m. receipts_at self.new.receipts.items m) }
    {
        let is_kept = self.has_room_for(line, &event);
        let before = self.step_on(line);
        let asked = event;
        let outcome = self.make(line, event);
        let receipts = self.receipts.as_mut_slice();
        receipts[usize::from(line)].keep_if(is_kept, &before, &asked, &outcome);
        outcome
    }
}

impl<K: Keeps> Bank for SoloBank<K> {
    type Keep = K;

    ghost way = { λ s. lent_way (lent_lines s.keep s.node s.wholes.items) };

    ghost nodes_on = { λ s line. nodes_at (lent_lines s.keep s.node s.wholes.items) line };

    ghost keep = { λ s. s.keep };

    ghost at_step = { λ s line. step_at (lent_lines s.keep s.node s.wholes.items) line };

    ghost receipts = { λ s line. receipts_at s.receipts.items line };

    ghost gives = { λ s line call t. GivesAt K.fits (lent_lines s.keep s.node s.wholes.items) line call (lent_lines t.keep t.node t.wholes.items) × ChangesAt (ReceivesIfRoom (step_at (lent_lines s.keep s.node s.wholes.items) line) call) (λ m. receipts_at s.receipts.items m) line (λ m. receipts_at t.receipts.items m) };

    ghost readies = { λ s line r t. (t.wholes ≡ s.wholes) × (t.node ≡ s.node) × (t.keep ≡ s.keep) × ChangesAt (Readies r) (λ m. receipts_at s.receipts.items m) line (λ m. receipts_at t.receipts.items m) };

    ghost same_way = { λ s line call t h. h.0.stays.way };

    ghost same_nodes = { λ s line call t h. h.0.stays.nodes };

    ghost same_fact = { λ s line call t h. h.0.stays.fact };

    ghost others = { λ s line call t h. h.0.stays.steps };

    ghost owes = { λ s line call t h. h.0.owes };

    ghost receives = { λ s line call t h. h.1 };

    ghost readied = { λ s line r t h. (λ i. lent_way (lent_lines (h.2 i) (h.1 i) (h.0 i).items), λ m i. nodes_at (lent_lines (h.2 i) (h.1 i) (h.0 i).items) m, h.2, λ m i. step_at (lent_lines (h.2 i) (h.1 i) (h.0 i).items) m, h.3) };

    fn node(&self) -> NodeId {
        self.node
    }

    fn lines(&self) -> u16 {
        self.wholes.len() as u16
    }

    fn nodes(&self, line: LineNo) -> u16 {
        let wholes = &self.wholes;
        wholes[usize::from(line)].nodes()
    }

    fn number(&self, line: LineNo) -> LineNo {
        let wholes = &self.wholes;
        wholes[usize::from(line)].number()
    }

    fn pending(&self, line: LineNo) -> Pending {
        // It is sound, as `stage` says.
        let _ = self.stage(line);
        self.step_on(line)
    }

    fn stage(&self, line: LineNo) -> Stage {
        let wholes = &self.wholes;
        let whole = &wholes[usize::from(line)];
        // The node's own tag is well formed, and the line lawful.
        let _ = whole.tag(self.node);
        let _ = whole.nodes();
        *whole.stage(self.node)
    }

    #[inline(always)]
    fn own(&mut self, line: LineNo) -> Option<Tag> {
        let _ = self.step(line, Event::Look);
        let wholes = &self.wholes;
        let whole = &wholes[usize::from(line)];
        Some(whole.tag(self.node))
    }

    fn mem(&mut self, line: LineNo) -> Option<Mem> {
        let wholes = &self.wholes;
        let whole = &wholes[usize::from(line)];
        Some(whole.mem())
    }

    fn tag(&mut self, line: LineNo, node: NodeId) -> Option<Tag> {
        let wholes = &self.wholes;
        let whole = &wholes[usize::from(line)];
        Some(whole.tag(node))
    }

    #[inline(always)]
    fn step(&mut self, line: LineNo, event: Event) -> Outcome {
        self.make_in_room(line, event)
    }

    fn reserve(&mut self, line: LineNo, n: usize) -> Result<(), AllocError> {
        let receipts = self.receipts.as_mut_slice();
        receipts[usize::from(line)].reserve(n)
    }

    fn room(&self, line: LineNo) -> usize {
        self.receipts[usize::from(line)].room()
    }

    fn last_passed(&self, line: LineNo) -> bool {
        self.receipts[usize::from(line)].last_passed()
    }

    fn aim(&mut self, line: LineNo, passing: bool) {
        let receipts = self.receipts.as_mut_slice();
        receipts[usize::from(line)].aim(passing);
    }
}
