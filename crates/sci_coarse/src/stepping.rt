//! The calls of a seat, each one region. Where the lock word was found taken, nothing is done.
ghost use Rattle.std.specs.Prelude.{◌≡◌, ◌<◌, true};
ghost use Rattle.sci_core.specs.Answers.{is_allowed, FitsEvent};
ghost use Rattle.sci_port.specs.declared.calls.Call.TheVariants.{Own, MemWas, TagWas, Stepped};
ghost use Rattle.sci_port.specs.ReceiptList.{HasRoom, Receives};
ghost use Rattle.sci_coarse.specs.Seats.{IsSeatOf, HasMade, HasReceived};

use crate::line::CoarseLine;
use crate::seats::Seat;
use sci_core::{Event, Keeps, Outcome};
use sci_port::Call;
use sci_words::{Mem, NodeId, Tag};
use std::marker::Brand;

impl<K: Keeps> Seat<K> {
    // An event of the node that its pending step allows, without its receipt.
    #[inline(always)]
    fn make(&mut self, line: &CoarseLine<K>, event: Event) -> Outcome
        requires of { IsSeatOf line.now self.old }
        requires allowed { is_allowed self.old.standing.terms.nodes self.old.node self.old.standing.pending event ≡ true }
        requires fits { FitsEvent (K.fits self.old.standing.terms.keep self.old.standing.terms.number) event }
        ensures made { HasMade K.fits self.old (Stepped event result) self.new }
        ensures kept { self.new.receipts ≡ self.old.receipts }
    {
        let asked = event;
        if !line.take(&mut self.token) {
            return Outcome::Busy;
        }
        let outcome = line.step_in_hand(&mut self.token, &mut self.standing, self.node, event);
        let answer = outcome;
        line.give::<Brand>(&mut self.token, &Call::Stepped(asked, answer));
        outcome
    }

    // The same, with its receipt.
    fn make_kept(&mut self, line: &CoarseLine<K>, event: Event) -> Outcome
        requires of { IsSeatOf line.now self.old }
        requires allowed { is_allowed self.old.standing.terms.nodes self.old.node self.old.standing.pending event ≡ true }
        requires fits { FitsEvent (K.fits self.old.standing.terms.keep self.old.standing.terms.number) event }
        requires room { HasRoom event self.old.receipts }
        ensures made { HasMade K.fits self.old (Stepped event result) self.new }
        ensures received { Receives self.old.standing.pending (Stepped event result) self.old.receipts self.new.receipts }
    {
        let before = self.standing.pending();
        let passing = event;
        let outcome = self.make(line, event);
        self.receipts.keep(&before, &passing, &outcome);
        outcome
    }

    // An event of the node that its pending step allows: its receipt is kept where there is room for one.
    #[inline(always)]
    pub(crate) fn step(&mut self, line: &CoarseLine<K>, event: Event) -> Outcome
        requires of { IsSeatOf line.now self.old }
        requires allowed { is_allowed self.old.standing.terms.nodes self.old.node self.old.standing.pending event ≡ true }
        requires fits { FitsEvent (K.fits self.old.standing.terms.keep self.old.standing.terms.number) event }
        ensures made { HasMade K.fits self.old (Stepped event result) self.new }
        ensures receives { HasReceived self.old (Stepped event result) self.new }
    {
        if self.receipts.has_room_for(&event) {
            self.make_kept(line, event)
        } else {
            self.make(line, event)
        }
    }

    // The node's own tag, looked at.
    #[inline(always)]
    pub(crate) fn own(&mut self, line: &CoarseLine<K>) -> Option<Tag>
        requires of { IsSeatOf line.now self.old }
        ensures made { HasMade K.fits self.old (Own result) self.new }
        ensures receives { HasReceived self.old (Own result) self.new }
    {
        if !line.take(&mut self.token) {
            return None;
        }
        let tag = line.own_in_hand(&mut self.token, &mut self.standing, self.node);
        let seen = tag;
        line.give::<Brand>(&mut self.token, &Call::Own(Some(seen)));
        Some(tag)
    }

    // The memory word.
    pub(crate) fn mem(&mut self, line: &CoarseLine<K>) -> Option<Mem>
        requires of { IsSeatOf line.now self.old }
        ensures made { HasMade K.fits self.old (MemWas result) self.new }
        ensures receives { HasReceived self.old (MemWas result) self.new }
    {
        if !line.take(&mut self.token) {
            return None;
        }
        let mem = line.mem_in_hand(&mut self.token);
        let seen = mem;
        line.give::<Brand>(&mut self.token, &Call::MemWas(Some(seen)));
        Some(mem)
    }

    // A node's tag.
    pub(crate) fn tag(&mut self, line: &CoarseLine<K>, other: NodeId) -> Option<Tag>
        requires of { IsSeatOf line.now self.old }
        requires other { other < self.old.standing.terms.nodes }
        ensures made { HasMade K.fits self.old (TagWas other result) self.new }
        ensures receives { HasReceived self.old (TagWas other result) self.new }
    {
        if !line.take(&mut self.token) {
            return None;
        }
        let tag = line.tag_in_hand(&mut self.token, other);
        let seen = tag;
        line.give::<Brand>(&mut self.token, &Call::TagWas(other, Some(seen)));
        Some(tag)
    }
}
