//! The calls of a seat, each one step on one word.
ghost use Rattle.std.specs.Prelude.{◌≡◌, ◌<◌, Some, true};
ghost use Rattle.sci_core.specs.Answers.{is_allowed, FitsEvent};
ghost use Rattle.sci_core.specs.Table.{has_row};
ghost use Rattle.sci_port.specs.declared.calls.Call.TheVariants.{Own, MemWas, TagWas, Stepped};
ghost use Rattle.sci_fine.specs.Seats.{IsSeatOf, HasMade, HasReceived};
ghost use Rattle.sci_fine.specs.Steps.{IsLook};

use crate::codes::{codes, number_of};
use crate::line::FineLine;
use crate::seats::Seat;
use crate::views::{AsLoad, AsStep, Notes};
use sci_core::{Event, Keeps, Outcome};
use sci_words::{Mem, NodeId, Tag, read_mem, read_tag};
use std::marker::Brand;

impl<K: Keeps> Seat<K> {
    // The memory word.
    pub(crate) fn mem(&mut self, line: &FineLine<K>) -> Mem
        requires of { IsSeatOf line.now self.old }
        ensures made { HasMade K.fits self.old (MemWas (Some result)) self.new }
        ensures receives { HasReceived self.old (MemWas (Some result)) self.new }
    {
        let found = line.load(&mut self.token, 0);
        match read_mem(found) {
            Ok(mem) => mem,
            Err(_) => unreachable!(),
        }
    }

    // A node's tag.
    pub(crate) fn tag(&mut self, line: &FineLine<K>, node: NodeId) -> Tag
        requires of { IsSeatOf line.now self.old }
        requires node { node < self.old.standing.terms.nodes }
        ensures made { HasMade K.fits self.old (TagWas node (Some result)) self.new }
        ensures receives { HasReceived self.old (TagWas node (Some result)) self.new }
    {
        let found = line.load(&mut self.token, number_of(node));
        match read_tag(found) {
            Ok(tag) => tag,
            Err(_) => unreachable!(),
        }
    }

    // The node's own tag, looked at: by a load or by a step.
    #[inline(always)]
    fn look<N: Notes>(&mut self, line: &FineLine<K>) -> Tag
        requires of { IsSeatOf line.now self.old }
        requires note { IsLook N.call }
        ensures made { HasMade K.fits self.old (N.call result) self.new }
        ensures kept { self.new.receipts ≡ self.old.receipts }
    {
        let number = number_of(self.standing.node());
        let found = line.look::<N>(&mut self.token, number);
        let tag = match read_tag(found) {
            Ok(tag) => tag,
            Err(_) => unreachable!(),
        };
        self.standing.look(&tag);
        tag
    }

    // The node's own tag.
    #[inline(always)]
    pub(crate) fn own(&mut self, line: &FineLine<K>) -> Tag
        requires of { IsSeatOf line.now self.old }
        ensures made { HasMade K.fits self.old (Own (Some result)) self.new }
        ensures receives { HasReceived self.old (Own (Some result)) self.new }
    {
        self.look::<AsLoad>(line)
    }

    // The exchange that the event asks for.
    #[inline(always)]
    fn exchange(&mut self, line: &FineLine<K>, event: &Event) -> Outcome
        requires of { IsSeatOf line.now self.old }
        requires allowed { has_row self.old.standing.terms.nodes self.old.standing.node self.old.standing.pending event.now ≡ true }
        requires fits { FitsEvent (K.fits self.old.standing.terms.keep self.old.standing.terms.number) event.now }
        ensures made { HasMade K.fits self.old (Stepped event.now result) self.new }
        ensures kept { self.new.receipts ≡ self.old.receipts }
    {
        let outline = self.standing.outline(event);
        let (number, old, new) = codes(&outline.change);
        line.lay(&mut self.token, &self.standing, event, &outline.motion);
        let found = line.swap::<Brand>(&mut self.token, event, number, old, new);
        if found != old {
            return Outcome::Missed(found);
        }
        Outcome::Done(line.pick_up(&mut self.token, &mut self.standing, event, &outline))
    }

    // An event of the node that its pending step allows, without its receipt.
    #[inline(always)]
    fn make(&mut self, line: &FineLine<K>, event: &Event) -> Outcome
        requires of { IsSeatOf line.now self.old }
        requires allowed { is_allowed self.old.standing.terms.nodes self.old.standing.node self.old.standing.pending event.now ≡ true }
        requires fits { FitsEvent (K.fits self.old.standing.terms.keep self.old.standing.terms.number) event.now }
        ensures made { HasMade K.fits self.old (Stepped event.now result) self.new }
        ensures kept { self.new.receipts ≡ self.old.receipts }
    {
        if let Event::Look = event {
            let _ = self.look::<AsStep>(line);
            Outcome::Done(None)
        } else {
            self.exchange(line, event)
        }
    }

    // An event of the node that its pending step allows: its receipt is kept where there is room for one.
    #[inline(always)]
    pub(crate) fn step(&mut self, line: &FineLine<K>, event: &Event) -> Outcome
        requires of { IsSeatOf line.now self.old }
        requires allowed { is_allowed self.old.standing.terms.nodes self.old.standing.node self.old.standing.pending event.now ≡ true }
        requires fits { FitsEvent (K.fits self.old.standing.terms.keep self.old.standing.terms.number) event.now }
        ensures made { HasMade K.fits self.old (Stepped event.now result) self.new }
        ensures receives { HasReceived self.old (Stepped event.now result) self.new }
    {
        let is_kept = self.receipts.has_room_for(event);
        let before = self.standing.line();
        let outcome = self.make(line, event);
        self.receipts.receive_if(is_kept, event, &before, &outcome);
        outcome
    }
}
