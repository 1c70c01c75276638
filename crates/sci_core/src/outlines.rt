//! An event's exchange, but for lines.
ghost use Rattle.std.specs.Prelude.{◌≡◌};
ghost use Rattle.sci_core.specs.Laid.{CanCountIn, CountsGiven};
ghost use Rattle.sci_core.specs.Stage.{carry_with, filled, given, own_after};

use crate::events::Event;
use crate::lines::Line;
use crate::rows::{Carry, Change, Exchange, Place};
use crate::stages::Stage;
use crate::table::purging::written;

/// What an exchange does with a slot.
#[derive(Clone, Copy)]
pub enum Motion {
    /// Nothing.
    Stays,
    /// It takes the slot's line into the actor's hand.
    Takes(Place),
    /// It gives the actor's line back into the slot.
    Gives(Place),
}

/// An exchange, but for lines. It answers the line that it takes or gives back, or none.
#[derive(Clone, Copy)]
pub struct Outline {
    pub change: Change,
    pub motion: Motion,
    pub after: Stage,
    pub answers: bool,
}

impl Line {
    /// Writes over the actor's line as it is given back.
    #[inline(always)]
    pub fn give_back(&mut self, event: &Event)
        requires stamp { CanCountIn self.old event.now }
        ensures { self.new ≡ given event.now self.old }
    {
        match event {
            Event::Left => *self = Line::ZERO,
            Event::Written(words) => *self = written(self, words),
            _ => {}
        }
    }
}

fn carry_with(motion: &Motion, line: &Line) -> Carry
    ensures { result ≡ carry_with motion.now line.now }
{
    match motion {
        Motion::Stays => Carry::Stays,
        Motion::Takes(place) => Carry::Takes(*place),
        Motion::Gives(place) => Carry::Gives(*place, *line),
    }
}

impl Outline {
    /// Writes over the actor's own line as it stands after the exchange. `taken` is that of the slot that is taken.
    #[inline(always)]
    pub fn write_own(&self, event: &Event, own: &mut Line, taken: &Line)
        requires stamp { CountsGiven event.now self.now.motion own.old }
        ensures { own.new ≡ own_after self.now.motion self.now.after event.now own.old taken.now }
    {
        match self.motion {
            Motion::Stays => {}
            Motion::Takes(Place::Memory) => {
                if matches!(self.after, Stage::Fetching { .. }) {
                    *own = *taken;
                }
            }
            Motion::Takes(Place::Node(_)) => *own = *taken,
            Motion::Gives(_) => own.give_back(event),
        }
    }

    /// The exchange with its lines, from the actor's own line and that of the slot that is taken.
    pub fn filled(&self, event: &Event, own: &Line, taken: &Line) -> Exchange
        requires stamp { CountsGiven event.now self.now.motion own.now }
        ensures { result ≡ filled self.now (own_after self.now.motion self.now.after event.now own.now taken.now) }
    {
        let mut line = *own;
        self.write_own(event, &mut line, taken);
        Exchange {
            change: self.change,
            carry: carry_with(&self.motion, &line),
            after: self.after.with(&line),
            answer: if self.answers { Some(line) } else { None },
        }
    }
}
