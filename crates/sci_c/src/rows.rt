//! A row of the table, in numbers.
ghost use Rattle.std.specs.Prelude.{◌≡◌, ◌&&◌, true, false, MatchOption};
ghost use Rattle.sci_words.specs.Codes.{tag_code, mem_code};
ghost use Rattle.sci_c.specs.Links.{fits_tag, fits_mem};
ghost use Rattle.sci_c.specs.Rows.{changed_number, before_code, after_code, place_number, carry_number, slot_number, row_numbers, change_fits, place_fits, motion_fits, row_fits};

use crate::links::{NONE, bit, mem_number, tag_number};
use crate::steps::{StepNumbers, write_step};
use sci_core::{Change, Motion, Outline, Place};
use sci_words::{Mem, Tag};

/// The exchange that an event asks for, but for lines.
#[repr(C)]
#[derive(Clone, Copy, Debug, PartialEq, Eq)]
pub struct RowNumbers {
    /// Whose tag it changes; 65,535: memory's word.
    pub word: u16,
    /// 0: no slot moves. 1: a slot's line comes into the actor's hand. 2: the actor's line goes back into a slot.
    pub carry: u8,
    /// 1 where the event answers the line that it takes or gives back.
    pub answers: u8,
    /// Whose slot moves; 65,535: memory's. 0 where none moves.
    pub slot: u16,
    /// The code of the word that is to be found, and of the one that is put in its place, in layout 2.
    pub before: u64,
    pub after: u64,
    /// The actor's pending step after the exchange.
    pub step: StepNumbers,
}

fn two_mems(before: &Mem, after: &Mem) -> Option<(u64, u64)>
    ensures { MatchOption result ((fits_mem before.now && fits_mem after.now) ≡ false) (λ c. ((fits_mem before.now && fits_mem after.now) ≡ true) × (c.0 ≡ mem_code before.now) × (c.1 ≡ mem_code after.now)) }
{
    match (mem_number(before), mem_number(after)) {
        (Some(before), Some(after)) => Some((before, after)),
        _ => None,
    }
}

fn two_tags(before: &Tag, after: &Tag) -> Option<(u64, u64)>
    ensures { MatchOption result ((fits_tag before.now && fits_tag after.now) ≡ false) (λ c. ((fits_tag before.now && fits_tag after.now) ≡ true) × (c.0 ≡ tag_code before.now) × (c.1 ≡ tag_code after.now)) }
{
    match (tag_number(before), tag_number(after)) {
        (Some(before), Some(after)) => Some((before, after)),
        _ => None,
    }
}

// Whose word, and its codes before and after.
fn write_change(nodes: u16, change: &Change) -> Option<(u16, (u64, u64))>
    ensures { MatchOption result (change_fits nodes change.now ≡ false) (λ c. (change_fits nodes change.now ≡ true) × (c.0 ≡ changed_number change.now) × (c.1.0 ≡ before_code change.now) × (c.1.1 ≡ after_code change.now)) }
{
    match change {
        Change::OfMemory { before, after } => match two_mems(before, after) {
            Some(codes) => Some((NONE, codes)),
            None => None,
        },
        Change::OfTag {
            node,
            before,
            after,
        } => {
            if node.get() >= nodes {
                return None;
            }
            match two_tags(before, after) {
                Some(codes) => Some((node.get(), codes)),
                None => None,
            }
        }
    }
}

fn write_place(nodes: u16, place: &Place) -> Option<u16>
    ensures { MatchOption result (place_fits nodes place.now ≡ false) (λ x. (place_fits nodes place.now ≡ true) × (x ≡ place_number place.now)) }
{
    match place {
        Place::Memory => Some(NONE),
        Place::Node(node) => {
            if node.get() < nodes {
                Some(node.get())
            } else {
                None
            }
        }
    }
}

// What becomes of a slot, and of which.
fn write_motion(nodes: u16, motion: &Motion) -> Option<(u8, u16)>
    ensures { MatchOption result (motion_fits nodes motion.now ≡ false) (λ c. (motion_fits nodes motion.now ≡ true) × (c.0 ≡ carry_number motion.now) × (c.1 ≡ slot_number motion.now)) }
{
    match motion {
        Motion::Stays => Some((0, 0)),
        Motion::Takes(place) => match write_place(nodes, place) {
            Some(slot) => Some((1, slot)),
            None => None,
        },
        Motion::Gives(place) => match write_place(nodes, place) {
            Some(slot) => Some((2, slot)),
            None => None,
        },
    }
}

/// The numbers of a row of a line of so many nodes, where its words are words, and its nodes are of the line.
pub fn write_row(nodes: u16, outline: &Outline) -> Option<RowNumbers>
    ensures { MatchOption result (row_fits nodes outline.now ≡ false) (λ r. (row_fits nodes outline.now ≡ true) × (r ≡ row_numbers outline.now)) }
{
    let Some((word, (before, after))) = write_change(nodes, &outline.change) else {
        return None;
    };
    let Some((carry, slot)) = write_motion(nodes, &outline.motion) else {
        return None;
    };
    let Some(step) = write_step(&outline.after) else {
        return None;
    };
    Some(RowNumbers {
        word,
        carry,
        answers: bit(outline.answers),
        slot,
        before,
        after,
        step,
    })
}
