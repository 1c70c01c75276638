//! The exports of the table.
ghost use Rattle.std.specs.Prelude.{◌≡◌, IfOk, IfErr};
ghost use Rattle.sci_core.specs.declared.stages.Stage as a_stage;
ghost use Rattle.sci_core.specs.declared.events.Event as an_event;
ghost use Rattle.sci_c.specs.declared.faults.Fault.TheVariants.{NoSuchStep, NoSuchEvent};
ghost use Rattle.sci_c.specs.Steps.{IsStep};
ghost use Rattle.sci_c.specs.Events.{IsEvent};
ghost use Rattle.sci_c.specs.Rows.{line_of};
ghost use Rattle.sci_c.specs.Asking.{Tells, Allows, Forbids, IsRow, IsNoRow, HasNoRow, IsLineAfter, Looks, IsNoLook};

use crate::asking::{allow, find_row};
use crate::events::{EventNumbers, read_event};
use crate::faults::Fault;
use crate::lines::{LineNumbers, read_line, write_line};
use crate::rows::{RowNumbers, write_row};
use crate::steps::{StepNumbers, read_step, write_step};
use sci_core::Line;
use sci_words::read_tag;

/// 0 where these are the numbers of a pending step, else 28. Each step has its own numbers.
#[unsafe(no_mangle)]
pub extern "C" fn sci_check_step(step: &StepNumbers) -> u8
    ensures step { Tells result ((s : a_stage.Stage) × IsStep step.now s) (λ f. (f ≡ NoSuchStep) × ((s : a_stage.Stage) → IsStep step.now s → ⊥)) }
    ensures one { (s t : a_stage.Stage) → IsStep step.now s → IsStep step.now t → s ≡ t }
{
    match read_step(step) {
        Some(_) => 0,
        None => Fault::NoSuchStep.number(),
    }
}

/// 0 where these are the numbers of an event, else 29. Each event has its own numbers.
#[unsafe(no_mangle)]
pub extern "C" fn sci_check_event(event: &EventNumbers) -> u8
    ensures event { Tells result ((e : an_event.Event) × IsEvent event.now e) (λ f. (f ≡ NoSuchEvent) × ((e : an_event.Event) → IsEvent event.now e → ⊥)) }
    ensures one { (e d : an_event.Event) → IsEvent event.now e → IsEvent event.now d → e ≡ d }
{
    match read_event(event) {
        Some(_) => 0,
        None => Fault::NoSuchEvent.number(),
    }
}

/// Whether the node `me`, one of `nodes`, may make this event in this step: 0 at a look, and where the table has a row for it; else 8.
/// `own` is the line in its own slot or hand. It says nothing of the word that the exchange will find. Refused 6, 27, 28, 29.
#[unsafe(no_mangle)]
pub extern "C" fn sci_allows(
    me: u16,
    nodes: u16,
    step: &StepNumbers,
    own: &LineNumbers,
    event: &EventNumbers,
) -> u8
    ensures { Tells result (Allows me nodes step.now (line_of own.now) event.now) (λ f. Forbids me nodes step.now (line_of own.now) event.now f) }
{
    match allow(me, nodes, step, &read_line(own), event) {
        Ok(()) => 0,
        Err(fault) => fault.number(),
    }
}

fn exchange(
    me: u16,
    nodes: u16,
    step: &StepNumbers,
    own: &Line,
    event: &EventNumbers,
) -> Result<RowNumbers, Fault>
    ensures ok { IfOk result (λ r. IsRow me nodes step.now own.now event.now r) }
    ensures err { IfErr result (λ f. IsNoRow me nodes step.now own.now event.now f) }
{
    let (_, outline) = match find_row(me, nodes, step, own, event) {
        Ok(found) => found,
        Err(fault) => return Err(fault),
    };
    match write_row(nodes, &outline) {
        Some(row) => Ok(row),
        None => Err(Fault::NoSuchRow),
    }
}

/// The row of the table for an event in this step: which word it changes, from what to what, what becomes of which slot, the step
/// after, and whether a line is answered. Refused 6, 27, 28, 29; 8 where the table has no row for it, as for a look; 30 where the
/// row would have a word that is none, or another's word or slot that isn't of one of `nodes`: no lawful line has such a step.
#[unsafe(no_mangle)]
pub extern "C" fn sci_exchange(
    me: u16,
    nodes: u16,
    step: &StepNumbers,
    own: &LineNumbers,
    event: &EventNumbers,
    row: &mut RowNumbers,
) -> u8
    ensures { Tells result (IsRow me nodes step.now (line_of own.now) event.now row.new) (λ f. IsNoRow me nodes step.now (line_of own.now) event.now f × (row.new ≡ row.old)) }
{
    match exchange(me, nodes, step, &read_line(own), event) {
        Ok(found) => {
            *row = found;
            0
        }
        Err(fault) => fault.number(),
    }
}

#[tactic(auto, using(crate::proofs::Looks::counts_row))]
fn own_after(
    me: u16,
    nodes: u16,
    step: &StepNumbers,
    own: &Line,
    event: &EventNumbers,
    slot: &Line,
) -> Result<Line, Fault>
    ensures ok { IfOk result (λ l. IsLineAfter me nodes step.now own.now event.now slot.now l) }
    ensures err { IfErr result (λ f. HasNoRow me nodes step.now own.now event.now f) }
{
    let (asked, outline) = match find_row(me, nodes, step, own, event) {
        Ok(found) => found,
        Err(fault) => return Err(fault),
    };
    let mut after = *own;
    outline.write_own(&asked.event, &mut after, slot);
    Ok(after)
}

/// The node's own line after an exchange, from its own before and the one in the slot that moves: what a row that gives puts into
/// that slot, and what is answered where a line is. Refused as `sci_exchange`, but for 30.
#[unsafe(no_mangle)]
pub extern "C" fn sci_line_after(
    me: u16,
    nodes: u16,
    step: &StepNumbers,
    own: &LineNumbers,
    event: &EventNumbers,
    slot: &LineNumbers,
    after: &mut LineNumbers,
) -> u8
    ensures { Tells result (IsLineAfter me nodes step.now (line_of own.now) event.now (line_of slot.now) (line_of after.new)) (λ f. HasNoRow me nodes step.now (line_of own.now) event.now f × (after.new ≡ after.old)) }
{
    match own_after(me, nodes, step, &read_line(own), event, &read_line(slot)) {
        Ok(line) => {
            *after = write_line(&line);
            0
        }
        Err(fault) => fault.number(),
    }
}

fn look(step: &StepNumbers, own: u64) -> Result<StepNumbers, Fault>
    ensures ok { IfOk result (λ n. Looks step.now own n) }
    ensures err { IfErr result (λ f. IsNoLook step.now own f) }
{
    let Some(mut stage) = read_step(step) else {
        return Err(Fault::NoSuchStep);
    };
    let tag = match read_tag(own) {
        Ok(tag) => tag,
        Err(refusal) => return Err(Fault::Word(refusal)),
    };
    stage.look(&tag);
    let Some(after) = write_step(&stage) else {
        unreachable!()
    };
    Ok(after)
}

/// The node looked at its own tag, of this code: a step that purges or leaves records what it saw. Refused 28, then 1 to 5.
#[unsafe(no_mangle)]
pub extern "C" fn sci_look(step: &mut StepNumbers, own: u64) -> u8
    ensures { Tells result (Looks step.old own step.new) (λ f. IsNoLook step.old own f × (step.new ≡ step.old)) }
{
    match look(step, own) {
        Ok(after) => {
            *step = after;
            0
        }
        Err(fault) => fault.number(),
    }
}
