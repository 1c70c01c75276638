//! What a node asks of the table.
ghost use Rattle.std.specs.Prelude.{◌≡◌, IfOk, IfErr, Ok, Err};
ghost use Rattle.sci_core.specs.Step.{is_look};
ghost use Rattle.sci_core.specs.Stage.{pending_of};
ghost use Rattle.sci_core.specs.Table.{has_row};
ghost use Rattle.sci_c.specs.Asking.{Asks, IsFault, Allows, Forbids, HasRow, HasNoRow, outline_at};

use crate::events::{EventNumbers, read_event};
use crate::faults::Fault;
use crate::steps::{StepNumbers, read_step};
use sci_core::{Event, Line, MOST_NODES, Outline, Stage};
use sci_words::NodeId;

/// A node, its pending step without its line, and an event.
#[derive(Clone, Copy)]
pub struct Asked {
    pub me: NodeId,
    pub stage: Stage,
    pub event: Event,
}

/// What is asked, by these numbers.
fn ask(me: u16, nodes: u16, step: &StepNumbers, event: &EventNumbers) -> Result<Asked, Fault>
    ensures ok { IfOk result (λ a. (a.me ≡ me) × Asks me nodes step.now event.now a.stage a.event) }
    ensures err { IfErr result (λ f. IsFault me nodes step.now event.now f) }
{
    if nodes == 0 || nodes > MOST_NODES {
        return Err(Fault::BadNodes);
    }
    if me >= nodes {
        return Err(Fault::NoSuchNode);
    }
    let Some(me) = NodeId::new(me) else {
        unreachable!()
    };
    let Some(stage) = read_step(step) else {
        return Err(Fault::NoSuchStep);
    };
    let Some(event) = read_event(event) else {
        return Err(Fault::NoSuchEvent);
    };
    Ok(Asked { me, stage, event })
}

/// Whether the step allows the event, with this line in the node's own slot or hand.
pub fn allow(
    me: u16,
    nodes: u16,
    step: &StepNumbers,
    own: &Line,
    event: &EventNumbers,
) -> Result<(), Fault>
    ensures ok { IfOk result (λ _. Allows me nodes step.now own.now event.now) }
    ensures err { IfErr result (λ f. Forbids me nodes step.now own.now event.now f) }
{
    let asked = match ask(me, nodes, step, event) {
        Ok(asked) => asked,
        Err(fault) => return Err(fault),
    };
    if asked.stage.with(own).allows(asked.me, nodes, &asked.event) {
        Ok(())
    } else {
        Err(Fault::NotInTurn)
    }
}

fn is_look(event: &Event) -> bool
    ensures { result ≡ is_look event.now }
{
    matches!(event, Event::Look)
}

// Whether the table has a row for what is asked: a look is none.
#[tactic(auto, using(crate::proofs::Looks::look_has_no_row))]
fn has_row(nodes: u16, asked: &Asked, own: &Line) -> bool
    ensures { result ≡ has_row nodes asked.now.me (pending_of asked.now.stage own.now) asked.now.event }
{
    if is_look(&asked.event) {
        return false;
    }
    asked.stage.with(own).allows(asked.me, nodes, &asked.event)
}

/// What is asked, where the table has a row for it, and that row, but for lines.
pub fn find_row(
    me: u16,
    nodes: u16,
    step: &StepNumbers,
    own: &Line,
    event: &EventNumbers,
) -> Result<(Asked, Outline), Fault>
    ensures ok { IfOk result (λ r. (r.0.me ≡ me) × HasRow me nodes step.now own.now event.now r.0.stage r.0.event × (r.1 ≡ outline_at me r.0.stage own.now r.0.event)) }
    ensures err { IfErr result (λ f. HasNoRow me nodes step.now own.now event.now f) }
{
    let asked = match ask(me, nodes, step, event) {
        Ok(asked) => asked,
        Err(fault) => return Err(fault),
    };
    if !has_row(nodes, &asked, own) {
        return Err(Fault::NotInTurn);
    }
    let outline = asked.stage.outline(asked.me, &asked.event);
    Ok((asked, outline))
}
