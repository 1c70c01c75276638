//! The lines that a trace adds.

ghost use Rattle.std.specs.Prelude.{◌≡◌, ◌<◌, ◌++◌, OnOk, IfSome};
ghost use Rattle.sci_trace.specs.NoteText.{note_bytes};
ghost use Rattle.sci_trace.specs.Short.{short_bytes};
ghost use Rattle.sci_script.specs.Wholes.{shared_of};
ghost use Rattle.sci_trace.specs.Lists.{walked};
ghost use Rattle.sci_trace.specs.Texts.{operation_name, mem_wait, wait_text, times_text, look_text, act_text, place_text, for_text, note_line};

use crate::events::push_event;
use crate::lists::push_list;
use crate::note_text::NoteText;
use crate::numbers::{push_between, push_named};
use crate::short::Short;
use crate::steps::push_step;
use crate::words::{push_link, push_node, push_tag};
use sci_core::Stage;
use sci_ops::{Goal, Write};
use sci_port::{Load, Passed};
use sci_script::WholeDesk;
use sci_words::{LineNo, Mem, NodeId, Tag};
use std::alloc::AllocError;

/// That a turn waited.
#[derive(Clone, Copy)]
pub struct Wait {
    /// For how many turns its line stands.
    pub times: u32,
    /// Whom its node waits for, where the words say it.
    pub whom: Option<NodeId>,
}

/// The operation at work, by its goal. A node without a call takes turns towards rest alone.
fn operation_name(goal: &Option<Goal>) -> Short
    ensures { short_bytes result ≡ operation_name goal.now }
{
    match goal {
        Some(Goal::Load) => Short::new(b"load:           ", 6),
        Some(Goal::Write(Write::Store { .. })) => Short::new(b"store:          ", 7),
        Some(Goal::Write(Write::Add { .. })) => Short::new(b"add:            ", 5),
        Some(Goal::Write(Write::Line(_))) => Short::new(b"write line:     ", 12),
        Some(Goal::Evict) => Short::new(b"evict:          ", 7),
        None => Short::new(b"rest:           ", 6),
    }
}

/// A wait behind a load of the memory word: in Queueing for the lent line, elsewhere for the place of the head.
fn push_mem_wait(text: &mut NoteText, stage: &Stage, mem: Mem) -> Result<(), AllocError>
    ensures { OnOk result (note_bytes text.new ≡ note_bytes text.old ++ mem_wait stage.now mem) }
{
    if let Stage::Queueing { .. } = stage {
        return text.push(b"memory is lent");
    }
    push_link(text, b"memory names ", mem.forw, b"")
}

/// What a turn that waited has seen last.
fn push_wait(
    text: &mut NoteText,
    node: NodeId,
    load: &Option<Load>,
    stage: &Stage,
) -> Result<(), AllocError>
    ensures { OnOk result (note_bytes text.new ≡ note_bytes text.old ++ wait_text node load.now stage.now) }
{
    match load {
        Some(Load::Own(Some(tag))) => push_tag(text, node, *tag),
        Some(Load::Mem(Some(mem))) => push_mem_wait(text, stage, *mem),
        Some(Load::Tag(other, Some(tag))) => push_tag(text, *other, *tag),
        _ => text.push(b"the line is busy"),
    }
}

/// That it waited, and for how many turns the line stands.
fn push_times(text: &mut NoteText, times: u32) -> Result<(), AllocError>
    ensures { OnOk result (note_bytes text.new ≡ note_bytes text.old ++ times_text times) }
{
    if times == 1 {
        return text.push(b"waits: ");
    }
    push_between(text, b"waits ", u64::from(times), b" times: ")
}

/// A turn without an exchange: it waited, or it only looked.
fn push_look(
    text: &mut NoteText,
    node: NodeId,
    load: &Option<Load>,
    stage: &Stage,
    wait: &Option<Wait>,
) -> Result<(), AllocError>
    ensures { OnOk result (note_bytes text.new ≡ note_bytes text.old ++ look_text node load.now stage.now wait.now) }
{
    let Some(wait) = wait else {
        return text.push(b"only looked; ");
    };
    push_times(text, wait.times)?;
    push_wait(text, node, load, stage)?;
    text.push(b"; ")
}

/// Whom a turn waited for.
#[inline(always)]
fn push_for(text: &mut NoteText, wait: &Option<Wait>) -> Result<(), AllocError>
    ensures { OnOk result (note_bytes text.new ≡ note_bytes text.old ++ for_text wait.now) }
{
    match wait {
        Some(
            Wait {
                whom: Some(node),
                ..
            },
        ) => push_node(text, b"; for node ", *node, b""),
        _ => Ok(()),
    }
}

/// What a turn did: its event and how the exchange ended, or its wait, or that it only looked.
pub fn push_act(
    text: &mut NoteText,
    node: NodeId,
    passed: &Passed,
    stage: &Stage,
    wait: &Option<Wait>,
) -> Result<(), AllocError>
    ensures { OnOk result (note_bytes text.new ≡ note_bytes text.old ++ act_text node passed.now stage.now wait.now) }
{
    match &passed.step {
        Some((event, ending)) => push_event(text, &passed.load, event, *ending),
        None => push_look(text, node, &passed.load, stage, wait),
    }
}

/// Whose turn it was: `# node N line L OPERATION: `.
fn push_place(
    text: &mut NoteText,
    node: NodeId,
    goal: &Option<Goal>,
    line: LineNo,
) -> Result<(), AllocError>
    ensures { OnOk result (note_bytes text.new ≡ note_bytes text.old ++ place_text node goal.now line) }
{
    push_node(text, b"# node ", node, b" line ")?;
    push_named(text, b"", u64::from(line), operation_name(goal))
}

/// One turn of a node towards this goal: `# node N line L OPERATION: WHAT; STEP; LIST` and a line feed. WHAT is the event
/// and how its exchange ended, `waits: ` and what it waits for, or `only looked`; STEP is the pending step after the turn; LIST is this
/// memory word and the entries as they stand, with what is lent and held. A turn that waits for a node ends in `; for node N`.
#[inline(always)]
pub(crate) fn push_note(
    text: &mut NoteText,
    desk: &mut WholeDesk,
    node: NodeId,
    goal: &Option<Goal>,
    passed: &Passed,
    stage: &Stage,
    wait: &Option<Wait>,
    mem: Mem,
    nodes: u16,
) -> Result<(), AllocError>
    requires line { passed.now.line < desk.old.size.lines }
    requires head { IfSome mem.forw (λ n. n < desk.old.size.nodes) }
    requires nodes { nodes ≡ desk.old.size.nodes }
    ensures pushed { OnOk result (note_bytes text.new ≡ note_bytes text.old ++ note_line node goal.now passed.now stage.now wait.now mem (walked ((shared_of desk.old).lines passed.now.line).tags nodes mem.forw)) }
    ensures same { shared_of desk.new ≡ shared_of desk.old }
    ensures size { desk.new.size ≡ desk.old.size }
{
    let line = passed.line;
    push_place(text, node, goal, line)?;
    push_act(text, node, passed, stage, wait)?;
    push_step(text, stage)?;
    push_list(text, desk, line, mem, nodes)?;
    push_for(text, wait)?;
    text.push(b"\n")
}
