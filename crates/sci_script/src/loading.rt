//! Loads that are tried again until they are had.
ghost use Rattle.std.specs.Prelude.{◌≡◌, ◌<◌, ℕ, List, Some, None, length, IfOk, OnErr, IfSome, MatchOption};
ghost use Rattle.sci_words.specs.declared.tags.Tag.{Tag};
ghost use Rattle.sci_script.specs.Event.{SawMem, SawTag};
ghost use Rattle.sci_script.specs.Run.{Repeats, Loads, Walked, Walks, IsLost};

use crate::desk::Desk;
use sci_words::{LineNo, Mem, NodeId, Tag};
use std::alloc::{AllocError, Global};

/// How many times in a row a word may not be had.
const LOADS: u32 = 100_000;

/// The line's memory word, or `None` where it isn't to be had.
pub fn load_mem<D: Desk>(desk: &mut D, line: LineNo) -> Option<Mem>
    requires { line < (D.size desk.old).lines }
    ensures loads { MatchOption result (Repeats D.does (SawMem line None) 100000 desk.old desk.new)
        (λ m. Loads D.does (SawMem line None) (SawMem line (Some m)) desk.old desk.new) }
    ensures link { IfSome result (λ m. IfSome m.forw (λ n. n < (D.size desk.old).nodes)) }
    ensures size { D.size desk.new ≡ D.size desk.old }
{
    for _ in 0..LOADS {
        if let Some(mem) = desk.mem(line) {
            return Some(mem);
        }
    }
    None
}

/// The node's tag on the line, or `None` where it isn't to be had.
pub fn load_tag<D: Desk>(desk: &mut D, line: LineNo, node: NodeId) -> Option<Tag>
    requires line { line < (D.size desk.old).lines }
    requires node { node < (D.size desk.old).nodes }
    ensures loads { MatchOption result (Repeats D.does (SawTag line node None) 100000 desk.old desk.new)
        (λ t. Loads D.does (SawTag line node None) (SawTag line node (Some t)) desk.old desk.new) }
    ensures link { IfSome result (λ t. IfSome t.forw (λ n. n < (D.size desk.old).nodes)) }
    ensures size { D.size desk.new ≡ D.size desk.old }
{
    for _ in 0..LOADS {
        if let Some(tag) = desk.tag(line, node) {
            return Some(tag);
        }
    }
    None
}

/// The entries along the links from `head` on, or `None` where a tag isn't to be had or there are more of them than nodes.
pub fn walk<D: Desk>(
    alloc: Global,
    desk: &mut D,
    line: LineNo,
    head: Option<NodeId>,
    nodes: u16,
) -> Result<Option<Vec<(NodeId, Tag)>>, AllocError>
    requires line { line < (D.size desk.old).lines }
    requires head { IfSome head (λ n. n < (D.size desk.old).nodes) }
    ensures walked { IfOk result (λ found. MatchOption found (IsLost D.does nodes line head desk.old desk.new)
        (λ v. Walked D.does line head v.items None desk.old desk.new)) }
    ensures err { OnErr result (Walks D.does line head desk.old desk.new) }
    ensures size { D.size desk.new ≡ D.size desk.old }
{
    let mut entries = Vec::new(alloc);
    let mut next = head;
    for _ in 0..nodes {
        let Some(node) = next else {
            return Ok(Some(entries));
        };
        let Some(tag) = load_tag(desk, line, node) else {
            return Ok(None);
        };
        next = tag.forw;
        entries.push((node, tag))?;
    }
    if next.is_some() {
        return Ok(None);
    }
    Ok(Some(entries))
}
