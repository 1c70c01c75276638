//! The readers of a script, the calls of a desk, and `put` take no memory. tools/allocations runs this test with the
//! allocation of its last line refused, and wants it to fail there, and there alone.
ghost use Rattle.std.specs.Prelude.{◌≡◌, ◌<◌, false};
ghost use Rattle.sci_cache.specs.Requests.{line_of, has_bad_word};

use crate::checks::same;
use crate::fixed::empty;
use sci_cache::Request;
use sci_ops::Turn;
use sci_script::{Desk, Script, WholeDesk, put, read_script};
use sci_words::{LineNo, NodeId};

const LINE: LineNo = 1;

const NODES: u16 = 64;

const SCRIPT: &[u8] =
    b"memory 64 2\ncapacity 2\nopen 0 9 1 1 1 1 1 1 1 1\nopen 1 4 1 2 3 4 5 6 7 8\nlist 0\n";

/// The next number by chance.
fn next(chance: u32) -> u32 {
    chance.wrapping_mul(1_664_525).wrapping_add(1_013_904_223)
}

/// A request of a node that names the line already, by this number. None of them takes memory.
fn request(kind: u32) -> Request
    ensures line { line_of result < 2 }
    ensures word { has_bad_word result ≡ false }
{
    let line = LINE;
    match kind % 4 {
        0 => Request::Load { line },
        1 => Request::Evict { line: 0 },
        2 => Request::Store {
            line,
            word: 2,
            value: 3,
        },
        _ => Request::Add {
            line,
            word: 7,
            delta: 1,
        },
    }
}

/// What a script says of its memory: nodes, lines, and the stamps that its lines open with.
fn reads(script: &Script) -> (u16, u16, [u64; 3]) {
    let stamps = [0, 1, 2].map(|line| script.opening(line).stamp);
    (script.nodes(), script.lines(), stamps)
}

/// Each node begins a load of the line, which its table then names.
fn enter<D: Desk>(script: &Script, desk: &mut D) -> Option<()>
    requires { D.size desk.old ≡ script.now.size }
    ensures { D.size desk.new ≡ script.now.size }
{
    for number in 0..script.nodes() {
        let node = NodeId::new(number)?;
        if node.get() >= script.nodes() || LINE >= script.lines() || desk.open(node) {
            return None;
        }
        desk.begin(node, Request::Load { line: LINE }).ok()?;
    }
    Some(())
}

/// Turns by chance of all nodes, each with one call after the other, with loads behind each: how many calls ended.
fn turns<D: Desk>(script: &Script, desk: &mut D, count: u32) -> Option<u32>
    requires { D.size desk.old ≡ script.now.size }
{
    let mut ended: u32 = 0;
    let mut chance = 1;
    for _ in 0..count {
        chance = next(chance);
        let node = NodeId::new((chance >> 16) as u16 % script.nodes())?;
        if node.get() >= script.nodes() || LINE >= script.lines() {
            return None;
        }
        if !desk.open(node) {
            desk.begin(node, request(chance >> 20)).ok()?;
        } else if matches!(desk.turn(node), Turn::Done(_)) {
            ended = ended.saturating_add(1);
        }
        let _ = (desk.mem(LINE)?, desk.tag(LINE, node)?);
    }
    Some(ended)
}

#[test]
fn readers_and_turns_take_no_memory(rt: HostRuntime) {
    // The script, the desk, and the lines that its nodes name take 468.
    let Ok(script) = read_script(rt.alloc(), SCRIPT) else {
        panic!(rt; "no script")
    };
    let Ok(mut desk) = WholeDesk::open(rt.alloc(), &script) else {
        panic!(rt; "no desk")
    };
    same(&rt, &reads(&script), &(NODES, 2, [9, 4, 0]));
    assert!(rt; enter(&script, &mut desk) == Some(()));
    assert!(rt; matches!(turns(&script, &mut desk, 100_000), Some(1_000..)));
    let mut out = empty();
    assert!(rt; put(&mut out, SCRIPT).is_ok());
    assert!(rt; out.text() == SCRIPT);
    let last = Vec::<u8>::with_capacity(rt.alloc(), 1);
    assert!(rt; last.is_ok(), "allocation 467 is refused");
}
