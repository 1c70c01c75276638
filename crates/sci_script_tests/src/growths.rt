//! Each growth may be refused: its call then answers 7 or an `AllocError`, what was written is the text of some first
//! commands, and a second try has the memory. With ample memory this test passes. tools/allocations runs it once for each
//! growth of its table, with that one refused, and the test ends by saying which call answered it. Where a call makes up for a
//! refused growth by a later one, it answers Ok.
ghost use Rattle.std.specs.Prelude.{◌≡◌, ◌<◌};

use crate::banks::are_banks;
use crate::checks::same;
use crate::desks::size_of;
use crate::fixed::{empty, is_front};
use crate::texts::{node, tag};
use crate::unheard::{Unheard, unheard_bank};
use sci_cache::Request;
use sci_script::{
    Ask, BankDesk, Desk, Look, NODES, NoDesk, Script, ScriptRefusal, WholeDesk, list_text, note,
    perform, put, read_script, tag_text,
};
use sci_words::{Kind, Mem, MemState, NodeId};
use std::alloc::{AllocError, Global};
use std::process::Abort;
use std::test::Fail;

const SCRIPT: &str = "memory 1 2\nopen 0 3 5 0 0 0 0 0 0 0\nload 0 0 0\ndone 0\nlist 0\n\
    store 0 1 0 7\ndone 0\ntag 1 0\nresidents 0\nevict 0 1\ndone 0\n";

const TEXT: &str = "node 0 read 5 stamp 3\nline 0 FRESH 0: 0 ONLY_FRESH\nnode 0 wrote stamp 1\n\
    tag 1 0 ONLY_DIRTY forw - back -\nnode 0 residents 1 0\nnode 0 out\n";

/// What the same commands print behind a run of them.
const AGAIN: &str = "node 0 read 5 stamp 3\nline 0 FRESH 0: 0 ONLY_FRESH\nnode 0 wrote stamp 2\n\
    tag 1 0 ONLY_DIRTY forw - back -\nnode 0 residents 1 0\nnode 0 out\n";

fn reads(rt: &impl Abort, alloc: Global) -> Result<Script, Fail> {
    match read_script(alloc, SCRIPT.as_bytes()) {
        Ok(script) => Ok(script),
        Err(refusal) => {
            same(rt, &refusal, &ScriptRefusal::OutOfMemory);
            same(rt, &refusal.number(), &7);
            read_script(alloc, SCRIPT.as_bytes())?;
            Err(Fail::new("read_script answered 7"))
        }
    }
}

fn runs(rt: &impl Abort, alloc: Global, script: &Script) -> Result<(), Fail> {
    let Ok(mut desk) = WholeDesk::open(alloc, script) else {
        WholeDesk::open(alloc, script)?;
        return Err(Fail::new("open answered 7"));
    };
    let mut out = empty();
    match script.run(alloc, &mut desk, &mut out) {
        Ok(()) => {
            assert!(rt; out.text() == TEXT.as_bytes());
            performs(rt, alloc, script, &mut desk)
        }
        Err(refusal) => {
            same(rt, &refusal, &ScriptRefusal::OutOfMemory);
            assert!(rt; out.length < TEXT.len());
            assert!(rt; is_front(out.text(), TEXT.as_bytes()));
            Err(Fail::new("run answered 7"))
        }
    }
}

/// Each command of the script behind its run, one by one.
fn performs(
    rt: &impl Abort,
    alloc: Global,
    script: &Script,
    desk: &mut WholeDesk,
) -> Result<(), Fail>
    requires { desk.old.size ≡ script.now.size }
{
    let mut words = [0; NODES];
    let mut out = empty();
    for step in script.steps() {
        let mut text = String::new(alloc);
        let performed = perform(alloc, &mut text, desk, script.nodes(), &words, *step);
        if performed.is_err() {
            same(rt, &performed, &Err(ScriptRefusal::OutOfMemory));
            assert!(rt; is_front(out.text(), AGAIN.as_bytes()));
            return Err(Fail::new("perform answered 7"));
        }
        note(&mut words, size_of(script), step.command);
        assert!(rt; put(&mut out, text.as_bytes()).is_ok());
    }
    assert!(rt; out.text() == AGAIN.as_bytes());
    Ok(())
}

/// Texts of a list and of a tag.
const SHOWN: [(&str, &str); 2] = [
    ("line 0 FRESH 0: 0 ONLY_FRESH\n", "list_text answered 7"),
    ("tag 0 0 ONLY_FRESH forw - back -\n", "tag_text answered 7"),
];

fn shown(alloc: Global, call: &str) -> Result<String, AllocError> {
    let zero = node(0);
    let only = tag(Kind::Fresh, None, None);
    if call == "tag_text answered 7" {
        return tag_text(alloc, 0, zero, only);
    }
    let mem = Mem {
        state: MemState::Fresh,
        lent: false,
        forw: Some(zero),
    };
    list_text(alloc, 0, mem, &[(zero, only)])
}

fn shows(rt: &impl Abort, alloc: Global) -> Result<(), Fail> {
    for (wanted, told) in SHOWN {
        let Ok(text) = shown(alloc, told) else {
            same(rt, &shown(alloc, told)?.as_str(), &wanted);
            return Err(Fail::new(told));
        };
        same(rt, &text.as_str(), &wanted);
    }
    Ok(())
}

/// The node names these lines, where memory is had to say so.
fn has_named<D: Desk>(rt: &impl Abort, alloc: Global, desk: &D, node: NodeId, want: &[u16]) -> bool
    requires { node < (D.size desk.now).nodes }
{
    let Ok(Look::Residents { lines, .. }) = desk.look(alloc, Ask::Residents { node }) else {
        return false;
    };
    same(rt, &lines.as_slice(), &want);
    true
}

/// The node names these lines.
fn names<D: Desk>(
    rt: &impl Abort,
    alloc: Global,
    desk: &D,
    node: NodeId,
    want: &[u16],
) -> Result<(), Fail>
    requires { node < (D.size desk.now).nodes }
{
    if has_named(rt, alloc, desk, node, want) {
        return Ok(());
    }
    assert!(rt; has_named(rt, alloc, desk, node, want));
    Err(Fail::new("look answered 7"))
}

/// The first node of a desk that nobody has used begins a load.
fn begins<D: Desk>(
    rt: &impl Abort,
    alloc: Global,
    script: &Script,
    desk: &mut D,
) -> Result<(), Fail>
    requires { D.size desk.old ≡ script.now.size }
{
    let zero = node(0);
    if zero.get() >= script.nodes() || script.lines() == 0 || desk.open(zero) {
        return Err(Fail::new("it has no node that may begin"));
    }
    let load = Request::Load { line: 0 };
    if desk.begin(zero, load).is_err() {
        assert!(rt; !desk.open(zero));
        names(rt, alloc, desk, zero, &[])?;
        assert!(rt; desk.begin(zero, load).is_ok());
        return Err(Fail::new("begin answered 7"));
    }
    assert!(rt; desk.open(zero));
    names(rt, alloc, desk, zero, &[0])
}

/// The banks that a refused desk gives back are those of the script, and make a desk.
fn seats_again(rt: &impl Abort, alloc: Global, script: &Script, none: NoDesk<Unheard>) -> Fail {
    same(rt, &none.number(), &7);
    assert!(rt; are_banks(script, &none.banks));
    let Ok(desk) = BankDesk::new(alloc, script, none.banks) else {
        return Fail::new("new answered 7 twice");
    };
    assert!(rt; are_banks(script, &desk.into_banks()));
    Fail::new("new answered 7")
}

fn seats(rt: &impl Abort, alloc: Global, script: &Script) -> Result<(), Fail> {
    let mut banks = Vec::new(alloc);
    let Ok(bank) = unheard_bank(alloc, script.lines()) else {
        unheard_bank(alloc, script.lines())?;
        return Err(Fail::new("of_lines answered 7"));
    };
    if banks.push(bank).is_err() {
        return Err(Fail::new("push answered 7"));
    }
    if !are_banks(script, &banks) {
        return Err(Fail::new("they are not its banks"));
    }
    match BankDesk::new(alloc, script, banks) {
        Ok(mut desk) => {
            begins(rt, alloc, script, &mut desk)?;
            assert!(rt; are_banks(script, &desk.into_banks()));
            Ok(())
        }
        Err(none) => Err(seats_again(rt, alloc, script, none)),
    }
}

/// Growths: 7 of read_script, 11 of open, 20 of run, 20 of perform, 3 of list_text, 3 of tag_text,
/// 1 of of_lines, 1 of push, 3 of new, 5 of begin, 1 of look.
#[test]
fn refused_growths(rt: HostRuntime) -> Result<(), Fail> {
    let alloc = rt.alloc();
    let script = reads(&rt, alloc)?;
    same(&rt, &(script.nodes(), script.lines()), &(1, 2));
    same(&rt, &script.capacity(), &1024);
    runs(&rt, alloc, &script)?;
    shows(&rt, alloc)?;
    seats(&rt, alloc, &script)
}
