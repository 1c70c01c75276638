//! A bank to which no line is ever to be had.
ghost use Rattle.std.specs.Prelude.{◌≡◌, length, IfOk};
ghost use Rattle.sci_core.specs.declared.pending.Pending.TheVariants.{Idle};
ghost use Rattle.sci_port.specs.Owes.{Owes};
ghost use Rattle.sci_port.specs.Readying.{ChangesAt, Readies, receipts_at};
ghost use Rattle.sci_port.specs.ReceiptList.{ReceivesIfRoom};

use crate::banks::run_over;
use crate::checks::same_at;
use crate::texts::node;
use sci_core::{AnyWords, Event, Outcome, Pending, Stage};
use sci_port::{Bank, Receipts};
use sci_script::{ScriptRefusal, read_script};
use sci_words::{LineNo, Mem, NodeId, Tag};
use std::alloc::{AllocError, Global};
use std::test::Fail;

/// Another has each line for ever: no load is had, and no step is done.
#[derive(Drop)]
pub struct Unheard {
    lines: u16,
    step: Pending,
    receipts: Vec<Receipts>,
    ghost idle: { step ≡ Idle },
    ghost count: { length receipts.items ≡ lines },
}

impl Bank for Unheard {
    type Keep = AnyWords;

    ghost way = { λ b. record { node = 0; lines = b.lines } };

    ghost nodes_on = { λ _ _. 1 };

    ghost keep = { λ _. record {} };

    ghost at_step = { λ b _. b.step };

    ghost receipts = { λ b line. receipts_at b.receipts.items line };

    ghost gives = { λ b line call t. (t.lines ≡ b.lines) × (t.step ≡ b.step) × Owes 1 (λ _. Unit {0}) 0 b.step call t.step × ChangesAt (ReceivesIfRoom b.step call) (λ m. receipts_at b.receipts.items m) line (λ m. receipts_at t.receipts.items m) };

    ghost readies = { λ b line r t. (t.lines ≡ b.lines) × (t.step ≡ b.step) × ChangesAt (Readies r) (λ m. receipts_at b.receipts.items m) line (λ m. receipts_at t.receipts.items m) };

    ghost same_way = { λ b line call t h i. record { node = 0; lines = h.0 i } };

    ghost same_nodes = { λ _ _ _ _ _ _ _. 1 };

    ghost same_fact = { λ _ _ _ _ _ _. record {} };

    ghost others = { λ b line call t h m other. h.1 };

    ghost owes = { λ b line call t h. h.2 };

    ghost receives = { λ b line call t h. h.3 };

    ghost readied = { λ b line r t h. (λ i. record { node = 0; lines = h.0 i }, λ _ _. 1, λ _. record {}, λ _. h.1, h.2) };

    fn node(&self) -> NodeId {
        node(0)
    }

    fn lines(&self) -> u16 {
        self.lines
    }

    fn nodes(&self, _line: LineNo) -> u16 {
        1
    }

    fn number(&self, line: LineNo) -> LineNo {
        line
    }

    #[tactic(auto, using(sci_script::proofs::Unheard::idle_sound))]
    fn pending(&self, _line: LineNo) -> Pending {
        self.step
    }

    #[tactic(auto, using(sci_script::proofs::Unheard::idle_sound))]
    fn stage(&self, _line: LineNo) -> Stage {
        self.step.stage()
    }

    fn own(&mut self, _line: LineNo) -> Option<Tag> {
        None
    }

    fn mem(&mut self, _line: LineNo) -> Option<Mem> {
        None
    }

    fn tag(&mut self, _line: LineNo, _node: NodeId) -> Option<Tag> {
        None
    }

    #[tactic(auto, using(sci_script::proofs::Unheard::busy_row, sci_script::proofs::Unheard::owes_busy, sci_script::proofs::Unheard::keeps_busy))]
    fn step(&mut self, _line: LineNo, _event: Event) -> Outcome {
        Outcome::Busy
    }

    fn reserve(&mut self, line: LineNo, n: usize) -> Result<(), AllocError> {
        let receipts = self.receipts.as_mut_slice();
        receipts[usize::from(line)].reserve(n)
    }

    fn room(&self, line: LineNo) -> usize {
        self.receipts[usize::from(line)].room()
    }

    fn last_passed(&self, line: LineNo) -> bool {
        self.receipts[usize::from(line)].last_passed()
    }

    fn aim(&mut self, line: LineNo, passing: bool) {
        let receipts = self.receipts.as_mut_slice();
        receipts[usize::from(line)].aim(passing);
    }
}

/// A bank of so many lines.
pub(crate) fn unheard_bank(alloc: Global, lines: u16) -> Result<Unheard, AllocError> {
    let receipts = Receipts::of_lines(alloc, usize::from(lines))?;
    Ok(Unheard {
        lines,
        step: Pending::Idle,
        receipts,
    })
}

#[test]
fn words_never_had_are_18(rt: HostRuntime) -> Result<(), Fail> {
    for (text, line) in [
        ("memory 1 1\nlist 0\n", 2),
        ("memory 1 1\n\ntag 0 0\n", 3),
        ("memory 1 2\nload 0 1 0\ndone 0\n", 3),
    ] {
        let mut out = Vec::new(rt.alloc());
        let script = read_script(rt.alloc(), text.as_bytes())?;
        let banks = vec![in rt.alloc(); unheard_bank(rt.alloc(), script.lines())?]?;
        let end = run_over(rt.alloc(), &script, banks, &mut out).ok_or("no desk")?;
        same_at(&rt, &text, &end, &Err(ScriptRefusal::NotDone(line)));
        assert!(rt; out.is_empty());
    }
    Ok(())
}
