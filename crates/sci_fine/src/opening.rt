//! How a line is made, with its seats.
ghost use Rattle.std.specs.Prelude.{◌≡◌, ◌<◌, ◌≤◌, ◌⊎◌, ◌↔◌, ℕ, ◌+◌, Some, None, [], All, IfOk, replicate, set, vec_len, vec_capacity};
ghost use Rattle.sci_words.specs.Codes.{tag_code, mem_code};
ghost use Rattle.sci_words.specs.declared.memory.MemState.TheVariants.{Home};
ghost use Rattle.sci_core.specs.State.{invalid, memory_word};
ghost use Rattle.sci_core.specs.declared.pending.Pending.TheVariants.{Idle};
ghost use Rattle.sci_core.specs.declared.whole.TheConstants.{MOST_NODES};
ghost use Rattle.sci_port.specs.Readying.{no_receipts};
ghost use Rattle.sci_fine.specs.Rule.{lies_at};
ghost use Rattle.sci_fine.specs.Seats.{AreIdleFrom, AreNew, HasTerms, IsSeatOf};
ghost use Rattle.sci_fine.specs.Views.{first_view};

use crate::codes::lies_at;
use crate::line::FineLine;
use crate::seats::{Seat, Token};
use crate::standing::Standing;
use crate::views::{Apart, Terms};
use atomic_table::Table;
use sci_core::{Keeps, Line, MOST_NODES, OpenRefusal};
use sci_port::Receipts;
use sci_words::{Kind, LineNo, Mem, MemState, NodeId, Tag, write_mem, write_tag};
use std::alloc::{AllocError, Global};

// A seat in no step, without receipts.
fn idle_seat<K: Keeps>(alloc: Global, token: Token<K>, node: NodeId, terms: Terms<K>) -> Seat<K>
    requires of { token.me.0.of ≡ Some terms }
    requires view { (token.me.0.node ≡ node) × (token.me.0.pending ≡ Idle) × (token.me.0.joined ≡ terms.nodes) × (token.me.0.logs ≡ []) }
    requires hand { token.me.1 ≡ [] }
    requires below { node < terms.nodes }
    requires fits { K.fits terms.keep terms.number terms.opening.words }
    ensures token { result.token ≡ token }
    ensures standing { (result.standing.terms ≡ terms) × (result.standing.node ≡ node) × (result.standing.pending ≡ Idle) }
    ensures receipts { result.receipts ≡ no_receipts }
{
    Seat {
        token,
        standing: Standing::idle(terms, node),
        receipts: Receipts::new(alloc),
    }
}

// One of the first numbers is a node's.
fn node_of(number: u16) -> NodeId
    requires { number < MOST_NODES }
    ensures { result ≡ number }
{
    match NodeId::new(number) {
        Some(node) => node,
        None => unreachable!(),
    }
}

// The words of a line of this many nodes that nobody has used.
fn home_words(alloc: Global, nodes: u16) -> Result<Vec<u64>, AllocError>
    requires { nodes ≤ MOST_NODES }
    ensures { IfOk result (λ words. words.items ≡ set (replicate (lies_at (nodes + 1)) (tag_code invalid)) 0 (mem_code (memory_word Home None))) }
{
    let invalid = Tag {
        kind: Kind::Invalid,
        held: false,
        forw: None,
        back: None,
    };
    let home = Mem {
        state: MemState::Home,
        lent: false,
        forw: None,
    };
    let count = lies_at(usize::from(nodes) + 1);
    let mut words = vec![in alloc; write_tag(invalid); count]?;
    words[0] = write_mem(home);
    Ok(words)
}

impl<K: Keeps> FineLine<K> {
    /// A line that nobody has used, HOME, with `line` in every slot, and its seats, node i's at place i, without receipts. The refusals: 6 for
    /// 0 or more than 1,024 nodes, then 7 where memory ran out.
    pub fn new(
        alloc: Global,
        nodes: u16,
        number: LineNo,
        line: Line,
        keep: K,
    ) -> Result<(FineLine<K>, Vec<Seat<K>>), OpenRefusal>
        requires { K.fits keep number line.words }
        ensures nodes { (result ≡ Err OpenRefusal.BadNodes) ↔ ((nodes ≡ 0) ⊎ (MOST_NODES < nodes)) }
        ensures terms { IfOk result (λ r. HasTerms r.0 nodes number line keep) }
        ensures seats { IfOk result (λ r. (vec_len r.1 ≡ nodes) × AreIdleFrom r.0 0 r.1.items) }
        ensures new { IfOk result (λ r. AreNew r.1.items) }
        ensures own { IfOk result (λ r. All (λ s. IsSeatOf r.0 s) r.1.items) }
        ensures rest { IfOk result (λ r. All (λ s. s.standing.pending ≡ Idle) r.1.items) }
    {
        if nodes == 0 || nodes > MOST_NODES {
            return Err(OpenRefusal::BadNodes);
        }
        let terms = Terms {
            nodes,
            number,
            opening: line,
            keep,
        };
        let mut seats = Vec::with_capacity(alloc, usize::from(nodes))?;
        let Ok((line, root)) = FineLine::open(alloc, terms) else {
            return Err(OpenRefusal::OutOfMemory);
        };
        line.seat_all(alloc, root, &mut seats);
        Ok((line, seats))
    }

    // A line that nobody has used, and the token of its first seat.
    fn open(alloc: Global, terms: Terms<K>) -> Result<(FineLine<K>, Token<K>), AllocError>
        requires fits { K.fits terms.keep terms.number terms.opening.words }
        requires nodes { (0 < terms.nodes) × (terms.nodes ≤ MOST_NODES) }
        ensures { IfOk result (λ r. (r.0.terms ≡ terms) × (r.1.table_id ≡ r.0.table.shared.table_id) × (r.1.me ≡ (first_view terms, []))) }
    {
        let words = home_words(alloc, terms.nodes)?;
        let slots = vec![in alloc; terms.opening; usize::from(terms.nodes) + 1]?;
        let Ok((table, root)) = Table::new(alloc, words.as_slice(), slots, &terms) else {
            return Err(AllocError);
        };
        Ok((FineLine { table, terms }, root))
    }

    // Makes all seats, in room that was taken before.
    fn seat_all(&self, alloc: Global, mut root: Token<K>, seats: &mut Vec<Seat<K>>)
        requires of { root.table_id ≡ self.now.table.shared.table_id }
        requires view { root.me ≡ (first_view self.now.terms, []) }
        requires fits { K.fits self.now.terms.keep self.now.terms.number self.now.terms.opening.words }
        requires room { (seats.old.items ≡ []) × (vec_len seats.old ≡ 0) × (self.now.terms.nodes ≤ vec_capacity seats.old) }
        ensures len { vec_len seats.new ≡ self.now.terms.nodes }
        ensures seats { AreIdleFrom self.now 0 seats.new.items }
        ensures new { AreNew seats.new.items }
    {
        for number in 1..self.terms.nodes {
            let token = self.table.shared.split_seat::<Apart>(&mut root);
            seats.push_reserved(idle_seat(alloc, token, node_of(number), self.terms));
        }
        let first = idle_seat(alloc, root, node_of(0), self.terms);
        if seats.insert(0, first).is_err() {
            unreachable!();
        }
    }
}
