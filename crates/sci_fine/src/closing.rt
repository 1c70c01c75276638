//! How a line is closed, and its seats with it.
ghost use Rattle.std.specs.Global.{Vec};
ghost use Rattle.std.specs.Prelude.{◌≡◌, ℕ, ◌↔◌, ◌+◌, ◌<◌, ◌≤◌, Some, List, [], ◌∷◌, length, map, All, IsTrue, IfOk, IfErr, vec_len, vec_capacity};
ghost use Rattle.sci_core.specs.declared.whole.TheConstants.{MOST_NODES};
ghost use Rattle.sci_port.specs.declared.calls.Call as a_call;
ghost use Rattle.std.specs.Slots.{slots_items, slots_len, IsFull};
ghost use Rattle.sci_core.specs.declared.pending.Pending.TheVariants.{Idle};
ghost use Rattle.sci_core.specs.declared.receipts.Receipt as a_receipt;
ghost use Rattle.sci_fine.specs.Banks.{IsOnePerNode, IsRightRefusal};
ghost use Rattle.sci_fine.specs.Seats.{AreIdleFrom, IsSeatOf, logs_of};
ghost use Rattle.sci_fine.specs.Rule.{lies_at};
ghost use Rattle.sci_fine.specs.Ends.{IsEnd, IsAtRest};
ghost use Rattle.sci_fine.specs.Kept.{IsFinished, lists_of};

use crate::codes::lies_at;
use crate::line::FineLine;
use crate::seats::{Seat, Token};
use crate::views::{Terms, Together};
use sci_core::{Closed, Keeps, Line, Receipt};
use sci_port::{Finished, are_one_per_node, room_for};
use sci_words::{LineNo, Tag, read_mem, read_tag};
use std::alloc::{AllocError, Global};

/// A line that was not closed. The line and the seats come back as they were.
pub type FinishRefusal<K> = sci_port::FinishRefusal<FineLine<K>, Seat<K>>;

// Reads the words and takes the lines of a table that nobody shares any more.
fn read_out<K: Keeps>(
    mut table: atomic_table::Closed<Line, Global>,
    terms: Terms<K>,
    mut tags: Vec<Tag>,
    mut lines: Vec<Line>,
) -> Closed
    requires nodes { terms.nodes ≤ MOST_NODES }
    requires counts { (slots_len table.words ≡ lies_at (terms.nodes + 1)) × (slots_len table.slots ≡ terms.nodes + 1) }
    requires full { IsFull table.words × IsFull table.slots }
    requires rest { (logs : List (List (ℕ × a_call.Call))) × IsAtRest K.fits terms logs (slots_items table.words) (slots_items table.slots) }
    requires room { (vec_len tags ≡ 0) × (vec_len lines ≡ 0) × (terms.nodes ≤ vec_capacity tags) × (terms.nodes ≤ vec_capacity lines) }
    ensures { (logs : List (List (ℕ × a_call.Call))) → IsAtRest K.fits terms logs (slots_items table.words) (slots_items table.slots) → IsEnd K.fits terms logs result }
{
    let mem = match read_mem(table.word(0)) {
        Ok(mem) => mem,
        Err(_) => unreachable!(),
    };
    let memory = table.take(0);
    for node in 0..usize::from(terms.nodes) {
        let tag = match read_tag(table.word(lies_at(node + 1))) {
            Ok(tag) => tag,
            Err(_) => unreachable!(),
        };
        tags.push_reserved(tag);
        lines.push_reserved(table.take(node + 1));
    }
    table.free();
    Closed {
        mem,
        memory,
        tags,
        lines,
    }
}

impl<K: Keeps> FineLine<K> {
    /// The line as it stands once nobody uses it any more: an exact sharing list, and what each seat kept. The seats are to be of
    /// this very line, and Idle. Where each has kept all, the receipts are one history of the line, whole. The refusals: 9 where
    /// they are not one per node in order with this line's number, then 7 where memory ran out. Both hand the line and the seats
    /// back, with their receipts.
    pub fn finish(self, alloc: Global, seats: Vec<Seat<K>>) -> Result<Finished, FinishRefusal<K>>
        requires seats { All (λ s. IsSeatOf self s) seats.items }
        requires rest { All (λ s. s.standing.pending ≡ Idle) seats.items }
        ensures seats { IfOk result (λ _. IsOnePerNode self seats.items) }
        ensures ok { IfOk result (λ f. IsFinished K.fits self.terms seats.items f.closed (map (λ (v : Vec a_receipt.Receipt). v.items) f.receipts.items)) }
        ensures err { IfErr result (λ e. (e.line ≡ self) × (e.seats ≡ seats) × IsRightRefusal self seats.items e.refusal) }
    {
        if !are_one_per_node(&self, &seats) {
            return Err(sci_port::FinishRefusal {
                line: self,
                seats,
                refusal: 9,
            });
        }
        let Ok((tags, lines, lists)) = room_for(alloc, self.terms.nodes) else {
            return Err(sci_port::FinishRefusal {
                line: self,
                seats,
                refusal: 7,
            });
        };
        let terms = self.terms;
        let (root, receipts) = self.join_all(seats, lists);
        Ok(Finished {
            closed: read_out(self.lay_open(root), terms, tags, lines),
            receipts,
        })
    }

    // Joins all seats to the first, and moves out the receipts of each.
    fn join_all(
        &self,
        mut seats: Vec<Seat<K>>,
        mut lists: Vec<Vec<Receipt>>,
    ) -> (Token<K>, Vec<Vec<Receipt>>)
        requires seats { AreIdleFrom self.now 0 seats.items }
        requires len { vec_len seats ≡ self.now.terms.nodes }
        requires room { (lists.items ≡ []) × (self.now.terms.nodes ≤ vec_capacity lists) }
        ensures of { (result.0.table_id ≡ self.now.table.shared.table_id) × (result.0.me.0.of ≡ Some self.now.terms) }
        ensures view { (result.0.me.0.node ≡ 0) × (result.0.me.0.joined ≡ 1) × (result.0.me.0.pending ≡ Idle) }
        ensures logs { result.0.me.0.log ∷ result.0.me.0.logs ≡ logs_of seats.items }
        ensures lists { map (λ (v : Vec a_receipt.Receipt). v.items) result.1.items ≡ lists_of seats.items }
    {
        let Seat {
            token: mut root,
            standing: _,
            receipts: first,
        } = seats.remove(0);
        while let Some(seat) = seats.pop() {
            let Seat {
                token,
                standing: _,
                receipts,
            } = seat;
            self.table.shared.join_seat::<Together>(&mut root, token);
            lists.push_reserved(receipts.into_vec());
        }
        lists.push_reserved(first.into_vec());
        lists.reverse();
        (root, lists)
    }

    // The table after the last step.
    fn lay_open(self, root: Token<K>) -> atomic_table::Closed<Line, Global>
        requires of { (root.table_id ≡ self.table.shared.table_id) × (root.me.0.of ≡ Some self.terms) }
        requires view { (root.me.0.node ≡ 0) × (root.me.0.joined ≡ 1) × (root.me.0.pending ≡ Idle) }
        requires logs { length (root.me.0.log ∷ root.me.0.logs) ≡ self.terms.nodes }
        ensures counts { (slots_len result.words ≡ lies_at (self.terms.nodes + 1)) × (slots_len result.slots ≡ self.terms.nodes + 1) }
        ensures full { IsFull result.words × IsFull result.slots }
        ensures rest { IsAtRest K.fits self.terms (root.me.0.log ∷ root.me.0.logs) (slots_items result.words) (slots_items result.slots) }
    {
        let FineLine { table, terms: _ } = self;
        table.close_with(root)
    }
}
