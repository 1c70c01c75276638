//! How a line is closed, and its seats with it.
ghost use Rattle.std.specs.Global.{Vec};
ghost use Rattle.std.specs.Prelude.{◌≡◌, ℕ, ◌↔◌, ◌<◌, ◌≤◌, Some, false, All, IsTrue, IfOk, IfErr, [], map, vec_len, vec_capacity};
ghost use Rattle.sci_core.specs.declared.pending.Pending.TheVariants.{Idle};
ghost use Rattle.sci_core.specs.declared.receipts.Receipt as a_receipt;
ghost use Rattle.sci_core.specs.Whole.{nodes_of, state_of};
ghost use Rattle.sci_coarse.specs.Rule.{IsOn, IsLawfulWhole};
ghost use Rattle.sci_coarse.specs.Banks.{IsOnePerNode, IsRightRefusal};
ghost use Rattle.sci_coarse.specs.Seats.{AreIdleFrom, IsSeatOf};
ghost use Rattle.sci_coarse.specs.Ends.{IsRun, KeepsLogs};
ghost use Rattle.sci_coarse.specs.Kept.{IsFinished, lists_of};

use crate::line::CoarseLine;
use crate::seats::{Seat, Token};
use crate::views::Together;
use sci_core::{Closed, Keeps, Line, Receipt, Whole};
use sci_port::{Finished, are_one_per_node, room_for};
use sci_words::{LineNo, Tag};
use std::alloc::{AllocError, Global};

/// A line that was not closed. The line and the seats come back as they were.
pub type FinishRefusal<K> = sci_port::FinishRefusal<CoarseLine<K>, Seat<K>>;

impl<K: Keeps> CoarseLine<K> {
    /// The line as it stands once nobody uses it any more: an exact sharing list, and what each seat kept. The seats are to be of
    /// this very line, and Idle. Where each has kept all, the receipts are one history of the line, whole. The refusals: 9 where
    /// they are not one per node in order with this line's number, then 7 where memory ran out. Both hand the line and the seats
    /// back, with their receipts.
    pub fn finish(self, alloc: Global, seats: Vec<Seat<K>>) -> Result<Finished, FinishRefusal<K>>
        requires seats { All (λ s. IsSeatOf self s) seats.items }
        requires rest { All (λ s. s.standing.pending ≡ Idle) seats.items }
        ensures seats { IfOk result (λ _. IsOnePerNode self seats.items) }
        ensures ok { IfOk result (λ f. IsFinished K.fits self.terms seats.items f.closed (map (λ (v : Vec a_receipt.Receipt). v.items) f.receipts.items)) }
        ensures err { IfErr result (λ e. (e.line ≡ self) × (e.seats ≡ seats) × IsRightRefusal self seats.items e.refusal) }
    {
        if !are_one_per_node(&self, &seats) {
            return Err(sci_port::FinishRefusal {
                line: self,
                seats,
                refusal: 9,
            });
        }
        let Ok((tags, lines, lists)) = room_for(alloc, self.terms.nodes) else {
            return Err(sci_port::FinishRefusal {
                line: self,
                seats,
                refusal: 7,
            });
        };
        let (root, receipts) = self.join_all(seats, lists);
        let whole = self.lay_open(root);
        Ok(Finished {
            closed: whole.closed_in(tags, lines),
            receipts,
        })
    }

    // Joins all seats to the first, and moves out the receipts of each.
    fn join_all(
        &self,
        mut seats: Vec<Seat<K>>,
        mut lists: Vec<Vec<Receipt>>,
    ) -> (Token<K>, Vec<Vec<Receipt>>)
        requires seats { AreIdleFrom self.now 0 seats.items }
        requires len { vec_len seats ≡ self.now.terms.nodes }
        requires room { (lists.items ≡ []) × (self.now.terms.nodes ≤ vec_capacity lists) }
        ensures of { (result.0.table_id ≡ self.now.table.shared.table_id) × (result.0.me.0.of ≡ Some self.now.terms) }
        ensures view { (result.0.me.0.node ≡ 0) × (result.0.me.0.joined ≡ 1) × (result.0.me.0.pending ≡ Idle) × (result.0.me.0.holds ≡ false) }
        ensures logs { KeepsLogs seats.items result.0.me.0 }
        ensures lists { map (λ (v : Vec a_receipt.Receipt). v.items) result.1.items ≡ lists_of seats.items }
    {
        let Seat {
            token: mut root,
            node: _,
            standing: _,
            receipts: first,
        } = seats.remove(0);
        while let Some(seat) = seats.pop() {
            let Seat {
                token,
                node: _,
                standing: _,
                receipts,
            } = seat;
            self.table.shared.join_seat::<Together>(&mut root, token);
            lists.push_reserved(receipts.into_vec());
        }
        lists.push_reserved(first.into_vec());
        lists.reverse();
        (root, lists)
    }

    // The whole line, after the last region.
    fn lay_open(self, root: Token<K>) -> Whole<K>
        requires of { (root.table_id ≡ self.table.shared.table_id) × (root.me.0.of ≡ Some self.terms) }
        requires view { (root.me.0.node ≡ 0) × (root.me.0.joined ≡ 1) × (root.me.0.pending ≡ Idle) × (root.me.0.holds ≡ false) }
        ensures on { IsOn self.terms result }
        ensures lawful { IsLawfulWhole K.fits result }
        ensures idle { (i : ℕ) → i < nodes_of result → (state_of result).steps i ≡ Idle }
        ensures run { IsRun K.fits self.terms root.me.0 result }
    {
        let CoarseLine { table, terms: _ } = self;
        let mut closed = table.close_with(root);
        let whole = closed.take(0);
        closed.free();
        whole
    }
}
