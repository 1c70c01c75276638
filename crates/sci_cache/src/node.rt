//! Nodes.
ghost use Rattle.std.specs.Prelude.{◌≡◌, ◌≢◌, ◌<◌, ◌≤◌, ◌⊎◌, ◌↔◌, ℕ, Some, None, Ok, Err, length, true, false, is_some, [], IfOk, IfErr, IfSome, OnOk, OnErr, IsOk};
ghost use Rattle.sci_port.specs.KeepsAll.{IsReadied};
ghost use Rattle.sci_ops.specs.Change.{StoresFitting};
ghost use Rattle.sci_ops.specs.declared.goals.Goal.{Goal};
ghost use Rattle.sci_cache.specs.Called.{AreReadyFor, HasNoNeed, IsProvidedFor, IsSameButRoom, KeepsTurnOf, LeavesBut, LeavesOthers, most_needed, need_on};
ghost use Rattle.sci_cache.specs.declared.refusals.NodeRefusal.{NodeRefusal};
ghost use Rattle.sci_cache.specs.Requests.{line_of, goal_of, is_evict};
ghost use Rattle.sci_cache.specs.Residents.{is_resident};

use crate::calls::OpenCall;
use crate::ports::{need_at, turn_at};
use crate::readying::{aim_at, reserve_at, reserve_out};
use crate::refusals::NodeRefusal;
use crate::requests::Request;
use crate::tables::{last_of_full, make_recent, renew, take_out};
use lru::LruCache;
use sci_core::Line;
use sci_ops::{Goal, Turn};
use sci_port::Bank;
use sci_words::{LineNo, NodeId};
use std::alloc::{AllocError, Global};
use std::marker::Model;
use std::num::NonZeroUsize;

/// A node with a bounded cache: a table of the lines that it has used, and its open call.
#[derive(Drop)]
pub struct Node {
    id: NodeId,
    lines: u16,
    keeps: bool,
    table: LruCache<LineNo, ()>,
    call: Option<OpenCall>,
}

impl Model for Node {
    ghost use Rattle.std.specs.Map.{keys_of};
    ghost use Rattle.sci_cache.specs.Nodes.{NodeState, node_state, IsSoundNode};

    ghost Value = { NodeState };

    ghost view = { λ n. node_state n.id n.lines n.table.cap n.keeps (keys_of n.table.entries) n.call };

    ghost invariant = { λ n. IsSoundNode (node_state n.id n.lines n.table.cap n.keeps (keys_of n.table.entries) n.call) };
}

impl Node {
    ghost use Rattle.sci_core.specs.declared.pending.Pending.TheVariants.{Idle};
    ghost use Rattle.sci_cache.specs.Nodes.{node_state, refusal_of, IsLine, IsRefused, IsSoundCall, call_with, victim_with, node_used, node_closed, node_with, TurnsBy, line_by, ShowsAnswerTo, IsIdleBut, IsSameNode};

    /// A node of a memory of so many lines, which names up to `capacity` of them and has used none. Its calls make room for their
    /// receipts. The refusals: 13 for a capacity of 0 or more than 1,024, then 7.
    pub fn new(alloc: Global, id: NodeId, lines: u16, capacity: u16) -> Result<Node, NodeRefusal>
        ensures capacity { (result ≡ Err NodeRefusal.BadCapacity) ↔ ((capacity ≡ 0) ⊎ (1024 < capacity)) }
        ensures refused { IfErr result (λ e. (e ≡ NodeRefusal.BadCapacity) ⊎ (e ≡ NodeRefusal.OutOfMemory)) }
        ensures made { IfOk result (λ n. n ≡ node_state id lines capacity true [] None) }
    {
        if capacity > 1024 {
            return Err(NodeRefusal::BadCapacity);
        }
        let Some(bound) = NonZeroUsize::new(usize::from(capacity)) else {
            return Err(NodeRefusal::BadCapacity);
        };
        let Ok(table) = LruCache::sparse(alloc, bound) else {
            return Err(NodeRefusal::OutOfMemory);
        };
        Ok(Node {
            id,
            lines,
            keeps: true,
            table,
            call: None,
        })
    }

    /// The same node, which keeps no receipts: its calls make no room for them, and leave the marks. Where there is no room already
    /// none is kept, and none takes memory. What calls promise of receipts is promised of other nodes alone.
    pub fn without_receipts(self) -> Node
        ensures { result ≡ record self { keeps = false } }
    {
        let mut node = self;
        node.keeps = false;
        node
    }

    /// The node.
    pub fn id(&self) -> NodeId
        ensures { result ≡ self.now.id }
    {
        self.id
    }

    /// A call is open.
    pub fn open(&self) -> bool
        ensures { result ≡ is_some self.now.call }
    {
        self.call.is_some()
    }

    /// The call that is open. The line at work is one of the memory's.
    pub fn open_call(&self) -> Option<OpenCall>
        ensures call { result ≡ self.now.call }
        ensures below { IfSome result (λ c. line_by c.victim c.line < self.now.lines) }
    {
        let open = self.call;
        open
    }

    /// Opens a call, over the node's bank. A request other than Evict makes its line the most recent; where it is new and the table
    /// full, the last leaves the table and becomes the victim. Unless the node keeps no receipts, it makes room for those of the
    /// request and of the victim's exit before that, and sets the marks behind it. The refusals: 14, 12, 10, then 7, which may have
    /// raised the room; none changes anything else. An eviction, and a line that the table names, take memory only where there is
    /// less room than they need.
    #[inline(always)]
    pub fn begin<B: Bank>(&mut self, bank: &mut B, request: Request) -> Result<(), NodeRefusal>
        requires node { (B.way bank.old).node ≡ self.old.id }
        requires lines { (B.way bank.old).lines ≡ self.old.lines }
        ensures refused { IfErr result (IsRefused self.old request) }
        ensures accepted { OnOk result (refusal_of self.old request ≡ None) }
        ensures begun { OnOk result (self.new ≡ node_with self.old request) }
        ensures same { OnErr result (self.new ≡ self.old) }
        ensures same_node { IsSameNode self.old self.new }
        ensures succeeds { refusal_of self.old request ≡ None → (is_evict request ≡ true) ⊎ (is_resident (line_of request) self.old.residents ≡ true) → HasNoNeed self.old.keeps request (B.receipts bank.old (line_of request)) → IsOk result }
        ensures readied { IsReadied B.readies bank.old bank.new }
        ensures kept { IfErr result (λ e. LeavesBut B.receipts e bank.old bank.new) }
        ensures provided { self.old.keeps ≡ true → OnOk result (IsProvidedFor self.new.call (B.at_step bank.new) (B.receipts bank.new)) }
        ensures needs { self.old.keeps ≡ true → OnOk result ((m : ℕ) → need_on self.new.call (B.at_step bank.new) (B.receipts bank.new) m ≤ (B.receipts bank.new m).room) }
        ensures others { LeavesOthers B.receipts self.old request bank.old bank.new }
        ensures unready { self.old.keeps ≡ false → bank.new ≡ bank.old }
        ensures same_way { B.way bank.new ≡ B.way bank.old }
        ensures same_nodes { (m : ℕ) → B.nodes_on bank.new m ≡ B.nodes_on bank.old m }
        ensures same_fact { B.keep bank.new ≡ B.keep bank.old }
        ensures same_steps { (m : ℕ) → B.at_step bank.new m ≡ B.at_step bank.old m }
    {
        if let Some(refusal) = self.refusal(&request) {
            return Err(refusal);
        }
        let Ok(victim) = self.enter(bank, &request) else {
            return Err(NodeRefusal::OutOfMemory);
        };
        let line = request.line();
        let Ok(goal) = request.goal() else {
            unreachable!()
        };
        self.call = Some(OpenCall { line, goal, victim });
        Ok(())
    }

    /// For how many receipts the open call needs room on the line until its end, with the mark set there: its operation on its own
    /// line, an eviction on the victim's. 0 on any other, and where no call is open.
    pub fn need<B: Bank>(&self, bank: &mut B, line: LineNo) -> usize
        requires lines { (B.way bank.old).lines ≡ self.now.lines }
        ensures need { result ≡ need_on self.now.call (B.at_step bank.old) (B.receipts bank.old) line }
        ensures same { bank.new ≡ bank.old }
    {
        let Some(call) = &self.call else {
            return 0;
        };
        if call.line == line {
            return need_at(bank, line, &call.goal);
        }
        if call.victim == Some(line) {
            return need_at(bank, line, &Goal::Evict);
        }
        0
    }

    // Why a request is refused, but for want of memory: 14, 12, 10.
    #[inline(always)]
    pub(crate) fn refusal(&self, request: &Request) -> Option<NodeRefusal>
        ensures { result ≡ refusal_of self.now request.now }
    {
        if self.call.is_some() {
            return Some(NodeRefusal::CallOpen);
        }
        if request.line() >= self.lines {
            return Some(NodeRefusal::BadLine);
        }
        let Ok(_) = request.goal() else {
            return Some(NodeRefusal::BadWord);
        };
        None
    }

    // Makes the line of a request that nothing else stands against the most recent: the line that this puts out. Where the node keeps
    // receipts, first with room for those of the request and of the eviction of that line, and then with their marks.
    #[inline(always)]
    pub(crate) fn enter<B: Bank>(
        &mut self,
        bank: &mut B,
        request: &Request,
    ) -> Result<Option<LineNo>, AllocError>
        requires lines { (B.way bank.old).lines ≡ self.old.lines }
        requires accepted { refusal_of self.old request.now ≡ None }
        ensures victim { IfOk result (λ v. v ≡ victim_with self.old request.now) }
        ensures inside { OnOk result (IsLine self.old.lines (victim_with self.old request.now)) }
        ensures used { OnOk result (self.new ≡ node_used self.old request.now) }
        ensures same { OnErr result (self.new ≡ self.old) }
        ensures same_node { IsSameNode self.old self.new }
        ensures succeeds { (is_evict request.now ≡ true) ⊎ (is_resident (line_of request.now) self.old.residents ≡ true) → HasNoNeed self.old.keeps request.now (B.receipts bank.old (line_of request.now)) → IsOk result }
        ensures readied { IsReadied B.readies bank.old bank.new }
        ensures kept { OnErr result ((m : ℕ) → IsSameButRoom (B.receipts bank.old m) (B.receipts bank.new m)) }
        ensures ready { self.old.keeps ≡ true → OnOk result (AreReadyFor request.now (victim_with self.old request.now) (B.receipts bank.new)) }
        ensures others { LeavesOthers B.receipts self.old request.now bank.old bank.new }
        ensures unready { self.old.keeps ≡ false → bank.new ≡ bank.old }
    {
        if !self.keeps {
            return self.put_in(request);
        }
        let line = request.line();
        reserve_at(bank, line, request.most_needed())?;
        let victim = self.put_in_with_room(bank, request)?;
        aim_at(bank, line, request.passes(), victim);
        Ok(victim)
    }

    // The same, of the table alone, with room for the eviction.
    #[inline(always)]
    fn put_in_with_room<B: Bank>(
        &mut self,
        bank: &mut B,
        request: &Request,
    ) -> Result<Option<LineNo>, AllocError>
        requires lines { (B.way bank.old).lines ≡ self.old.lines }
        requires line { line_of request.now < self.old.lines }
        ensures victim { IfOk result (λ v. v ≡ victim_with self.old request.now) }
        ensures inside { OnOk result (IsLine self.old.lines (victim_with self.old request.now)) }
        ensures used { OnOk result (self.new ≡ node_used self.old request.now) }
        ensures same { OnErr result (self.new ≡ self.old) }
        ensures same_node { IsSameNode self.old self.new }
        ensures succeeds { (is_evict request.now ≡ true) ⊎ (is_resident (line_of request.now) self.old.residents ≡ true) → IsOk result }
        ensures readied { IsReadied B.readies bank.old bank.new }
        ensures same_receipts { (m : ℕ) → IsSameButRoom (B.receipts bank.old m) (B.receipts bank.new m) }
        ensures room { IfOk result (λ v. IfSome v (λ w. most_needed Goal.Evict ≤ (B.receipts bank.new w).room)) }
        ensures others { LeavesOthers B.receipts self.old request.now bank.old bank.new }
    {
        if request.is_evict() {
            return Ok(None);
        }
        let line = request.line();
        if renew(&mut self.table, line) {
            return Ok(None);
        }
        reserve_out(bank, last_of_full(&self.table))?;
        make_recent(&mut self.table, line)
    }

    // The same, of the table alone, without any room.
    #[inline(always)]
    fn put_in(&mut self, request: &Request) -> Result<Option<LineNo>, AllocError>
        requires line { line_of request.now < self.old.lines }
        ensures victim { IfOk result (λ v. v ≡ victim_with self.old request.now) }
        ensures inside { OnOk result (IsLine self.old.lines (victim_with self.old request.now)) }
        ensures used { OnOk result (self.new ≡ node_used self.old request.now) }
        ensures same { OnErr result (self.new ≡ self.old) }
        ensures same_node { IsSameNode self.old self.new }
        ensures succeeds { (is_evict request.now ≡ true) ⊎ (is_resident (line_of request.now) self.old.residents ≡ true) → IsOk result }
    {
        if request.is_evict() {
            return Ok(None);
        }
        let line = request.line();
        if renew(&mut self.table, line) {
            return Ok(None);
        }
        make_recent(&mut self.table, line)
    }

    // Ends a call that was never opened: an eviction takes its line out.
    #[inline(always)]
    pub(crate) fn close(&mut self, request: &Request)
        ensures closed { self.new ≡ node_closed self.old request.now }
        ensures same_node { IsSameNode self.old self.new }
    {
        if request.is_evict() {
            take_out(&mut self.table, request.line());
        }
    }

    /// One turn of the open call: of the victim's eviction, as long as there is one, whose end is Moved, and then of the
    /// request's operation. At the end of an eviction its line leaves the table. Where the line at work has the mark and the room
    /// that it needs, the turn keeps its receipts, as `Goal::turn`. Refusal 15 where no call is open, and only there.
    #[inline(always)]
    pub fn turn<B: Bank>(&mut self, bank: &mut B) -> Result<Turn, NodeRefusal>
        requires node { (B.way bank.old).node ≡ self.old.id }
        requires lines { (B.way bank.old).lines ≡ self.old.lines }
        requires fits { IfSome self.old.call (λ c. StoresFitting (B.Keep.fits (B.keep bank.old) c.line) c.goal) }
        ensures turns { TurnsBy B.gives B.at_step self.old self.old.call bank.old result bank.new self.new }
        ensures below { IfSome self.old.call (λ c. line_by c.victim c.line < self.old.lines) }
        ensures same_node { IsSameNode self.old self.new }
        ensures content { IfSome self.old.call (λ c. IfOk result (λ turn. ShowsAnswerTo (B.Keep.fits (B.keep bank.old) c.line) c.goal turn)) }
        ensures idle { IfSome self.old.call (λ c. (self.new.call ≡ self.old.call) ⊎ (B.at_step bank.new (line_by c.victim c.line) ≡ Idle)) }
        ensures rest { IsIdleBut self.old.call (B.at_step bank.old) → IsIdleBut self.new.call (B.at_step bank.new) }
        ensures same_way { B.way bank.new ≡ B.way bank.old }
        ensures same_nodes { (m : ℕ) → B.nodes_on bank.new m ≡ B.nodes_on bank.old m }
        ensures same_fact { B.keep bank.new ≡ B.keep bank.old }
        ensures others { IfSome self.old.call (λ c. (m : ℕ) → m ≢ line_by c.victim c.line → B.at_step bank.new m ≡ B.at_step bank.old m) }
        ensures kept { IfSome self.old.call (λ c. IfOk result (λ shown. KeepsTurnOf B.gives B.at_step B.receipts self.old c bank.old shown bank.new self.new)) }
        ensures provided { IsProvidedFor self.old.call (B.at_step bank.old) (B.receipts bank.old) → IsProvidedFor self.new.call (B.at_step bank.new) (B.receipts bank.new) }
        ensures other_receipts { IfSome self.old.call (λ c. (m : ℕ) → m ≢ line_by c.victim c.line → B.receipts bank.new m ≡ B.receipts bank.old m) }
    {
        let Some(call) = &self.call else {
            return Err(NodeRefusal::NoCall);
        };
        let line = call.line;
        let mut shown = Line::ZERO;
        // Arm by arm: a turn without an answer copies none.
        if let Some(victim) = call.victim {
            match turn_at(bank, victim, &Goal::Evict, &mut shown) {
                Turn::Moved => return Ok(Turn::Moved),
                Turn::Waiting => return Ok(Turn::Waiting),
                Turn::Done(_) => (),
            }
            let goal = call.goal;
            let victim = None;
            self.call = Some(OpenCall { line, goal, victim });
            return Ok(Turn::Moved);
        }
        match turn_at(bank, line, &call.goal, &mut shown) {
            Turn::Moved => Ok(Turn::Moved),
            Turn::Waiting => Ok(Turn::Waiting),
            Turn::Done(answer) => {
                let goal = call.goal;
                self.call = None;
                if let Goal::Evict = goal {
                    take_out(&mut self.table, line);
                }
                Ok(Turn::Done(answer))
            }
        }
    }

    /// The lines that the table names, most recent first, at most as many as the capacity.
    pub fn resident(&self, alloc: Global) -> Result<Vec<LineNo>, AllocError>
        ensures list { IfOk result (λ lines. lines.items ≡ self.now.residents) }
        ensures few { length self.now.residents ≤ self.now.capacity }
    {
        let mut lines = Vec::with_capacity(alloc, self.table.len())?;
        for (line, _) in self.table.iter() {
            lines.push(*line)?;
        }
        Ok(lines)
    }
}
