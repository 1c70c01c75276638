//! One node's ways to the lines of a memory.
ghost use Rattle.std.specs.Prelude.{◌≡◌, ◌≢◌, ◌<◌, ℕ, IfSome, true, is_ok};
ghost use Rattle.sci_core.specs.declared.events.Event.{Event};
ghost use Rattle.sci_core.specs.declared.pending.Pending.{Pending};
ghost use Rattle.sci_core.specs.Answers.{is_allowed, FitsEvent};
ghost use Rattle.sci_core.specs.PendingStep.{IsOwnWord};
ghost use Rattle.sci_core.specs.Stage.{stage_of};
ghost use Rattle.sci_core.specs.WellFormed.{IsMem, IsTag};
ghost use Rattle.sci_port.specs.Banks.{BankWay};
ghost use Rattle.sci_port.specs.declared.calls.Call.{Call};
ghost use Rattle.sci_port.specs.declared.calls.Call.TheVariants.{Own, MemWas, TagWas, Stepped};
ghost use Rattle.sci_port.specs.Owes.{IsSoundStep, look_by, TakesRow, AnswerFits, Owes};
ghost use Rattle.sci_port.specs.Readying.{Aims, ChangesAt, Readies, Readying, Reserves};
ghost use Rattle.sci_port.specs.Readying.Readying.{Aimed, Reserved};
ghost use Rattle.sci_port.specs.ReceiptList.{ReceiptList, ReceivesIfRoom, last_passed};

use sci_core::{Event, Keeps, Outcome, Pending, Stage};
use sci_words::{LineNo, Mem, NodeId, Tag};
use std::alloc::AllocError;

/// One node's ports to all lines of a memory, by the line's number. No call waits, and none but `reserve` takes memory.
///
/// What each call may answer, and how the bank stands after it, is the implementation's own to say, by `gives`. Whatever it
/// says, a call on a line is as a port to that line owes it, and leaves the pending steps of the other lines as they are.
pub trait Bank {
    /// The node, how many lines there are, and what the bank reaches them by. No call changes them.
    ghost way: { Self → BankWay };

    /// How many nodes a line has. No call changes it.
    ghost nodes_on: { Self → ℕ → ℕ };

    /// The fact that the words of each line have. No call changes it.
    type Keep: Keeps;

    ghost keep: { Self → Self.Keep };

    /// The node's pending step on a line.
    ghost at_step: { Self → ℕ → Pending };

    /// The node's receipts on a line.
    ghost receipts: { Self → ℕ → ReceiptList };

    /// From a bank as it stands, a call on a line may give this answer and leave the bank so.
    ghost gives: { Self → ℕ → Call → Self → Type 0 };

    /// The same of the calls that ready a line's receipts, which reach no line.
    ghost readies: { Self → ℕ → Readying → Self → Type 0 };

    /// The node, below the number of nodes of each line.
    fn node(&self) -> NodeId
        ensures value { result ≡ (way self.now).node }
        ensures below { (line : ℕ) → line < (way self.now).lines → result < nodes_on self.now line };

    /// How many lines there are.
    fn lines(&self) -> u16
        ensures { result ≡ (way self.now).lines };

    /// How many nodes the line has.
    fn nodes(&self, line: LineNo) -> u16
        requires { line < (way self.now).lines }
        ensures { result ≡ nodes_on self.now line };

    /// The line's number, which is its place.
    fn number(&self, line: LineNo) -> LineNo
        requires { line < (way self.now).lines }
        ensures { result ≡ line };

    /// The node's pending step on the line.
    fn pending(&self, line: LineNo) -> Pending
        requires { line < (way self.now).lines }
        ensures value { result ≡ at_step self.now line }
        ensures sound { IsSoundStep (nodes_on self.now line) (Self.Keep.fits (keep self.now) line) result };

    /// The same, but for the bytes that it keeps.
    fn stage(&self, line: LineNo) -> Stage
        requires { line < (way self.now).lines }
        ensures value { result ≡ stage_of (at_step self.now line) }
        ensures sound { IsSoundStep (nodes_on self.now line) (Self.Keep.fits (keep self.now) line) (at_step self.now line) };

    /// The node's own tag on the line, which is a look. None: the line was not to be had.
    fn own(&mut self, line: LineNo) -> Option<Tag>
        requires { line < (way self.old).lines }
        ensures gives { gives self.old line (Own result) self.new }
        ensures same_way { way self.new ≡ way self.old }
        ensures same_nodes { (m : ℕ) → nodes_on self.new m ≡ nodes_on self.old m }
        ensures same_fact { keep self.new ≡ keep self.old }
        ensures others { (m : ℕ) → m ≢ line → at_step self.new m ≡ at_step self.old m }
        ensures same_receipts { (m : ℕ) → receipts self.new m ≡ receipts self.old m }
        ensures look { at_step self.new line ≡ look_by (at_step self.old line) result }
        ensures own { IfSome result (λ t. IsOwnWord (at_step self.old line) t) }
        ensures form { IfSome result (λ t. IsTag (nodes_on self.old line) t) };

    /// The line's memory word. None: the line was not to be had.
    fn mem(&mut self, line: LineNo) -> Option<Mem>
        requires { line < (way self.old).lines }
        ensures gives { gives self.old line (MemWas result) self.new }
        ensures same_way { way self.new ≡ way self.old }
        ensures same_nodes { (m : ℕ) → nodes_on self.new m ≡ nodes_on self.old m }
        ensures same_fact { keep self.new ≡ keep self.old }
        ensures same_steps { (m : ℕ) → at_step self.new m ≡ at_step self.old m }
        ensures same_receipts { (m : ℕ) → receipts self.new m ≡ receipts self.old m }
        ensures form { IfSome result (λ m. IsMem (nodes_on self.old line) m) };

    /// A node's tag on the line. None: the line was not to be had.
    fn tag(&mut self, line: LineNo, node: NodeId) -> Option<Tag>
        requires line { line < (way self.old).lines }
        requires node { node < nodes_on self.old line }
        ensures gives { gives self.old line (TagWas node result) self.new }
        ensures same_way { way self.new ≡ way self.old }
        ensures same_nodes { (m : ℕ) → nodes_on self.new m ≡ nodes_on self.old m }
        ensures same_fact { keep self.new ≡ keep self.old }
        ensures same_steps { (m : ℕ) → at_step self.new m ≡ at_step self.old m }
        ensures same_receipts { (m : ℕ) → receipts self.new m ≡ receipts self.old m }
        ensures form { IfSome result (λ t. IsTag (nodes_on self.old line) t) };

    /// One event on the line that the node's pending step there allows. Where there is room for its receipt it is kept, and else
    /// none is.
    fn step(&mut self, line: LineNo, event: Event) -> Outcome
        requires line { line < (way self.old).lines }
        requires allowed { is_allowed (nodes_on self.old line) (way self.old).node (at_step self.old line) event ≡ true }
        requires fits { FitsEvent (Self.Keep.fits (keep self.old) line) event }
        ensures gives { gives self.old line (Stepped event result) self.new }
        ensures same_way { way self.new ≡ way self.old }
        ensures same_nodes { (m : ℕ) → nodes_on self.new m ≡ nodes_on self.old m }
        ensures same_fact { keep self.new ≡ keep self.old }
        ensures others { (m : ℕ) → m ≢ line → at_step self.new m ≡ at_step self.old m }
        ensures row { TakesRow (nodes_on self.old line) (way self.old).node (at_step self.old line) event result (at_step self.new line) }
        ensures content { AnswerFits (Self.Keep.fits (keep self.old) line) result }
        ensures receipts { ChangesAt (ReceivesIfRoom (at_step self.old line) (Stepped event result)) (receipts self.old) line (receipts self.new) };

    /// Room for n more receipts on the line, at least; it never falls. `AllocError`: memory was refused, and the receipts are as
    /// before. No step.
    fn reserve(&mut self, line: LineNo, n: usize) -> Result<(), AllocError>
        requires { line < (way self.old).lines }
        ensures readies { readies self.old line (Reserved n (is_ok result)) self.new }
        ensures same_way { way self.new ≡ way self.old }
        ensures same_nodes { (m : ℕ) → nodes_on self.new m ≡ nodes_on self.old m }
        ensures same_fact { keep self.new ≡ keep self.old }
        ensures same_steps { (m : ℕ) → at_step self.new m ≡ at_step self.old m }
        ensures reserves { ChangesAt (Reserves n (is_ok result)) (receipts self.old) line (receipts self.new) };

    /// For how many more receipts on the line there is room.
    fn room(&self, line: LineNo) -> usize
        requires { line < (way self.now).lines }
        ensures { result ≡ (receipts self.now line).room };

    /// The last receipt on the line is a Passed.
    fn last_passed(&self, line: LineNo) -> bool
        requires { line < (way self.now).lines }
        ensures { result ≡ last_passed (receipts self.now line).list };

    /// Sets whether the next settle on the line is only passed (`Passed`), or is a `Read`. No step.
    fn aim(&mut self, line: LineNo, passing: bool)
        requires { line < (way self.old).lines }
        ensures readies { readies self.old line (Aimed passing) self.new }
        ensures same_way { way self.new ≡ way self.old }
        ensures same_nodes { (m : ℕ) → nodes_on self.new m ≡ nodes_on self.old m }
        ensures same_fact { keep self.new ≡ keep self.old }
        ensures same_steps { (m : ℕ) → at_step self.new m ≡ at_step self.old m }
        ensures aims { ChangesAt (Aims passing) (receipts self.old) line (receipts self.new) };

    /// What a call gives is on the same ways, under the same fact, leaves the steps of the other lines, and is as every port
    /// to the line owes.
    ghost same_way: { (s : Self) (line : ℕ) (call : Call) (t : Self) → gives s line call t → way t ≡ way s };

    ghost same_nodes: { (s : Self) (line : ℕ) (call : Call) (t : Self) → gives s line call t → (m : ℕ) → nodes_on t m ≡ nodes_on s m };

    ghost same_fact: { (s : Self) (line : ℕ) (call : Call) (t : Self) → gives s line call t → keep t ≡ keep s };

    ghost others: { (s : Self) (line : ℕ) (call : Call) (t : Self) → gives s line call t → (m : ℕ) → m ≢ line → at_step t m ≡ at_step s m };

    ghost owes: { (s : Self) (line : ℕ) (call : Call) (t : Self) → gives s line call t → Owes (nodes_on s line) (Self.Keep.fits (keep s) line) (way s).node (at_step s line) call (at_step t line) };

    /// And it leaves the line's receipts as a step is to leave them where there is room, and else as they were, and the other
    /// lines' as they were.
    ghost receives: { (s : Self) (line : ℕ) (call : Call) (t : Self) → gives s line call t → ChangesAt (ReceivesIfRoom (at_step s line) call) (receipts s) line (receipts t) };

    /// A call that readies a line's receipts is on the same ways, under the same fact and at the same steps, and does no more.
    ghost readied: { (s : Self) (line : ℕ) (r : Readying) (t : Self) → readies s line r t → (way t ≡ way s) × ((m : ℕ) → nodes_on t m ≡ nodes_on s m) × (keep t ≡ keep s) × ((m : ℕ) → at_step t m ≡ at_step s m) × ChangesAt (Readies r) (receipts s) line (receipts t) };
}
