//! A turn on one line of a bank.
ghost use Rattle.std.specs.Prelude.{◌≡◌, ◌≢◌, ◌<◌, ℕ, None};
ghost use Rattle.sci_ops.specs.Answers.{AnswersAt};
ghost use Rattle.sci_ops.specs.Change.{StoresFitting};
ghost use Rattle.sci_ops.specs.Kept.{KeepsAnswer};
ghost use Rattle.sci_ops.specs.Plan.{Takes, LoadsAtMost};
ghost use Rattle.sci_ops.specs.Room.{IsProvided, KeepsTurn, need_in};
ghost use Rattle.sci_ops.specs.Table.{begun, turn_of};
ghost use Rattle.sci_cache.specs.Nodes.{ShowsAnswerTo, EndsIdle};

use sci_core::Line;
use sci_ops::{Goal, Turn};
use sci_port::{At, Bank};
use sci_words::LineNo;

/// For how many receipts an operation towards the goal needs room on the line: `Goal::need`.
pub(crate) fn need_at<B: Bank>(bank: &mut B, line: LineNo, goal: &Goal) -> usize
    requires line { line < (B.way bank.old).lines }
    ensures need { result ≡ need_in goal.now (B.at_step bank.old line) (B.receipts bank.old line) }
    ensures same { bank.new ≡ bank.old }
{
    goal.need(&At::new(bank, line))
}

/// One turn towards the goal on the line, over the bank's port to it: `Goal::turn`, with its room for a line. The other lines' steps and
/// receipts stay.
#[inline(always)]
pub fn turn_at<B: Bank>(bank: &mut B, line: LineNo, goal: &Goal, shown: &mut Line) -> Turn
    requires line { line < (B.way bank.old).lines }
    requires fits { StoresFitting (B.Keep.fits (B.keep bank.old) line) goal.now }
    ensures calls { Takes (λ s call t. B.gives s line call t) (turn_of (begun goal.now) (B.way bank.old).node (B.at_step bank.old line)) bank.old result bank.new }
    ensures answers { AnswersAt (λ s call t. B.gives s line call t) (λ s. B.at_step s line) (begun goal.now) (B.way bank.old).node bank.old result bank.new }
    ensures loads { LoadsAtMost 3 (turn_of (begun goal.now) (B.way bank.old).node (B.at_step bank.old line)) }
    ensures content { ShowsAnswerTo (B.Keep.fits (B.keep bank.old) line) goal.now result }
    ensures idle { EndsIdle result (B.at_step bank.new line) }
    ensures kept { IsProvided goal.now None (B.at_step bank.old line) (B.receipts bank.old line) → KeepsTurn (λ s call t. B.gives s line call t) (λ s. B.receipts s line) (begun goal.now) bank.old result bank.new (B.at_step bank.new line) }
    ensures last { KeepsAnswer (begun goal.now) result (B.receipts bank.old line) (B.receipts bank.new line) }
    ensures same_way { B.way bank.new ≡ B.way bank.old }
    ensures same_nodes { (m : ℕ) → B.nodes_on bank.new m ≡ B.nodes_on bank.old m }
    ensures same_fact { B.keep bank.new ≡ B.keep bank.old }
    ensures others { (m : ℕ) → m ≢ line → B.at_step bank.new m ≡ B.at_step bank.old m }
    ensures other_receipts { (m : ℕ) → m ≢ line → B.receipts bank.new m ≡ B.receipts bank.old m }
{
    goal.turn(&mut At::new(bank, line), shown)
}
