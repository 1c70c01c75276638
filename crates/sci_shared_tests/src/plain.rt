//! What definitions of receipts come to in plain cases. No body can turn them, so this is how a definition that says less is seen.
ghost use Rattle.sci_shared_tests.specs.Plain.{LastIsNew, LoadAddsRead, NeedIsEnough, NoTwoPassed, OthersStay, RefusalLeavesLists};

use sci_port::Bank;

/// It computes nothing. Its contract says of receipts that two Passed never stand together, and that an answer is a new one, a load's a
/// Read; that an open call has what it needs where its lines have their marks and the room that `Node::need` tells; and that other
/// lines' receipts stay, and all but room where memory is refused.
pub fn plain_cases<B: Bank>()
    ensures passed { NoTwoPassed }
    ensures last { LastIsNew }
    ensures need { NeedIsEnough }
    ensures read { LoadAddsRead B.gives B.readies B.receipts }
    ensures others { OthersStay B.receipts }
    ensures refused { RefusalLeavesLists B.receipts }
{}
