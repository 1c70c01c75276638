//! The law of a request's turns, on a public call.
ghost use Rattle.sci_cache.specs.Laws.{RequestsAreKept};

use sci_port::Bank;

/// What a request that a node takes turns of keeps of receipts. It computes nothing, and its contract is the law. Where `Node::begin`
/// left it what it needs, and each `Node::turn` went on but the last, which ended it, its receipts keep all, as those of the calls that
/// wait do. This project's profile.
pub fn requests_are_kept<B: Bank>()
    ensures { RequestsAreKept B.gives B.readies B.at_step B.receipts }
{}
