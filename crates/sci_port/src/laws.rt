//! The law of receipts, on a public call.
ghost use Rattle.sci_port.specs.Laws.{BeginsReceipts, CountsWrites, KeepsOneHistory, ReceivesTruly, ShowsOneHistory};

use sci_core::Keeps;

/// What receipts tell, of any calls of any nodes, one after another, from a line as it was opened. It computes nothing, and its
/// contract is the law. What the rows of the calls show is one history, whole: the writes of all nodes have the stamps behind the
/// opening line's up to the last, each once; whatever shows the words of one stamp shows the same words, and at the last stamp the
/// line's value; in each node's order stamps never fall, and a write's is above all earlier ones. So are the nodes' `Receipts`,
/// which leave out settles at most, those right before a Passed, and in which no two Passed stand together; each call keeps them so. Where all writes
/// are alike, the words at the end are what so many of them make of the opening words. Sources: coherence as in Culler and Singh, the
/// rows of this project's profile.
pub fn receipts_are_one_history<K: Keeps>()
    ensures shown { ShowsOneHistory K.fits }
    ensures kept { KeepsOneHistory K.fits }
    ensures begun { BeginsReceipts }
    ensures received { ReceivesTruly K.fits }
    ensures counted { CountsWrites }
{}
