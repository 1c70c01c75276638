//! The numbers of the refusals.
use crate::checks::same;
use sci_work::WorkRefusal;

#[test]
fn refusals_have_their_numbers(rt: HostRuntime) {
    let table = [
        (WorkRefusal::OutOfMemory, 7),
        (WorkRefusal::StampsSpent, 11),
        (WorkRefusal::Overrun, 19),
        (WorkRefusal::Stalled, 20),
        (WorkRefusal::BadSettings, 22),
        (WorkRefusal::Stopped, 25),
        (WorkRefusal::NoThread, 26),
    ];
    for (refusal, number) in table {
        same(&rt, &refusal.number(), &number);
    }
}
