//! Texts of histories, each with what is said of it, worked out by hand from docs/FORMATS.md.

mod growths;

use crate::checks::same_at;
use sci_dump::DumpRefusal;
use sci_histories::{Rule, Verdict, check_history, read_history};
use std::alloc::{AllocError, Global};
use std::process::Abort;
use std::test::Fail;

/// Node 0 passes on its way to its store of 7, and node 1 loads that.
pub(crate) const STORE_AND_LOAD: &str = "\
scihistory 1 2 1
line 0 0 0 0 0 0 0 0 0 0
closed 0 1 7 0 0 0 0 0 0 0
passed 0 0 0 0 0 0 0 0 0 0
wrote 0 1 7 0 0 0 0 0 0 0 over 0 0 0 0 0 0 0 0
read 1 1 7 0 0 0 0 0 0 0
end
";

/// What is said of a text.
fn judged(alloc: Global, text: &str) -> Said {
    let history = read_history(alloc, text.as_bytes())?;
    Ok(check_history(alloc, &history)?)
}

/// A line of two nodes that is opened with stamp 5 and zeros, and closed with this behind `closed 0 `; then its receipts.
fn of_line(alloc: Global, rest: &str) -> Result<String, AllocError> {
    format!(in alloc; "scihistory 1 2 1\nline 0 5 0 0 0 0 0 0 0 0\nclosed 0 {rest}end\n")
}

type Said = Result<Verdict, DumpRefusal>;

const LEGAL: Said = Ok(Verdict::Legal);

const H1: Said = Ok(Verdict::Illegal {
    line: 0,
    rule: Rule::Within,
});

const H2: Said = Ok(Verdict::Illegal {
    line: 0,
    rule: Rule::Ordered,
});

const H3: Said = Ok(Verdict::Illegal {
    line: 0,
    rule: Rule::Written,
});

const H4: Said = Ok(Verdict::Illegal {
    line: 0,
    rule: Rule::Once,
});

const H5: Said = Ok(Verdict::Illegal {
    line: 0,
    rule: Rule::Agreed,
});

const H5_OF_LINE_1: Said = Ok(Verdict::Illegal {
    line: 1,
    rule: Rule::Agreed,
});

/// What stands behind `closed 0 ` of that line, and what is said of it. Its writes: 6 makes 1 of the zeros, 7 makes 2 of the 1.
const LINES: [(&str, Said); 24] = [
    ("5 0 0 0 0 0 0 0 0\n", LEGAL),
    (
        "5 0 0 0 0 0 0 0 0\nread 1 5 0 0 0 0 0 0 0 0\nread 1 5 0 0 0 0 0 0 0 0\n",
        LEGAL,
    ),
    (
        "6 1 0 0 0 0 0 0 0\nwrote 1 6 1 0 0 0 0 0 0 0 over 0 0 0 0 0 0 0 0\n",
        LEGAL,
    ),
    (
        "7 2 0 0 0 0 0 0 0\nwrote 0 7 2 0 0 0 0 0 0 0 over 1 0 0 0 0 0 0 0\nwrote 1 6 1 0 0 0 0 0 0 0 over 0 0 0 0 0 0 0 0\n",
        LEGAL,
    ),
    // H1: the closing stamp is lower, a read below, a read above, a write at the opening stamp, a write above
    ("4 0 0 0 0 0 0 0 0\n", H1),
    ("5 0 0 0 0 0 0 0 0\nread 0 4 0 0 0 0 0 0 0 0\n", H1),
    ("5 0 0 0 0 0 0 0 0\npassed 0 6 0 0 0 0 0 0 0 0\n", H1),
    (
        "5 0 0 0 0 0 0 0 0\nwrote 0 5 0 0 0 0 0 0 0 0 over 0 0 0 0 0 0 0 0\n",
        H1,
    ),
    (
        "5 0 0 0 0 0 0 0 0\nwrote 0 6 0 0 0 0 0 0 0 0 over 0 0 0 0 0 0 0 0\n",
        H1,
    ),
    // H2: a stamp falls, and a write has the stamp of the read before it
    (
        "6 1 0 0 0 0 0 0 0\nwrote 1 6 1 0 0 0 0 0 0 0 over 0 0 0 0 0 0 0 0\nread 1 5 0 0 0 0 0 0 0 0\n",
        H2,
    ),
    (
        "6 1 0 0 0 0 0 0 0\nread 0 6 1 0 0 0 0 0 0 0\nwrote 0 6 1 0 0 0 0 0 0 0 over 0 0 0 0 0 0 0 0\n",
        H2,
    ),
    // H3: no receipts at all, a read in place of the write, one stamp twice and the other never, the greatest stamp there is
    ("6 1 0 0 0 0 0 0 0\n", H3),
    ("6 1 0 0 0 0 0 0 0\nread 0 6 1 0 0 0 0 0 0 0\n", H3),
    (
        "7 2 0 0 0 0 0 0 0\nwrote 0 7 2 0 0 0 0 0 0 0 over 1 0 0 0 0 0 0 0\nwrote 1 7 2 0 0 0 0 0 0 0 over 1 0 0 0 0 0 0 0\n",
        H3,
    ),
    ("18446744073709551615 2 0 0 0 0 0 0 0\n", H3),
    // H4: both nodes wrote stamp 6
    (
        "6 1 0 0 0 0 0 0 0\nwrote 0 6 1 0 0 0 0 0 0 0 over 0 0 0 0 0 0 0 0\nwrote 1 6 1 0 0 0 0 0 0 0 over 0 0 0 0 0 0 0 0\n",
        H4,
    ),
    // H5: other words at the end, in a read of the opening, in a read of the write, and before the write
    ("5 1 0 0 0 0 0 0 0\n", H5),
    ("5 0 0 0 0 0 0 0 0\nread 0 5 0 0 0 0 0 0 0 1\n", H5),
    (
        "6 1 0 0 0 0 0 0 0\nwrote 1 6 1 0 0 0 0 0 0 0 over 0 0 0 0 0 0 0 1\n",
        H5,
    ),
    (
        "6 1 0 0 0 0 0 0 0\nread 0 6 0 0 0 0 0 0 0 0\nwrote 1 6 1 0 0 0 0 0 0 0 over 0 0 0 0 0 0 0 0\n",
        H5,
    ),
    // stamps that are too great, of 20, 21 and 39 digits: in 64 bits the first is 0, in 128 the last is 5
    (
        "18446744073709551616 0 0 0 0 0 0 0 0\n",
        Err(DumpRefusal::DumpFault(3)),
    ),
    (
        "100000000000000000005 0 0 0 0 0 0 0 0\n",
        Err(DumpRefusal::DumpFault(3)),
    ),
    (
        "340282366920938463463374607431768211461 0 0 0 0 0 0 0 0\n",
        Err(DumpRefusal::DumpFault(3)),
    ),
    // a receipt of a lower node than the one before, at its line
    (
        "5 0 0 0 0 0 0 0 0\nread 1 5 0 0 0 0 0 0 0 0\nread 0 5 0 0 0 0 0 0 0 0\n",
        Err(DumpRefusal::DumpFault(5)),
    ),
];

/// Whole texts.
const TEXTS: [(&str, Said); 10] = [
    (STORE_AND_LOAD, LEGAL),
    ("", Err(DumpRefusal::DumpFault(1))),
    ("scihistory 1 0 1\nend\n", Err(DumpRefusal::DumpFault(1))),
    ("scihistory 1 1025 1\nend\n", Err(DumpRefusal::DumpFault(1))),
    ("scihistory 2 1 1\nend\n", Err(DumpRefusal::DumpFault(1))),
    ("scihistory 1 1 1\nend\n", Err(DumpRefusal::DumpFault(2))),
    (
        "scihistory 1 1 1\nline 0 0 0 0 0 0 0 0 0 0\nend\n",
        Err(DumpRefusal::DumpFault(3)),
    ),
    (
        "scihistory 1 1 1\nline 0 0 0 0 0 0 0 0 0 0\nclosed 0 0 0 0 0 0 0 0 0 0\nread 1 0 0 0 0 0 0 0 0 0\nend\n",
        Err(DumpRefusal::DumpFault(4)),
    ),
    (
        "scihistory 1 1 1\nline 0 0 0 0 0 0 0 0 0 0\nclosed 0 0 0 0 0 0 0 0 0 0\nend\nend\n",
        Err(DumpRefusal::DumpFault(5)),
    ),
    (
        "scihistory 1 1 2\nline 0 0 0 0 0 0 0 0 0 0\nclosed 0 0 0 0 0 0 0 0 0 0\nline 1 0 0 0 0 0 0 0 0 0\nclosed 1 0 1 0 0 0 0 0 0 0\nend\n",
        H5_OF_LINE_1,
    ),
];

fn says(rt: &impl Abort, alloc: Global) -> Result<(), Fail> {
    for (text, wanted) in TEXTS {
        same_at(rt, &text, &judged(alloc, text), &wanted);
    }
    for (rest, wanted) in LINES {
        let text = of_line(alloc, rest)?;
        same_at(rt, &rest, &judged(alloc, &text), &wanted);
    }
    Ok(())
}

#[test]
fn each_text_is_judged(rt: HostRuntime) -> Result<(), Fail> {
    says(&rt, rt.alloc())
}
