//! Why a dump or a history is refused: of each text the line and the words, over both sides of each range.

mod growths;

use crate::checks::same_at;
use sci_reasons::{RowFault, why_dump, why_history};
use std::alloc::{AllocError, Global};
use std::process::Abort;

/// The line and the words of a reason.
fn words(alloc: Global, why: Result<Option<RowFault>, AllocError>) -> Result<String, AllocError> {
    match why? {
        Some(fault) => {
            let line = fault.line;
            format!(in alloc; "{line}: {fault}")
        }
        None => String::from_str(alloc, "it is read"),
    }
}

/// A dump of one line of two nodes, neither of which shares it.
const DUMPS: &[(&str, &str)] = &[
    ("", "1: an early end: scidump 1 or 2 wanted"),
    ("dump 2 2 1\n", "1: scidump 1 or 2 wanted, dump found"),
    ("end\n", "1: scidump 1 or 2 wanted, end found"),
    ("\n", "1: scidump 1 or 2 wanted, nothing found"),
    ("scidump 2 2\n", "1: 4 words wanted, 3 found"),
    ("scidump 2 2  1\n", "1: 4 words wanted, 5 found"),
    (
        "scidump 0 2 1\n",
        "1: word 2: a number from 1 to 2 wanted, 0 found",
    ),
    (
        "scidump 3 2 1\n",
        "1: word 2: a number from 1 to 2 wanted, 3 found",
    ),
    (
        "scidump 1 65 1\n",
        "1: word 3: a number from 1 to 64 wanted, 65 found",
    ),
    (
        "scidump 2 0 1\n",
        "1: word 3: a number from 1 to 1024 wanted, 0 found",
    ),
    (
        "scidump 2 1025 1\n",
        "1: word 3: a number from 1 to 1024 wanted, 1025 found",
    ),
    (
        "scidump 2 1024 0\n",
        "1: word 4: a number from 1 to 1024 wanted, 0 found",
    ),
    (
        "scidump 2 1024 1025\n",
        "1: word 4: a number from 1 to 1024 wanted, 1025 found",
    ),
    (
        "scidump 2 02 1\n",
        "1: word 3: a number from 1 to 1024 wanted, 02 found",
    ),
    (
        "scidump 2 2 1",
        "1: a line feed wanted at its end, the end of the text found",
    ),
    ("scidump 2 2 1\n", "2: an early end: line 0 wanted"),
    ("scidump 2 2 1\n\n", "2: line 0 wanted, nothing found"),
    (
        "scidump 2 2 1\n line 0\n",
        "2: line 0 wanted, nothing found",
    ),
    ("scidump 2 2 1\n\r\n", "2: line 0 wanted, \\r found"),
    ("scidump 2 2 1\nend\n", "2: line 0 wanted, end found"),
    ("scidump 2 2 1\nlnie", "2: line 0 wanted, lnie found"),
    (
        "scidump 2 2 1\nlnie5678901234567890 0\n",
        "2: line 0 wanted, lnie5678901234567890 found",
    ),
    (
        "scidump 2 2 1\nlnie56789012345678901 0\n",
        "2: line 0 wanted, 21 bytes found",
    ),
    (
        "scidump 2 2 1\nline 1 0000000000020001 0 0 0 0 0 0 0 0 0\n",
        "2: word 2: 0 wanted, 1 found",
    ),
    (
        "scidump 2 2 1\nline 0 000000000000000 0 0 0 0 0 0 0 0 0\n",
        "2: word 3: 16 hexadecimal digits in lower case wanted, 000000000000000 found",
    ),
    (
        "scidump 2 2 1\nline 0 000000000000000A 0 0 0 0 0 0 0 0 0\n",
        "2: word 3: 16 hexadecimal digits in lower case wanted, 000000000000000A found",
    ),
    (
        "scidump 2 2 1\nline 0 ffffffffffffffff 0 0 0 0 0 0 0 0 0\n",
        "2: word 3: a memory word of the layout wanted, ffffffffffffffff found",
    ),
    (
        "scidump 2 2 1\nline 0 0000000000020001 18446744073709551616 0 0 0 0 0 0 0 0\n",
        "2: word 4: a number from 0 to 18446744073709551615 wanted, 18446744073709551616 found",
    ),
    (
        "scidump 2 2 1\nline 0 0000000000020001 0 0 0 0 0 0 0 0 x\n",
        "2: word 12: a number from 0 to 18446744073709551615 wanted, x found",
    ),
    (
        "scidump 2 2 1\nline 0 0000000000020001 0 0 0 0 0 0 0 0\n",
        "2: 12 words wanted, 11 found",
    ),
    (
        "scidump 2 3 1\nline 0 0000000000020001 0 0 0 0 0 0 0 0 0\n",
        "3: an early end: tag 0 or end wanted",
    ),
    (
        "scidump 2 3 1\nline 0 0000000000020001 0 0 0 0 0 0 0 0 0\nline 1\n",
        "3: tag 0 or end wanted, line found",
    ),
    (
        "scidump 2 3 2\nline 0 0000000000020001 0 0 0 0 0 0 0 0 0\nend\n",
        "3: tag 0 or line 1 wanted, end found",
    ),
    (
        "scidump 2 3 2\nline 0 0000000000020001 0 0 0 0 0 0 0 0 0\nline 2 0\n",
        "3: 12 words wanted, 3 found",
    ),
    (
        "scidump 2 3 1\nline 0 0000000000020001 0 0 0 0 0 0 0 0 0\ntag 0 3 00000001ffff0007 0 0 0 0 0 0 0 0 0\n",
        "3: word 3: a number from 0 to 2 wanted, 3 found",
    ),
    (
        "scidump 2 3 1\nline 0 0000000000020001 0 0 0 0 0 0 0 0 0\ntag 0 1 00000001ffff0007 0 0 0 0 0 0 0 0 0\ntag 0 1 0000000200000007 0 0 0 0 0 0 0 0 0\n",
        "4: word 3: 2 wanted, 1 found",
    ),
    (
        "scidump 2 3 1\nline 0 0000000000020001 0 0 0 0 0 0 0 0 0\ntag 1 0 00000001ffff0007 0 0 0 0 0 0 0 0 0\n",
        "3: word 2: 0 wanted, 1 found",
    ),
    (
        "scidump 2 3 1\nline 0 0000000000020001 0 0 0 0 0 0 0 0 0\ntag 0 0 0000000000000000 0 0 0 0 0 0 0 0 0\n",
        "3: word 4: a tag of the layout that isn't Invalid wanted, 0000000000000000 found",
    ),
    (
        "scidump 2 2 1\nline 0 0000000000020001 0 0 0 0 0 0 0 0 0\ntag 0 0 00000001ffff0007 0 0 0 0 0 0 0 0 0\ntag 0 1 0000ffff00000002 0 0 0 0 0 0 0 0 0\ntag 0 2\n",
        "5: end wanted, tag found",
    ),
    (
        "scidump 2 2 1\nline 0 0000000000020001 0 0 0 0 0 0 0 0 0\nend",
        "3: a line feed wanted at its end, the end of the text found",
    ),
    (
        "scidump 2 2 1\nline 0 0000000000020001 0 0 0 0 0 0 0 0 0\nend\n",
        "it is read",
    ),
    (
        "scidump 2 2 1\nline 0 0000000000020001 0 0 0 0 0 0 0 0 0\nend\nx",
        "4: nothing wanted behind end, x found",
    ),
    (
        "scidump 2 2 1\nline 0 0000000000020001 0 0 0 0 0 0 0 0 0\nend\nend of it\n",
        "4: nothing wanted behind end, end found",
    ),
    (
        "scidump 2 2 1\nline 0 0000000000020001 0 0 0 0 0 0 0 0 0\nend\n\n",
        "4: nothing wanted behind end, an empty word found",
    ),
    (
        "scidump 2 2 1\nline 0 0000000000020001 0 0 0 0 0 0 0 0 0\nend\n\r\n",
        "4: nothing wanted behind end, \\r found",
    ),
    (
        "scidump 2 2 1\nline 0 0000000000020001 0 0 0 0 0 0 0 0 0\nend\r\n",
        "3: tag 0 or end wanted, end\\r found",
    ),
    (
        "scidump 2 2 1\nline 0 0000000000020001 0 0 0 0 0 0 0 0 0\nend 1\n",
        "3: 1 word wanted, 2 found",
    ),
    (
        "scidump 2  1\n",
        "1: word 3: a number from 1 to 1024 wanted, nothing found",
    ),
    (
        "scidump 2 2 100000000000000000000\n",
        "1: word 4: a number from 1 to 1024 wanted, 21 bytes found",
    ),
    (
        "scidump 2 2 1\r\nline 0 0000000000020001 0 0 0 0 0 0 0 0 0\nend\n",
        "1: word 4: a number from 1 to 1024 wanted, 1\\r found",
    ),
    (
        "scidump 2 3 3\nline 0 00000000ffff0000 0 0 0 0 0 0 0 0 0\nline 1 00000000ffff0000 0 0 0 0 0 0 0 0 0\nx\n",
        "4: tag 1 or line 2 wanted, x found",
    ),
    (
        "scidump 2 3 3\nline 0 00000000ffff0000 0 0 0 0 0 0 0 0 0\nline 1 00000000ffff0000 0 0 0 0 0 0 0 0 0\ntag 0 0 00000001ffff0007 0 0 0 0 0 0 0 0 0\n",
        "4: word 2: 1 wanted, 0 found",
    ),
    (
        "scidump 2 3 3\nline 0 00000000ffff0000 0 0 0 0 0 0 0 0 0\nline 1 00000000ffff0000 0 0 0 0 0 0 0 0 0\nline 1 00000000ffff0000 0 0 0 0 0 0 0 0 0\n",
        "4: word 2: 2 wanted, 1 found",
    ),
    (
        "scidump 1 3 1\nline 0 0000000000000201 0 0 0 0 0 0 0 0 x\n",
        "2: word 12: a number from 0 to 18446744073709551615 wanted, x found",
    ),
    (
        "scidump 1 3 1\nline 0 0000000000000201 0 0 0 0 0 0 0 0 0\ntag 0 0 000000000001ff07 0 0 0 0 0 0 0 0 x\n",
        "3: word 13: a number from 0 to 18446744073709551615 wanted, x found",
    ),
    (
        "scidump 2 3 1\nline 0 00000000ffff0000 0 0 0 0 0 0 0 0 0\ntag 0 0 0000ffffffff0000 0 0 0 0 0 0 0 0 0\n",
        "3: word 4: a tag of the layout that isn't Invalid wanted, 0000ffffffff0000 found",
    ),
];

const HISTORIES: &[(&str, &str)] = &[
    ("", "1: an early end: scihistory 1 wanted"),
    ("scidump 2 1 1\n", "1: scihistory 1 wanted, scidump found"),
    ("scihistory 2 1 1\n", "1: word 2: 1 wanted, 2 found"),
    (
        "scihistory 1 0 1\n",
        "1: word 3: a number from 1 to 1024 wanted, 0 found",
    ),
    (
        "scihistory 1 1025 1\n",
        "1: word 3: a number from 1 to 1024 wanted, 1025 found",
    ),
    (
        "scihistory 1 1 1025\n",
        "1: word 4: a number from 1 to 1024 wanted, 1025 found",
    ),
    (
        "scihistory 1 1 1\nclosed 0\n",
        "2: line 0 wanted, closed found",
    ),
    (
        "scihistory 1 1 2\nline 1 0 0 0 0 0 0 0 0 0\n",
        "2: word 2: 0 wanted, 1 found",
    ),
    (
        "scihistory 1 1 1\nline 0 0 0 0 0 0 0 0 0\n",
        "2: 11 words wanted, 10 found",
    ),
    (
        "scihistory 1 1 1\nline 0 0 0 0 0 0 0 0 0 0\nend\n",
        "3: closed 0 wanted, end found",
    ),
    (
        "scihistory 1 1 1\nline 0 0 0 0 0 0 0 0 0 0\nclosed 1 0 0 0 0 0 0 0 0 0\n",
        "3: word 2: 0 wanted, 1 found",
    ),
    (
        "scihistory 1 1 2\nline 0 0 0 0 0 0 0 0 0 0\nclosed 0 0 0 0 0 0 0 0 0 0\nend\n",
        "4: read, passed, wrote or line 1 wanted, end found",
    ),
    (
        "scihistory 1 1 1\nline 0 0 0 0 0 0 0 0 0 0\nclosed 0 0 0 0 0 0 0 0 0 0\n",
        "4: an early end: read, passed, wrote or end wanted",
    ),
    (
        "scihistory 1 2 1\nline 0 0 0 0 0 0 0 0 0 0\nclosed 0 0 0 0 0 0 0 0 0 0\nread 1 0 0 0 0 0 0 0 0 0\nread 2 0 0 0 0 0 0 0 0 0\n",
        "5: word 2: 1 wanted, 2 found",
    ),
    (
        "scihistory 1 2 1\nline 0 0 0 0 0 0 0 0 0 0\nclosed 0 0 0 0 0 0 0 0 0 0\nread 1 0 0 0 0 0 0 0 0 0\npassed 0 0 0 0 0 0 0 0 0 0\n",
        "5: word 2: 1 wanted, 0 found",
    ),
    (
        "scihistory 1 2 1\nline 0 0 0 0 0 0 0 0 0 0\nclosed 0 1 0 0 0 0 0 0 0 0\nwrote 0 1 0 0 0 0 0 0 0 0\n",
        "4: 20 words wanted, 11 found",
    ),
    (
        "scihistory 1 2 1\nline 0 0 0 0 0 0 0 0 0 0\nclosed 0 1 0 0 0 0 0 0 0 0\nwrote 0 1 0 0 0 0 0 0 0 0 under 0 0 0 0 0 0 0 0\n",
        "4: word 12: over wanted, under found",
    ),
    (
        "scihistory 1 2 1\nline 0 0 0 0 0 0 0 0 0 0\nclosed 0 1 0 0 0 0 0 0 0 0\nwrote 0 1 0 0 0 0 0 0 0 0 over 0 0 0 0 0 0 0 -1\n",
        "4: word 20: a number from 0 to 18446744073709551615 wanted, -1 found",
    ),
    (
        "scihistory 1 2 1\nline 0 0 0 0 0 0 0 0 0 0\nclosed 0 1 0 0 0 0 0 0 0 0\nwrote 1 1 0 0 0 0 0 0 0 0 over 0 0 0 0 0 0 0 0\nend\n",
        "it is read",
    ),
    (
        "scihistory 1 1 1\nline 0 0 0 0 0 0 0 0 0 0\nclosed 0 0 0 0 0 0 0 0 0 0\nend\n\n",
        "5: nothing wanted behind end, an empty word found",
    ),
    (
        "scihistory 1 3 2\nline 0 0 0 0 0 0 0 0 0 0\nclosed 0 0 0 0 0 0 0 0 0 0\nread 3 0 0 0 0 0 0 0 0 0\n",
        "4: word 2: a number from 0 to 2 wanted, 3 found",
    ),
    (
        "scihistory 1 3 2\nline 0 0 0 0 0 0 0 0 0 0\nclosed 0 0 0 0 0 0 0 0 0 0\nwrote 3 1 0 0 0 0 0 0 0 0 over 0 0 0 0 0 0 0 0\n",
        "4: word 2: a number from 0 to 2 wanted, 3 found",
    ),
    (
        "scihistory 1 3 2\nline 0 0 0 0 0 0 0 0 0 0\nclosed 0 0 0 0 0 0 0 0 0 0\nread 1 0 0 0 0 0 0 0 0 0\npassed 0 0 0 0 0 0 0 0 0 0\n",
        "5: word 2: a number from 1 to 2 wanted, 0 found",
    ),
    (
        "scihistory 1 3 2\nline 0 0 0 0 0 0 0 0 0 0\nclosed 0 0 0 0 0 0 0 0 0 0\nread 1 0 0 0 0 0 0 0 0 0\nread 2 0 0 0 0 0 0 0 0 0\nwrote 1 1 0 0 0 0 0 0 0 0 over 0 0 0 0 0 0 0 0\n",
        "6: word 2: 2 wanted, 1 found",
    ),
    (
        "scihistory 1 3 2\nline 0 0 0 0 0 0 0 0 0 0\nclosed 0 0 0 0 0 0 0 0 0 0\nread 1 0 0 0 0 0 0 0 0 0\nclosed 0 0 0 0 0 0 0 0 0 0\n",
        "5: read, passed, wrote or line 1 wanted, closed found",
    ),
    (
        "scihistory 1 3 2\nline 0 0 0 0 0 0 0 0 0 0\nclosed 0 0 0 0 0 0 0 0 0 0\nread 1 0 0 0 0 0 0 0 0 0\nend\n",
        "5: read, passed, wrote or line 1 wanted, end found",
    ),
    (
        "scihistory 1 3 2\nline 0 0 0 0 0 0 0 0 0 0\nclosed 0 0 0 0 0 0 0 0 0 0\nread 1 0 0 0 0 0 0 0 0 0\nline 2 0 0 0 0 0 0 0 0 0\n",
        "5: word 2: 1 wanted, 2 found",
    ),
    (
        "scihistory 1 3 2\nline 0 0 0 0 0 0 0 0 0 0\nclosed 0 0 0 0 0 0 0 0 0 0\nline 1 0 0 0 0 0 0 0 0 0\n",
        "5: an early end: closed 1 wanted",
    ),
    (
        "scihistory 1 3 2\nline 0 0 0 0 0 0 0 0 0 0\nclosed 0 0 0 0 0 0 0 0 0 0\nline 1 0 0 0 0 0 0 0 0 0\nline 1 0 0 0 0 0 0 0 0 0\n",
        "5: closed 1 wanted, line found",
    ),
    (
        "scihistory 1 3 2\nline 0 0 0 0 0 0 0 0 0 0\nclosed 0 0 0 0 0 0 0 0 0 0\nline 1 0 0 0 0 0 0 0 0 0\nclosed 0 0 0 0 0 0 0 0 0 0\n",
        "5: word 2: 1 wanted, 0 found",
    ),
    (
        "scihistory 1 3 2\nline 0 0 0 0 0 0 0 0 0 0\nclosed 0 0 0 0 0 0 0 0 0 0\nread 1 0 0 0 0 0 0 0 0 0\nline 1 0 0 0 0 0 0 0 0 0\nclosed 1 0 0 0 0 0 0 0 0 0\nread 3 0 0 0 0 0 0 0 0 0\n",
        "7: word 2: a number from 0 to 2 wanted, 3 found",
    ),
    (
        "scihistory 1 3 2\nline 0 0 0 0 0 0 0 0 0 0\nclosed 0 0 0 0 0 0 0 0 0 0\nread 1 0 0 0 0 0 0 0 0 0\nline 1 0 0 0 0 0 0 0 0 0\nclosed 1 0 0 0 0 0 0 0 0 0\nread 0 0 0 0 0 0 0 0 0 0\nread 1 0 0 0 0 0 0 0 0 0\nread 0 0 0 0 0 0 0 0 0 0\n",
        "9: word 2: a number from 1 to 2 wanted, 0 found",
    ),
    (
        "scihistory 1 3 2\nline 0 0 0 0 0 0 0 0 0 0\nclosed 0 0 0 0 0 0 0 0 0 0\nline 1 0 0 0 0 0 0 0 0 0\nclosed 1 0 0 0 0 0 0 0 0 0\nline 2 0 0 0 0 0 0 0 0 0\n",
        "6: read, passed, wrote or end wanted, line found",
    ),
    (
        "scihistory 1 3 2\nline 0 0 0 0 0 0 0 0 0 0\nclosed 0 0 0 0 0 0 0 0 0 0\nline 1 0 0 0 0 0 0 0 0 0\nclosed 1 0 0 0 0 0 0 0 0 0\nread 2 0 0 0 0 0 0 0 0 0\n",
        "7: an early end: read, passed, wrote or end wanted",
    ),
    (
        "scihistory 1 3 2\nline 0 0 0 0 0 0 0 0 0 0\nclosed 0 0 0 0 0 0 0 0 0 0\nline 1 0 0 0 0 0 0 0 0 0\nclosed 1 0 0 0 0 0 0 0 0 0\nread 2 0 0 0 0 0 0 0 0 0\nend 1\n",
        "7: 1 word wanted, 2 found",
    ),
    (
        "scihistory 1 3 2\nline 0 0 0 0 0 0 0 0 0 0\nclosed 0 0 0 0 0 0 0 0 0 0\nline 1 0 0 0 0 0 0 0 0 0\nclosed 1 0 0 0 0 0 0 0 0 0\nend",
        "6: a line feed wanted at its end, the end of the text found",
    ),
    (
        "scihistory 1 3 2\nline 0 0 0 0 0 0 0 0 0 0\nclosed 0 0 0 0 0 0 0 0 0 0\nline 1 0 0 0 0 0 0 0 0 0\nclosed 1 0 0 0 0 0 0 0 0 0\nend\nline 2 0 0 0 0 0 0 0 0 0\n",
        "7: nothing wanted behind end, line found",
    ),
    (
        "scihistory 1 3 2\nline 0 0 0 0 0 0 0 0 0 0\nclosed 0 0 0 0 0 0 0 0 0 0\nline 1 0 0 0 0 0 0 0 0 0\nclosed 1 0 0 0 0 0 0 0 0 0\nend\n",
        "it is read",
    ),
    (
        "scihistory 1 1 3\nline 0 0 0 0 0 0 0 0 0 0\nclosed 0 0 0 0 0 0 0 0 0 0\nline 1 0 0 0 0 0 0 0 0 0\nclosed 1 0 0 0 0 0 0 0 0 0\nline 1 0 0 0 0 0 0 0 0 0\n",
        "6: word 2: 2 wanted, 1 found",
    ),
    (
        "scihistory 1 1 3\nline 0 0 0 0 0 0 0 0 0 0\nclosed 0 0 0 0 0 0 0 0 0 0\nline 1 0 0 0 0 0 0 0 0 0\nclosed 1 0 0 0 0 0 0 0 0 0\nline 2 0 0 0 0 0 0 0 0 0\nx\n",
        "7: closed 2 wanted, x found",
    ),
];

/// Lines of 1,023 to 1,025 bytes with their line feed: a text up to one, what fills that, how often, and why it is refused.
const LONG: &[(&str, &str, usize, &str)] = &[
    (
        "scidump 2 2 1\nline 0",
        " ",
        1016,
        "2: 12 words wanted, 1018 found",
    ),
    (
        "scidump 2 2 1\nline 0",
        " ",
        1017,
        "2: 12 words wanted, 1019 found",
    ),
    (
        "scidump 2 2 1\nline 0",
        " ",
        1018,
        "2: fewer than 1024 bytes wanted, 1024 or more found",
    ),
    (
        "scihistory 1 1 1\nline 0",
        " ",
        1016,
        "2: 11 words wanted, 1018 found",
    ),
    (
        "scihistory 1 1 1\nline 0",
        " ",
        1017,
        "2: 11 words wanted, 1019 found",
    ),
    (
        "scihistory 1 1 1\nline 0",
        " ",
        1018,
        "2: fewer than 1024 bytes wanted, 1024 or more found",
    ),
    (
        "scihistory",
        "x",
        1013,
        "1: scihistory 1 wanted, 1023 bytes found",
    ),
    (
        "scidump",
        "x",
        1016,
        "1: scidump 1 or 2 wanted, 1023 bytes found",
    ),
    (
        "scihistory",
        "x",
        1014,
        "1: scihistory 1 wanted, 1024 or more bytes found",
    ),
    (
        "scidump",
        "x",
        1017,
        "1: scidump 1 or 2 wanted, 1024 or more bytes found",
    ),
    (
        "scihistory 1 1 1\nline 0 0 0 0 0 0 0 0 0 0\nclosed 0 0 0 0 0 0 0 0 0 0\nend\n",
        "x",
        1024,
        "5: nothing wanted behind end, 1024 or more bytes found",
    ),
    (
        "scidump 2 2 1\nline 0 0000000000020001 0 0 0 0 0 0 0 0 0\nend\n",
        "x",
        1023,
        "4: nothing wanted behind end, 1023 bytes found",
    ),
];

#[test]
fn dumps(rt: HostRuntime) {
    for row in DUMPS {
        let found = words(rt.alloc(), why_dump(rt.alloc(), row.0.as_bytes()));
        same_at(&rt, row, &found, &String::from_str(rt.alloc(), row.1));
    }
}

#[test]
fn histories(rt: HostRuntime) {
    for row in HISTORIES {
        let found = words(rt.alloc(), why_history(rt.alloc(), row.0.as_bytes()));
        same_at(&rt, row, &found, &String::from_str(rt.alloc(), row.1));
    }
}

fn long_lines_are_told(rt: &impl Abort, alloc: Global) -> Result<(), AllocError> {
    for row in LONG {
        let filling = row.1.repeat(alloc, row.2)?;
        let front = row.0;
        let text = format!(in alloc; "{front}{filling}\n")?;
        let why = if front.starts_with("scidump") {
            why_dump(alloc, text.as_bytes())
        } else {
            why_history(alloc, text.as_bytes())
        };
        same_at(rt, row, &words(alloc, why), &String::from_str(alloc, row.3));
    }
    Ok(())
}

#[test]
fn long_lines(rt: HostRuntime) -> Result<(), AllocError> {
    long_lines_are_told(&rt, rt.alloc())
}
