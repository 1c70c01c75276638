//! Dumps that are judged line by line: what is written, how that ends, and why.
use crate::checks::{same_at, same_bytes_at};
use crate::rows::{DUMP, HELD, LAWFUL};
use crate::slow::Slow;
use sci_serve::{
    Explanation, SimFault, Text, explained, serve_check, serve_check_large, serve_check_large_told,
};
use std::alloc::{AllocError, Global};
use std::io::{BufReader, sink};
use std::process::Abort;

#[cfg(test)]
mod growths;

const TWO: &str = "scidump 1 3 2\n\
    line 0 0000000000000201 0 0 0 0 0 0 0 0 0\n\
    tag 0 0 000000000001ff07 0 0 0 0 0 0 0 0 0\n\
    tag 0 1 0000000000020007 0 0 0 0 0 0 0 0 0\n\
    tag 0 2 0000000000ff0102 0 0 0 0 0 0 0 0 0\n\
    line 1 000000000000ff00 0 0 0 0 0 0 0 0 0\n\
    end\n";

/// The same, with a sharer of line 1 that is on no list.
const SECOND_UNLAWFUL: &str = "scidump 1 3 2\n\
    line 0 0000000000000201 0 0 0 0 0 0 0 0 0\n\
    tag 0 0 000000000001ff07 0 0 0 0 0 0 0 0 0\n\
    tag 0 1 0000000000020007 0 0 0 0 0 0 0 0 0\n\
    tag 0 2 0000000000ff0102 0 0 0 0 0 0 0 0 0\n\
    line 1 000000000000ff00 0 0 0 0 0 0 0 0 0\n\
    tag 1 1 0000000000ff0102 0 0 0 0 0 0 0 0 0\n\
    end\n";

/// The first line is unlawful, and the second isn't there.
const UNLAWFUL_AND_CUT: &str = "scidump 1 3 2\n\
    line 0 0000000000000201 0 0 0 0 0 0 0 0 0\n\
    tag 0 0 000000000001ff07 0 0 0 0 0 0 0 0 0\n\
    tag 0 1 0000000000020007 0 0 0 0 0 0 0 0 0\n\
    tag 0 2 0000000000ff0112 0 0 0 0 0 0 0 0 0\n\
    end\n";

/// A row that belongs to line 1, and text behind the end.
const OTHERS_ROW: &str = "scidump 1 3 1\n\
    line 0 0000000000000201 0 0 0 0 0 0 0 0 0\n\
    tag 1 0 000000000001ff07 0 0 0 0 0 0 0 0 0\n\
    end\n";

const BEHIND: &str = "scidump 1 1 1\n\
    line 0 000000000000ff00 0 0 0 0 0 0 0 0 0\n\
    end\n\
    \n";

const NO_END: &str = "scidump 1 1 1\n\
    line 0 000000000000ff00 0 0 0 0 0 0 0 0 0\n\
    end";

/// What is read, the fault if there is one, and what is written.
type Row = (&'static str, Option<SimFault>, &'static str);

const ROWS: [Row; 10] = [
    (DUMP, None, LAWFUL),
    (
        TWO,
        None,
        "line 0 FRESH 2: 2 HEAD_FRESH, 1 MID_VALID, 0 TAIL_VALID\nline 1 HOME\nlawful\n",
    ),
    (HELD, Some(SimFault::Unlawful), "line 0 breaks C1\n"),
    (
        SECOND_UNLAWFUL,
        Some(SimFault::Unlawful),
        "line 0 FRESH 2: 2 HEAD_FRESH, 1 MID_VALID, 0 TAIL_VALID\nline 1 breaks C3\n",
    ),
    (
        UNLAWFUL_AND_CUT,
        Some(SimFault::NoDump(6)),
        "line 0 breaks C1\n",
    ),
    (OTHERS_ROW, Some(SimFault::NoDump(3)), "line 0 breaks C3\n"),
    (BEHIND, Some(SimFault::NoDump(4)), "line 0 HOME\n"),
    (NO_END, Some(SimFault::NoDump(3)), "line 0 HOME\n"),
    ("", Some(SimFault::NoDump(1)), ""),
    ("scidump 1 3 1", Some(SimFault::NoDump(1)), ""),
];

/// The fault of a text, and why, are those of the whole.
fn judged_as_the_whole(rt: &impl Abort, alloc: Global, input: &[u8]) -> Result<(), AllocError> {
    let mut reader = input;
    let (end, why) = match serve_check_large_told(alloc, &mut reader, &mut sink()) {
        Ok(()) => (None, None),
        Err((fault, why)) => (Some(fault), why),
    };
    let mut whole = Slow::new(input, false);
    let fault = serve_check(alloc, &mut whole, &mut sink()).err();
    same_at(rt, &input, &fault, &end);
    let Some(fault) = fault else {
        return Ok(());
    };
    let reason = explained(alloc, Text::Dump, fault, input)?;
    same_at(rt, &input, &why.map(Explanation::Row), &reason);
    Ok(())
}

/// The verdict is the same over a reader that gives a byte at a time, and is interrupted before each.
fn judged_slowly(rt: &impl Abort, alloc: Global, row: &Row) -> Result<(), AllocError> {
    let (input, fault, written) = row;
    let slow = Slow::new(input.as_bytes(), true);
    let mut reader = BufReader::with_capacity(alloc, 3, slow).map_err(|_| AllocError)?;
    let mut out = Vec::new(alloc);
    let end = serve_check_large(alloc, &mut reader, &mut out).err();
    same_at(rt, input, &end, fault);
    same_bytes_at(rt, input, &out, written.as_bytes());
    Ok(())
}

/// The end of a text is read once, wherever it stands: at a terminal one key says it.
#[test]
fn ends_read_once(rt: HostRuntime) -> Result<(), AllocError> {
    let text = SECOND_UNLAWFUL.as_bytes();
    for end in 0..=text.len() {
        let mut slow = Slow::new(&text[..end], false);
        let mut reader = BufReader::with_capacity(rt.alloc(), 3, &mut slow).map_err(
            |_| AllocError,
        )?;
        let _ = serve_check_large(rt.alloc(), &mut reader, &mut sink());
        drop(reader);
        same_at(&rt, &end, &slow.reads, &(end + 1));
    }
    Ok(())
}

#[test]
fn judged_from_slow_readers(rt: HostRuntime) -> Result<(), AllocError> {
    for row in &ROWS {
        judged_slowly(&rt, rt.alloc(), row)?;
    }
    Ok(())
}

#[test]
fn judged_line_by_line(rt: HostRuntime) -> Result<(), AllocError> {
    for (input, fault, written) in &ROWS {
        let mut reader = input.as_bytes();
        let mut out = Vec::new(rt.alloc());
        let end = serve_check_large(rt.alloc(), &mut reader, &mut out).err();
        same_at(&rt, input, &end, fault);
        same_bytes_at(&rt, input, &out, written.as_bytes());
        judged_as_the_whole(&rt, rt.alloc(), input.as_bytes())?;
    }
    Ok(())
}

#[test]
fn long_lines_judged_as_the_whole(rt: HostRuntime) -> Result<(), AllocError> {
    for length in [1022, 1023, 1024, 5000] {
        let mut text = Vec::new(rt.alloc());
        text.extend_from_slice(b"scidump 1 1 1\n")?;
        for _ in 0..length {
            text.push(b'x')?;
        }
        text.push(b'\n')?;
        judged_as_the_whole(&rt, rt.alloc(), &text)?;
    }
    Ok(())
}

#[test]
fn fronts_judged_as_the_whole(rt: HostRuntime) -> Result<(), AllocError> {
    let text = SECOND_UNLAWFUL.as_bytes();
    for end in 0..text.len() {
        judged_as_the_whole(&rt, rt.alloc(), &text[..end])?;
    }
    Ok(())
}
