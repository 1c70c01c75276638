//! The texts of faults, of results and of pages, and what settings say.
use crate::checks::{same, same_at, same_bytes_at};
use sci_script::ScriptRefusal;
use sci_serve::{SimFault, cells_text, count_text, items_text};
use sci_settings::{Settings, SettingsRefusal, read_settings};
use sci_trace::parts::{Coding, put_coded};
use sci_work::WorkRefusal;
use std::alloc::Global;
use std::test::Fail;

const FAULTS: [(SimFault, &str); 11] = [
    (SimFault::CannotRead, "cannot read"),
    (SimFault::CannotWrite, "cannot write"),
    (SimFault::InputTooLong, "refused 23"),
    (SimFault::Refused(ScriptRefusal::OutOfMemory), "refused 7"),
    (
        SimFault::Refused(ScriptRefusal::BadCommand(1)),
        "refused 16 at line 1",
    ),
    (
        SimFault::Refused(ScriptRefusal::BadNumber(20)),
        "refused 17 at line 20",
    ),
    (
        SimFault::Refused(ScriptRefusal::NotDone(300)),
        "refused 18 at line 300",
    ),
    (SimFault::NoDump(1), "refused 21 at line 1"),
    (SimFault::NoRun(WorkRefusal::BadSettings), "refused 22"),
    (SimFault::NoRun(WorkRefusal::StampsSpent), "refused 11"),
    (SimFault::NoRun(WorkRefusal::NoThread), "refused 26"),
];

#[test]
fn texts_and_statuses_of_faults(rt: HostRuntime) -> Result<(), Fail> {
    for (fault, text) in &FAULTS {
        let shown = format!(in rt.alloc(); "{fault}")?;
        same(&rt, &(shown.as_str(), fault.status()), &(*text, 1));
    }
    same(&rt, &SimFault::Unlawful.status(), &3);
    Ok(())
}

const GROWN: [u64; 21] = [
    0, 0, 0, 0, 0, 1, 5, 15, 30, 45, 51, 45, 30, 15, 5, 1, 0, 0, 0, 0, 0,
];

#[test]
fn texts_of_results(rt: HostRuntime) -> Result<(), Fail> {
    let alloc = rt.alloc();
    for (text, wanted) in [
        (
            cells_text(alloc, &GROWN)?,
            "cells 0 0 0 0 0 1 5 15 30 45 51 45 30 15 5 1 0 0 0 0 0\n",
        ),
        (
            items_text(alloc, &[0, 3, 18_446_744_073_709_551_615])?,
            "items 0 3 18446744073709551615\n",
        ),
        (items_text(alloc, &[])?, "items\n"),
        (count_text(alloc, 4000)?, "count 4000\n"),
    ] {
        same(&rt, &text.as_str(), &wanted);
    }
    Ok(())
}

/// Texts, and how pages of traces have them.
const ESCAPES: [(&str, &str); 9] = [
    ("", ""),
    ("FRESH 1: 1 ONLY_FRESH\n", "FRESH 1: 1 ONLY_FRESH\n"),
    ("<script>", "&lt;script&gt;"),
    ("a & b", "a &amp; b"),
    ("&lt;", "&amp;lt;"),
    ("\"'", "&quot;&#39;"),
    ("</pre>", "&lt;/pre&gt;"),
    ("# a\r\0\x7f\n", "# a&#13;&#65533;\x7f\n"),
    ("\u{e9}", "\u{e9}"),
];

#[test]
fn escapes(rt: HostRuntime) {
    for (text, escaped) in &ESCAPES {
        for (coding, wanted) in [(Coding::Escaped, escaped), (Coding::Plain, text)] {
            let mut out = Vec::new(rt.alloc());
            let end = put_coded(&mut out, coding, text.as_bytes());
            same_at(&rt, text, &end.is_ok(), &true);
            same_bytes_at(&rt, text, &out, wanted.as_bytes());
        }
    }
}

const STENCIL: &str = "work = \"stencil\"\nnodes = 3\ncapacity = 2\nphases = 5\n\
    cells = [0, 0, 0, 9223372036854775807, 0, 0, 7]\ndump = true\n";

const COUNT: &str = "work = \"count\"\nnodes = 4\nadds = 1000\ncapacity = 1\ndump = true\n";

const RING: &str =
    "work = \"ring\"\nlines = 2\ncapacity = 1\nitems = [0, 3, 6, 9223372036854775807]\ndump = true\n";

pub(crate) const SHORT_RING: &str = "work = \"ring\"\nlines = 2\ncapacity = 1\nitems = [0, 3, 6]\n";

/// Whether the settings are read as what they say.
pub(crate) fn are_read(alloc: Global, text: &str) -> Result<bool, SettingsRefusal> {
    Ok(match read_settings(alloc, text.as_bytes())? {
        Settings::Stencil {
            nodes: 3,
            capacity: 2,
            phases: 5,
            cells,
            dump: true,
        } => text == STENCIL
            && cells.as_slice() == [0, 0, 0, 9_223_372_036_854_775_807, 0, 0, 7].as_slice(),
        Settings::Ring {
            lines: 2,
            capacity: 1,
            items,
            dump,
        } => match items.as_slice() {
            [0, 3, 6] => text == SHORT_RING && !dump,
            [0, 3, 6, 9_223_372_036_854_775_807] => text == RING && dump,
            _ => false,
        },
        Settings::Count {
            nodes: 4,
            adds: 1000,
            capacity: 1,
            dump: true,
        } => text == COUNT,
        _ => false,
    })
}

/// `tools/statuses` has those at the limits, and those that are refused.
#[test]
fn settings_of_each_work(rt: HostRuntime) {
    for text in [STENCIL, RING, SHORT_RING, COUNT] {
        same_at(&rt, &text, &are_read(rt.alloc(), text), &Ok(true));
    }
    let refusal = Err(SettingsRefusal::BadSettings);
    for text in ["", "work =", "work = \"count\"\n"] {
        same_at(&rt, &text, &are_read(rt.alloc(), text), &refusal);
    }
}
