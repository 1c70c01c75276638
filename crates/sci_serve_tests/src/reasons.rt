//! Why a text is refused, in words: settings by each of their rules, and one text of each kind.
use crate::checks::same_at;
use sci_script::ScriptRefusal;
use sci_serve::{Explanation, SimFault, Text, explained};
use sci_settings::why_settings;
use sci_work::WorkRefusal;
use std::alloc::{AllocError, Global};
use std::fmt::Display;

/// Settings, and why they are refused.
const SETTINGS: [(&str, &str); 28] = [
    ("", "no work"),
    (
        "work = \"x\"\n",
        "line 1: work = \"x\": stencil, ring or count wanted",
    ),
    (
        "work = 7\n",
        "line 1: work = 7: stencil, ring or count wanted",
    ),
    ("work = \"count\"\nadds = 1\n", "no nodes"),
    ("work = \"count\"\nnodes = 1\n", "no adds"),
    (
        "work = \"count\"\n\nnodes = 65\n",
        "line 3: nodes = 65: 1 to 64 wanted",
    ),
    (
        "work = \"count\"\nnodes = 0\n",
        "line 2: nodes = 0: 1 to 64 wanted",
    ),
    (
        "work = \"count\"\nnodes = 1.5\n",
        "line 2: nodes: 1 to 64 wanted, float found",
    ),
    (
        "work = \"count\"\nnodes = 1\nadds = -1\n",
        "line 3: adds = -1: 0 to 1000000 wanted",
    ),
    (
        "work = \"count\"\nnodes = 1\nadds = 1\ncapacity = 1025\n",
        "line 4: capacity = 1025: 1 to 1024 wanted",
    ),
    (
        "work = \"count\"\nnodes = 1\nadds = 1\ncapacity = 1\ndump = 1\n",
        "line 5: dump = 1: true or false wanted",
    ),
    (
        "work = \"ring\"\nlnes = 2\n",
        "line 2: no key \"lnes\"; is it lines?",
    ),
    (
        "work = \"count\"\nphases = 2\n",
        "line 2: no key \"phases\" of a count",
    ),
    (
        "work = \"ring\"\nlines = 1024\n",
        "line 2: lines = 1024: 1 to 1023 wanted",
    ),
    ("work = \"ring\"\nlines = 2\ncapacity = 1\n", "no items"),
    (
        "work = \"ring\"\nlines = 2\ncapacity = 1\nitems = 5\n",
        "line 4: items = 5: 0 to 100000 integers from 0 wanted",
    ),
    (
        "work = \"ring\"\nlines = 2\ncapacity = 1\nitems = [0, \"1\"]\n",
        "line 4: items: an integer from 0 wanted as value 2, \"1\" found",
    ),
    (
        "work = \"stencil\"\nnodes = 1\ncapacity = 1\nphases = 1000001\n",
        "line 4: phases = 1000001: 0 to 1000000 wanted",
    ),
    (
        "work = \"stencil\"\nnodes = 1\ncapacity = 1\nphases = 1\ncells = []\n",
        "line 5: cells: 7 to 3584 integers from 0, in tiles of seven, wanted, an array of 0 found",
    ),
    (
        "work = \"stencil\"\nnodes = 1\ncapacity = 1\nphases = 1\ncells = [-1, 0, 0, 0, 0, 0, 0]\n",
        "line 5: cells: an integer from 0 wanted as value 1, -1 found",
    ),
    (
        "work = \"stencil\"\nnodes = 1\ncapacity = 1\nphases = 1\ncells = \"0\"\n",
        "line 5: cells = \"0\": 7 to 3584 integers from 0, in tiles of seven, wanted",
    ),
    (
        "work = \"count\"\nwork = \"count\"\n",
        "line 2: duplicate key",
    ),
    (
        "work = \"count\"\n'nodes' = 65\n",
        "line 2: nodes = 65: 1 to 64 wanted",
    ),
    (
        "work = \"count\"\n[nodes]\n",
        "line 2: nodes: 1 to 64 wanted, table found",
    ),
    (
        "# hello\nwork = \"count\"\n\"\" = 1\n",
        "no key \"\" of a count",
    ),
    (
        "work = \"ring\"\nitems = [\n\"lines\",\n]\nlines = 5000\ncapacity = 1\n",
        "lines = 5000: 1 to 1023 wanted",
    ),
    (
        "work = \"stencil\"\nnodes = 1\ncapacity = 1\nphases = 1\ncells = [0, 0, 0, 0, 0, 0, 0, 0]\n",
        "line 5: cells: 7 to 3584 integers from 0, in tiles of seven, wanted, an array of 8 found",
    ),
    (
        "work = \"count\"\nnodes = 1\nadds = 1\ncapacity = 1\n",
        "no reason",
    ),
];

/// The words of a reason, if there is one.
fn words<T: Display + Drop>(alloc: Global, why: Option<T>) -> Result<String, AllocError> {
    match why {
        Some(reason) => format!(in alloc; "{reason}"),
        None => String::from_str(alloc, "no reason"),
    }
}

#[test]
fn reasons_of_settings(rt: HostRuntime) -> Result<(), AllocError> {
    for row in &SETTINGS {
        let found = words(rt.alloc(), why_settings(rt.alloc(), row.0.as_bytes())?)?;
        same_at(&rt, row, &found.as_str(), &row.1);
    }
    Ok(())
}

/// Settings are refused 22.
const UNFIT: SimFault = SimFault::NoRun(WorkRefusal::BadSettings);

/// A text, what it is, the fault of a command over it, and why.
const TEXTS: [(Text, SimFault, &str, &str); 9] = [
    (
        Text::Script,
        SimFault::Refused(ScriptRefusal::BadCommand(2)),
        "memory 1 1\nlode 0 0 0\n",
        "unknown command",
    ),
    (
        Text::Script,
        SimFault::Refused(ScriptRefusal::BadCommand(2)),
        "memory 2 1\ndone 1\n",
        "node 1 has no call open",
    ),
    (
        Text::Script,
        SimFault::CannotWrite,
        "memory 1 1\n",
        "no reason",
    ),
    (Text::Settings, UNFIT, "", "no work"),
    (
        Text::Settings,
        SimFault::NoRun(WorkRefusal::NoThread),
        "",
        "no reason",
    ),
    (
        Text::Dump,
        SimFault::NoDump(1),
        "scidump 2 0 1\n",
        "word 3: a number from 1 to 1024 wanted, 0 found",
    ),
    (
        Text::Dump,
        SimFault::Unlawful,
        "scidump 2 0 1\n",
        "no reason",
    ),
    (
        Text::History,
        SimFault::NoDump(1),
        "scihistory 2 1 1\n",
        "word 2: 1 wanted, 2 found",
    ),
    (
        Text::History,
        SimFault::CannotRead,
        "scihistory 2 1 1\n",
        "no reason",
    ),
];

fn told(
    alloc: Global,
    text: Text,
    fault: SimFault,
    input: &[u8],
) -> Result<Option<Explanation>, AllocError> {
    match text {
        Text::Script if input.len() > 1_048_576 => Ok(None),
        Text::Script => explained(alloc, Text::Script, fault, input),
        Text::Settings => explained(alloc, Text::Settings, fault, input),
        Text::Dump => explained(alloc, Text::Dump, fault, input),
        Text::History => explained(alloc, Text::History, fault, input),
    }
}

#[test]
fn reasons_of_texts(rt: HostRuntime) -> Result<(), AllocError> {
    for row in &TEXTS {
        let reason = told(rt.alloc(), row.0, row.1, row.2.as_bytes())?;
        let found = words(rt.alloc(), reason)?;
        same_at(&rt, row, &found.as_str(), &row.3);
    }
    Ok(())
}
