//! Pending steps as they are told: the stage, and the line that it keeps, where it keeps one.
use super::LINE;
use crate::checks::same;
use sci_core::Pending;
use std::test::Fail;

/// Steps, and how they are told.
const TOLD: [(Pending, &str); 4] = [
    (Pending::Idle, "Idle"),
    (
        Pending::Fetching {
            forw: None,
            dirty: true,
            line: LINE,
        },
        "Fetching { forw: None, dirty: true } with Line { words: [1, 2, 3, 4, 5, 6, 7, 8], stamp: 40 }",
    ),
    (
        Pending::InQueue {
            forw: None,
            dirty: true,
            copy: None,
        },
        "InQueue { forw: None, dirty: true, has_copy: false }",
    ),
    (
        Pending::InQueue {
            forw: None,
            dirty: true,
            copy: Some(LINE),
        },
        "InQueue { forw: None, dirty: true, has_copy: true } with Line { words: [1, 2, 3, 4, 5, 6, 7, 8], stamp: 40 }",
    ),
];

#[test]
fn steps_are_told_with_their_lines(rt: HostRuntime) -> Result<(), Fail> {
    for (step, text) in &TOLD {
        let told = format!(in rt.alloc(); "{step:?}")?;
        same(&rt, &told.as_str(), text);
    }
    Ok(())
}
