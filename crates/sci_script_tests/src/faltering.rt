//! Writers that falter, for ever or once: the fault is told at once, and nothing is written behind it.
use crate::checks::{same_at, same_bytes_at};
use crate::paced::{After, Pace, Paced};
use crate::texts::{SHARED, SHARERS, run_text};
use sci_script::{ScriptRefusal, put};

/// A writer that falters behind some bytes has them, and no more.
#[test]
fn a_failing_writer_has_a_front_of_the_text(rt: HostRuntime) {
    let text = SHARED.as_bytes();
    for after in [After::Fails, After::FailsOnce, After::TakesNoneOnce] {
        for most in [1, 2] {
            let pace = Pace {
                most,
                interruptions: 0,
            };
            for room in 0..text.len() {
                let row = (after, most, room);
                let mut writer = Paced::new(rt.alloc(), &pace, room, after);
                let end = run_text(rt.alloc(), SHARERS, &mut writer);
                same_at(&rt, &row, &end, &Err(ScriptRefusal::WriteFailed));
                same_bytes_at(&rt, &row, &writer.held, &text[..room]);
            }
        }
    }
    same_at(
        &rt,
        &"its number",
        &ScriptRefusal::WriteFailed.number(),
        &24,
    );
}

// Each write is tried 2,097,152 times, and the count begins anew behind it.
#[test]
fn writes_of_2_097_152_tries(rt: HostRuntime) {
    for (most, interruptions, is_written) in [
        (4, 2_097_151, true),
        (2, 1_200_000, true),
        (4, 2_097_152, false),
        (4, u32::MAX, false),
    ] {
        let pace = Pace {
            most,
            interruptions,
        };
        let mut writer = Paced::new(rt.alloc(), &pace, usize::MAX, After::Fails);
        let end = put(&mut writer, b"list");
        let left = (end.is_ok(), writer.held.len());
        let wanted = if is_written { (true, 4) } else { (false, 0) };
        same_at(&rt, &interruptions, &left, &wanted);
    }
}
