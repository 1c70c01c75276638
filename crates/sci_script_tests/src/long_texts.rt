//! Texts of more than 2,000 bytes, through writers that take little at a time or are interrupted: what arrives is the whole text.
use crate::checks::same;
use crate::paced::{After, Pace, Paced};
use crate::rows::check_on_all;
use crate::texts::run_text;
use sci_script::put;
use std::alloc::{AllocError, Global};
use std::test::Fail;

const PACES: [Pace; 7] = [
    Pace {
        most: 1,
        interruptions: 0,
    },
    Pace {
        most: 1,
        interruptions: 1,
    },
    Pace {
        most: 7,
        interruptions: 0,
    },
    Pace {
        most: 600,
        interruptions: 0,
    },
    Pace {
        most: 601,
        interruptions: 3,
    },
    Pace {
        most: usize::MAX,
        interruptions: 0,
    },
    Pace {
        most: usize::MAX,
        interruptions: 5_000,
    },
];

/// How many nodes load the line.
const READERS: u16 = 64;

/// A script in which they do, one after the other, and its text, of one line of 900 bytes and more than 2,000 in all.
fn readers(alloc: Global) -> Result<(String, String), AllocError> {
    let mut script = format!(in alloc; "memory {READERS} 1\n")?;
    let mut text = String::new(alloc);
    for node in 0..READERS {
        write!(script, "load {node} 0 0\ndone {node}\n")?;
        write!(text, "node {node} read 0 stamp 0\n")?;
    }
    script.push_str("list 0\n")?;
    write!(
        text,
        "line 0 FRESH {}: {} HEAD_FRESH",
        READERS - 1,
        READERS - 1
    )?;
    for node in (1..READERS - 1).rev() {
        write!(text, ", {node} MID_VALID")?;
    }
    text.push_str(", 0 TAIL_VALID\n")?;
    Ok((script, text))
}

#[test]
fn a_long_text_arrives(rt: HostRuntime) -> Result<(), Fail> {
    let (script, text) = readers(rt.alloc())?;
    assert!(rt; text.len() > 2_000);
    for pace in &PACES {
        let mut writer = Paced::new(rt.alloc(), pace, usize::MAX, After::Fails);
        same(&rt, &run_text(rt.alloc(), &script, &mut writer), &Ok(()));
        assert!(rt; writer.held.as_slice() == text.as_bytes());
        let mut writer = Paced::new(rt.alloc(), pace, usize::MAX, After::Fails);
        assert!(rt; put(&mut writer, text.as_bytes()).is_ok());
        assert!(rt; writer.held.as_slice() == text.as_bytes());
    }
    check_on_all(&rt, rt.alloc(), &"a long text", &script, None, &text)
}

/// As many bytes as a page of the longest script has in one piece, and more.
#[test]
fn a_long_piece_arrives(rt: HostRuntime) -> Result<(), Fail> {
    let piece = vec![in rt.alloc(); b'#'; 1_100_000]?;
    let mut out = Vec::new(rt.alloc());
    assert!(rt; put(&mut out, &piece).is_ok());
    assert!(rt; out.as_slice() == piece.as_slice());
    Ok(())
}
