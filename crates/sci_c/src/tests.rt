//! The numbers of all steps, and those at the edges that are refused.
use crate::events::EventNumbers;
use crate::lines::LineNumbers;
use crate::rows::RowNumbers;
use crate::steps::StepNumbers;
use crate::table::{sci_allows, sci_check_event, sci_check_step, sci_exchange, sci_look};
use crate::words::{
    MemNumbers, TagNumbers, sci_read_mem, sci_read_mem_layout1, sci_read_tag, sci_read_tag_layout1,
    sci_write_mem, sci_write_mem_layout1, sci_write_tag, sci_write_tag_layout1,
};

const ZERO: LineNumbers = LineNumbers {
    words: [0; 8],
    stamp: 0,
};

const IDLE: StepNumbers = StepNumbers {
    step: 0,
    flag: 0,
    has: 0,
    kept: 0,
    forw: 0,
    back: 0,
    word: 0,
};

// Valid, forward 0, back 2; Purged, forward none, back 1; Fresh, no links.
const VALID: u64 = 0x2_0000_0007;

const PURGED: u64 = 0x1_ffff_0009;

const FRESH: u64 = 0xffff_ffff_0002;

fn step(step: u8, flags: [u8; 2], links: [u16; 3], word: u64) -> StepNumbers {
    StepNumbers {
        step,
        flag: flags[0],
        has: flags[1],
        kept: links[0],
        forw: links[1],
        back: links[2],
        word,
    }
}

fn event(event: u8, has: u8, link: u16, found: u64) -> EventNumbers {
    EventNumbers {
        event,
        has,
        link,
        found,
        words: [0; 8],
    }
}

#[test]
fn all_steps_and_no_others(rt: HostRuntime) {
    for (numbers, answer) in [
        // each of the seventeen, with the least and the greatest that its fields hold
        (IDLE, 0),
        (step(1, [0, 0], [0, 0, 0], VALID), 0),
        (step(2, [0, 0], [65535, 0, 0], 0), 0),
        (step(3, [1, 0], [65534, 0, 0], 0), 0),
        (step(4, [1, 1], [0, 0, 0], 0), 0),
        (step(5, [0, 0], [3, 0, 0], VALID), 0),
        (step(6, [1, 0], [65535, 0, 0], 0), 0),
        (step(7, [1, 0], [5, 0, 0], 0), 0),
        (step(8, [0, 1], [0, 65535, 0], 0), 0),
        (step(9, [0, 0], [1, 0, 0], PURGED), 0),
        (step(10, [0, 0], [65534, 0, 0], PURGED), 0),
        (step(11, [1, 1], [0, 7, 0], 0), 0),
        (step(12, [1, 0], [7, 0, 0], 0), 0),
        (step(13, [0, 0], [0, 0, 0], 0), 0),
        (step(14, [0, 0], [65535, 0, 0], 0), 0),
        (step(15, [1, 1], [0, 65535, 65534], 0), 0),
        (step(16, [0, 0], [65535, 0, 4], 0), 0),
        // no such step; what the step hasn't; a flag above 1; no node; a word that is none
        (step(17, [0, 0], [0, 0, 0], 0), 28),
        (step(255, [0, 0], [0, 0, 0], 0), 28),
        (step(0, [0, 0], [1, 0, 0], 0), 28),
        (step(13, [1, 0], [0, 0, 0], 0), 28),
        (step(3, [2, 0], [0, 0, 0], 0), 28),
        (step(8, [0, 0], [0, 65535, 0], 0), 28),
        (step(12, [0, 0], [65535, 0, 0], 0), 28),
        (step(15, [0, 1], [0, 0, 65535], 0), 28),
        (step(9, [0, 0], [1, 0, 0], 0), 28),
    ] {
        assert!(rt; sci_check_step(&numbers) == answer, "at {numbers:?}");
    }
}

#[test]
fn events_at_the_edges(rt: HostRuntime) {
    for (numbers, answer) in [
        (event(34, 0, 0, 0), 0),
        (event(35, 0, 0, 0), 29),
        (event(1, 0, 65535, 0), 0),
        (event(6, 0, 65535, 0), 29),
        (event(9, 0, 0, FRESH), 0),
        (event(9, 0, 0, 0), 29),
        (event(14, 1, 0, 0), 0),
        (event(14, 2, 0, 0), 29),
    ] {
        assert!(rt; sci_check_event(&numbers) == answer, "at {numbers:?}");
    }
}

#[test]
fn who_asks_of_how_many(rt: HostRuntime) {
    for (me, nodes, head, answer) in [
        (0, 1, 65535, 0),
        (1023, 1024, 1023, 0),
        (0, 3, 3, 8),
        (0, 0, 65535, 6),
        (0, 1025, 65535, 6),
        (3, 3, 65535, 27),
    ] {
        let queue = event(1, 0, head, 0);
        assert!(rt;
            sci_allows(me, nodes, &IDLE, &ZERO, &queue) == answer,
            "node {me} of {nodes}"
        );
    }
}

#[test]
fn a_row_a_look_and_a_word(rt: HostRuntime) {
    let mut row = RowNumbers {
        word: 9,
        carry: 9,
        answers: 9,
        slot: 9,
        before: 9,
        after: 9,
        step: IDLE,
    };
    // node 1 converts: Fresh, no links, to Convert; no slot moves
    let converts = RowNumbers {
        word: 1,
        carry: 0,
        answers: 0,
        slot: 0,
        before: FRESH,
        after: 0xffff_ffff_0004,
        step: step(7, [0, 0], [65535, 0, 0], 0),
    };
    let answer = sci_exchange(1, 3, &IDLE, &ZERO, &event(9, 0, 0, FRESH), &mut row);
    assert!(rt; answer == 0 && row == converts);
    // a victim that isn't of the line
    let clearing = step(10, [0, 0], [3, 0, 0], PURGED);
    let answer = sci_exchange(1, 3, &clearing, &ZERO, &event(20, 0, 0, 0), &mut row);
    assert!(rt; answer == 30 && row == converts);
    let mut purging = step(8, [0, 0], [0, 0, 0], 0);
    let answer = sci_look(&mut purging, 0xffff_0002_0005);
    assert!(rt; answer == 0 && purging == step(8, [0, 1], [0, 2, 0], 0));
    let mut tag = TagNumbers {
        kind: 0,
        held: 0,
        forw: 0,
        back: 0,
    };
    let mut word = 0;
    let answers = [
        sci_read_tag(VALID, &mut tag),
        sci_write_tag(&tag, &mut word),
    ];
    assert!(rt; answers == [0, 0] && word == VALID && tag.back == 2);
}

fn tag(kind: u8, held: u8, forw: u16, back: u16) -> TagNumbers {
    TagNumbers {
        kind,
        held,
        forw,
        back,
    }
}

fn mem(state: u8, lent: u8, forw: u16) -> MemNumbers {
    MemNumbers { state, lent, forw }
}

// Parts of a tag, its codes in layouts 1 and 2, and the answers of both writers.
fn tag_rows() -> [(TagNumbers, [u64; 2], [u8; 2]); 7] {
    [
        (tag(7, 0, 0, 2), [0x2_0007, 0x2_0000_0007], [0, 0]),
        (tag(9, 0, 65535, 254), [0xfe_ff09, 0xfe_ffff_0009], [0, 0]),
        (
            tag(2, 1, 65535, 65535),
            [0xff_ff12, 0xffff_ffff_0012],
            [0, 0],
        ),
        (tag(2, 0, 255, 65535), [0, 0xffff_00ff_0002], [2, 0]),
        (tag(10, 2, 65535, 65535), [0, 0], [1, 1]),
        (tag(7, 2, 65535, 65535), [0, 0], [2, 2]),
        (tag(7, 0, 65535, 65535), [0, 0], [3, 3]),
    ]
}

#[test]
fn tags_in_both_layouts(rt: HostRuntime) {
    for (parts, codes, answers) in tag_rows() {
        let mut words = [0; 2];
        let found = [
            sci_write_tag_layout1(&parts, &mut words[0]),
            sci_write_tag(&parts, &mut words[1]),
        ];
        assert!(rt; found == answers && words == codes, "at {parts:?}");
        let mut read = [parts; 2];
        let found = [
            sci_read_tag_layout1(codes[0], &mut read[0]),
            sci_read_tag(codes[1], &mut read[1]),
        ];
        let is_read = answers != [0, 0] || found == [0, 0];
        assert!(rt; is_read && read == [parts; 2], "reading {parts:?}");
    }
}

#[test]
fn memory_words_in_both_layouts(rt: HostRuntime) {
    for (parts, codes, answers) in [
        (mem(0, 0, 65535), [0xff00, 0xffff_0000], [0, 0]),
        (mem(2, 1, 254), [0xfe12, 0xfe_0012], [0, 0]),
        (mem(1, 0, 255), [0, 0xff_0001], [2, 0]),
        (mem(3, 2, 0), [0, 0], [1, 1]),
        (mem(1, 2, 0), [0, 0], [2, 2]),
        (mem(1, 0, 65535), [0, 0], [3, 3]),
        (mem(0, 0, 254), [0, 0], [4, 4]),
    ] {
        let mut words = [0; 2];
        let found = [
            sci_write_mem_layout1(&parts, &mut words[0]),
            sci_write_mem(&parts, &mut words[1]),
        ];
        assert!(rt; found == answers && words == codes, "at {parts:?}");
        let mut read = [parts; 2];
        let found = [
            sci_read_mem_layout1(codes[0], &mut read[0]),
            sci_read_mem(codes[1], &mut read[1]),
        ];
        let is_read = answers != [0, 0] || found == [0, 0];
        assert!(rt; is_read && read == [parts; 2], "reading {parts:?}");
    }
}
