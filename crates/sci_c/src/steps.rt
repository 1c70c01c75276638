//! The numbers of pending steps.
ghost use Rattle.std.specs.Prelude.{◌≡◌, ◌↔◌, true, false, IsTrue, MatchOption, Option};
ghost use Rattle.sci_core.specs.declared.stages.Stage as a_stage;
ghost use Rattle.sci_c.specs.Links.{fits_tag};
ghost use Rattle.sci_c.specs.Steps.{plain, keeping, seeing, saw_link, saw_links, seen_meant, pair_meant, fits_seen, fits_pair, fits_step, stage_meant, IsStep};

use crate::links::{bit, link_meant, link_number, node_meant, node_number, tag_meant, tag_number};
use sci_core::Stage;
use sci_words::{NodeId, Tag};

/// A pending step, but for its line, in numbers. What a step doesn't have is 0, so an Idle one is all zeros.
#[repr(C)]
#[derive(Clone, Copy, Debug, PartialEq, Eq)]
pub struct StepNumbers {
    /// Which step: 0 Idle, 1 Holding, 2 Queueing, 3 Fetching, 4 InQueue, 5 Copying, 6 Ready, 7 Converting, 8 Purging, 9 Advancing,
    /// 10 Clearing, 11 Leaving, 12 Promoted, 13 WritingBack, 14 Parted, 15 Rolling, 16 Unlinked.
    pub step: u8,
    /// 1 where it is dirty, turned or told.
    pub flag: u8,
    /// 1 where it has a copy, or has seen its own links.
    pub has: u8,
    /// The forward link, the victim or the successor that it keeps. 65,535: no link.
    pub kept: u16,
    /// The forward link that it has seen. 65,535: no link.
    pub forw: u16,
    /// The back link that it has seen, or keeps.
    pub back: u16,
    /// The code of the tag that it keeps, in layout 2.
    pub word: u64,
}

// A step that keeps no tag and has seen nothing.
fn plain(step: u8, flag: u8, kept: u16) -> StepNumbers
    ensures { result ≡ plain step flag kept }
{
    StepNumbers {
        step,
        flag,
        has: 0,
        kept,
        forw: 0,
        back: 0,
        word: 0,
    }
}

// A step that keeps a tag, where that is well formed.
fn keeping(step: u8, kept: u16, word: &Tag) -> Option<StepNumbers>
    ensures { MatchOption result (fits_tag word.now ≡ false) (λ n. (fits_tag word.now ≡ true) × (n ≡ keeping step kept word.now)) }
{
    match tag_number(word) {
        Some(word) => Some(StepNumbers {
            word,
            ..plain(step, 0, kept)
        }),
        None => None,
    }
}

// A step that has seen its own links.
fn seeing(step: u8, flag: u8, forw: u16, back: u16) -> StepNumbers
    ensures { result ≡ seeing step flag forw back }
{
    StepNumbers {
        has: 1,
        forw,
        back,
        ..plain(step, flag, 0)
    }
}

// A step that may have seen its own forward link.
fn saw_link(step: u8, flag: u8, seen: &Option<Option<NodeId>>) -> StepNumbers
    ensures numbers { result ≡ saw_link step flag seen.now }
    ensures fits { fits_seen seen.now ≡ true }
{
    match seen {
        Some(forw) => seeing(step, flag, link_number(*forw), 0),
        None => plain(step, flag, 0),
    }
}

// A step that may have seen both its own links.
fn saw_links(step: u8, flag: u8, seen: &Option<(Option<NodeId>, NodeId)>) -> StepNumbers
    ensures numbers { result ≡ saw_links step flag seen.now }
    ensures fits { fits_pair seen.now ≡ true }
{
    match seen {
        Some((forw, back)) => seeing(step, flag, link_number(*forw), node_number(*back)),
        None => plain(step, flag, 0),
    }
}

/// The numbers of a step, where it keeps no tag that is ill formed.
pub fn write_step(stage: &Stage) -> Option<StepNumbers>
    ensures { MatchOption result (fits_step stage.now ≡ false) (λ n. IsStep n stage.now) }
{
    match stage {
        Stage::Idle => Some(plain(0, 0, 0)),
        Stage::Holding { word } => keeping(1, 0, word),
        Stage::Queueing { forw } => Some(plain(2, 0, link_number(*forw))),
        Stage::Fetching { forw, dirty } => Some(plain(3, bit(*dirty), link_number(*forw))),
        Stage::InQueue {
            forw,
            dirty,
            has_copy,
        } => {
            let has = bit(*has_copy);
            let numbers = plain(4, bit(*dirty), link_number(*forw));
            Some(StepNumbers { has, ..numbers })
        }
        Stage::Copying { forw, word } => keeping(5, node_number(*forw), word),
        Stage::Ready { forw, dirty } => Some(plain(6, bit(*dirty), link_number(*forw))),
        Stage::Converting { forw, turned } => Some(plain(7, bit(*turned), link_number(*forw))),
        Stage::Purging { seen } => Some(saw_link(8, 0, seen)),
        Stage::Advancing { victim, word } => keeping(9, node_number(*victim), word),
        Stage::Clearing { victim, word } => keeping(10, node_number(*victim), word),
        Stage::Leaving { dirty, seen } => Some(saw_link(11, bit(*dirty), seen)),
        Stage::Promoted { dirty, succ } => Some(plain(12, bit(*dirty), node_number(*succ))),
        Stage::WritingBack => Some(plain(13, 0, 0)),
        Stage::Parted { forw } => Some(plain(14, 0, link_number(*forw))),
        Stage::Rolling { told, seen } => Some(saw_links(15, bit(*told), seen)),
        Stage::Unlinked { forw, back } => {
            let back = node_number(*back);
            let numbers = plain(16, 0, link_number(*forw));
            Some(StepNumbers { back, ..numbers })
        }
    }
}

// What a step has seen of its own forward link.
fn seen_meant(numbers: &StepNumbers) -> Option<Option<NodeId>>
    ensures { result ≡ seen_meant numbers.now }
{
    if numbers.has == 1 {
        Some(link_meant(numbers.forw))
    } else {
        None
    }
}

// What a step has seen of both its own links.
fn pair_meant(numbers: &StepNumbers) -> Option<(Option<NodeId>, NodeId)>
    ensures { result ≡ pair_meant numbers.now }
{
    if numbers.has == 1 {
        Some((link_meant(numbers.forw), node_meant(numbers.back)))
    } else {
        None
    }
}

// The only step that can have these numbers, if one has, from the tag that it would keep.
fn stage_meant(numbers: &StepNumbers, word: Tag) -> Stage
    ensures { result ≡ stage_meant numbers.now word }
{
    let kept = link_meant(numbers.kept);
    let node = node_meant(numbers.kept);
    let flag = numbers.flag == 1;
    match numbers.step {
        0 => Stage::Idle,
        1 => Stage::Holding { word },
        2 => Stage::Queueing { forw: kept },
        3 => Stage::Fetching {
            forw: kept,
            dirty: flag,
        },
        4 => Stage::InQueue {
            forw: kept,
            dirty: flag,
            has_copy: numbers.has == 1,
        },
        5 => Stage::Copying { forw: node, word },
        6 => Stage::Ready {
            forw: kept,
            dirty: flag,
        },
        7 => Stage::Converting {
            forw: kept,
            turned: flag,
        },
        8 => Stage::Purging {
            seen: seen_meant(numbers),
        },
        9 => Stage::Advancing { victim: node, word },
        10 => Stage::Clearing { victim: node, word },
        11 => Stage::Leaving {
            dirty: flag,
            seen: seen_meant(numbers),
        },
        12 => Stage::Promoted {
            dirty: flag,
            succ: node,
        },
        13 => Stage::WritingBack,
        14 => Stage::Parted { forw: kept },
        15 => Stage::Rolling {
            told: flag,
            seen: pair_meant(numbers),
        },
        _ => Stage::Unlinked {
            forw: kept,
            back: node_meant(numbers.back),
        },
    }
}

// Whether these are the numbers of this step.
fn is_step(numbers: &StepNumbers, stage: &Stage) -> bool
    ensures { IsTrue result ↔ IsStep numbers.now stage.now }
{
    match write_step(stage) {
        Some(own) => own == *numbers,
        None => false,
    }
}

/// The step that has these numbers, where one has. No two have the same.
pub fn read_step(numbers: &StepNumbers) -> Option<Stage>
    ensures step { MatchOption result ((s : a_stage.Stage) → IsStep numbers.now s → ⊥) (λ s. IsStep numbers.now s) }
    ensures one { (s t : a_stage.Stage) → IsStep numbers.now s → IsStep numbers.now t → s ≡ t }
{
    let stage = stage_meant(numbers, tag_meant(numbers.word));
    if is_step(numbers, &stage) {
        Some(stage)
    } else {
        None
    }
}
