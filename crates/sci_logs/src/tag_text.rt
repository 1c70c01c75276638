//! The tag that a line of a log tells: by its name, or by its code.

ghost use Rattle.std.specs.Prelude.{◌≡◌, IfSome};
ghost use Rattle.sci_dump.specs.Reading.{Reads};
ghost use Rattle.sci_logs.specs.Names.{exact_at, first_of, found_at, name_at, other_name_at, sample, settled_name_at, tag_of};

use crate::told::Found;
use sci_dump::fields::{behind, word};
use sci_words::{Kind, NodeId, Tag, read_tag};

/// A tag of this kind, and whether an entry follows, where its name tells that.
fn sample(kind: Kind, is_followed: bool) -> Tag
    ensures { result ≡ sample kind is_followed }
{
    let forw = if is_followed { NodeId::new(0) } else { None };
    Tag {
        kind,
        held: false,
        forw,
        back: None,
    }
}

/// The name of a settled tag, which tells whether an entry follows.
#[tactic(auto, unfolding(crate::specs::Names::settled_name_at))]
fn settled_name(text: &[u8]) -> Option<(Tag, &[u8])>
    ensures { Reads (λ x. (x.0, x.1.now)) result (settled_name_at text.now) }
{
    if let Some(rest) = behind(b"HEAD_FRESH", text) {
        return Some((sample(Kind::Fresh, true), rest));
    }
    if let Some(rest) = behind(b"ONLY_FRESH", text) {
        return Some((sample(Kind::Fresh, false), rest));
    }
    if let Some(rest) = behind(b"HEAD_DIRTY", text) {
        return Some((sample(Kind::Dirty, true), rest));
    }
    if let Some(rest) = behind(b"ONLY_DIRTY", text) {
        return Some((sample(Kind::Dirty, false), rest));
    }
    if let Some(rest) = behind(b"MID_VALID", text) {
        return Some((sample(Kind::Valid, true), rest));
    }
    if let Some(rest) = behind(b"TAIL_VALID", text) {
        return Some((sample(Kind::Valid, false), rest));
    }
    None
}

/// The name of another tag.
#[tactic(auto, unfolding(crate::specs::Names::other_name_at))]
fn other_name(text: &[u8]) -> Option<(Tag, &[u8])>
    ensures { Reads (λ x. (x.0, x.1.now)) result (other_name_at text.now) }
{
    if let Some(rest) = behind(b"ROLL", text) {
        return Some((sample(Kind::Roll, false), rest));
    }
    if let Some(rest) = behind(b"PURGED", text) {
        return Some((sample(Kind::Purged, false), rest));
    }
    if let Some(rest) = behind(b"PURGING", text) {
        return Some((sample(Kind::Purging, false), rest));
    }
    if let Some(rest) = behind(b"CONVERT", text) {
        return Some((sample(Kind::Convert, false), rest));
    }
    if let Some(rest) = behind(b"LEAVING", text) {
        return Some((sample(Kind::Leaving, false), rest));
    }
    if let Some(rest) = behind(b"QUEUED", text) {
        return Some((sample(Kind::Queued, false), rest));
    }
    if let Some(rest) = behind(b"INVALID", text) {
        return Some((sample(Kind::Invalid, false), rest));
    }
    None
}

/// A tag that has the name that stands here.
fn any_name(text: &[u8]) -> Option<(Tag, &[u8])>
    ensures { Reads (λ x. (x.0, x.1.now)) result (first_of (settled_name_at text.now) (other_name_at text.now)) }
{
    if let Some(named) = settled_name(text) {
        return Some(named);
    }
    other_name(text)
}

/// A tag's name.
#[tactic(auto, unfolding(crate::specs::Names::name_at))]
fn name(text: &[u8]) -> Option<(Found, &[u8])>
    ensures { Reads (λ x. (x.0, x.1.now)) result (name_at text.now) }
{
    match any_name(text) {
        Some((named, rest)) => Some((Found::Named(named), rest)),
        None => None,
    }
}

/// The tag with this code in layout 2.
#[tactic(auto, using(crate::proofs::Standing::tag_coded, crate::proofs::Standing::tag_refused))]
fn tag(word: u64) -> Option<Tag>
    ensures { result ≡ tag_of word }
{
    match read_tag(word) {
        Ok(tag) => Some(tag),
        Err(_) => None,
    }
}

/// A tag's code in 16 digits.
#[tactic(auto, unfolding(crate::specs::Names::exact_at))]
fn exact(text: &[u8]) -> Option<(Found, &[u8])>
    ensures { Reads (λ x. (x.0, x.1.now)) result (exact_at text.now) }
{
    let (word, rest) = word(text)?;
    match tag(word) {
        Some(tag) => Some((Found::Exactly(tag), rest)),
        None => None,
    }
}

/// The tag that is asked for.
#[tactic(auto, unfolding(crate::specs::Names::found_at))]
pub(crate) fn asked(text: &[u8]) -> Option<(Found, &[u8])>
    ensures { Reads (λ x. (x.0, x.1.now)) result (found_at text.now) }
{
    if let Some(named) = name(text) {
        return Some(named);
    }
    exact(text)
}
