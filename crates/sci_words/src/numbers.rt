//! The numbers that kinds, states, bits and links have in their fields.
ghost use Rattle.std.specs.Prelude.{◌≡◌, ◌^◌, ◌<◌, ltb, Some, None, IfSome, IsTrue, if◌then◌else◌};
ghost use Rattle.sci_words.specs.Codes.{kind_number, kind_of, state_number, state_of};
ghost use Rattle.sci_words.specs.Layout.{link_width, no_link, link_code, link_of, bit};
ghost use Rattle.sci_words.specs.Tag.{link_below};

use crate::layouts::Layout;
use crate::memory::MemState;
use crate::nodes::NodeId;
use crate::tags::Kind;

/// The number of a kind.
pub(crate) fn number_of_kind(kind: Kind) -> u64
    ensures number { result ≡ kind_number kind }
    ensures below { result < 10 }
{
    match kind {
        Kind::Invalid => 0,
        Kind::Queued => 1,
        Kind::Fresh => 2,
        Kind::Dirty => 3,
        Kind::Convert => 4,
        Kind::Purging => 5,
        Kind::Leaving => 6,
        Kind::Valid => 7,
        Kind::Roll => 8,
        Kind::Purged => 9,
    }
}

/// The kind with this number, or `None` above 9.
pub(crate) fn kind_numbered(number: u64) -> Option<Kind>
    ensures kind { result ≡ (if ltb 9 number then None else Some (kind_of number)) }
    ensures number { IfSome result (λ kind. kind_number kind ≡ number) }
{
    Some(match number {
        0 => Kind::Invalid,
        1 => Kind::Queued,
        2 => Kind::Fresh,
        3 => Kind::Dirty,
        4 => Kind::Convert,
        5 => Kind::Purging,
        6 => Kind::Leaving,
        7 => Kind::Valid,
        8 => Kind::Roll,
        9 => Kind::Purged,
        _ => return None,
    })
}

/// The number of a state of memory.
pub(crate) fn number_of_state(state: MemState) -> u64
    ensures number { result ≡ state_number state }
    ensures below { result < 3 }
{
    match state {
        MemState::Home => 0,
        MemState::Fresh => 1,
        MemState::Gone => 2,
    }
}

/// The state of memory with this number, or `None` above 2.
pub(crate) fn state_numbered(number: u64) -> Option<MemState>
    ensures state { result ≡ (if ltb 2 number then None else Some (state_of number)) }
    ensures number { IfSome result (λ state. state_number state ≡ number) }
{
    Some(match number {
        0 => MemState::Home,
        1 => MemState::Fresh,
        2 => MemState::Gone,
        _ => return None,
    })
}

/// 1 for a bit that is set.
pub(crate) fn number_of_bit(is_set: bool) -> u64
    ensures number { result ≡ bit is_set }
    ensures below { result < 2 }
{
    if is_set { 1 } else { 0 }
}

/// The number of a link in its field, where the layout has room for that node.
#[inline(always)]
pub(crate) fn number_of_link(layout: Layout, link: Option<NodeId>) -> u64
    requires { IsTrue (link_below (no_link layout) link) }
    ensures number { result ≡ link_code layout link }
    ensures below { result < 2 ^ link_width layout }
{
    match link {
        Some(node) => node.get() as u64,
        None => layout.no_link(),
    }
}

/// The link with this number in its field.
#[inline(always)]
pub(crate) fn link_numbered(layout: Layout, number: u64) -> Option<NodeId>
    requires { number < 2 ^ link_width layout }
    ensures link { result ≡ link_of layout number }
    ensures number { link_code layout result ≡ number }
    ensures below { IsTrue (link_below (no_link layout) result) }
{
    if number == layout.no_link() {
        None
    } else {
        NodeId::new(number as u16)
    }
}
