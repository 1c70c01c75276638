//! What a turn asks of the words that it loads.
ghost use Rattle.std.specs.Prelude.{◌≡◌, ◌&&◌, not};
ghost use Rattle.sci_core.specs.Found.{names, is_settled_body};
ghost use Rattle.sci_ops.specs.Table.{is_free, may_attach_fresh, may_attach_dirty, may_adopt, is_behind, is_before};

use sci_words::{Kind, NodeId, Tag};

/// The link names this node.
pub fn names(me: NodeId, link: &Option<NodeId>) -> bool
    ensures { result ≡ names me link.now }
{
    match link {
        Some(node) => node.get() == me.get(),
        None => false,
    }
}

// Of one of the kinds, and not held.
fn is_free(is_of_kind: bool, tag: &Tag) -> bool
    ensures { result ≡ (is_of_kind && not tag.now.held) }
{
    is_of_kind && !tag.held
}

/// Valid, and not held.
pub fn is_valid(tag: &Tag) -> bool
    ensures { result ≡ is_free is_settled_body tag.now }
{
    is_free(matches!(tag.kind, Kind::Valid), tag)
}

/// A Fresh head, whose bytes a clean newcomer has copied from memory.
pub fn may_attach_fresh(dirty: bool, has_copy: bool, tag: &Tag) -> bool
    ensures { result ≡ may_attach_fresh dirty has_copy tag.now }
{
    !dirty && has_copy && is_free(matches!(tag.kind, Kind::Fresh), tag)
}

/// A Dirty head, whose bytes a dirty newcomer has still to copy.
pub fn may_attach_dirty(dirty: bool, has_copy: bool, tag: &Tag) -> bool
    ensures { result ≡ may_attach_dirty dirty has_copy tag.now }
{
    dirty && !has_copy && is_free(matches!(tag.kind, Kind::Dirty), tag)
}

/// In Roll, with another node in front of it than this one.
pub fn may_adopt(me: NodeId, tag: &Tag) -> bool
    ensures { result ≡ may_adopt me tag.now }
{
    is_free(matches!(tag.kind, Kind::Roll), tag) && !names(me, &tag.back)
}

/// Valid, and behind this node.
pub fn is_behind(me: NodeId, tag: &Tag) -> bool
    ensures { result ≡ is_behind me tag.now }
{
    is_valid(tag) && names(me, &tag.back)
}

/// To be told its new successor, and in front of this node.
pub fn is_before(me: NodeId, tag: &Tag) -> bool
    ensures { result ≡ is_before me tag.now }
{
    let can_be_told = matches!(
        tag.kind,
        Kind::Fresh | Kind::Dirty | Kind::Valid | Kind::Purging | Kind::Leaving | Kind::Roll
    );
    is_free(can_be_told, tag) && names(me, &tag.forw)
}
