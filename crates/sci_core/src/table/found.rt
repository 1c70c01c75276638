//! What a row asks of the tag that its event found.
ghost use Rattle.std.specs.Prelude.{◌≡◌, ◌&&◌, not};
ghost use Rattle.sci_words.specs.Tag.{link_below, tag_well_formed};
ghost use Rattle.sci_core.specs.Found.{names, is_fresh, is_dirty, is_settled_front, is_settled_body, is_settled, is_rolling, can_be_told, is_found};

use sci_words::{Kind, NodeId, Tag};

/// The link names a node of the line, or none.
#[inline]
pub fn is_below(nodes: u16, link: &Option<NodeId>) -> bool
    ensures { result ≡ link_below nodes link.now }
{
    match link {
        Some(node) => node.get() < nodes,
        None => true,
    }
}

/// The link names this node.
#[inline]
pub fn names(me: NodeId, link: &Option<NodeId>) -> bool
    ensures { result ≡ names me link.now }
{
    match link {
        Some(node) => node.get() == me.get(),
        None => false,
    }
}

// An event may carry this word: it is well formed and not held.
#[inline]
fn may_be_carried(tag: &Tag) -> bool
    ensures { result ≡ (not tag.now.held && tag_well_formed tag.now) }
{
    !tag.held && tag.well_formed()
}

/// The tag was found Fresh.
#[inline]
pub fn fresh(tag: &Tag) -> bool
    ensures { result ≡ is_found is_fresh tag.now }
{
    matches!(tag.kind, Kind::Fresh) && may_be_carried(tag)
}

/// The tag was found Dirty.
#[inline]
pub fn dirty(tag: &Tag) -> bool
    ensures { result ≡ is_found is_dirty tag.now }
{
    is_dirty(tag) && may_be_carried(tag)
}

/// The tag is Dirty.
#[inline]
pub fn is_dirty(tag: &Tag) -> bool
    ensures { result ≡ is_dirty tag.now.kind }
{
    matches!(tag.kind, Kind::Dirty)
}

/// The tag was found Fresh or Dirty.
#[inline]
pub fn settled_front(tag: &Tag) -> bool
    ensures { result ≡ is_found is_settled_front tag.now }
{
    matches!(tag.kind, Kind::Fresh | Kind::Dirty) && may_be_carried(tag)
}

/// The tag was found Valid.
#[inline]
pub fn settled_body(tag: &Tag) -> bool
    ensures { result ≡ is_found is_settled_body tag.now }
{
    matches!(tag.kind, Kind::Valid) && may_be_carried(tag)
}

/// The tag was found Fresh, Dirty or Valid.
#[inline]
pub fn settled(tag: &Tag) -> bool
    ensures { result ≡ is_found is_settled tag.now }
{
    matches!(tag.kind, Kind::Fresh | Kind::Dirty | Kind::Valid) && may_be_carried(tag)
}

/// The tag was found in Roll.
#[inline]
pub fn rolling(tag: &Tag) -> bool
    ensures { result ≡ is_found is_rolling tag.now }
{
    matches!(tag.kind, Kind::Roll) && may_be_carried(tag)
}

/// The tag was found to be an entry that may be told its new successor.
#[inline]
pub fn tellable(tag: &Tag) -> bool
    ensures { result ≡ is_found can_be_told tag.now }
{
    matches!(
        tag.kind,
        Kind::Fresh | Kind::Dirty | Kind::Valid | Kind::Purging | Kind::Leaving | Kind::Roll
    ) && may_be_carried(tag)
}
