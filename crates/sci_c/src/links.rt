//! The numbers of links, nodes, bits and words.
ghost use Rattle.std.specs.Prelude.{◌≡◌, true, false, Some, MatchOption};
ghost use Rattle.sci_words.specs.declared.tags.Tag as a_tag;
ghost use Rattle.sci_words.specs.Layout.{bit};
ghost use Rattle.sci_words.specs.Tag.{link_below};
ghost use Rattle.sci_c.specs.Links.{link_number, link_meant, node_meant, fits_tag, fits_mem, IsTag, IsMem};

use sci_words::{Kind, Mem, NodeId, Tag, read_tag, write_mem, write_tag};

/// The number that stands for no node: 65,535.
pub const NONE: u16 = u16::MAX;

/// 1 for a bit that is set.
pub fn bit(is_set: bool) -> u8
    ensures { result ≡ bit is_set }
{
    if is_set { 1 } else { 0 }
}

/// The number of a node.
pub fn node_number(node: NodeId) -> u16
    ensures number { result ≡ node }
    ensures below { link_below 65535 (Some node) ≡ true }
{
    node.get()
}

/// The number of a link.
pub fn link_number(link: Option<NodeId>) -> u16
    ensures number { result ≡ link_number link }
    ensures below { link_below 65535 link ≡ true }
{
    match link {
        Some(node) => node.get(),
        None => NONE,
    }
}

/// The link with this number.
pub fn link_meant(number: u16) -> Option<NodeId>
    ensures { result ≡ link_meant number }
{
    if number == NONE {
        None
    } else {
        NodeId::new(number)
    }
}

/// The node with this number; node 0 where there is none.
pub fn node_meant(number: u16) -> NodeId
    ensures { result ≡ node_meant number }
{
    let at = if number == NONE { 0 } else { number };
    let Some(node) = NodeId::new(at) else {
        unreachable!()
    };
    node
}

/// The code of a tag, where it is well formed.
pub fn tag_number(tag: &Tag) -> Option<u64>
    ensures { MatchOption result (fits_tag tag.now ≡ false) (λ w. IsTag w tag.now) }
{
    if tag.well_formed() {
        Some(write_tag(*tag))
    } else {
        None
    }
}

/// The tag of this code; an Invalid one where there is none.
pub fn tag_meant(word: u64) -> Tag
    ensures { (t : a_tag.Tag) → IsTag word t → result ≡ t }
{
    match read_tag(word) {
        Ok(tag) => tag,
        Err(_) => Tag {
            kind: Kind::Invalid,
            held: false,
            forw: None,
            back: None,
        },
    }
}

/// The code of a memory word, where it is well formed.
pub fn mem_number(mem: &Mem) -> Option<u64>
    ensures { MatchOption result (fits_mem mem.now ≡ false) (λ w. IsMem w mem.now) }
{
    if mem.well_formed() {
        Some(write_mem(*mem))
    } else {
        None
    }
}
