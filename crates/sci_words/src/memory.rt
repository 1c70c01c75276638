//! The memory word of a line.
use crate::nodes::NodeId;
use crate::refusals::WordRefusal;

/// Memory's state of a line.
#[derive(Clone, Copy, Debug, PartialEq, Eq, Hash)]
pub enum MemState {
    /// There is no sharing list, and memory's bytes are valid.
    Home,
    /// There is a sharing list, and memory's bytes are valid.
    Fresh,
    /// There is a sharing list, and memory's bytes may be stale.
    Gone,
}

/// Memory's word: its state, whether its bytes are lent while they are copied, and the head of the sharing list.
#[derive(Clone, Copy, Debug, PartialEq, Eq, Hash)]
pub struct Mem {
    pub state: MemState,
    pub lent: bool,
    pub forw: Option<NodeId>,
}

impl Mem {
    ghost use Rattle.std.specs.Prelude.{◌≡◌, cond, Ok, Err};
    ghost use Rattle.sci_words.specs.Mem.{misses_head, has_unwanted_head, mem_well_formed};

    /// Whether the word keeps the rule of its link: HOME has none, FRESH and GONE have one.
    pub fn well_formed(&self) -> bool
        ensures { result ≡ mem_well_formed self.now }
    {
        self.check().is_ok()
    }

    /// The rule of the link, if the word breaks it.
    pub(crate) fn check(&self) -> Result<(), WordRefusal>
        ensures { result ≡ cond (misses_head self.now) (Err WordRefusal.LinkMissing)
            (cond (has_unwanted_head self.now) (Err WordRefusal.LinkUnwanted) (Ok tt)) }
    {
        match (self.state, self.forw) {
            (MemState::Home, Some(_)) => Err(WordRefusal::LinkUnwanted),
            (MemState::Fresh | MemState::Gone, None) => Err(WordRefusal::LinkMissing),
            _ => Ok(()),
        }
    }
}
