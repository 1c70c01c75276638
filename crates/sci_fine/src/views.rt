//! What a seat knows of its line, the rule of the line's table, and what each step of the table tells.
use atomic_table::{Join, Play, Split, TableRule};
use sci_core::{Keeps, Line, Pending};
use sci_port::Call;
use sci_words::LineNo;
use std::alloc::AllocError;
use std::collections::LinkedList;
use std::marker::{Brand, PhantomData};

/// What is fixed of a line: how many nodes it has, its number, what it was opened with, and which words fit it.
pub struct Terms<K: Keeps> {
    pub nodes: u16,
    pub number: LineNo,
    pub opening: Line,
    pub keep: K,
}

impl<K: Keeps> Clone for Terms<K> {
    ghost use Rattle.std.specs.Prelude.{◌≡◌};

    ghost is_clone = { λ x y. y ≡ x };

    ghost is_infallible = { λ _. Unit {0} };

    fn clone(&self) -> Result<Terms<K>, AllocError> {
        Ok(*self)
    }
}

impl<K: Keeps> Copy for Terms<K> {}

/// What a seat knows. No value of it is made.
pub struct View<K: Keeps> {
    /// The line that it is a seat of. None: it was joined to another seat.
    pub of: Option<Terms<K>>,
    pub node: u64,
    /// The number of the next seat that is split off this one, or 0.
    pub next: u64,
    /// The seats from this number on were joined to this one.
    pub joined: u64,
    pub pending: Pending,
    /// How many exchanges and loads it has made.
    pub steps: u64,
    /// Where the last of them was, and the word that it found there.
    pub place: u64,
    pub word: u64,
    /// All of them, as calls with their answers, each with its place in the run of all nodes.
    pub log: LinkedList<(u64, Call)>,
    /// The same of the seats that were joined to it, by their nodes' numbers from `joined` on.
    pub logs: LinkedList<LinkedList<(u64, Call)>>,
}

pub struct Sharing<K> {
    keep: PhantomData<K>,
}

impl<K: Keeps> TableRule<Line, View<K>, Terms<K>> for Sharing<K> {
    ghost use Rattle.sci_fine.specs.Rule.{Stands};
    ghost use Rattle.sci_fine.specs.Views.{first_view};

    ghost holds = { λ t. Stands K.fits t };

    ghost first = { λ t. first_view t };
}

/// Which event an exchange makes. The call picks it.
pub trait Asks {
    ghost use Rattle.sci_core.specs.declared.events.Event.{Event};

    ghost event: { Event };
}

impl Asks for Brand {
    ghost use Rattle.sci_core.specs.declared.events.Event.TheVariants.{Look};

    ghost event = { Look };
}

/// An exchange by the row of the event.
pub struct Makes<J, K> {
    ask: PhantomData<(J, K)>,
}

impl<K: Keeps, J: Asks> Play<Line, View<K>> for Makes<J, K> {
    ghost use Rattle.sci_fine.specs.Steps.{exchanged};

    ghost then = { λ st m r w. exchanged K.fits J.event st.first m r w };
}

/// A load of a word.
pub struct Loads<K> {
    keep: PhantomData<K>,
}

impl<K: Keeps> Play<Line, View<K>> for Loads<K> {
    ghost use Rattle.sci_fine.specs.Steps.{loaded_from};

    ghost then = { λ st m r w. loaded_from K.fits st.word m r w };
}

/// Which call a look at the own tag is.
pub trait Notes {
    ghost use Rattle.sci_words.specs.declared.tags.Tag.{Tag};
    ghost use Rattle.sci_port.specs.declared.calls.Call.{Call};

    ghost call: { Tag → Call };
}

/// It is a load of the own tag.
pub struct AsLoad;

impl Notes for AsLoad {
    ghost use Rattle.sci_fine.specs.Steps.{own_load};

    ghost call = { own_load };
}

/// It is a step by the event Look.
pub struct AsStep;

impl Notes for AsStep {
    ghost use Rattle.sci_fine.specs.Steps.{look_step};

    ghost call = { look_step };
}

/// A load of the node's own tag, which its step records.
pub struct Looks<N, K> {
    note: PhantomData<(N, K)>,
}

impl<K: Keeps, N: Notes> Play<Line, View<K>> for Looks<N, K> {
    ghost use Rattle.sci_fine.specs.Steps.{looked};

    ghost then = { λ st m r w. looked K.fits N.call m r w };
}

/// The next node's seat is made.
pub struct Apart;

impl<K: Keeps> Split<View<K>> for Apart {
    ghost use Rattle.sci_fine.specs.Views.{split_view, new_view};

    ghost left = { λ v. split_view v };

    ghost right = { λ v. new_view v };
}

/// A seat is joined to the first.
pub struct Together;

impl<K: Keeps> Join<View<K>> for Together {
    ghost use Rattle.sci_fine.specs.Views.{joined_view, spent_view};

    ghost both = { λ v w. joined_view v w };

    ghost spent = { spent_view };
}
