//! What a seat knows of its line, the rule of the line's table, and what each step of the table tells.
use atomic_table::{Join, Play, Split, TableRule};
use sci_core::{Keeps, Line, Pending, Whole};
use sci_port::Call;
use sci_words::LineNo;
use std::alloc::AllocError;
use std::collections::LinkedList;
use std::marker::{Brand, PhantomData};

/// What is fixed of a line: how many nodes it has, its number, what it was opened with, and which words fit it.
pub struct Terms<K: Keeps> {
    pub nodes: u16,
    pub number: LineNo,
    pub opening: Line,
    pub keep: K,
}

impl<K: Keeps> Clone for Terms<K> {
    ghost use Rattle.std.specs.Prelude.{◌≡◌};

    ghost is_clone = { λ x y. y ≡ x };

    ghost is_infallible = { λ _. Unit {0} };

    fn clone(&self) -> Result<Terms<K>, AllocError> {
        Ok(*self)
    }
}

impl<K: Keeps> Copy for Terms<K> {}

/// What a seat's step of the lock word came to. No value of it is made.
pub enum Entry {
    /// The word was free, and was taken.
    Took,
    /// The word was found taken.
    Missed,
    /// The word was given back, after this one call on the line.
    Gave(Call),
}

/// What a seat knows. No value of it is made.
pub struct View<K: Keeps> {
    /// The line that it is a seat of. None: it was joined to another seat.
    pub of: Option<Terms<K>>,
    pub node: u64,
    /// The number of the next seat that is split off this one, or 0.
    pub next: u64,
    /// The seats from this number on were joined to this one.
    pub joined: u64,
    /// It has taken the lock word, and has the line in hand.
    pub holds: bool,
    pub pending: Pending,
    /// Its steps of the lock word, each with its place among the steps of all seats.
    pub log: LinkedList<(u64, Entry)>,
    /// The logs of the seats that were joined to it, each under its node's number.
    pub others: LinkedList<(u64, LinkedList<(u64, Entry)>)>,
    /// The line, as its last region took it.
    pub take: Option<Whole<K>>,
    /// The line, as its last region gave it back.
    pub give: Option<Whole<K>>,
}

pub struct Locking<K> {
    keep: PhantomData<K>,
}

impl<K: Keeps> TableRule<Whole<K>, View<K>, Terms<K>> for Locking<K> {
    ghost use Rattle.sci_coarse.specs.Rule.{Locked};
    ghost use Rattle.sci_coarse.specs.Views.{first_view};

    ghost holds = { λ t. Locked K.fits t };

    ghost first = { λ t. first_view t };
}

/// The lock word is taken, or was found taken.
pub struct Takes<K> {
    keep: PhantomData<K>,
}

impl<K: Keeps> Play<Whole<K>, View<K>> for Takes<K> {
    ghost use Rattle.sci_coarse.specs.Regions.{taken};

    ghost then = { λ st m r w. taken K.fits m r w };
}

/// Which call was made on the line before the lock word is given back. The call picks it.
pub trait Tells {
    ghost use Rattle.sci_port.specs.declared.calls.Call.{Call};

    ghost call: { Call };
}

impl Tells for Brand {
    ghost use Rattle.std.specs.Prelude.{None};
    ghost use Rattle.sci_port.specs.declared.calls.Call.TheVariants.{MemWas};

    ghost call = { MemWas None };
}

/// The lock word is given back after this call.
pub struct Gives<J, K> {
    told: PhantomData<(J, K)>,
}

impl<K: Keeps, J: Tells> Play<Whole<K>, View<K>> for Gives<J, K> {
    ghost use Rattle.sci_coarse.specs.Regions.{given};

    ghost then = { λ st m r w. given J.call m w };
}

/// The next node's seat is made.
pub struct Apart;

impl<K: Keeps> Split<View<K>> for Apart {
    ghost use Rattle.sci_coarse.specs.Views.{split_view, new_view};

    ghost left = { λ v. split_view v };

    ghost right = { λ v. new_view v };
}

/// A seat is joined to the first.
pub struct Together;

impl<K: Keeps> Join<View<K>> for Together {
    ghost use Rattle.sci_coarse.specs.Views.{joined_view, spent_view};

    ghost both = { λ v w. joined_view v w };

    ghost spent = { spent_view };
}
