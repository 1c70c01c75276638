//! Why a text is no settings, in words.

ghost use Rattle.std.specs.Prelude.{◌≡◌, Some, IfOk};
ghost use Rattle.sci_settings.specs.Settings.{IsFound};
ghost use Rattle.sci_settings.specs.declared.misfits.Unread.TheVariants.{OutOfMemory, Misfit as OfMisfit};
ghost use Rattle.toml.specs.View.{view};

use crate::works::Work;
use std::alloc::{AllocError, AllocFailed, Global};
use std::fmt;
use toml::Value;

/// What is wanted at a key.
#[derive(Clone, Copy, Debug, PartialEq, Eq, Drop)]
pub enum Wanted {
    /// The name of a work.
    Work,
    /// An integer from the first number to the second.
    Number(u64, u64),
    /// The cells of a stencil.
    Cells,
    /// The items of a ring.
    Items,
    /// Yes or no.
    Flag,
}

impl fmt::Display for Wanted {
    fn fmt<W: fmt::Write>(&self, f: &mut fmt::Formatter<W>) -> fmt::Result {
        match self {
            Wanted::Work => f.write_str("stencil, ring or count"),
            Wanted::Number(low, high) => write!(f, "{low} to {high}"),
            Wanted::Cells => f.write_str("7 to 3584 integers from 0, in tiles of seven,"),
            Wanted::Items => f.write_str("0 to 100000 integers from 0"),
            Wanted::Flag => f.write_str("true or false"),
        }
    }
}

/// What stands at a key.
#[derive(Debug, PartialEq, Eq, Drop)]
pub enum Found {
    /// An integer.
    Integer(i64),
    /// A string.
    Text(String),
    /// An array of so many values.
    Array(usize),
    /// A value of another type, which has this name.
    Other(&'static str),
}

impl Found {
    /// What a value is.
    pub(crate) fn new(alloc: Global, value: &Value) -> Result<Found, AllocError>
        ensures { IfOk result (IsFound (Some (view value.now))) }
    {
        match value {
            Value::Integer(integer) => Ok(Found::Integer(*integer)),
            Value::String(text) => Ok(Found::Text(String::from_str(alloc, text.as_str())?)),
            Value::Array(array) => Ok(Found::Array(array.len())),
            other => Ok(Found::Other(other.type_str())),
        }
    }
}

impl fmt::Display for Found {
    fn fmt<W: fmt::Write>(&self, f: &mut fmt::Formatter<W>) -> fmt::Result {
        match self {
            Found::Integer(integer) => write!(f, "{integer}"),
            Found::Text(text) => write!(f, "{text:?}"),
            Found::Array(count) => write!(f, "an array of {count}"),
            Found::Other(name) => f.write_str(name),
        }
    }
}

/// Why a table is no settings.
#[derive(Debug, PartialEq, Eq, Drop)]
pub enum Misfit {
    /// There is no such key.
    Missing(&'static str),
    /// The work has no such key; the nearest that it has, where one is near.
    Foreign {
        work: Work,
        key: String,
        near: Option<&'static str>,
    },
    /// The value at this place of the array at this key, counted from 1, is no integer from 0.
    Item {
        key: &'static str,
        place: usize,
        found: Found,
    },
    /// At this key stands something else than what is wanted there.
    Value {
        key: &'static str,
        wanted: Wanted,
        found: Found,
    },
}

impl Misfit {
    /// The key that is at fault, where it stands in the text.
    pub(crate) fn key(&self) -> Option<&str> {
        match self {
            Misfit::Missing(_) => None,
            Misfit::Foreign { key, .. } => Some(key.as_str()),
            Misfit::Item { key, .. } | Misfit::Value { key, .. } => Some(key),
        }
    }
}

impl fmt::Display for Misfit {
    fn fmt<W: fmt::Write>(&self, f: &mut fmt::Formatter<W>) -> fmt::Result {
        match self {
            Misfit::Missing(key) => write!(f, "no {key}"),
            Misfit::Foreign {
                key,
                near: Some(near),
                ..
            } => write!(f, "no key {key:?}; is it {near}?"),
            Misfit::Foreign {
                work,
                key,
                near: None,
            } => write!(f, "no key {key:?} of a {work}"),
            Misfit::Item { key, place, found } => {
                write!(
                    f,
                    "{key}: an integer from 0 wanted as value {place}, {found} found"
                )
            }
            Misfit::Value { key, wanted, found } => match found {
                Found::Integer(_) | Found::Text(_) => write!(f, "{key} = {found}: {wanted} wanted"),
                Found::Array(_) | Found::Other(_) => write!(
                    f,
                    "{key}: {wanted} wanted, {found} found"
                ),
            },
        }
    }
}

/// Why a table isn't read.
#[derive(Drop)]
pub enum Unread {
    /// A growth of memory was refused.
    OutOfMemory,
    /// It is no settings, and why.
    Misfit(Misfit),
}

impl From<Misfit> for Unread {
    ghost from_gives = { λ m e. e ≡ OfMisfit m };

    fn from(misfit: Misfit) -> Unread {
        Unread::Misfit(misfit)
    }
}

impl From<AllocError> for Unread {
    ghost from_gives = { λ _ e. e ≡ OutOfMemory };

    fn from(_e: AllocError) -> Unread {
        Unread::OutOfMemory
    }
}

impl<T: Drop> From<AllocFailed<T>> for Unread {
    ghost from_gives = { λ _ e. e ≡ OutOfMemory };

    fn from(_e: AllocFailed<T>) -> Unread {
        Unread::OutOfMemory
    }
}
