//! The works that settings name, and the keys of each.

ghost use Rattle.std.specs.Prelude.{◌≡◌, Some, None, true, false, map, not, is_some, IfErr, IfSome, string_bytes};
ghost use Rattle.toml.specs.Data.{Members, get_member};
ghost use Rattle.toml.specs.View.{table_view};
ghost use Rattle.sci_settings.specs.Settings.{Gives, IsWhy, has_keys_of, is_key_of, keys_of, named, work_at};

use crate::fields::{misfit, value_at};
use crate::misfits::{Misfit, Unread, Wanted};
use std::alloc::{AllocError, Global};
use std::fmt;
use strsim::levenshtein;
use toml::Table;

/// A work that settings name.
#[derive(Clone, Copy, Debug, PartialEq, Eq, Drop)]
pub enum Work {
    /// The stencil.
    Stencil,
    /// The ring.
    Ring,
    /// The count.
    Count,
}

impl fmt::Display for Work {
    fn fmt<W: fmt::Write>(&self, f: &mut fmt::Formatter<W>) -> fmt::Result {
        f.write_str(match self {
            Work::Stencil => "stencil",
            Work::Ring => "ring",
            Work::Count => "count",
        })
    }
}

impl Work {
    /// The work of this name.
    fn named(name: &str) -> Option<Work>
        ensures { result ≡ named name.now }
    {
        match name {
            "stencil" => Some(Work::Stencil),
            "ring" => Some(Work::Ring),
            "count" => Some(Work::Count),
            _ => None,
        }
    }

    /// The keys that it may have.
    fn keys(self) -> &'static [&'static str]
        ensures { map (λ k. k.now) result.now ≡ keys_of self }
    {
        match self {
            Work::Stencil => &["work", "nodes", "capacity", "phases", "cells", "dump"],
            Work::Ring => &["work", "lines", "capacity", "items", "dump"],
            Work::Count => &["work", "nodes", "adds", "capacity", "dump"],
        }
    }

    /// Whether it may have this key.
    fn has_key(self, key: &str) -> bool
        ensures { result ≡ is_key_of self key.now }
    {
        match self {
            Work::Stencil => matches!(
                key,
                "work" | "nodes" | "capacity" | "phases" | "cells" | "dump"
            ),
            Work::Ring => matches!(key, "work" | "lines" | "capacity" | "items" | "dump"),
            Work::Count => matches!(key, "work" | "nodes" | "adds" | "capacity" | "dump"),
        }
    }

    /// The first of its keys that two edits make of this one, if there is one.
    fn near_key(self, alloc: Global, key: &str) -> Result<Option<&'static str>, AllocError> {
        for near in self.keys() {
            if levenshtein(alloc, key, near)? <= 2 {
                return Ok(Some(*near));
            }
        }
        Ok(None)
    }
}

/// The work that a table names.
pub fn work_at(alloc: Global, table: &Table) -> Result<Work, Unread>
    ensures exact { Gives result (work_at (table_view table.now)) }
    ensures why { IfErr result (IsWhy None (table_view table.now)) }
{
    let value = value_at(table, "work")?;
    match value.as_str().and_then(Work::named) {
        Some(work) => Ok(work),
        None => Err(misfit(alloc, "work", Wanted::Work, value)),
    }
}

/// The first key of the table that the work may not have.
pub fn foreign_key(work: Work, table: &Table) -> Option<&String>
    ensures exact { is_some result ≡ not (has_keys_of work (table_view table.now)) }
    ensures some { IfSome result (λ key. (is_key_of work (string_bytes key.now) ≡ false) × (is_some (get_member (string_bytes key.now) (table_view table.now)) ≡ true)) }
{
    table.keys().find(|key| !work.has_key(key.as_str()))
}

/// The work may not have this key.
pub fn foreign(alloc: Global, work: Work, key: &str) -> Unread
    ensures { (ms : Members) → is_key_of work key.now ≡ false → is_some (get_member key.now ms) ≡ true → IsWhy (Some work) ms result }
{
    match (String::from_str(alloc, key), work.near_key(alloc, key)) {
        (Ok(key), Ok(near)) => Unread::Misfit(Misfit::Foreign { work, key, near }),
        _ => Unread::OutOfMemory,
    }
}
