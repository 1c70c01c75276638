//! The settings of a run, and their reader.

ghost use Rattle.std.specs.Prelude.{◌≡◌, Some, true, false, IfOk, IfErr, IsUtf8};
ghost use Rattle.toml.specs.Data.{Members};
ghost use Rattle.toml.specs.View.{table_view};
ghost use Rattle.sci_settings.specs.Settings.{Gives, Fails, IsWhy, has_array, suits, wanted_at};
ghost use Rattle.sci_settings.specs.Settings.{settings_for, settings_in, settings_of, work_at};

use crate::fields::{Numbers, dump_at, number_at, numbers_at};
use crate::misfits::{Found, Misfit, Unread, Wanted};
use crate::refusals::SettingsRefusal;
use crate::works::{Work, foreign, foreign_key, work_at};
use std::alloc::Global;
use toml::{Table, table_from_slice};

/// The settings of a run: its work, with what it works on.
#[derive(Debug, Drop)]
pub enum Settings {
    /// Phases of sums of neighbours, over tiles of seven cells.
    Stencil {
        /// 1 to 64 nodes.
        nodes: u16,
        /// How many lines a node names, 1 to 1,024.
        capacity: u16,
        /// 0 to 1,000,000 phases.
        phases: u64,
        /// A multiple of seven of them, 7 to 3,584.
        cells: Numbers,
        /// Whether the dump is printed too.
        dump: bool,
    },
    /// Items from one node to another, over a ring of lines.
    Ring {
        /// 1 to 1,023 lines.
        lines: u16,
        /// How many lines a node names, 1 to 1,024.
        capacity: u16,
        /// 0 to 100,000 of them.
        items: Numbers,
        /// Whether the dump is printed too.
        dump: bool,
    },
    /// Additions by each node to one word.
    Count {
        /// 1 to 64 nodes.
        nodes: u16,
        /// 0 to 1,000,000 additions of each node.
        adds: u64,
        /// How many lines a node names, 1 to 1,024.
        capacity: u16,
        /// Whether the dump is printed too.
        dump: bool,
    },
}

impl Settings {
    ghost use Rattle.sci_settings.specs.Settings.{nodes_of, wants_dump};

    /// How many nodes work.
    pub fn nodes(&self) -> u16
        ensures { result ≡ nodes_of self.now }
    {
        match self {
            Self::Stencil { nodes, .. } | Self::Count { nodes, .. } => *nodes,
            Self::Ring { .. } => 2,
        }
    }

    /// Whether the dump is printed too.
    pub fn wants_dump(&self) -> bool
        ensures { result ≡ wants_dump self.now }
    {
        match self {
            Self::Stencil { dump, .. } | Self::Ring { dump, .. } | Self::Count { dump, .. } =>
                *dump,
        }
    }
}

/// So many numbers are too few or too many.
fn miscount(key: &'static str, wanted: Wanted, count: usize) -> Unread
    ensures { (work : Work) → (ms : Members) → wanted_at (Some work) key.now ≡ Some wanted → suits wanted key.now ms ≡ false → has_array key.now ms ≡ true → IsWhy (Some work) ms result }
{
    let found = Found::Array(count);
    Unread::Misfit(Misfit::Value { key, wanted, found })
}

#[tactic(auto, unfolding(crate::specs::Settings::settings_for))]
fn stencil_in(alloc: Global, table: &Table) -> Result<Settings, Unread>
    ensures exact { Gives result (settings_for Work.Stencil (table_view table.now)) }
    ensures why { IfErr result (IsWhy (Some Work.Stencil) (table_view table.now)) }
{
    let nodes = number_at(alloc, table, "nodes", 1, 64)?;
    let capacity = number_at(alloc, table, "capacity", 1, 1024)?;
    let phases = number_at(alloc, table, "phases", 0, 1_000_000)?;
    let cells = numbers_at(alloc, table, "cells", Wanted::Cells)?;
    let count = cells.len();
    if count < 1 || count > 3584 || count % 7 != 0 {
        return Err(miscount("cells", Wanted::Cells, count));
    }
    let dump = dump_at(alloc, table)?;
    Ok(Settings::Stencil {
        nodes: nodes as u16,
        capacity: capacity as u16,
        phases,
        cells,
        dump,
    })
}

#[tactic(auto, unfolding(crate::specs::Settings::settings_for))]
fn ring_in(alloc: Global, table: &Table) -> Result<Settings, Unread>
    ensures exact { Gives result (settings_for Work.Ring (table_view table.now)) }
    ensures why { IfErr result (IsWhy (Some Work.Ring) (table_view table.now)) }
{
    let lines = number_at(alloc, table, "lines", 1, 1023)?;
    let capacity = number_at(alloc, table, "capacity", 1, 1024)?;
    let items = numbers_at(alloc, table, "items", Wanted::Items)?;
    if items.len() > 100_000 {
        return Err(miscount("items", Wanted::Items, items.len()));
    }
    let dump = dump_at(alloc, table)?;
    Ok(Settings::Ring {
        lines: lines as u16,
        capacity: capacity as u16,
        items,
        dump,
    })
}

#[tactic(auto, unfolding(crate::specs::Settings::settings_for))]
fn count_in(alloc: Global, table: &Table) -> Result<Settings, Unread>
    ensures exact { Gives result (settings_for Work.Count (table_view table.now)) }
    ensures why { IfErr result (IsWhy (Some Work.Count) (table_view table.now)) }
{
    let nodes = number_at(alloc, table, "nodes", 1, 64)?;
    let adds = number_at(alloc, table, "adds", 0, 1_000_000)?;
    let capacity = number_at(alloc, table, "capacity", 1, 1024)?;
    let dump = dump_at(alloc, table)?;
    Ok(Settings::Count {
        nodes: nodes as u16,
        adds,
        capacity: capacity as u16,
        dump,
    })
}

#[tactic(auto, unfolding(crate::specs::Settings::settings_in), using(crate::proofs::Keys::why_of))]
pub(crate) fn settings_in(alloc: Global, table: &Table) -> Result<Settings, Unread>
    ensures exact { Gives result (settings_in (table_view table.now)) }
    ensures why { IfErr result (IsWhy (work_at (table_view table.now)) (table_view table.now)) }
{
    let work = work_at(alloc, table)?;
    if let Some(key) = foreign_key(work, table) {
        return Err(foreign(alloc, work, key.as_str()));
    }
    match work {
        Work::Stencil => stencil_in(alloc, table),
        Work::Ring => ring_in(alloc, table),
        Work::Count => count_in(alloc, table),
    }
}

/// Reads settings, in TOML. Refusal 22: the text is no TOML, its keys aren't those of one work, or a value has the wrong type or
/// is out of its limits. Refusal 7: a growth of memory was refused.
#[tactic(auto, unfolding(crate::specs::Settings::settings_of))]
pub fn read_settings(alloc: Global, text: &[u8]) -> Result<Settings, SettingsRefusal>
    ensures ok { IfOk result (λ s. IsUtf8 text.now × (settings_of text.now ≡ Some s)) }
    ensures err { IfErr result (λ e. IsUtf8 text.now → Fails e (settings_of text.now)) }
{
    match table_from_slice(alloc, text) {
        Ok(table) => match settings_in(alloc, &table) {
            Ok(settings) => Ok(settings),
            Err(Unread::OutOfMemory) => Err(SettingsRefusal::OutOfMemory),
            Err(Unread::Misfit(_)) => Err(SettingsRefusal::BadSettings),
        },
        Err(error) if error.is_memory() => Err(SettingsRefusal::OutOfMemory),
        Err(_) => Err(SettingsRefusal::BadSettings),
    }
}
