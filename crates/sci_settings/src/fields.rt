//! What stands at the keys of a table of settings.

ghost use Rattle.std.specs.Prelude.{◌≡◌, ◌≤◌, Option, Some, None, codes, option_map, true, false, IfOk, IfErr, pos};
ghost use Rattle.sci_settings.specs.declared.works.Work.{Work};
ghost use Rattle.toml.specs.Data.{get_member};
ghost use Rattle.toml.specs.View.{view, items_view, table_view};
ghost use Rattle.sci_settings.specs.Settings.{Gives, IsWhy, IsWrong, IsMissing, IsOfItem, has_array, is_of_numbers, suits, wanted_at};
ghost use Rattle.sci_settings.specs.Settings.{number_at, number_in, numbers_in, numbers_at, flag_of, dump_at};

use crate::misfits::{Found, Misfit, Unread, Wanted};
use std::alloc::Global;
use std::marker::Model;
use toml::{Table, Value};

/// Whole numbers from 0, in order.
#[derive(Debug, Drop)]
pub struct Numbers {
    items: Vec<u64>,
}

impl Model for Numbers {
    ghost use Rattle.std.specs.Prelude.{List, ℕ};

    ghost Value = { List ℕ };

    ghost view = { λ n. n.items.items };
}

impl Numbers {
    ghost use Rattle.std.specs.Prelude.{length};

    /// The numbers.
    pub fn as_slice(&self) -> &[u64]
        ensures { result.now ≡ self.now }
    {
        &self.items
    }

    pub(crate) fn len(&self) -> usize
        ensures { result ≡ length self.now }
    {
        self.items.len()
    }
}

/// What stands at a key, if anything does.
fn value_in<'a>(table: &'a Table, key: &str) -> Option<&'a Value>
    ensures { option_map (λ v. view v.now) result ≡ get_member key.now (table_view table.now) }
{
    table.get(key)
}

/// What stands at a key.
pub fn value_at<'a>(table: &'a Table, key: &'static str) -> Result<&'a Value, Misfit>
    ensures ok { IfOk result (λ v. get_member key.now (table_view table.now) ≡ Some (view v.now)) }
    ensures err { IfErr result (λ m. (get_member key.now (table_view table.now) ≡ None) × IsMissing key.now m) }
{
    value_in(table, key).ok_or(Misfit::Missing(key))
}

/// Something else than what is wanted stands at a key.
pub fn misfit(alloc: Global, key: &'static str, wanted: Wanted, value: &Value) -> Unread
    ensures { IsWrong key.now wanted (view value.now) result }
{
    match Found::new(alloc, value) {
        Ok(found) => Unread::Misfit(Misfit::Value { key, wanted, found }),
        Err(e) => Unread::from(e),
    }
}

/// The number that an integer from 0 is.
fn number_in(value: &Value) -> Option<u64>
    ensures { result ≡ number_in (view value.now) }
{
    match value.as_integer() {
        Some(integer) if 0 <= integer => Some(integer as u64),
        _ => None,
    }
}

/// The number at a key, from low to high.
#[tactic(auto, using(crate::proofs::Keys::needed_at))]
pub fn number_at(
    alloc: Global,
    table: &Table,
    key: &'static str,
    low: u64,
    high: u64,
) -> Result<u64, Unread>
    ensures exact { Gives result (number_at key.now low high (table_view table.now)) }
    ensures why { IfErr result (λ e. (work : Option Work) → wanted_at work key.now ≡ Some (Wanted.Number low high) → IsWhy work (table_view table.now) e) }
    ensures range { IfOk result (λ n. (low ≤ n) × (n ≤ high)) }
{
    let value = value_at(table, key)?;
    match number_in(value) {
        Some(number) if low <= number && number <= high => Ok(number),
        _ => Err(misfit(alloc, key, Wanted::Number(low, high), value)),
    }
}

/// The numbers that the values of the array at a key are.
fn numbers_in(alloc: Global, key: &'static str, array: &[Value]) -> Result<Numbers, Unread>
    ensures exact { Gives result (numbers_in (items_view array.now)) }
    ensures why { IfErr result (IsOfItem key.now (items_view array.now)) }
{
    let mut items = Vec::new(alloc);
    for value in array {
        let Some(number) = number_in(value) else {
            let place = items.len() + 1;
            let found = Found::new(alloc, value)?;
            return Err(Unread::Misfit(Misfit::Item { key, place, found }));
        };
        items.push(number)?;
    }
    Ok(Numbers { items })
}

/// The numbers of the array at a key, where as many are wanted.
#[tactic(auto, using(crate::proofs::Items::item_there, crate::proofs::Keys::needed_at, crate::proofs::Keys::numbers_needed))]
pub fn numbers_at(
    alloc: Global,
    table: &Table,
    key: &'static str,
    wanted: Wanted,
) -> Result<Numbers, Unread>
    ensures exact { Gives result (numbers_at key.now (table_view table.now)) }
    ensures why { IfErr result (λ e. (work : Option Work) → wanted_at work key.now ≡ Some wanted → is_of_numbers (Some wanted) ≡ true → suits wanted key.now (table_view table.now) ≡ false → IsWhy work (table_view table.now) e) }
    ensures there { IfOk result (λ _. has_array key.now (table_view table.now) ≡ true) }
{
    let value = value_at(table, key)?;
    match value.as_array() {
        Some(array) => numbers_in(alloc, key, array),
        None => Err(misfit(alloc, key, wanted, value)),
    }
}

/// Whether the dump is wanted too.
pub fn dump_at(alloc: Global, table: &Table) -> Result<bool, Unread>
    ensures exact { Gives result (dump_at (table_view table.now)) }
    ensures why { IfErr result (λ e. (work : Option Work) → wanted_at work (codes "dump") ≡ Some Wanted.Flag → IsWhy work (table_view table.now) e) }
{
    match value_in(table, "dump") {
        Some(value) => match value.as_bool() {
            Some(flag) => Ok(flag),
            None => Err(misfit(alloc, "dump", Wanted::Flag, value)),
        },
        None => Ok(false),
    }
}
