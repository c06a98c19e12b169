ghost use Rattle.std.specs.Prelude.{◌≡◌, true, ◌&&◌, ◌||◌, not, ◌++◌, IfOk, OnOk};
ghost use Rattle.std.specs.Ordering.{is_eq};
ghost use Rattle.std.specs.List.{list_any};
ghost use Rattle.std.specs.BTreeSet.{contains};
ghost use Rattle.scalar_val.specs.Values.{cell};
ghost use Rattle.row_store.specs.declared.unique_key.UniqueKey.{UniqueKey};
ghost use Rattle.row_store.specs.UniqueKeys.{key_order, has_value, keys_at, value_keys};

use crate::unique_key::UniqueKey;
use scalar_val::{NoMemory, Val, cell, cmp, copy_val};
use std::alloc::Global;
use std::cmp::Ordering;
use std::collections::BTreeSet;

/// Adds the key of a value, but for null.
fn push_key(
    alloc: Global,
    keys: &mut Vec<UniqueKey>,
    column: u32,
    value: &Val,
) -> Result<(), NoMemory>
    ensures { OnOk result (keys.new.items ≡ keys.old.items ++ value_keys column value.now) }
{
    if value.is_null() {
        return Ok(());
    }
    let value = copy_val(alloc, value)?;
    keys.push(UniqueKey { column, value })?;
    Ok(())
}

/// The keys of a row.
pub(crate) fn keys_of(
    alloc: Global,
    columns: &[u32],
    cells: &[Val],
) -> Result<Vec<UniqueKey>, NoMemory>
    ensures { IfOk result (λ keys. keys.items ≡ keys_at columns.now cells.now) }
{
    let null = Val::Null;
    let mut keys = Vec::with_capacity(alloc, columns.len())?;
    for column in columns {
        push_key(alloc, &mut keys, *column, cell(cells, *column, &null))?;
    }
    Ok(keys)
}

pub(crate) fn put_keys(set: &mut BTreeSet<UniqueKey>, keys: Vec<UniqueKey>) -> Result<(), NoMemory>
    ensures { OnOk result ((key : UniqueKey) → contains key_order set.new key ≡ (contains key_order set.old key || list_any (λ own. is_eq (key_order own key)) keys.items)) }
{
    for key in keys {
        set.insert(key)?;
    }
    Ok(())
}

pub(crate) fn take_keys(set: &mut BTreeSet<UniqueKey>, keys: &[UniqueKey])
    ensures { (key : UniqueKey) → contains key_order set.new key ≡ (contains key_order set.old key && not (list_any (λ own. is_eq (key_order own key)) keys.now)) }
{
    for key in keys {
        set.remove(key);
    }
}

pub(crate) fn any_taken(set: &BTreeSet<UniqueKey>, keys: &[UniqueKey]) -> bool
    ensures { result ≡ list_any (contains key_order set.now) keys.now }
{
    for key in keys {
        if set.contains(key) {
            return true;
        }
    }
    false
}

/// Whether a row has the key's value in its column.
fn has_value(key: &UniqueKey, cells: &[Val]) -> bool
    ensures { result ≡ has_value key.now cells.now }
{
    let null = Val::Null;
    match cmp(&key.value, cell(cells, key.column, &null)) {
        Ordering::Equal => true,
        _ => false,
    }
}

fn is_taken_by_another(set: &BTreeSet<UniqueKey>, key: &UniqueKey, own: &[Val]) -> bool
    ensures { result ≡ (contains key_order set.now key.now && not (has_value key.now own.now)) }
{
    if set.contains(key) {
        return !has_value(key, own);
    }
    false
}

/// Whether a key is taken by another row than the one that has the values.
pub(crate) fn any_taken_by_another(
    set: &BTreeSet<UniqueKey>,
    keys: &[UniqueKey],
    own: &[Val],
) -> bool
    ensures { result ≡ list_any (λ key. contains key_order set.now key && not (has_value key own.now)) keys.now }
{
    for key in keys {
        if is_taken_by_another(set, key, own) {
            return true;
        }
    }
    false
}

fn is_same(a: &Val, b: &Val) -> bool
    ensures { result ≡ true → a.now ≡ b.now }
{
    match cmp(a, b) {
        Ordering::Equal => true,
        _ => false,
    }
}

fn is_same_at(a: &[Val], b: &[Val], column: u32) -> bool
    ensures { result ≡ true → cell a.now column ≡ cell b.now column }
{
    let null = Val::Null;
    is_same(cell(a, column, &null), cell(b, column, &null))
}

/// Whether two rows have the same values in the columns, and so the same keys.
pub(crate) fn has_same_keys(columns: &[u32], a: &[Val], b: &[Val]) -> bool
    ensures { result ≡ true → keys_at columns.now a.now ≡ keys_at columns.now b.now }
{
    for column in columns {
        if !is_same_at(a, b, *column) {
            return false;
        }
    }
    true
}
