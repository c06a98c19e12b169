ghost use Rattle.std.specs.Prelude.{◌≡◌, ℕ, ◌<◌, ◌≤◌, true, Some, length, insert, remove, slice_set, IfOk, IfSome};
ghost use Rattle.std.specs.List.{list_any};
ghost use Rattle.data_model.specs.Rows.{Rows, FitsTable, clash};
ghost use Rattle.row_store.specs.Taken.{StandsFor};

use crate::finding::{clashes, clashes_elsewhere};
use crate::key_set::{
    any_taken, any_taken_by_another, has_same_keys, keys_of, put_keys, take_keys,
};
use crate::row::Row;
use crate::unique_key::UniqueKey;
use data_model::{ColumnList, TableDef};
use scalar_val::{List, NoMemory, Val};
use std::alloc::Global;
use std::collections::BTreeSet;

/// An index of the values, but for null, that stand in some columns of a table's rows.
#[derive(Drop)]
pub(crate) struct Taken {
    columns: ColumnList,
    keys: BTreeSet<UniqueKey>,
}

fn is_same(a: &[u32], b: &[u32]) -> bool
    ensures { result ≡ true → a.now ≡ b.now }
{
    a == b
}

/// Whether the index is of the table's unique columns.
pub(crate) fn is_of(taken: &Taken, table: &TableDef) -> bool
    ensures { result ≡ true → taken.now.columns ≡ table.now.unique }
{
    is_same(taken.columns.as_slice(), table.unique.as_slice())
}

/// The index of the rows' unique columns.
pub(crate) fn taken_in(alloc: Global, table: &TableDef, rows: &[Row]) -> Result<Taken, NoMemory>
    ensures { IfOk result (StandsFor rows.now) }
{
    let unique = table.unique.as_slice();
    let columns = List::from_vec(Vec::from_slice(alloc, unique)?);
    let mut keys = BTreeSet::new(alloc);
    for row in rows {
        put_keys(&mut keys, keys_of(alloc, unique, row.cells())?)?;
    }
    Ok(Taken { columns, keys })
}

/// The index after a row is put among rows that it stands for.
fn grown(alloc: Global, taken: Taken, cells: &[Val]) -> Result<Taken, NoMemory>
    ensures { (rows : Rows) (at : ℕ) → StandsFor rows taken → IfOk result (StandsFor (insert rows at cells.now)) }
{
    let Taken { columns, mut keys } = taken;
    let own = keys_of(alloc, columns.as_slice(), cells)?;
    put_keys(&mut keys, own)?;
    Ok(Taken { columns, keys })
}

fn grown_or_none(alloc: Global, taken: Taken, cells: &[Val]) -> Option<Taken>
    ensures { (rows : Rows) (at : ℕ) → StandsFor rows taken → IfSome result (StandsFor (insert rows at cells.now)) }
{
    match grown(alloc, taken, cells) {
        Ok(after) => Some(after),
        Err(_) => None,
    }
}

/// The index after a row is taken out.
fn shrunk(
    alloc: Global,
    table: &TableDef,
    taken: Taken,
    rows: &[Row],
    at: usize,
) -> Result<Taken, NoMemory>
    requires range { at < length rows.now }
    requires fits { FitsTable table.now rows.now }
    requires columns { taken.columns ≡ table.now.unique }
    requires stands { StandsFor rows.now taken }
    ensures { IfOk result (StandsFor (remove rows.now at)) }
{
    let Taken { columns, mut keys } = taken;
    let own = keys_of(alloc, columns.as_slice(), rows[at].cells())?;
    take_keys(&mut keys, own.as_slice());
    Ok(Taken { columns, keys })
}

/// The index after an insert, or `None` where there was none, or memory is refused.
pub(crate) fn after_insert(
    alloc: Global,
    taken: Option<Taken>,
    rows: &[Row],
    at: usize,
    cells: &[Val],
) -> Option<Taken>
    requires stands { IfSome taken (StandsFor rows.now) }
    ensures { IfSome result (StandsFor (insert rows.now at cells.now)) }
{
    grown_or_none(alloc, taken?, cells)
}

/// The index after a delete, or `None` where there was none, or memory is refused.
pub(crate) fn after_delete(
    alloc: Global,
    table: &TableDef,
    taken: Option<Taken>,
    rows: &[Row],
    at: usize,
) -> Option<Taken>
    requires range { at < length rows.now }
    requires fits { FitsTable table.now rows.now }
    requires stands { IfSome taken (StandsFor rows.now) }
    ensures { IfSome result (StandsFor (remove rows.now at)) }
{
    let taken = taken?;
    if !is_of(&taken, table) {
        return None;
    }
    match shrunk(alloc, table, taken, rows, at) {
        Ok(after) => Some(after),
        Err(_) => None,
    }
}

/// The index after an update, or `None` where there was none, or memory is refused.
pub(crate) fn after_update(
    alloc: Global,
    table: &TableDef,
    taken: Option<Taken>,
    rows: &[Row],
    at: usize,
    cells: &[Val],
) -> Option<Taken>
    requires range { at < length rows.now }
    requires fits { FitsTable table.now rows.now }
    requires stands { IfSome taken (StandsFor rows.now) }
    ensures { IfSome result (StandsFor (slice_set rows.now at cells.now)) }
{
    let taken = taken?;
    if has_same_keys(taken.columns.as_slice(), rows[at].cells(), cells) {
        return Some(taken);
    }
    let rest = after_delete(alloc, table, Some(taken), rows, at)?;
    grown_or_none(alloc, rest, cells)
}

fn look_up(
    alloc: Global,
    table: &TableDef,
    taken: &Taken,
    rows: &[Row],
    cells: &[Val],
) -> Result<bool, NoMemory>
    requires columns { taken.now.columns ≡ table.now.unique }
    requires stands { StandsFor rows.now taken.now }
    ensures { IfOk result (λ said. said ≡ list_any (clash table.now cells.now) rows.now) }
{
    let keys = keys_of(alloc, taken.columns.as_slice(), cells)?;
    Ok(any_taken(&taken.keys, keys.as_slice()))
}

fn look_up_elsewhere(
    alloc: Global,
    table: &TableDef,
    taken: &Taken,
    rows: &[Row],
    at: usize,
    cells: &[Val],
) -> Result<bool, NoMemory>
    requires range { at < length rows.now }
    requires fits { FitsTable table.now rows.now }
    requires columns { taken.now.columns ≡ table.now.unique }
    requires stands { StandsFor rows.now taken.now }
    ensures { IfOk result (λ said. said ≡ list_any (clash table.now cells.now) (remove rows.now at)) }
{
    let keys = keys_of(alloc, taken.columns.as_slice(), cells)?;
    Ok(any_taken_by_another(&taken.keys, keys.as_slice(), rows[at].cells()))
}

/// Whether values clash with one of the rows, by the index where there is one.
pub(crate) fn clashes_by(
    alloc: Global,
    table: &TableDef,
    taken: &Option<Taken>,
    rows: &[Row],
    cells: &[Val],
) -> bool
    requires stands { IfSome taken.now (StandsFor rows.now) }
    ensures { result ≡ list_any (clash table.now cells.now) rows.now }
{
    let Some(taken) = taken else {
        return clashes(table, cells, rows);
    };
    if !is_of(taken, table) {
        return clashes(table, cells, rows);
    }
    match look_up(alloc, table, taken, rows, cells) {
        Ok(said) => said,
        Err(_) => clashes(table, cells, rows),
    }
}

/// Whether values clash with a row other than the one at a place, by the index where there is one.
pub(crate) fn clashes_elsewhere_by(
    alloc: Global,
    table: &TableDef,
    taken: &Option<Taken>,
    rows: &[Row],
    at: usize,
    cells: &[Val],
) -> bool
    requires range { at < length rows.now }
    requires fits { FitsTable table.now rows.now }
    requires stands { IfSome taken.now (StandsFor rows.now) }
    ensures { result ≡ list_any (clash table.now cells.now) (remove rows.now at) }
{
    if has_same_keys(table.unique.as_slice(), rows[at].cells(), cells) {
        return false;
    }
    let Some(taken) = taken else {
        return clashes_elsewhere(table, cells, rows, at);
    };
    if !is_of(taken, table) {
        return clashes_elsewhere(table, cells, rows, at);
    }
    match look_up_elsewhere(alloc, table, taken, rows, at, cells) {
        Ok(said) => said,
        Err(_) => clashes_elsewhere(table, cells, rows, at),
    }
}
