ghost use Rattle.std.specs.Prelude.{◌≡◌, ◌++◌, ◌<◌, ◌^◌, length, not, ◌&&◌, map, unwrap_or, option_map, is_some, is_none, slice_get, IfOk, OnOk};
ghost use Rattle.std.specs.List.{find, list_any};
ghost use Rattle.scalar_val.specs.Spellings.{fitted};
ghost use Rattle.data_model.specs.Transactions.{is_column, given, row_given, key_given, set_at, set_given, is_wrong, is_null_wrongly, lacks, value_in};
ghost use Rattle.data_model.specs.Naming.{given_at};

use crate::naming::{cell_of, column_place, is_named};
use data_model::{Column, ColumnDefList, SetCell, TableDef, TxCell};
use scalar_val::{List, NoMemory, ReadFault, Val, copy_val, fit_scalar};
use std::alloc::Global;

/// What a cell gives its column: null, or what the scalar is in the column's kind, and null where it doesn't fit.
fn value_in(alloc: Global, column: &Column, value: &Val) -> Result<Val, NoMemory>
    ensures { IfOk result (λ val. val ≡ value_in column.now value.now) }
{
    match fit_scalar(alloc, column.kind, value) {
        Ok(val) => Ok(val),
        Err(ReadFault::BadValue) => Ok(Val::Null),
        Err(ReadFault::NoMemory) => Err(NoMemory),
    }
}

/// What cells give a column, and null where none names it.
fn given(alloc: Global, cells: &[TxCell], column: &Column) -> Result<Val, NoMemory>
    ensures { IfOk result (λ val. val ≡ given cells.now column.now) }
{
    match cell_of(cells, column) {
        Some(cell) => value_in(alloc, column, &cell.value),
        None => Ok(Val::Null),
    }
}

/// The row that cells give a table.
pub(crate) fn row_given(
    alloc: Global,
    table: &TableDef,
    cells: &[TxCell],
) -> Result<List<Val>, NoMemory>
    ensures { IfOk result (λ row. row ≡ row_given table.now cells.now) }
{
    let columns = table.columns.as_slice();
    let mut row = Vec::with_capacity(alloc, columns.len())?;
    for column in columns {
        row.push(given(alloc, cells, column)?)?;
    }
    Ok(List::from_vec(row))
}

#[tactic(auto, using(crate::proofs::Lists::nothing_more))]
fn push_given(
    alloc: Global,
    columns: &ColumnDefList,
    place: u32,
    cells: &[TxCell],
    key: &mut Vec<Val>,
) -> Result<(), NoMemory>
    ensures { OnOk result (key.new.items ≡ key.old.items ++ given_at cells.now (slice_get columns.now place)) }
{
    match columns.get(place as usize) {
        Some(column) => {
            key.push(given(alloc, cells, column)?)?;
            Ok(())
        }
        None => Ok(()),
    }
}

/// The key that cells give a table.
pub(crate) fn key_given(
    alloc: Global,
    table: &TableDef,
    cells: &[TxCell],
) -> Result<Vec<Val>, NoMemory>
    ensures { IfOk result (λ key. key.items ≡ key_given table.now cells.now) }
{
    let mut key = Vec::with_capacity(alloc, table.key.len())?;
    for place in table.key.as_slice() {
        push_given(alloc, &table.columns, *place, cells, &mut key)?;
    }
    Ok(key)
}

fn set_cell(at: usize, value: Val) -> SetCell
    requires { at < 2 ^ 32 }
    ensures column { result.column ≡ at }
    ensures value { result.value ≡ value }
{
    let column = at as u32;
    SetCell { column, value }
}

/// A new value by its column's place; a cell that names no column keeps its scalar, past the last place.
fn set_at(alloc: Global, columns: &ColumnDefList, cell: &TxCell) -> Result<SetCell, NoMemory>
    requires { length columns.now < 2 ^ 32 }
    ensures { IfOk result (λ set. set ≡ set_at columns.now cell.now (find (is_column cell.now.column) columns.now)) }
{
    let at = column_place(columns.as_slice(), cell.column.as_str());
    match columns.get(at) {
        Some(named) => Ok(set_cell(at, value_in(alloc, named, &cell.value)?)),
        None => Ok(set_cell(columns.len(), copy_val(alloc, &cell.value)?)),
    }
}

/// The new values that cells give a table's row.
pub(crate) fn set_given(
    alloc: Global,
    table: &TableDef,
    cells: &[TxCell],
) -> Result<Vec<SetCell>, NoMemory>
    requires { length table.now.columns < 2 ^ 32 }
    ensures { IfOk result (λ set. set.items ≡ set_given table.now cells.now) }
{
    let mut set = Vec::with_capacity(alloc, cells.len())?;
    for cell in cells {
        set.push(set_at(alloc, &table.columns, cell)?)?;
    }
    Ok(set)
}

fn fits(alloc: Global, column: &Column, value: &Val) -> Result<bool, NoMemory>
    ensures { IfOk result (λ fits. fits ≡ is_some (fitted column.now.kind value.now)) }
{
    match fit_scalar(alloc, column.kind, value) {
        Ok(_) => Ok(true),
        Err(ReadFault::BadValue) => Ok(false),
        Err(ReadFault::NoMemory) => Err(NoMemory),
    }
}

fn misfits(alloc: Global, column: &Column, cell: &TxCell) -> Result<bool, NoMemory>
    ensures { IfOk result (λ wrong. wrong ≡ (is_column cell.now.column column.now && is_none (fitted column.now.kind cell.now.value))) }
{
    if !is_named(column, cell) {
        return Ok(false);
    }
    Ok(!fits(alloc, column, &cell.value)?)
}

/// Whether a cell's value isn't null and doesn't fit its column.
fn is_wrong(alloc: Global, columns: &[Column], cell: &TxCell) -> Result<bool, NoMemory>
    ensures { IfOk result (λ wrong. wrong ≡ is_wrong columns.now cell.now) }
{
    if cell.value.is_null() {
        return Ok(false);
    }
    for column in columns {
        if misfits(alloc, column, cell)? {
            return Ok(true);
        }
    }
    Ok(false)
}

/// Whether a value that isn't null doesn't fit its column.
pub(crate) fn any_wrong(
    alloc: Global,
    columns: &[Column],
    cells: &[TxCell],
) -> Result<bool, NoMemory>
    ensures { IfOk result (λ wrong. wrong ≡ list_any (is_wrong columns.now) cells.now) }
{
    for cell in cells {
        if is_wrong(alloc, columns, cell)? {
            return Ok(true);
        }
    }
    Ok(false)
}

fn refuses_null(column: &Column, cell: &TxCell) -> bool
    ensures { result ≡ (is_column cell.now.column column.now && not column.now.nullable) }
{
    is_named(column, cell) && !column.nullable
}

/// Whether a cell's value is null and its column isn't nullable.
fn is_null_wrongly(columns: &[Column], cell: &TxCell) -> bool
    ensures { result ≡ is_null_wrongly columns.now cell.now }
{
    if !cell.value.is_null() {
        return false;
    }
    for column in columns {
        if refuses_null(column, cell) {
            return true;
        }
    }
    false
}

/// Whether null is given for a column that isn't nullable.
pub(crate) fn any_null_wrongly(columns: &[Column], cells: &[TxCell]) -> bool
    ensures { result ≡ list_any (is_null_wrongly columns.now) cells.now }
{
    for cell in cells {
        if is_null_wrongly(columns, cell) {
            return true;
        }
    }
    false
}

/// Whether cells give a column null that isn't nullable.
fn lacks(alloc: Global, cells: &[TxCell], column: &Column) -> Result<bool, NoMemory>
    ensures { IfOk result (λ lacking. lacking ≡ lacks cells.now column.now) }
{
    if column.nullable {
        return Ok(false);
    }
    let value = given(alloc, cells, column)?;
    Ok(value.is_null())
}

/// Whether cells give one of the columns null that isn't nullable.
pub(crate) fn any_lacks(
    alloc: Global,
    cells: &[TxCell],
    columns: &[Column],
) -> Result<bool, NoMemory>
    ensures { IfOk result (λ lacking. lacking ≡ list_any (lacks cells.now) columns.now) }
{
    for column in columns {
        if lacks(alloc, cells, column)? {
            return Ok(true);
        }
    }
    Ok(false)
}
