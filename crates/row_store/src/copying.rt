ghost use Rattle.std.specs.Prelude.{◌≡◌, take, IfOk};
ghost use Rattle.scalar_val.specs.Values.{cell};
ghost use Rattle.data_model.specs.Rows.{key_of};

use data_model::{Catalog, Column, ColumnDefList, ColumnList, TableDef, TableDefList};
use scalar_val::{Kind, List, NoMemory, Str, Val, copy_val};
use std::alloc::Global;

/// The values of a row in the key's columns.
pub(crate) fn key_of(alloc: Global, table: &TableDef, row: &[Val]) -> Result<List<Val>, NoMemory>
    ensures { IfOk result (λ key. key ≡ key_of table.now row.now) }
{
    let columns = table.key.as_slice();
    let mut key = Vec::with_capacity(alloc, columns.len())?;
    for column in columns {
        key.push(copy_cell(alloc, row, *column)?)?;
    }
    Ok(List::from_vec(key))
}

fn copy_cell(alloc: Global, row: &[Val], column: u32) -> Result<Val, NoMemory>
    ensures { IfOk result (λ copy. copy ≡ cell row.now column) }
{
    match row.get(column as usize) {
        Some(value) => copy_val(alloc, value),
        None => Ok(Val::Null),
    }
}

/// An equal catalog.
pub(crate) fn copy_catalog(alloc: Global, catalog: &Catalog) -> Result<Catalog, NoMemory>
    ensures { IfOk result (λ copy. copy ≡ catalog.now) }
{
    let tables = copy_tables(alloc, catalog.tables.as_slice())?;
    Ok(Catalog { tables })
}

fn copy_tables(alloc: Global, tables: &[TableDef]) -> Result<TableDefList, NoMemory>
    ensures { IfOk result (λ copy. copy ≡ tables.now) }
{
    let mut copy = Vec::with_capacity(alloc, tables.len())?;
    for table in tables {
        copy.push(copy_table(alloc, table)?)?;
    }
    Ok(List::from_vec(copy))
}

fn copy_table(alloc: Global, table: &TableDef) -> Result<TableDef, NoMemory>
    ensures { IfOk result (λ copy. copy ≡ table.now) }
{
    let name = Str::of(alloc, table.name.as_str())?;
    let columns = copy_columns(alloc, table.columns.as_slice())?;
    let key = copy_places(alloc, table.key.as_slice())?;
    let unique = copy_places(alloc, table.unique.as_slice())?;
    let max_rows = table.max_rows;
    Ok(TableDef {
        name,
        columns,
        key,
        unique,
        max_rows,
    })
}

fn copy_columns(alloc: Global, columns: &[Column]) -> Result<ColumnDefList, NoMemory>
    ensures { IfOk result (λ copy. copy ≡ columns.now) }
{
    let mut copy = Vec::with_capacity(alloc, columns.len())?;
    for column in columns {
        copy.push(copy_column(alloc, column)?)?;
    }
    Ok(List::from_vec(copy))
}

fn copy_column(alloc: Global, column: &Column) -> Result<Column, NoMemory>
    ensures { IfOk result (λ copy. copy ≡ column.now) }
{
    let name = Str::of(alloc, column.name.as_str())?;
    let kind = column.kind;
    let nullable = column.nullable;
    Ok(Column {
        name,
        kind,
        nullable,
    })
}

fn copy_places(alloc: Global, places: &[u32]) -> Result<ColumnList, NoMemory>
    ensures { IfOk result (λ copy. copy ≡ places.now) }
{
    Ok(List::from_vec(Vec::from_slice(alloc, places)?))
}
