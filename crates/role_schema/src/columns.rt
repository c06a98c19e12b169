//! Tables and their columns by the places of their names.

ghost use Rattle.std.specs.Prelude.{◌≡◌, IfOk, map};
ghost use Rattle.role_schema.specs.ColumnNames.{names_of_columns, names_in_table, names_of_tables};

use data_model::{Column, TableDef};
use name_set::NameSet;
use scalar_val::{List, NoMemory, Str};
use std::alloc::Global;

fn names_of(alloc: Global, columns: &[Column]) -> Result<NameSet, NoMemory>
    ensures { IfOk result (λ names. names ≡ names_of_columns columns.now) }
{
    let mut names = NameSet::new(alloc);
    for column in columns {
        names.insert(alloc, Str::of(alloc, column.name.as_str())?)?;
    }
    Ok(names)
}

/// The names of the columns of each table.
pub fn column_names_of_all(alloc: Global, tables: &[TableDef]) -> Result<List<NameSet>, NoMemory>
    ensures { IfOk result (λ names. names ≡ map names_in_table tables.now) }
{
    let mut names = List::new(alloc);
    for table in tables {
        names.add(names_of(alloc, table.columns.as_slice())?)?;
    }
    Ok(names)
}

/// The names of the tables.
pub fn table_names_of_all(alloc: Global, tables: &[TableDef]) -> Result<NameSet, NoMemory>
    ensures { IfOk result (λ names. names ≡ names_of_tables tables.now) }
{
    let mut names = NameSet::new(alloc);
    for table in tables {
        names.insert(alloc, Str::of(alloc, table.name.as_str())?)?;
    }
    Ok(names)
}
