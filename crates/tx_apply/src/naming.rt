ghost use Rattle.std.specs.Prelude.{◌≡◌, true, false, ◌++◌, not, ◌&&◌, map, unwrap_or, option_map, slice_get, IfOk, OnOk};
ghost use Rattle.std.specs.List.{filter_map, find, list_any, list_all, position, position_or_len};
ghost use Rattle.std.specs.Option.{option_copied};
ghost use Rattle.data_model.specs.Transactions.{is_column, is_cell_of, is_table, table_of, key_columns, names_one, name_exactly, may_set};

use data_model::{Column, TableDef, TxCell, TxChange};

/// The name of a change's table.
pub(crate) fn table_of(change: &TxChange) -> &str
    ensures { result.now ≡ table_of change.now }
{
    match change {
        TxChange::Insert { table, .. } => table.as_str(),
        TxChange::Update { table, .. } => table.as_str(),
        TxChange::Delete { table, .. } => table.as_str(),
    }
}

fn table_named(tables: &[TableDef], name: &str) -> Option<usize>
    ensures { result ≡ position (is_table name.now) tables.now }
{
    tables.iter().position(|table| table.name.as_str() == name)
}

/// The place of the table with a name, or how many tables there are.
#[tactic(auto, using(crate::proofs::Lists::first_place))]
pub(crate) fn table_place(tables: &[TableDef], name: &str) -> usize
    ensures { result ≡ position_or_len (is_table name.now) tables.now }
{
    table_named(tables, name).unwrap_or(tables.len())
}

fn column_named(columns: &[Column], name: &str) -> Option<usize>
    ensures { result ≡ position (is_column name.now) columns.now }
{
    columns
        .iter()
        .position(|column| column.name.as_str() == name)
}

/// The place of the column with a name, or how many columns there are.
#[tactic(auto, using(crate::proofs::Lists::first_place))]
pub(crate) fn column_place(columns: &[Column], name: &str) -> usize
    ensures { result ≡ position_or_len (is_column name.now) columns.now }
{
    column_named(columns, name).unwrap_or(columns.len())
}

/// Whether a cell names a column.
pub(crate) fn is_named(column: &Column, cell: &TxCell) -> bool
    ensures column { result ≡ is_column cell.now.column column.now }
    ensures cell { result ≡ is_cell_of column.now cell.now }
{
    column.name.as_str() == cell.column.as_str()
}

/// The cell that names a column.
pub(crate) fn cell_of<'a>(cells: &'a [TxCell], column: &Column) -> Option<&'a TxCell>
    ensures { option_copied result ≡ find (is_cell_of column.now) cells.now }
{
    for cell in cells {
        if is_named(column, cell) {
            return Some(cell);
        }
    }
    None
}

/// Whether a cell names one of the columns.
fn names_one(columns: &[Column], cell: &TxCell) -> bool
    ensures { result ≡ names_one columns.now cell.now }
{
    for column in columns {
        if is_named(column, cell) {
            return true;
        }
    }
    false
}

/// Whether each cell names one of the columns.
pub(crate) fn all_name_one(columns: &[Column], cells: &[TxCell]) -> bool
    ensures { result ≡ list_all (names_one columns.now) cells.now }
{
    for cell in cells {
        if !names_one(columns, cell) {
            return false;
        }
    }
    true
}

/// Whether one of the cells names a column.
fn has_cell(cells: &[TxCell], column: &Column) -> bool
    ensures { result ≡ list_any (is_cell_of column.now) cells.now }
{
    for cell in cells {
        if is_named(column, cell) {
            return true;
        }
    }
    false
}

fn names_place(columns: &[Column], place: u32, cell: &TxCell) -> bool
    ensures { result ≡ unwrap_or (option_map (is_column cell.now.column) (slice_get columns.now place)) false }
{
    match columns.get(place as usize) {
        Some(column) => is_named(column, cell),
        None => false,
    }
}

/// Whether a cell names a key column.
fn names_key(table: &TableDef, cell: &TxCell) -> bool
    ensures { result ≡ names_one (key_columns table.now) cell.now }
{
    for place in table.key.as_slice() {
        if names_place(table.columns.as_slice(), *place, cell) {
            return true;
        }
    }
    false
}

fn all_name_key(table: &TableDef, cells: &[TxCell]) -> bool
    ensures { result ≡ list_all (names_one (key_columns table.now)) cells.now }
{
    for cell in cells {
        if !names_key(table, cell) {
            return false;
        }
    }
    true
}

fn has_cell_at(columns: &[Column], place: u32, cells: &[TxCell]) -> bool
    ensures { result ≡ unwrap_or (option_map (λ column. list_any (is_cell_of column) cells.now) (slice_get columns.now place)) true }
{
    match columns.get(place as usize) {
        Some(column) => has_cell(cells, column),
        None => true,
    }
}

fn has_all_of_key(table: &TableDef, cells: &[TxCell]) -> bool
    ensures { result ≡ list_all (λ column. list_any (is_cell_of column) cells.now) (key_columns table.now) }
{
    for place in table.key.as_slice() {
        if !has_cell_at(table.columns.as_slice(), *place, cells) {
            return false;
        }
    }
    true
}

/// Whether cells name all key columns, and no other.
pub(crate) fn name_exactly_key(table: &TableDef, cells: &[TxCell]) -> bool
    ensures { result ≡ name_exactly (key_columns table.now) cells.now }
{
    all_name_key(table, cells) && has_all_of_key(table, cells)
}

fn may_set(table: &TableDef, cell: &TxCell) -> bool
    ensures { result ≡ may_set table.now cell.now }
{
    names_one(table.columns.as_slice(), cell) && !names_key(table, cell)
}

/// Whether each cell names a column, and none one of the key.
pub(crate) fn all_may_set(table: &TableDef, cells: &[TxCell]) -> bool
    ensures { result ≡ list_all (may_set table.now) cells.now }
{
    for cell in cells {
        if !may_set(table, cell) {
            return false;
        }
    }
    true
}
