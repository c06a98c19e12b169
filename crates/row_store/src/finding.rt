ghost use Rattle.std.specs.Prelude.{◌≡◌, ℕ, ◌<◌, ◌≤◌, true, false, not, ◌&&◌, map, length, take, slice_index_or, IfOk, IfErr};
ghost use Rattle.std.specs.Ordering.{is_eq};
ghost use Rattle.std.specs.List.{All, list_any, remove};
ghost use Rattle.scalar_val.specs.declared.val.Val.{Val};
ghost use Rattle.scalar_val.specs.ValOrder.{val_cmp};
ghost use Rattle.scalar_val.specs.Values.{is_null, cell};
ghost use Rattle.data_model.specs.Rows.{Row, Ascends, key_of, key_cmp, is_below, has_key, alike_at, clash};
ghost use Rattle.data_model.specs.Places.{IsFree, IsHeld};

use crate::row::Row;
use data_model::TableDef;
use scalar_val::{Val, cell, cmp};
use std::cmp::Ordering;

fn compare_cell(row: &[Val], column: u32, value: &Val) -> Ordering
    ensures { result ≡ val_cmp (cell row.now column) value.now }
{
    let null = Val::Null;
    cmp(cell(row, column, &null), value)
}

/// How a row's key stands to a key.
fn compare_key(columns: &[u32], row: &[Val], key: &[Val]) -> Ordering
    ensures { result ≡ key_cmp (map (cell row.now) columns.now) key.now }
{
    let mut rest = key;
    for column in columns {
        let [value, later @ ..] = rest else {
            return Ordering::Greater;
        };
        match compare_cell(row, *column, value) {
            Ordering::Equal => {}
            other => return other,
        }
        rest = later;
    }
    if rest.is_empty() {
        Ordering::Equal
    } else {
        Ordering::Less
    }
}

/// The place of the first row whose key isn't below.
fn place_of(table: &TableDef, rows: &[Row], key: &[Val]) -> usize
    requires { Ascends table.now rows.now }
    ensures within { result ≤ length rows.now }
    ensures below { All (λ row. is_below table.now key.now row ≡ true) (take result rows.now) }
    ensures rest { (k : ℕ) (d : Row) → result ≤ k → k < length rows.now
        → is_below table.now key.now (slice_index_or rows.now k d) ≡ false }
{
    let mut low = 0;
    let mut high = rows.len();
    while low < high {
        let middle = low + (high - low) / 2;
        if is_below(table, &rows[middle], key) {
            low = middle + 1;
        } else {
            high = middle;
        }
    }
    low
}

fn is_below(table: &TableDef, row: &Row, key: &[Val]) -> bool
    ensures { result ≡ is_below table.now key.now row.now }
{
    match compare_key(table.key.as_slice(), row.cells(), key) {
        Ordering::Less => true,
        _ => false,
    }
}

fn has_key(table: &TableDef, row: &Row, key: &[Val]) -> bool
    ensures { result ≡ has_key table.now key.now row.now }
{
    match compare_key(table.key.as_slice(), row.cells(), key) {
        Ordering::Equal => true,
        _ => false,
    }
}

/// `Ok` with the place of the row that has the key, or `Err` with the place where such a row belongs.
pub(crate) fn find_row(table: &TableDef, rows: &[Row], key: &[Val]) -> Result<usize, usize>
    requires { Ascends table.now rows.now }
    ensures ok { IfOk result (λ at. IsHeld table.now key.now rows.now at) }
    ensures err { IfErr result (λ at. IsFree table.now key.now rows.now at) }
{
    let at = place_of(table, rows, key);
    if at == rows.len() {
        return Err(at);
    }
    if has_key(table, &rows[at], key) {
        Ok(at)
    } else {
        Err(at)
    }
}

fn alike(a: &Val, b: &Val) -> bool
    ensures { result ≡ (not (is_null a.now) && is_eq (val_cmp a.now b.now)) }
{
    if a.is_null() {
        return false;
    }
    match cmp(a, b) {
        Ordering::Equal => true,
        _ => false,
    }
}

fn alike_at(a: &[Val], b: &[Val], column: u32) -> bool
    ensures { result ≡ alike_at a.now b.now column }
{
    let null = Val::Null;
    alike(cell(a, column, &null), cell(b, column, &null))
}

/// Whether two rows have the same value, not null, in a unique column.
fn clash(unique: &[u32], a: &[Val], b: &[Val]) -> bool
    ensures { result ≡ list_any (alike_at a.now b.now) unique.now }
{
    for column in unique {
        if alike_at(a, b, *column) {
            return true;
        }
    }
    false
}

/// Whether values clash with one of the rows.
pub(crate) fn clashes(table: &TableDef, cells: &[Val], rows: &[Row]) -> bool
    ensures { result ≡ list_any (clash table.now cells.now) rows.now }
{
    if table.unique.is_empty() {
        return false;
    }
    for row in rows {
        if clash(table.unique.as_slice(), cells, row.cells()) {
            return true;
        }
    }
    false
}

/// Whether values clash with a row other than the one at a place.
pub(crate) fn clashes_elsewhere(table: &TableDef, cells: &[Val], rows: &[Row], at: usize) -> bool
    requires { at < length rows.now }
    ensures { result ≡ list_any (clash table.now cells.now) (remove rows.now at) }
{
    if clashes(table, cells, &rows[..at]) {
        return true;
    }
    clashes(table, cells, &rows[at + 1..])
}
