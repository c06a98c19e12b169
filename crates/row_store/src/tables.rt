ghost use Rattle.std.specs.Prelude.{◌≡◌, ◌+◌, ◌≤◌, ◌<◌, true, false, None, length, nat_le, IsTrue, IfOk, IfErr, OnOk, slice_index_or};
ghost use Rattle.std.specs.Arc.{arc_value};
ghost use Rattle.std.specs.List.{insert, list_any, list_all, remove, slice_set};
ghost use Rattle.data_model.specs.Rows.{Ascends, FitsTable, key_of, clash, row_fits, may_stand, set_cells, inserted, updated, deleted, first_reason, insert_tests, update_tests, delete_tests};
ghost use Rattle.data_model.specs.Places.{IsFree, IsHeld};
ghost use Rattle.row_store.specs.Stored.{reason_of, after};

use crate::copying::key_of;
use crate::finding::find_row;
use crate::row::{Row, with_cells};
use crate::sharing::{insert_row, make_index, remove_row, set_row};
use crate::stored::Stored;
use crate::table::Table;
use data_model::{SetCell, TableDef};
use scalar_val::{List, NoMemory, Steps, Val};
use std::alloc::Global;
use std::sync::Arc;
use std::sync::ledger::Ledger;

/// The rows that an owner shares.
pub(crate) fn rows_of(rows: &Arc<Table>) -> &[Row]
    ensures { result.now ≡ arc_value rows.now }
{
    let table: &Table = rows;
    table.as_slice()
}

/// The place for a new row, or the first reason against it.
fn insert_place(
    alloc: Global,
    table: &TableDef,
    rows: &Table,
    cells: &[Val],
    key: &[Val],
) -> Result<usize, Stored>
    requires fits { FitsTable table.now rows.now }
    requires row { IsTrue (row_fits table.now.columns cells.now) }
    requires key { key.now ≡ key_of table.now cells.now }
    ensures within { IfOk result (λ at. at ≤ length rows.now) }
    ensures made { IfOk result (λ at. insert rows.now at cells.now ≡ inserted table.now cells.now rows.now) }
    ensures fits { IfOk result (λ at. FitsTable table.now (insert rows.now at cells.now)) }
    ensures none { OnOk result (None ≡ first_reason (insert_tests table.now cells.now rows.now)) }
    ensures refused { IfErr result (λ stored. reason_of stored ≡ first_reason (insert_tests table.now cells.now rows.now)) }
    ensures kept { IfErr result (λ stored. stored ≡ Stored.Done → ⊥) }
{
    let list = rows.as_slice();
    match find_row(table, list, key) {
        Ok(_) => Err(Stored::KeyTaken),
        Err(at) => {
            if rows.clashes(alloc, table, cells) {
                return Err(Stored::UniqueTaken);
            }
            if list.len() >= table.max_rows as usize {
                return Err(Stored::TableFull);
            }
            Ok(at)
        }
    }
}

/// Inserts a row in its place by key.
pub(crate) fn insert_into<L: Ledger>(
    alloc: Global,
    table: &TableDef,
    rows: &mut Arc<Table>,
    cells: List<Val>,
    steps: &mut Steps<L>,
) -> Result<Stored, NoMemory>
    requires fits { FitsTable table.now (arc_value rows.old) }
    requires row { IsTrue (row_fits table.now.columns cells) }
    ensures answer { IfOk result (λ stored. reason_of stored ≡ first_reason (insert_tests table.now cells (arc_value rows.old))) }
    ensures state { arc_value rows.new ≡ after result (arc_value rows.old) (inserted table.now cells (arc_value rows.old)) }
    ensures fits { FitsTable table.now (arc_value rows.new) }
    ensures steps { steps.new ≤ steps.old + length (arc_value rows.old) }
{
    let key = key_of(alloc, table, cells.as_slice())?;
    make_index(alloc, table, rows);
    match insert_place(alloc, table, rows, cells.as_slice(), key.as_slice()) {
        Ok(at) => {
            insert_row(alloc, rows, at, Row::of(cells), steps)?;
            Ok(Stored::Done)
        }
        Err(stored) => Ok(stored),
    }
}

fn sets_unique(table: &TableDef, set: &[SetCell]) -> bool {
    for cell in set {
        if table.unique.as_slice().contains(&cell.column) {
            return true;
        }
    }
    false
}

/// Makes the index where an update needs it.
fn make_index_for(alloc: Global, table: &TableDef, rows: &mut Arc<Table>, set: &[SetCell])
    ensures { arc_value rows.new ≡ arc_value rows.old }
{
    if sets_unique(table, set) {
        make_index(alloc, table, rows);
    }
}

/// A row and the place where it belongs.
struct Placed {
    at: usize,
    row: Row,
}

/// The row with a key as it is with new values, and its place, or the first reason against the update.
fn updated_row<L: Ledger>(
    alloc: Global,
    table: &TableDef,
    rows: &Table,
    key: &[Val],
    set: &[SetCell],
    steps: &mut Steps<L>,
) -> Result<Result<Placed, Stored>, NoMemory>
    requires fits { FitsTable table.now rows.now }
    requires set { IsTrue (list_all (may_stand table.now) set.now) }
    ensures within { IfOk result (λ found. IfOk found (λ p. p.at < length rows.now)) }
    ensures made { IfOk result (λ found. IfOk found (λ p. slice_set rows.now p.at p.row ≡ updated table.now key.now set.now rows.now)) }
    ensures fits { IfOk result (λ found. IfOk found (λ p. FitsTable table.now (slice_set rows.now p.at p.row))) }
    ensures none { IfOk result (λ found. OnOk found (None ≡ first_reason (update_tests table.now key.now set.now rows.now))) }
    ensures refused { IfOk result (λ found. IfErr found (λ stored. reason_of stored ≡ first_reason (update_tests table.now key.now set.now rows.now))) }
    ensures kept { IfOk result (λ found. IfErr found (λ stored. stored ≡ Stored.Done → ⊥)) }
    ensures steps { steps.new ≤ steps.old + 1 }
{
    let list = rows.as_slice();
    match find_row(table, list, key) {
        Err(_) => Ok(Err(Stored::NoRow)),
        Ok(at) => {
            let row = with_cells(alloc, &list[at], set, steps)?;
            if rows.clashes_elsewhere(alloc, table, at, row.cells()) {
                return Ok(Err(Stored::UniqueTaken));
            }
            Ok(Ok(Placed { at, row }))
        }
    }
}

/// Sets values in the row with a key, none of them in a key column.
pub(crate) fn update_in<L: Ledger>(
    alloc: Global,
    table: &TableDef,
    rows: &mut Arc<Table>,
    key: &[Val],
    set: &[SetCell],
    steps: &mut Steps<L>,
) -> Result<Stored, NoMemory>
    requires fits { FitsTable table.now (arc_value rows.old) }
    requires set { IsTrue (list_all (may_stand table.now) set.now) }
    ensures answer { IfOk result (λ stored. reason_of stored ≡ first_reason (update_tests table.now key.now set.now (arc_value rows.old))) }
    ensures state { arc_value rows.new ≡ after result (arc_value rows.old) (updated table.now key.now set.now (arc_value rows.old)) }
    ensures fits { FitsTable table.now (arc_value rows.new) }
    ensures steps { steps.new ≤ steps.old + length (arc_value rows.old) + 1 }
{
    make_index_for(alloc, table, rows, set);
    match updated_row(alloc, table, rows, key, set, steps)? {
        Ok(placed) => {
            let Placed { at, row } = placed;
            set_row(alloc, table, rows, at, row, steps)?;
            Ok(Stored::Done)
        }
        Err(stored) => Ok(stored),
    }
}

/// The place of the row with a key, or the reason against its deletion.
fn delete_place(table: &TableDef, rows: &[Row], key: &[Val]) -> Result<usize, Stored>
    requires fits { FitsTable table.now rows.now }
    ensures within { IfOk result (λ at. at < length rows.now) }
    ensures made { IfOk result (λ at. remove rows.now at ≡ deleted table.now key.now rows.now) }
    ensures fits { IfOk result (λ at. FitsTable table.now (remove rows.now at)) }
    ensures none { OnOk result (None ≡ first_reason (delete_tests table.now key.now rows.now)) }
    ensures refused { IfErr result (λ stored. reason_of stored ≡ first_reason (delete_tests table.now key.now rows.now)) }
    ensures kept { IfErr result (λ stored. stored ≡ Stored.Done → ⊥) }
{
    match find_row(table, rows, key) {
        Ok(at) => Ok(at),
        Err(_) => Err(Stored::NoRow),
    }
}

/// Takes out the row with a key.
pub(crate) fn delete_from<L: Ledger>(
    alloc: Global,
    table: &TableDef,
    rows: &mut Arc<Table>,
    key: &[Val],
    steps: &mut Steps<L>,
) -> Result<Stored, NoMemory>
    requires fits { FitsTable table.now (arc_value rows.old) }
    ensures answer { IfOk result (λ stored. reason_of stored ≡ first_reason (delete_tests table.now key.now (arc_value rows.old))) }
    ensures state { arc_value rows.new ≡ after result (arc_value rows.old) (deleted table.now key.now (arc_value rows.old)) }
    ensures fits { FitsTable table.now (arc_value rows.new) }
    ensures steps { steps.new ≤ steps.old + length (arc_value rows.old) }
{
    match delete_place(table, rows_of(rows), key) {
        Ok(at) => {
            remove_row(alloc, table, rows, at, steps)?;
            Ok(Stored::Done)
        }
        Err(stored) => Ok(stored),
    }
}
