ghost use Rattle.std.specs.Prelude.{◌≡◌, ◌+◌, ◌≤◌, ◌<◌, insert, remove, slice_set, length, OnOk, OnErr};
ghost use Rattle.std.specs.Arc.{arc_value};
ghost use Rattle.data_model.specs.Rows.{FitsTable};

use crate::row::{Row, copy_rows};
use crate::table::Table;
use data_model::TableDef;
use scalar_val::{NoMemory, Steps};
use std::alloc::Global;
use std::sync::Arc;
use std::sync::ledger::Ledger;

/// Makes the index of the unique columns where the rows aren't shared and one owner changes them often.
pub(crate) fn make_index(alloc: Global, table: &TableDef, rows: &mut Arc<Table>)
    ensures { arc_value rows.new ≡ arc_value rows.old }
{
    match Arc::get_mut(rows) {
        Some(own) => own.make_index(alloc, table),
        None => {}
    }
}

/// Puts a row at a place. Where the rows are shared they are copied first, and the others keep theirs.
pub(crate) fn insert_row<L: Ledger>(
    alloc: Global,
    rows: &mut Arc<Table>,
    at: usize,
    row: Row,
    steps: &mut Steps<L>,
) -> Result<(), NoMemory>
    requires { at ≤ length (arc_value rows.old) }
    ensures ok { OnOk result (arc_value rows.new ≡ insert (arc_value rows.old) at row) }
    ensures err { OnErr result (arc_value rows.new ≡ arc_value rows.old) }
    ensures steps { steps.new ≤ steps.old + length (arc_value rows.old) }
{
    match Arc::get_mut(rows) {
        Some(own) => {
            if own.insert(alloc, at, row).is_err() {
                return Err(NoMemory);
            }
            Ok(())
        }
        None => {
            let mut copy = copy_rows(alloc, rows.as_slice(), steps)?;
            if copy.insert(at, row).is_err() {
                return Err(NoMemory);
            }
            *rows = Arc::new(alloc, Table::of(copy))?;
            Ok(())
        }
    }
}

/// Puts a row in the place of another. Where the rows are shared they are copied first, and the others keep theirs.
pub(crate) fn set_row<L: Ledger>(
    alloc: Global,
    table: &TableDef,
    rows: &mut Arc<Table>,
    at: usize,
    row: Row,
    steps: &mut Steps<L>,
) -> Result<(), NoMemory>
    requires range { at < length (arc_value rows.old) }
    requires fits { FitsTable table.now (arc_value rows.old) }
    ensures ok { OnOk result (arc_value rows.new ≡ slice_set (arc_value rows.old) at row) }
    ensures err { OnErr result (arc_value rows.new ≡ arc_value rows.old) }
    ensures steps { steps.new ≤ steps.old + length (arc_value rows.old) }
{
    match Arc::get_mut(rows) {
        Some(own) => {
            own.set(alloc, table, at, row);
            Ok(())
        }
        None => {
            let mut copy = copy_rows(alloc, rows.as_slice(), steps)?;
            copy.set(at, row);
            *rows = Arc::new(alloc, Table::of(copy))?;
            Ok(())
        }
    }
}

/// Takes out the row at a place. Where the rows are shared they are copied first, and the others keep theirs.
pub(crate) fn remove_row<L: Ledger>(
    alloc: Global,
    table: &TableDef,
    rows: &mut Arc<Table>,
    at: usize,
    steps: &mut Steps<L>,
) -> Result<(), NoMemory>
    requires range { at < length (arc_value rows.old) }
    requires fits { FitsTable table.now (arc_value rows.old) }
    ensures ok { OnOk result (arc_value rows.new ≡ remove (arc_value rows.old) at) }
    ensures err { OnErr result (arc_value rows.new ≡ arc_value rows.old) }
    ensures steps { steps.new ≤ steps.old + length (arc_value rows.old) }
{
    match Arc::get_mut(rows) {
        Some(own) => {
            own.remove(alloc, table, at);
            Ok(())
        }
        None => {
            let mut copy = copy_rows(alloc, rows.as_slice(), steps)?;
            drop(copy.remove(at));
            *rows = Arc::new(alloc, Table::of(copy))?;
            Ok(())
        }
    }
}
