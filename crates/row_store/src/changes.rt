ghost use Rattle.std.specs.Prelude.{◌≡◌, ◌+◌, ◌≤◌, ◌<◌, map, length, slice_set, IsTrue, IfOk};
ghost use Rattle.std.specs.Arc.{arc_value};
ghost use Rattle.std.specs.List.{list_all};
ghost use Rattle.data_model.specs.Rows.{FitAll, row_fits, may_stand, inserted, updated, deleted, first_reason, insert_tests, update_tests, delete_tests};
ghost use Rattle.row_store.specs.Held.{def_at, rows_in};
ghost use Rattle.row_store.specs.Stored.{reason_of, after};

use crate::stored::Stored;
use crate::table::Table;
use crate::tables::{delete_from, insert_into, update_in};
use data_model::{SetCell, TableDef};
use scalar_val::{List, NoMemory, Steps, Val};
use std::alloc::Global;
use std::sync::Arc;
use std::sync::ledger::Ledger;

fn def_of(defs: &[TableDef], at: usize) -> &TableDef
    requires { at < length defs.now }
    ensures { result.now ≡ def_at defs.now at }
{
    &defs[at]
}

/// Inserts a row into the table at a place.
pub(crate) fn insert_at<L: Ledger>(
    alloc: Global,
    defs: &[TableDef],
    tables: &mut [Arc<Table>],
    at: usize,
    cells: List<Val>,
    steps: &mut Steps<L>,
) -> Result<Stored, NoMemory>
    requires fits { FitAll defs.now (map (λ rows. arc_value rows) tables.old) }
    requires range { at < length tables.old }
    requires row { IsTrue (row_fits (def_at defs.now at).columns cells) }
    ensures answer { IfOk result (λ stored. reason_of stored ≡ first_reason (insert_tests (def_at defs.now at) cells (rows_in (map (λ rows. arc_value rows) tables.old) at))) }
    ensures state { map (λ rows. arc_value rows) tables.new ≡ after result (map (λ rows. arc_value rows) tables.old)
        (slice_set (map (λ rows. arc_value rows) tables.old) at (inserted (def_at defs.now at) cells (rows_in (map (λ rows. arc_value rows) tables.old) at))) }
    ensures fits { FitAll defs.now (map (λ rows. arc_value rows) tables.new) }
    ensures steps { steps.new ≤ steps.old + (length (rows_in (map (λ rows. arc_value rows) tables.old) at) + 1) }
{
    insert_into(alloc, def_of(defs, at), &mut tables[at], cells, steps)
}

/// Sets values in a row of the table at a place.
pub(crate) fn update_at<L: Ledger>(
    alloc: Global,
    defs: &[TableDef],
    tables: &mut [Arc<Table>],
    at: usize,
    key: &[Val],
    set: &[SetCell],
    steps: &mut Steps<L>,
) -> Result<Stored, NoMemory>
    requires fits { FitAll defs.now (map (λ rows. arc_value rows) tables.old) }
    requires range { at < length tables.old }
    requires set { IsTrue (list_all (may_stand (def_at defs.now at)) set.now) }
    ensures answer { IfOk result (λ stored. reason_of stored ≡ first_reason (update_tests (def_at defs.now at) key.now set.now (rows_in (map (λ rows. arc_value rows) tables.old) at))) }
    ensures state { map (λ rows. arc_value rows) tables.new ≡ after result (map (λ rows. arc_value rows) tables.old)
        (slice_set (map (λ rows. arc_value rows) tables.old) at (updated (def_at defs.now at) key.now set.now (rows_in (map (λ rows. arc_value rows) tables.old) at))) }
    ensures fits { FitAll defs.now (map (λ rows. arc_value rows) tables.new) }
    ensures steps { steps.new ≤ steps.old + (length (rows_in (map (λ rows. arc_value rows) tables.old) at) + 1) }
{
    update_in(alloc, def_of(defs, at), &mut tables[at], key, set, steps)
}

/// Takes a row out of the table at a place.
pub(crate) fn delete_at<L: Ledger>(
    alloc: Global,
    defs: &[TableDef],
    tables: &mut [Arc<Table>],
    at: usize,
    key: &[Val],
    steps: &mut Steps<L>,
) -> Result<Stored, NoMemory>
    requires fits { FitAll defs.now (map (λ rows. arc_value rows) tables.old) }
    requires range { at < length tables.old }
    ensures answer { IfOk result (λ stored. reason_of stored ≡ first_reason (delete_tests (def_at defs.now at) key.now (rows_in (map (λ rows. arc_value rows) tables.old) at))) }
    ensures state { map (λ rows. arc_value rows) tables.new ≡ after result (map (λ rows. arc_value rows) tables.old)
        (slice_set (map (λ rows. arc_value rows) tables.old) at (deleted (def_at defs.now at) key.now (rows_in (map (λ rows. arc_value rows) tables.old) at))) }
    ensures fits { FitAll defs.now (map (λ rows. arc_value rows) tables.new) }
    ensures steps { steps.new ≤ steps.old + (length (rows_in (map (λ rows. arc_value rows) tables.old) at) + 1) }
{
    delete_from(alloc, def_of(defs, at), &mut tables[at], key, steps)
}
