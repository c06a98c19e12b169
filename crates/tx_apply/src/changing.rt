ghost use Rattle.std.specs.Prelude.{◌≡◌, ◌+◌, ◌≤◌, ◌<◌, Some, None, length, slice_get, IfOk};
ghost use Rattle.data_model.specs.Rows.{first_reason, inserted, updated, deleted};
ghost use Rattle.data_model.specs.Transactions.{change as outcome, key_given, row_given, rows_after, set_given, tests_of, tests_of_delete, tests_of_insert, tests_of_update, unless};
ghost use Rattle.row_store.specs.Held.{table_at, rows_at, with_rows};
ghost use Rattle.tx_apply.specs.Cost.{change_cost};

use crate::naming::{table_of, table_place};
use crate::reasons::{delete_naming, insert_naming, reason_of, update_naming};
use crate::values::{key_given, row_given, set_given};
use data_model::{Catalog, Reason, TableDef, TxCell, TxChange};
use row_store::Snapshot;
use scalar_val::{NoMemory, Steps};
use std::alloc::Global;
use std::sync::ledger::Ledger;

#[tactic(auto, using(data_model::proofs::Gives::row_given_fits, data_model::proofs::Gives::insert_answers))]
fn insert_change<L: Ledger>(
    alloc: Global,
    table: &TableDef,
    at: u32,
    snapshot: &mut Snapshot,
    row: &[TxCell],
    steps: &mut Steps<L>,
) -> Result<Option<Reason>, NoMemory>
    requires range { at < length snapshot.old.tables }
    requires table { table_at snapshot.old at ≡ table.now }
    ensures answer { IfOk result (λ r. r ≡ first_reason (tests_of_insert table.now row.now (rows_at snapshot.old at))) }
    ensures state { IfOk result (λ r. r ≡ None → snapshot.new ≡ with_rows snapshot.old at (inserted table.now (row_given table.now row.now) (rows_at snapshot.old at))) }
    ensures catalog { snapshot.new.catalog ≡ snapshot.old.catalog }
    ensures steps { steps.new ≤ steps.old + (length (rows_at snapshot.old at) + 1) }
{
    let named = insert_naming(alloc, table, row)?;
    if named.is_some() {
        return Ok(named);
    }
    let cells = row_given(alloc, table, row)?;
    Ok(reason_of(snapshot.insert(alloc, at, cells, steps)?))
}

#[tactic(auto, using(data_model::proofs::Gives::set_given_stands, data_model::proofs::Gives::update_answers, crate::proofs::Places::few_columns))]
fn update_change<L: Ledger>(
    alloc: Global,
    table: &TableDef,
    at: u32,
    snapshot: &mut Snapshot,
    key: &[TxCell],
    set: &[TxCell],
    steps: &mut Steps<L>,
) -> Result<Option<Reason>, NoMemory>
    requires range { at < length snapshot.old.tables }
    requires table { table_at snapshot.old at ≡ table.now }
    ensures answer { IfOk result (λ r. r ≡ first_reason (tests_of_update table.now key.now set.now (rows_at snapshot.old at))) }
    ensures state { IfOk result (λ r. r ≡ None → snapshot.new ≡ with_rows snapshot.old at (updated table.now (key_given table.now key.now) (set_given table.now set.now) (rows_at snapshot.old at))) }
    ensures catalog { snapshot.new.catalog ≡ snapshot.old.catalog }
    ensures steps { steps.new ≤ steps.old + (length (rows_at snapshot.old at) + 1) }
{
    let named = update_naming(alloc, table, key, set)?;
    if named.is_some() {
        return Ok(named);
    }
    let values = key_given(alloc, table, key)?;
    snapshot.numbered();
    let cells = set_given(alloc, table, set)?;
    Ok(reason_of(snapshot.update(alloc, at, values.as_slice(), cells.as_slice(), steps)?))
}

#[tactic(auto, using(data_model::proofs::Gives::delete_first))]
fn delete_change<L: Ledger>(
    alloc: Global,
    table: &TableDef,
    at: u32,
    snapshot: &mut Snapshot,
    key: &[TxCell],
    steps: &mut Steps<L>,
) -> Result<Option<Reason>, NoMemory>
    requires range { at < length snapshot.old.tables }
    requires table { table_at snapshot.old at ≡ table.now }
    ensures answer { IfOk result (λ r. r ≡ first_reason (tests_of_delete table.now key.now (rows_at snapshot.old at))) }
    ensures state { IfOk result (λ r. r ≡ None → snapshot.new ≡ with_rows snapshot.old at (deleted table.now (key_given table.now key.now) (rows_at snapshot.old at))) }
    ensures catalog { snapshot.new.catalog ≡ snapshot.old.catalog }
    ensures steps { steps.new ≤ steps.old + (length (rows_at snapshot.old at) + 1) }
{
    let named = delete_naming(alloc, table, key)?;
    if named.is_some() {
        return Ok(named);
    }
    let values = key_given(alloc, table, key)?;
    Ok(reason_of(snapshot.delete(alloc, at, values.as_slice(), steps)?))
}

/// Makes one change of the table at a place, or answers the first reason against it.
fn change_table<L: Ledger>(
    alloc: Global,
    table: &TableDef,
    at: u32,
    snapshot: &mut Snapshot,
    change: &TxChange,
    steps: &mut Steps<L>,
) -> Result<Option<Reason>, NoMemory>
    requires range { at < length snapshot.old.tables }
    requires table { table_at snapshot.old at ≡ table.now }
    ensures answer { IfOk result (λ r. r ≡ first_reason (tests_of change.now table.now (rows_at snapshot.old at))) }
    ensures state { IfOk result (λ r. r ≡ None → snapshot.new ≡ with_rows snapshot.old at (rows_after change.now table.now (rows_at snapshot.old at))) }
    ensures catalog { snapshot.new.catalog ≡ snapshot.old.catalog }
    ensures steps { steps.new ≤ steps.old + (length (rows_at snapshot.old at) + 1) }
{
    match change {
        TxChange::Insert { row, .. } => {
            insert_change(alloc, table, at, snapshot, row.as_slice(), steps)
        }
        TxChange::Update { key, set, .. } => update_change(
            alloc,
            table,
            at,
            snapshot,
            key.as_slice(),
            set.as_slice(),
            steps,
        ),
        TxChange::Delete { key, .. } => {
            delete_change(alloc, table, at, snapshot, key.as_slice(), steps)
        }
    }
}

/// Makes one change, or answers the first reason against it.
pub(crate) fn change_one<L: Ledger>(
    alloc: Global,
    catalog: &Catalog,
    snapshot: &mut Snapshot,
    change: &TxChange,
    steps: &mut Steps<L>,
) -> Result<Option<Reason>, NoMemory>
    requires { snapshot.old.catalog ≡ catalog.now }
    ensures answer { IfOk result (λ r. outcome catalog.now snapshot.old.tables change.now ≡ unless r snapshot.new.tables) }
    ensures catalog { snapshot.new.catalog ≡ snapshot.old.catalog }
    ensures steps { steps.new ≤ steps.old + change_cost catalog.now snapshot.old.tables change.now }
{
    let place = table_place(catalog.tables.as_slice(), table_of(change));
    match catalog.tables.get(place) {
        Some(table) => {
            snapshot.fits();
            snapshot.numbered();
            change_table(alloc, table, place as u32, snapshot, change, steps)
        }
        None => Ok(Some(Reason::NoTable)),
    }
}
