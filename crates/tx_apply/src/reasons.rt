ghost use Rattle.std.specs.Prelude.{◌≡◌, ◌++◌, IfOk};
ghost use Rattle.std.specs.List.{list_any};
ghost use Rattle.data_model.specs.Transactions.{is_wrong, is_null_wrongly};
ghost use Rattle.row_store.specs.Stored.{reason_of};
ghost use Rattle.data_model.specs.Naming.{insert_naming, update_naming, delete_naming};

use crate::naming::{all_may_set, all_name_one, name_exactly_key};
use crate::values::{any_lacks, any_null_wrongly, any_wrong};
use data_model::{Column, Reason, TableDef, TxCell};
use row_store::Stored;
use scalar_val::NoMemory;
use std::alloc::Global;

/// The first reason against an insert that looks at no row.
pub(crate) fn insert_naming(
    alloc: Global,
    table: &TableDef,
    row: &[TxCell],
) -> Result<Option<Reason>, NoMemory>
    ensures { IfOk result (λ r. r ≡ insert_naming table.now row.now) }
{
    let columns = table.columns.as_slice();
    if !all_name_one(columns, row) {
        return Ok(Some(Reason::NoColumn));
    }
    if any_wrong(alloc, columns, row)? {
        return Ok(Some(Reason::WrongKind));
    }
    if any_lacks(alloc, row, columns)? {
        return Ok(Some(Reason::NullGiven));
    }
    Ok(None)
}

#[tactic(auto, using(data_model::proofs::Found::any_of_both))]
fn wrong_in(
    alloc: Global,
    columns: &[Column],
    key: &[TxCell],
    set: &[TxCell],
) -> Result<bool, NoMemory>
    ensures { IfOk result (λ wrong. wrong ≡ list_any (is_wrong columns.now) (key.now ++ set.now)) }
{
    if any_wrong(alloc, columns, key)? {
        return Ok(true);
    }
    any_wrong(alloc, columns, set)
}

#[tactic(auto, using(data_model::proofs::Found::any_of_both))]
fn null_in(columns: &[Column], key: &[TxCell], set: &[TxCell]) -> bool
    ensures { result ≡ list_any (is_null_wrongly columns.now) (key.now ++ set.now) }
{
    any_null_wrongly(columns, key) || any_null_wrongly(columns, set)
}

/// The first reason against an update that looks at no row.
pub(crate) fn update_naming(
    alloc: Global,
    table: &TableDef,
    key: &[TxCell],
    set: &[TxCell],
) -> Result<Option<Reason>, NoMemory>
    ensures { IfOk result (λ r. r ≡ update_naming table.now key.now set.now) }
{
    let columns = table.columns.as_slice();
    if !(name_exactly_key(table, key) && all_may_set(table, set)) {
        return Ok(Some(Reason::NoColumn));
    }
    if wrong_in(alloc, columns, key, set)? {
        return Ok(Some(Reason::WrongKind));
    }
    if null_in(columns, key, set) {
        return Ok(Some(Reason::NullGiven));
    }
    Ok(None)
}

/// The first reason against a delete that looks at no row.
pub(crate) fn delete_naming(
    alloc: Global,
    table: &TableDef,
    key: &[TxCell],
) -> Result<Option<Reason>, NoMemory>
    ensures { IfOk result (λ r. r ≡ delete_naming table.now key.now) }
{
    let columns = table.columns.as_slice();
    if !name_exactly_key(table, key) {
        return Ok(Some(Reason::NoColumn));
    }
    if any_wrong(alloc, columns, key)? {
        return Ok(Some(Reason::WrongKind));
    }
    if any_null_wrongly(columns, key) {
        return Ok(Some(Reason::NullGiven));
    }
    Ok(None)
}

/// The reason of a refusal by the rows.
pub(crate) fn reason_of(stored: Stored) -> Option<Reason>
    ensures { result ≡ reason_of stored }
{
    match stored {
        Stored::Done => None,
        Stored::NoRow => Some(Reason::NoRow),
        Stored::KeyTaken => Some(Reason::KeyTaken),
        Stored::UniqueTaken => Some(Reason::UniqueTaken),
        Stored::TableFull => Some(Reason::TableFull),
    }
}
