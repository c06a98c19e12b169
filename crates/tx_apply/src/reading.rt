ghost use Rattle.std.specs.Prelude.{◌≡◌, ◌∷◌, [], Some, None, IfOk, IfErr};
ghost use Rattle.serde_json.specs.View.{view, items_view, members_view};
ghost use Rattle.data_model.specs.Form.{change_from, change_of, changes_from, delete_form, has_exactly, insert_form, transaction, transaction_of, update_form};

use crate::members::{cells_at, count, has, text_at};
use data_model::{Tx, TxChange};
use scalar_val::NoMemory;
use serde_json::{Map, Value};
use std::alloc::Global;

/// Why no transaction was read: the text isn't the JSON of one, or memory was refused.
#[derive(Clone, Copy, Debug, PartialEq, Eq)]
pub enum TxTextFault {
    NotTransaction,
    NoMemory,
}

#[tactic(auto, using(crate::proofs::InOrder::and_true))]
fn has_two(map: &Map<String, Value>, first: &str, second: &str) -> bool
    ensures { result ≡ has_exactly (first.now ∷ second.now ∷ []) (members_view map.now.entries) }
{
    if count(map) != 2 {
        return false;
    }
    if !has(map, first) {
        return false;
    }
    has(map, second)
}

#[tactic(auto, using(crate::proofs::InOrder::and_true))]
fn has_three(map: &Map<String, Value>, first: &str, second: &str, third: &str) -> bool
    ensures { result ≡ has_exactly (first.now ∷ second.now ∷ third.now ∷ []) (members_view map.now.entries) }
{
    if count(map) != 3 {
        return false;
    }
    if !has(map, first) {
        return false;
    }
    if !has(map, second) {
        return false;
    }
    has(map, third)
}

fn read_insert(alloc: Global, map: &Map<String, Value>) -> Result<Option<TxChange>, NoMemory>
    ensures { IfOk result (λ o. o ≡ insert_form (members_view map.now.entries)) }
{
    let Some(table) = text_at(alloc, map, "insert")? else {
        return Ok(None);
    };
    let Some(row) = cells_at(alloc, map, "row")? else {
        return Ok(None);
    };
    Ok(Some(TxChange::Insert { table, row }))
}

fn read_update(alloc: Global, map: &Map<String, Value>) -> Result<Option<TxChange>, NoMemory>
    ensures { IfOk result (λ o. o ≡ update_form (members_view map.now.entries)) }
{
    let Some(table) = text_at(alloc, map, "update")? else {
        return Ok(None);
    };
    let Some(key) = cells_at(alloc, map, "key")? else {
        return Ok(None);
    };
    let Some(set) = cells_at(alloc, map, "set")? else {
        return Ok(None);
    };
    Ok(Some(TxChange::Update { table, key, set }))
}

fn read_delete(alloc: Global, map: &Map<String, Value>) -> Result<Option<TxChange>, NoMemory>
    ensures { IfOk result (λ o. o ≡ delete_form (members_view map.now.entries)) }
{
    let Some(table) = text_at(alloc, map, "delete")? else {
        return Ok(None);
    };
    let Some(key) = cells_at(alloc, map, "key")? else {
        return Ok(None);
    };
    Ok(Some(TxChange::Delete { table, key }))
}

/// The change that an object is, with exactly the keys of one form.
fn read_form(alloc: Global, map: &Map<String, Value>) -> Result<Option<TxChange>, NoMemory>
    ensures { IfOk result (λ o. o ≡ change_from (members_view map.now.entries)) }
{
    if has_two(map, "insert", "row") {
        return read_insert(alloc, map);
    }
    if has_three(map, "update", "key", "set") {
        return read_update(alloc, map);
    }
    if has_two(map, "delete", "key") {
        return read_delete(alloc, map);
    }
    Ok(None)
}

fn read_change(alloc: Global, value: &Value) -> Result<Option<TxChange>, NoMemory>
    ensures { IfOk result (λ o. o ≡ change_of (view value.now)) }
{
    match value {
        Value::Object(map) => read_form(alloc, map),
        _ => Ok(None),
    }
}

fn read_changes(alloc: Global, values: &Vec<Value>) -> Result<Option<Tx>, NoMemory>
    ensures { IfOk result (λ o. o ≡ changes_from (items_view values.now.items)) }
{
    let mut tx = Tx::new(alloc);
    for value in values {
        let Some(change) = read_change(alloc, value)? else {
            return Ok(None);
        };
        if tx.push(change).is_err() {
            return Err(NoMemory);
        }
    }
    Ok(Some(tx))
}

fn read_list(alloc: Global, value: &Value) -> Result<Option<Tx>, NoMemory>
    ensures { IfOk result (λ o. o ≡ transaction_of (view value.now)) }
{
    match value {
        Value::Array(values) => read_changes(alloc, values),
        _ => Ok(None),
    }
}

/// The transaction that a JSON text is. The text is a list of changes, each an object with exactly the keys of its form:
/// `insert` and `row`, `update`, `key` and `set`, or `delete` and `key`. The first names a table, the others are objects
/// whose values are null, booleans, integers of 64 bits, or strings. Of a key that an object has twice the last value
/// counts. `NotTransaction` comes exactly where the text is none.
pub fn read_tx(alloc: Global, text: &str) -> Result<Tx, TxTextFault>
    ensures transaction { IfOk result (λ tx. transaction text.now ≡ Some tx) }
    ensures none { IfErr result (λ fault. fault ≡ TxTextFault.NotTransaction → transaction text.now ≡ None) }
{
    let value = match Value::from_str(alloc, text) {
        Ok(value) => value,
        Err(error) => {
            return Err(if error.is_memory() {
                TxTextFault::NoMemory
            } else {
                TxTextFault::NotTransaction
            });
        }
    };
    match read_list(alloc, &value) {
        Ok(Some(tx)) => Ok(tx),
        Ok(None) => Err(TxTextFault::NotTransaction),
        Err(NoMemory) => Err(TxTextFault::NoMemory),
    }
}
