ghost use Rattle.std.specs.Prelude.{◌≡◌, [], ◌∷◌, ◌++◌, map, is_some, IsTrue, IfOk, OnOk};
ghost use Rattle.serde_json.specs.Find.{as_str, get_member};
ghost use Rattle.serde_json.specs.View.{view, members_view};
ghost use Rattle.data_model.specs.Cells.{ascend, is_scalar};
ghost use Rattle.data_model.specs.JsonParts.{scalar_or_null};
ghost use Rattle.data_model.specs.Form.{cell_of, cells_at, cells_from, cells_of, count, text_at};

use data_model::{TxCell, TxCells, member, read_scalar_or_null};
use scalar_val::{NoMemory, Str, Val};
use serde_json::{Map, Value};
use std::alloc::Global;

/// How many keys an object has.
#[tactic(auto, using(crate::proofs::InOrder::counted))]
pub(crate) fn count(map: &Map<String, Value>) -> usize
    ensures { result ≡ count (members_view map.now.entries) }
{
    map.len()
}

/// Whether an object has a key.
pub(crate) fn has(map: &Map<String, Value>, name: &str) -> bool
    ensures { result ≡ is_some (get_member name.now (members_view map.now.entries)) }
{
    member(map, name).is_some()
}

/// The text of a key.
pub(crate) fn text_at(
    alloc: Global,
    map: &Map<String, Value>,
    name: &str,
) -> Result<Option<Str>, NoMemory>
    ensures { IfOk result (λ o. o ≡ text_at name.now (members_view map.now.entries)) }
{
    match member(map, name) {
        Some(value) => read_text(alloc, value),
        None => Ok(None),
    }
}

fn read_text(alloc: Global, value: &Value) -> Result<Option<Str>, NoMemory>
    ensures { IfOk result (λ o. o ≡ as_str (view value.now)) }
{
    match value {
        Value::String(text) => Ok(Some(Str::of(alloc, text.as_str())?)),
        _ => Ok(None),
    }
}

/// The cells of the object of a key.
pub(crate) fn cells_at(
    alloc: Global,
    map: &Map<String, Value>,
    name: &str,
) -> Result<Option<TxCells>, NoMemory>
    ensures { IfOk result (λ o. o ≡ cells_at name.now (members_view map.now.entries)) }
{
    match member(map, name) {
        Some(value) => read_cells(alloc, value),
        None => Ok(None),
    }
}

fn read_cells(alloc: Global, value: &Value) -> Result<Option<TxCells>, NoMemory>
    ensures { IfOk result (λ o. o ≡ cells_of (view value.now)) }
{
    match value {
        Value::Object(map) => read_members(alloc, map),
        _ => Ok(None),
    }
}

/// Adds a cell whose name comes after all others by bytes.
fn add_cell(alloc: Global, cells: &mut TxCells, name: &str, value: Val) -> Result<(), NoMemory>
    requires names { IsTrue (ascend (map (λ c. c.column) cells.old ++ name.now ∷ [])) }
    requires scalar { IsTrue (is_scalar value) }
    ensures { OnOk result (cells.new ≡ cells.old ++ cell_of name.now value ∷ []) }
{
    let _ = cells.as_slice();
    let column = Str::of(alloc, name)?;
    match cells.push(TxCell { column, value }) {
        Ok(()) => Ok(()),
        Err(_back) => Err(NoMemory),
    }
}

/// The cells that the members of an object are, where all their values are scalars. The object gives its keys in order.
fn read_members(alloc: Global, map: &Map<String, Value>) -> Result<Option<TxCells>, NoMemory>
    ensures { IfOk result (λ o. o ≡ cells_from (members_view map.now.entries)) }
{
    let mut cells = TxCells::new(alloc);
    'members: for (name, value) in map.iter() {
        let Some(value) = read_scalar_or_null(alloc, value)? else {
            return Ok(None);
        };
        add_cell(alloc, &mut cells, name.as_str(), value)?;
    }
    Ok(Some(cells))
}
