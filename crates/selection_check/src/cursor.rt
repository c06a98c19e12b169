//! The argument `cursor` of a stream.

ghost use Rattle.std.specs.Prelude.{◌≡◌, [], if◌then◌else◌, codes};
ghost use Rattle.role_model.specs.Roles.{View};
ghost use Rattle.query_model.specs.Names.{column_at, pairs_in};
ghost use Rattle.query_model.specs.Refusals.{refused, refusal, pairs_fault};
ghost use Rattle.query_model.specs.ValueFaults.{is_object};
ghost use Rattle.query_model.specs.CursorFaults.{
  is_nullable,
  one_pair_fault,
  is_ordering,
  cursor_key_fault,
  cursor_object_fault,
  cursor_fault,
};
ghost use Rattle.selection_check.specs.Told.{told};

use crate::pairs::has_name;
use crate::refusal::{Refusal, refused};
use crate::values::single_fault;
use query_model::FaultKind;
use request_model::{GPair, GValue};
use role_fields::kind_of;
use role_schema::RoleView;
use variable_values::Variables;

fn bad_cursor<'a>() -> Option<Refusal<'a>>
    ensures { told result ≡ refused FaultKind.BadCursor (codes "cursor") }
{
    refused(FaultKind::BadCursor, "cursor")
}

fn is_nullable(view: &RoleView<'_>, table: u32, column: u32) -> bool
    ensures { result ≡ is_nullable [] view.now (column_at view.now table column) }
{
    let Some(def) = view.table_def(table) else {
        return true;
    };
    match def.columns.get(column as usize) {
        Some(column) => column.nullable,
        None => true,
    }
}

/// The fault of what stands in `initial_value`: one column that the role sees and that isn't nullable, with one value.
fn initial_pairs_fault<'a>(
    vars: &Variables,
    view: &RoleView<'a>,
    table: u32,
    pairs: &'a [GPair],
) -> Option<Refusal<'a>>
    ensures { told result ≡ one_pair_fault vars.now view.now table pairs.now }
{
    let [pair] = pairs else {
        return bad_cursor();
    };
    let name = pair.name.as_str();
    match view.column(table, name) {
        Some(column) if !is_nullable(view, table, column) => {
            single_fault(vars, name, kind_of(view, table, column), &pair.value)
        }
        _ => bad_cursor(),
    }
}

fn is_ordering(value: &GValue) -> bool
    ensures { (view : View) → result ≡ is_ordering [] view value.now }
{
    match value {
        GValue::Null => true,
        GValue::Enum(name) => name.as_str() == "ASC" || name.as_str() == "DESC",
        _ => false,
    }
}

fn initial_value_fault<'a>(
    vars: &Variables,
    view: &RoleView<'a>,
    table: u32,
    value: &'a GValue,
) -> Option<Refusal<'a>>
    ensures { told result ≡ (if is_object value.now then one_pair_fault vars.now view.now table (pairs_in value.now)
        else refused FaultKind.BadCursor (codes "cursor")) }
{
    match value {
        GValue::Object(pairs) => initial_pairs_fault(vars, view, table, pairs.as_slice()),
        _ => bad_cursor(),
    }
}

fn cursor_key_fault<'a>(
    vars: &Variables,
    view: &RoleView<'a>,
    table: u32,
    pair: &'a GPair,
) -> Option<Refusal<'a>>
    ensures { told result ≡ cursor_key_fault vars.now view.now table pair.now }
{
    match pair.name.as_str() {
        "initial_value" => initial_value_fault(vars, view, table, &pair.value),
        "ordering" => {
            if is_ordering(&pair.value) {
                None
            } else {
                bad_cursor()
            }
        }
        _ => bad_cursor(),
    }
}

fn cursor_keys_fault<'a>(
    vars: &Variables,
    view: &RoleView<'a>,
    table: u32,
    pairs: &'a [GPair],
) -> Option<Refusal<'a>>
    ensures { told result ≡ pairs_fault (λ other. refusal FaultKind.BadCursor (codes "cursor"))
        (cursor_key_fault vars.now view.now table) [] pairs.now }
{
    for (index, pair) in pairs.iter().enumerate() {
        if has_name(&pairs[..index], pair.name.as_str()) {
            return bad_cursor();
        }
        if let Some(fault) = cursor_key_fault(vars, view, table, pair) {
            return Some(fault);
        }
    }
    None
}

fn cursor_object_fault<'a>(
    vars: &Variables,
    view: &RoleView<'a>,
    table: u32,
    pairs: &'a [GPair],
) -> Option<Refusal<'a>>
    ensures { told result ≡ cursor_object_fault vars.now view.now table pairs.now }
{
    if let Some(fault) = cursor_keys_fault(vars, view, table, pairs) {
        return Some(fault);
    }
    if has_name(pairs, "initial_value") {
        None
    } else {
        bad_cursor()
    }
}

/// The fault of the argument `cursor`, an object or a list of one.
pub fn cursor_fault<'a>(
    vars: &Variables,
    view: &RoleView<'a>,
    table: u32,
    value: &'a GValue,
) -> Option<Refusal<'a>>
    ensures { told result ≡ cursor_fault vars.now view.now table value.now }
{
    match value {
        GValue::Object(pairs) => cursor_object_fault(vars, view, table, pairs.as_slice()),
        GValue::Many(items) => match items.as_slice() {
            [GValue::Object(pairs)] => cursor_object_fault(vars, view, table, pairs.as_slice()),
            _ => bad_cursor(),
        },
        _ => bad_cursor(),
    }
}
