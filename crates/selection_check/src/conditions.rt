//! The argument `where`: Hasura's boolean expressions.

ghost use Rattle.std.specs.Prelude.{◌≡◌, ℕ, [], map, is_some};
ghost use Rattle.role_model.specs.JsonFilters.{op_named};
ghost use Rattle.role_model.specs.Roles.{View, column_seen};
ghost use Rattle.query_model.specs.Refusals.{refusal, first_of, pairs_fault};
ghost use Rattle.query_model.specs.ConditionFaults.{operator_fault, column_fault, judged, judged_at, where_fault};
ghost use Rattle.selection_check.specs.Told.{told};

use crate::pairs::has_name;
use crate::refusal::{Refusal, refused};
use crate::values::{list_fault, single_fault};
use query_model::FaultKind;
use request_model::{GPair, GValue};
use role_fields::kind_of;
use role_schema::RoleView;
use scalar_val::Kind;
use variable_values::Variables;

fn is_comparison(name: &str) -> bool
    ensures { result ≡ is_some (op_named name.now) }
{
    match name {
        "_eq" | "_neq" | "_gt" | "_gte" | "_lt" | "_lte" => true,
        _ => false,
    }
}

fn operator_fault<'a>(
    vars: &Variables,
    column: &'a str,
    kind: Kind,
    pair: &'a GPair,
) -> Option<Refusal<'a>>
    ensures { (view : View) → told result ≡ operator_fault vars.now view column.now kind pair.now }
{
    match pair.name.as_str() {
        "_in" | "_nin" => list_fault(vars, column, kind, &pair.value),
        "_is_null" => single_fault(vars, column, Kind::Bool, &pair.value),
        name => {
            if is_comparison(name) {
                single_fault(vars, column, kind, &pair.value)
            } else {
                refused(FaultKind::WrongType, column)
            }
        }
    }
}

fn operators_fault<'a>(
    vars: &Variables,
    column: &'a str,
    kind: Kind,
    pairs: &'a [GPair],
) -> Option<Refusal<'a>>
    ensures { (view : View) → told result ≡ pairs_fault (λ other. refusal FaultKind.WrongType column.now)
        (operator_fault vars.now view column.now kind) [] pairs.now }
{
    for (index, pair) in pairs.iter().enumerate() {
        if has_name(&pairs[..index], pair.name.as_str()) {
            return refused(FaultKind::WrongType, column);
        }
        if let Some(fault) = operator_fault(vars, column, kind, pair) {
            return Some(fault);
        }
    }
    None
}

fn column_fault<'a>(
    vars: &Variables,
    view: &RoleView<'a>,
    table: u32,
    name: &'a str,
    value: &'a GValue,
) -> Option<Refusal<'a>>
    ensures { told result ≡ column_fault vars.now view.now table name.now value.now
        (column_seen view.now table name.now) }
{
    let Some(column) = view.column(table, name) else {
        return refused(FaultKind::NoArgument, name);
    };
    match value {
        GValue::Object(pairs) => operators_fault(
            vars,
            name,
            kind_of(view, table, column),
            pairs.as_slice(),
        ),
        _ => refused(FaultKind::WrongType, name),
    }
}

/// The fault of a value as one condition. `blamed` is the name of the key or argument that it stands at.
#[cycle(condition)]
fn condition_fault<'a>(
    vars: &Variables,
    view: &RoleView<'a>,
    table: u32,
    blamed: &'a str,
    value: &'a GValue,
) -> Option<Refusal<'a>>
    ensures { told result ≡ (judged vars.now view.now value.now).one blamed.now table }
{
    match value {
        GValue::Object(pairs) => keys_fault(vars, view, table, pairs.as_slice()),
        _ => refused(FaultKind::WrongType, blamed),
    }
}

/// The fault of a value as a list of conditions, or as one for a list of one.
#[cycle(condition)]
fn conditions_fault<'a>(
    vars: &Variables,
    view: &RoleView<'a>,
    table: u32,
    blamed: &'a str,
    value: &'a GValue,
) -> Option<Refusal<'a>>
    ensures { told result ≡ (judged vars.now view.now value.now).many blamed.now table }
{
    match value {
        GValue::Object(pairs) => keys_fault(vars, view, table, pairs.as_slice()),
        GValue::Many(items) => items_fault(vars, view, table, blamed, items.as_slice()),
        _ => refused(FaultKind::WrongType, blamed),
    }
}

#[cycle(condition)]
fn items_fault<'a>(
    vars: &Variables,
    view: &RoleView<'a>,
    table: u32,
    blamed: &'a str,
    items: &'a [GValue],
) -> Option<Refusal<'a>>
    ensures { told result ≡ first_of (map (λ x. (judged vars.now view.now x).one blamed.now table) items.now) }
{
    for item in items {
        if let Some(fault) = condition_fault(vars, view, table, blamed, item) {
            return Some(fault);
        }
    }
    None
}

/// The fault of the keys of an object of conditions, each of which may stand once.
#[cycle(condition)]
fn keys_fault<'a>(
    vars: &Variables,
    view: &RoleView<'a>,
    table: u32,
    pairs: &'a [GPair],
) -> Option<Refusal<'a>>
    ensures { told result ≡ pairs_fault (refusal FaultKind.NoArgument)
        (λ p. judged_at vars.now view.now p table) [] pairs.now }
{
    for (index, pair) in pairs.iter().enumerate() {
        if has_name(&pairs[..index], pair.name.as_str()) {
            return refused(FaultKind::NoArgument, pair.name.as_str());
        }
        if let Some(fault) = key_fault(vars, view, table, pair) {
            return Some(fault);
        }
    }
    None
}

#[cycle(condition)]
#[tactic(auto, using(crate::proofs::Judged::key_is))]
fn key_fault<'a>(
    vars: &Variables,
    view: &RoleView<'a>,
    table: u32,
    pair: &'a GPair,
) -> Option<Refusal<'a>>
    ensures { told result ≡ judged_at vars.now view.now pair.now table }
{
    let name = pair.name.as_str();
    match name {
        "_and" | "_or" => conditions_fault(vars, view, table, name, &pair.value),
        "_not" => condition_fault(vars, view, table, name, &pair.value),
        _ => column_fault(vars, view, table, name, &pair.value),
    }
}

/// The fault of the argument `where`: an object of conditions, or null.
pub fn where_fault<'a>(
    vars: &Variables,
    view: &RoleView<'a>,
    table: u32,
    value: &'a GValue,
) -> Option<Refusal<'a>>
    ensures { told result ≡ where_fault vars.now view.now table value.now }
{
    match value {
        GValue::Null => None,
        _ => condition_fault(vars, view, table, "where", value),
    }
}
