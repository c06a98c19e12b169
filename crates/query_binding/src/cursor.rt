//! The initial cursor of a stream.

ghost use Rattle.std.specs.Prelude.{◌≡◌, Some, IfOk};
ghost use Rattle.request_model.specs.declared.flat.FlatField.TheViews.{out-FlatField};
ghost use Rattle.plan_model.specs.Values.{one_value};
ghost use Rattle.query_model.specs.Names.{initial_pair};
ghost use Rattle.query_model.specs.Variables.{value_read, variable_slot};
ghost use Rattle.query_model.specs.Queries.{root_of};
ghost use Rattle.query_model.specs.Admission.{initial_cursor, initial_value};

use condition_plan::{initial_column, initial_pair};
use plan_model::Slot;
use request_model::{FlatField, GPair, GValue};
use role_fields::{Root, kind_of, root};
use role_schema::RoleView;
use scalar_val::{Kind, NoMemory, Val, Word, copy_val};
use std::alloc::Global;
use variable_values::{Variables, literal_value};

fn one_value(alloc: Global, slot: &Slot) -> Result<Val, NoMemory>
    ensures { IfOk result (λ val. val ≡ one_value (Some slot.now)) }
{
    match slot {
        Slot::One(val) => copy_val(alloc, val),
        Slot::Many(_) => Ok(Val::Null),
    }
}

fn variable_value(alloc: Global, vars: &Variables, name: &str) -> Result<Val, NoMemory>
    ensures { IfOk result (λ val. val ≡ one_value (Some (variable_slot vars.now name.now))) }
{
    match vars.named(name) {
        Some(variable) => one_value(alloc, &variable.value),
        None => Ok(Val::Null),
    }
}

fn value_read(alloc: Global, vars: &Variables, kind: Kind, value: &GValue) -> Result<Val, NoMemory>
    ensures { IfOk result (λ val. val ≡ value_read vars.now kind value.now) }
{
    match value {
        GValue::Var(name) => variable_value(alloc, vars, name.as_str()),
        _ => literal_value(alloc, kind, value),
    }
}

fn initial_value(
    alloc: Global,
    vars: &Variables,
    view: &RoleView<'_>,
    table: u32,
    args: &[GPair],
) -> Result<Val, NoMemory>
    ensures { IfOk result (λ val. val ≡ initial_value vars.now view.now table args.now (initial_pair args.now)) }
{
    let Some(pair) = initial_pair(args) else {
        return Ok(Val::Null);
    };
    let column = initial_column(view, table, args);
    value_read(alloc, vars, kind_of(view, table, column), &pair.value)
}

/// The cursor with which a query begins: for a stream the initial value of its argument `cursor`, in the kind of its
/// column, and null for any other. `field` is the root field of the query, and `kind` the word of its operation.
/// `NoMemory` where memory is refused.
pub fn initial_cursor(
    alloc: Global,
    vars: &Variables,
    view: &RoleView<'_>,
    kind: Word,
    field: &FlatField,
) -> Result<Val, NoMemory>
    ensures { IfOk result (λ v. v
        ≡ initial_cursor vars.now view.now (root_of view.now kind field.now) (out-FlatField field.now).args) }
{
    match root(view, kind, field.name.as_str()) {
        Root::StreamOf(table) => initial_value(alloc, vars, view, table, field.args.as_slice()),
        _ => Ok(Val::Null),
    }
}
