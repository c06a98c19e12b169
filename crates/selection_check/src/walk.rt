//! The walk over the fields of a selection.

ghost use Rattle.std.specs.Prelude.{◌≡◌, List, [], map};
ghost use Rattle.role_model.specs.Roles.{View};
ghost use Rattle.request_model.specs.declared.flat.FlatField.TheViews.{out-FlatField};
ghost use Rattle.query_model.specs.Names.{root_type};
ghost use Rattle.query_model.specs.declared.variable.Variable.{Variable};
ghost use Rattle.query_model.specs.Queries.{root_of};
ghost use Rattle.query_model.specs.Refusals.{first_of};
ghost use Rattle.query_model.specs.ArgumentFaults.{link_arguments};
ghost use Rattle.query_model.specs.Walk.{
  conditions_fault,
  object_fault,
  scalar_fault,
  field_fault,
  judging,
  root_fault,
  walk_fault,
};
ghost use Rattle.selection_check.specs.Told.{told};
ghost use Rattle.selection_check.specs.Known.{known_by, required_by};
ghost use Rattle.selection_check.specs.Own.{own_fault};

use crate::arguments::{Arguments, arguments_fault, missing_fault};
use crate::refusal::{Refusal, refused};
use query_model::FaultKind;
use request_model::{Flat, FlatField};
use role_fields::{Meant, Root, meant, root, type_name};
use role_schema::{LinkDef, RoleView};
use scalar_val::{Str, Word};
use variable_values::Variables;

/// The first type condition that isn't the name of the object's type.
fn conditions_fault<'a>(type_name: &str, conditions: &'a [Str]) -> Option<Refusal<'a>>
    ensures { (view : View) → told result ≡ conditions_fault [] view type_name.now conditions.now }
{
    for condition in conditions {
        if condition.as_str() != type_name {
            return refused(FaultKind::NoField, condition.as_str());
        }
    }
    None
}

/// The first fault of a field that gives objects of a table, but for the fields of these objects.
fn own_fault<'a>(
    vars: &Variables,
    view: &RoleView<'a>,
    table: u32,
    known: Arguments,
    field: &'a FlatField,
) -> Option<Refusal<'a>>
    ensures { told result ≡ own_fault vars.now view.now table known (out-FlatField field.now) }
{
    if !field.nested {
        return refused(FaultKind::WrongType, field.name.as_str());
    }
    if let Some(fault) = arguments_fault(vars, view, table, known, field.args.as_slice()) {
        return Some(fault);
    }
    if let Some(fault) = missing_fault(view, table, known, field.args.as_slice()) {
        return Some(fault);
    }
    conditions_fault(type_name(view, table), field.conditions.as_slice())
}

/// The first fault of a field in an object of a table, where it gives a scalar.
fn scalar_fault<'a>(
    vars: &Variables,
    view: &RoleView<'a>,
    table: u32,
    field: &'a FlatField,
) -> Option<Refusal<'a>>
    ensures { told result ≡ scalar_fault vars.now view.now (judging vars.now view.now (out-FlatField field.now)) }
{
    if field.nested {
        return refused(FaultKind::WrongType, field.name.as_str());
    }
    arguments_fault(vars, view, table, Arguments::Nothing, field.args.as_slice())
}

fn arguments_of(link: &LinkDef) -> Arguments
    ensures known { (vars : List Variable) → (view : View) →
        known_by vars view link.now.table result ≡ link_arguments vars view link.now }
    ensures required { (vars : List Variable) → (view : View) → required_by vars view link.now.table result ≡ [] }
{
    if link.many {
        Arguments::OfList
    } else {
        Arguments::Nothing
    }
}

#[cycle(field)]
fn object_fault<'a>(
    vars: &Variables,
    view: &RoleView<'a>,
    table: u32,
    known: Arguments,
    field: &'a FlatField,
) -> Option<Refusal<'a>>
    ensures { told result ≡ object_fault vars.now view.now (known_by vars.now view.now table known)
        (required_by vars.now view.now table known) table (judging vars.now view.now (out-FlatField field.now)) }
{
    match own_fault(vars, view, table, known, field) {
        Some(fault) => Some(fault),
        None => fields_fault(vars, view, table, field.fields.as_slice()),
    }
}

#[cycle(field)]
fn fields_fault<'a>(
    vars: &Variables,
    view: &RoleView<'a>,
    table: u32,
    fields: &'a [FlatField],
) -> Option<Refusal<'a>>
    ensures { told result ≡ first_of (map (λ f. field_fault vars.now view.now f table) fields.now) }
{
    for field in fields {
        if let Some(fault) = field_fault(vars, view, table, field) {
            return Some(fault);
        }
    }
    None
}

/// The first fault of a field in an object of a table.
#[cycle(field)]
fn field_fault<'a>(
    vars: &Variables,
    view: &RoleView<'a>,
    table: u32,
    field: &'a FlatField,
) -> Option<Refusal<'a>>
    ensures { told result ≡ field_fault vars.now view.now field.now table }
{
    match meant(view, table, field.name.as_str()) {
        Meant::Typename | Meant::AColumn(_) => scalar_fault(vars, view, table, field),
        Meant::ALink(link) => object_fault(vars, view, link.table, arguments_of(link), field),
        Meant::Unseen => refused(FaultKind::NoField, field.name.as_str()),
    }
}

fn root_fault<'a>(
    vars: &Variables,
    view: &RoleView<'a>,
    word: Word,
    field: &'a FlatField,
) -> Option<Refusal<'a>>
    ensures { told result ≡ root_fault vars.now view.now (root_of view.now word field.now) (out-FlatField field.now) }
{
    match root(view, word, field.name.as_str()) {
        Root::RowsOf(table) => object_fault(vars, view, table, Arguments::OfList, field),
        Root::RowOf(table) => object_fault(vars, view, table, Arguments::OfKey, field),
        Root::StreamOf(table) => object_fault(vars, view, table, Arguments::OfStream, field),
        Root::NoRoot => refused(FaultKind::NoField, field.name.as_str()),
    }
}

fn root_type(word: Word) -> &'static str
    ensures { result.now ≡ root_type word }
{
    match word {
        Word::Query => "query_root",
        Word::Subscription => "subscription_root",
    }
}

/// The first fault of a selection for a role, in the order of the walk over its fields: the type conditions of the root,
/// then the field at the root (GraphQL October 2021, section 5). A field has to be one that the role sees, with a
/// sub-selection exactly where it gives objects; then come its arguments in written order, the required ones that are
/// missing, the type conditions of its objects, and their fields. `field` is the one field of the root. It takes no
/// memory.
pub fn walk_fault<'a>(
    vars: &Variables,
    view: &RoleView<'a>,
    flat: &'a Flat,
    field: &'a FlatField,
) -> Option<Refusal<'a>>
    ensures { told result ≡ walk_fault vars.now view.now flat.now field.now }
{
    if let Some(fault) = conditions_fault(root_type(flat.kind), flat.conditions.as_slice()) {
        return Some(fault);
    }
    root_fault(vars, view, flat.kind, field)
}
