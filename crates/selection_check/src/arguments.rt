//! The arguments of a field.

ghost use Rattle.std.specs.Prelude.{◌≡◌, []};
ghost use Rattle.std.specs.List.{list_any};
ghost use Rattle.std.specs.Str.{bytes_eq};
ghost use Rattle.role_model.specs.Roles.{View};
ghost use Rattle.query_model.specs.ArgumentFaults.{
  list_arguments,
  stream_arguments,
  key_names,
  key_kind,
  key_arguments,
  judged_by,
  arguments_fault,
  missing_fault,
};
ghost use Rattle.query_model.specs.Walk.{stream_needs};
ghost use Rattle.selection_check.specs.Told.{told};
ghost use Rattle.selection_check.specs.Known.{known_by, required_by};

use crate::conditions::where_fault;
use crate::cursor::cursor_fault;
use crate::orders::orders_fault;
use crate::pairs::has_name;
use crate::refusal::{Refusal, refused, refused_if};
use crate::values::{batch_fault, count_fault, single_fault};
use query_model::FaultKind;
use request_model::GPair;
use role_fields::{column_name, key_columns, kind_of};
use role_schema::RoleView;
use scalar_val::Kind;
use variable_values::Variables;

/// Which arguments a field takes: none, those of a list of rows, of a stream, or of a row by its key.
#[derive(Clone, Copy)]
pub enum Arguments {
    Nothing,
    OfList,
    OfStream,
    OfKey,
}

fn list_argument_fault<'a>(
    vars: &Variables,
    view: &RoleView<'a>,
    table: u32,
    pair: &'a GPair,
) -> Option<Refusal<'a>>
    ensures { told result ≡ judged_by vars.now view.now (list_arguments vars.now view.now table) pair.now }
{
    let name = pair.name.as_str();
    match name {
        "where" => where_fault(vars, view, table, &pair.value),
        "order_by" => orders_fault(view, table, &pair.value),
        "limit" | "offset" => count_fault(vars, name, &pair.value),
        _ => refused(FaultKind::NoArgument, name),
    }
}

fn stream_argument_fault<'a>(
    vars: &Variables,
    view: &RoleView<'a>,
    table: u32,
    pair: &'a GPair,
) -> Option<Refusal<'a>>
    ensures { told result ≡ judged_by vars.now view.now (stream_arguments vars.now view.now table) pair.now }
{
    let name = pair.name.as_str();
    match name {
        "where" => where_fault(vars, view, table, &pair.value),
        "batch_size" => batch_fault(vars, name, &pair.value),
        "cursor" => cursor_fault(vars, view, table, &pair.value),
        _ => refused(FaultKind::NoArgument, name),
    }
}

fn is_key_name(view: &RoleView<'_>, table: u32, name: &str) -> bool
    ensures { result ≡ list_any (bytes_eq name.now) (key_names [] view.now table) }
{
    for column in key_columns(view, table) {
        if name == column_name(view, table, *column) {
            return true;
        }
    }
    false
}

fn key_kind(view: &RoleView<'_>, table: u32, name: &str) -> Kind
    ensures { result ≡ key_kind [] view.now table name.now }
{
    match view.column(table, name) {
        Some(column) => kind_of(view, table, column),
        None => Kind::Text,
    }
}

fn key_argument_fault<'a>(
    vars: &Variables,
    view: &RoleView<'a>,
    table: u32,
    pair: &'a GPair,
) -> Option<Refusal<'a>>
    ensures { told result ≡ judged_by vars.now view.now (key_arguments vars.now view.now table) pair.now }
{
    let name = pair.name.as_str();
    if is_key_name(view, table, name) {
        single_fault(vars, name, key_kind(view, table, name), &pair.value)
    } else {
        refused(FaultKind::NoArgument, name)
    }
}

fn argument_fault<'a>(
    vars: &Variables,
    view: &RoleView<'a>,
    table: u32,
    known: Arguments,
    pair: &'a GPair,
) -> Option<Refusal<'a>>
    ensures { told result ≡ judged_by vars.now view.now (known_by vars.now view.now table known) pair.now }
{
    match known {
        Arguments::Nothing => refused(FaultKind::NoArgument, pair.name.as_str()),
        Arguments::OfList => list_argument_fault(vars, view, table, pair),
        Arguments::OfStream => stream_argument_fault(vars, view, table, pair),
        Arguments::OfKey => key_argument_fault(vars, view, table, pair),
    }
}

/// The first fault of arguments in written order, each of which is known and stands once.
pub fn arguments_fault<'a>(
    vars: &Variables,
    view: &RoleView<'a>,
    table: u32,
    known: Arguments,
    args: &'a [GPair],
) -> Option<Refusal<'a>>
    ensures { told result ≡ arguments_fault vars.now view.now (known_by vars.now view.now table known) args.now }
{
    for (index, pair) in args.iter().enumerate() {
        if has_name(&args[..index], pair.name.as_str()) {
            return refused(FaultKind::NoArgument, pair.name.as_str());
        }
        if let Some(fault) = argument_fault(vars, view, table, known, pair) {
            return Some(fault);
        }
    }
    None
}

fn missing_in_stream<'a>(args: &[GPair]) -> Option<Refusal<'a>>
    ensures { (view : View) → told result ≡ missing_fault [] view (stream_needs [] view) args.now }
{
    if !has_name(args, "batch_size") {
        return refused(FaultKind::NoArgument, "batch_size");
    }
    refused_if(!has_name(args, "cursor"), FaultKind::NoArgument, "cursor")
}

fn missing_in_key<'a>(view: &RoleView<'a>, table: u32, args: &[GPair]) -> Option<Refusal<'a>>
    ensures { told result ≡ missing_fault [] view.now (key_names [] view.now table) args.now }
{
    for column in key_columns(view, table) {
        let name = column_name(view, table, *column);
        if !has_name(args, name) {
            return refused(FaultKind::NoArgument, name);
        }
    }
    None
}

/// The first argument that is required and isn't given.
pub fn missing_fault<'a>(
    view: &RoleView<'a>,
    table: u32,
    known: Arguments,
    args: &[GPair],
) -> Option<Refusal<'a>>
    ensures { told result ≡ missing_fault [] view.now (required_by [] view.now table known) args.now }
{
    match known {
        Arguments::Nothing | Arguments::OfList => None,
        Arguments::OfStream => missing_in_stream(args),
        Arguments::OfKey => missing_in_key(view, table, args),
    }
}
