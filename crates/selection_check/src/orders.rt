//! The argument `order_by`.

ghost use Rattle.std.specs.Prelude.{◌≡◌, [], map, is_some, option_and_then};
ghost use Rattle.query_model.specs.Names.{enum_in};
ghost use Rattle.query_model.specs.Conditions.{order_named};
ghost use Rattle.query_model.specs.Refusals.{first_of};
ghost use Rattle.query_model.specs.OrderFaults.{order_key_fault, order_fault, orders_fault};
ghost use Rattle.selection_check.specs.Told.{told};

use crate::refusal::{Refusal, refused, refused_if};
use query_model::FaultKind;
use request_model::{GPair, GValue};
use role_schema::RoleView;

fn names_order(name: &str) -> bool
    ensures { result ≡ is_some (order_named name.now) }
{
    match name {
        "asc" | "asc_nulls_first" | "asc_nulls_last" => true,
        "desc" | "desc_nulls_first" | "desc_nulls_last" => true,
        _ => false,
    }
}

fn is_order(value: &GValue) -> bool
    ensures { result ≡ is_some (option_and_then order_named (enum_in value.now)) }
{
    match value {
        GValue::Enum(name) => names_order(name.as_str()),
        _ => false,
    }
}

fn order_key_fault<'a>(view: &RoleView<'a>, table: u32, pair: &'a GPair) -> Option<Refusal<'a>>
    ensures { told result ≡ order_key_fault [] view.now table pair.now }
{
    let name = pair.name.as_str();
    if view.column(table, name).is_none() {
        return refused(FaultKind::NoArgument, name);
    }
    refused_if(!is_order(&pair.value), FaultKind::WrongType, name)
}

fn order_keys_fault<'a>(view: &RoleView<'a>, table: u32, pairs: &'a [GPair]) -> Option<Refusal<'a>>
    ensures { told result ≡ first_of (map (order_key_fault [] view.now table) pairs.now) }
{
    for pair in pairs {
        if let Some(fault) = order_key_fault(view, table, pair) {
            return Some(fault);
        }
    }
    None
}

fn order_fault<'a>(view: &RoleView<'a>, table: u32, value: &'a GValue) -> Option<Refusal<'a>>
    ensures { told result ≡ order_fault [] view.now table value.now }
{
    match value {
        GValue::Object(pairs) => order_keys_fault(view, table, pairs.as_slice()),
        _ => refused(FaultKind::WrongType, "order_by"),
    }
}

fn each_order_fault<'a>(view: &RoleView<'a>, table: u32, items: &'a [GValue]) -> Option<Refusal<'a>>
    ensures { told result ≡ first_of (map (order_fault [] view.now table) items.now) }
{
    for item in items {
        if let Some(fault) = order_fault(view, table, item) {
            return Some(fault);
        }
    }
    None
}

/// The fault of the argument `order_by`: an object of columns with their orders, a list of such objects, or null.
pub fn orders_fault<'a>(view: &RoleView<'a>, table: u32, value: &'a GValue) -> Option<Refusal<'a>>
    ensures { told result ≡ orders_fault [] view.now table value.now }
{
    match value {
        GValue::Null => None,
        GValue::Many(items) => each_order_fault(view, table, items.as_slice()),
        _ => order_fault(view, table, value),
    }
}
