ghost use Rattle.std.specs.Prelude.{◌≡◌, ◌++◌, Some, option_map, codes, IfOk, OnOk};
ghost use Rattle.std.specs.List.{filter_map};
ghost use Rattle.std.specs.Option.{option_to_list};
ghost use Rattle.query_model.specs.Names.{argument, pairs_in};
ghost use Rattle.query_model.specs.Conditions.{order_named, order_entry, order_in, orders_in};

use crate::arguments::{argument, enum_in, items_in, pairs_in};
use plan_model::{Order, OrderList};
use request_model::{GPair, GValue};
use role_schema::RoleView;
use scalar_val::NoMemory;
use std::alloc::Global;

fn entry(column: u32, descending: bool, nulls_first: bool) -> Option<Order>
    ensures { result ≡ Some (record { column = column; descending = descending; nulls_first = nulls_first }) }
{
    Some(Order {
        column,
        descending,
        nulls_first,
    })
}

fn entry_named(column: u32, name: &str) -> Option<Order>
    ensures { result ≡ option_map (order_entry column) (order_named name.now) }
{
    match name {
        "asc" => entry(column, false, false),
        "asc_nulls_first" => entry(column, false, true),
        "asc_nulls_last" => entry(column, false, false),
        "desc" => entry(column, true, true),
        "desc_nulls_first" => entry(column, true, true),
        "desc_nulls_last" => entry(column, true, false),
        _ => None,
    }
}

fn order_of(view: &RoleView<'_>, table: u32, pair: &GPair) -> Option<Order>
    ensures { result ≡ order_in view.now table pair.now }
{
    let Some(column) = view.column(table, pair.name.as_str()) else {
        return None;
    };
    match enum_in(&pair.value) {
        Some(name) => entry_named(column, name),
        None => None,
    }
}

fn push_order(order: Option<Order>, list: &mut OrderList) -> Result<(), NoMemory>
    ensures { OnOk result (list.new ≡ list.old ++ option_to_list order) }
{
    match order {
        Some(order) => list.add(order),
        None => Ok(()),
    }
}

fn push_orders(
    view: &RoleView<'_>,
    table: u32,
    value: &GValue,
    list: &mut OrderList,
) -> Result<(), NoMemory>
    ensures { OnOk result (list.new ≡ list.old ++ filter_map (order_in view.now table) (pairs_in value.now)) }
{
    for pair in pairs_in(value) {
        push_order(order_of(view, table, pair), list)?;
    }
    Ok(())
}

/// The entries of the argument `order_by` on a table, in written order: of one object, or of a list of them. There are
/// none without the argument. Columns that the role doesn't see and names of no order are passed over. `NoMemory` where
/// memory is refused.
pub fn orders(
    alloc: Global,
    view: &RoleView<'_>,
    table: u32,
    args: &[GPair],
) -> Result<OrderList, NoMemory>
    ensures { IfOk result (λ list. list ≡ orders_in view.now table (argument (codes "order_by") args.now)) }
{
    let mut list = OrderList::new(alloc);
    let Some(value) = argument("order_by", args) else {
        return Ok(list);
    };
    for item in items_in(value) {
        push_orders(view, table, item, &mut list)?;
    }
    Ok(list)
}
