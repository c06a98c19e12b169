//! The selections of a plan: the rows of a table with a condition, and the fields of each.

ghost use Rattle.std.specs.Prelude.{◌≡◌, ◌++◌, ◌∷◌, map, codes, IfOk};
ghost use Rattle.query_model.specs.Names.{argument, key_columns};
ghost use Rattle.query_model.specs.Conditions.{where_filter};
ghost use Rattle.query_model.specs.Plans.{operands, permission, key_condition};
ghost use Rattle.query_model.specs.Plans.{list_select, one_select, stream_select, link_select};

use condition_plan::{
    Places, batch, count, descends, initial_column, key_condition, orders, permission, where_filter,
};
use plan_model::{FieldList, Filter, FilterList, OrderList, Select, Shape};
use request_model::GPair;
use role_fields::key_columns;
use role_schema::LinkDef;
use scalar_val::NoMemory;
use std::alloc::Global;

/// The conditions and the role's filter of the table, all of which must hold.
fn with_permission(
    alloc: Global,
    places: &Places<'_>,
    table: u32,
    mut conditions: FilterList,
) -> Result<Filter, NoMemory>
    ensures { IfOk result (λ f. f ≡ Filter.And (conditions
        ++ permission places.now.view.now places.now.names.now places.now.slots.now table)) }
{
    if let Some(filter) = permission(alloc, places, table)? {
        conditions.add(filter)?;
    }
    Ok(Filter::And(conditions))
}

/// The condition that the argument `where` writes, and the role's filter of the table.
fn wanted_rows(
    alloc: Global,
    places: &Places<'_>,
    table: u32,
    args: &[GPair],
) -> Result<Filter, NoMemory>
    ensures { IfOk result (λ f. f ≡ Filter.And (where_filter places.now.view.now
        (operands places.now.view.now places.now.names.now places.now.slots.now) table
        (argument (codes "where") args.now)
        ∷ permission places.now.view.now places.now.names.now places.now.slots.now table)) }
{
    let mut conditions = FilterList::new(alloc);
    conditions.add(where_filter(alloc, places, table, args)?)?;
    with_permission(alloc, places, table, conditions)
}

/// The rows of a table, as the arguments `where`, `order_by`, `limit` and `offset` want them.
pub(crate) fn list_select(
    alloc: Global,
    places: &Places<'_>,
    table: u32,
    args: &[GPair],
    fields: FieldList,
) -> Result<Select, NoMemory>
    ensures { IfOk result (λ s. s ≡ list_select places.now.view.now places.now.names.now places.now.slots.now
        table args.now fields) }
{
    let filter = wanted_rows(alloc, places, table, args)?;
    let order = orders(alloc, places.view, table, args)?;
    let limit = count(alloc, places, "limit", args)?;
    let offset = count(alloc, places, "offset", args)?;
    let cap = places.view.cap(table);
    Ok(Select {
        table,
        shape: Shape::List,
        filter,
        order,
        limit,
        offset,
        cap,
        fields,
    })
}

/// The row of a table that meets conditions.
pub(crate) fn one_select(
    alloc: Global,
    places: &Places<'_>,
    table: u32,
    conditions: FilterList,
    fields: FieldList,
) -> Result<Select, NoMemory>
    ensures { IfOk result (λ s. s ≡ one_select places.now.view.now places.now.names.now places.now.slots.now
        table conditions fields) }
{
    Ok(Select {
        table,
        shape: Shape::One,
        filter: with_permission(alloc, places, table, conditions)?,
        order: OrderList::new(alloc),
        limit: None,
        offset: None,
        cap: None,
        fields,
    })
}

/// The key columns equal the arguments of their names.
pub(crate) fn key_conditions(
    alloc: Global,
    places: &Places<'_>,
    table: u32,
    args: &[GPair],
) -> Result<FilterList, NoMemory>
    ensures { IfOk result (λ list. list
        ≡ map (key_condition places.now.view.now places.now.names.now places.now.slots.now table args.now)
        (key_columns places.now.view.now table)) }
{
    let mut list = FilterList::new(alloc);
    for column in key_columns(places.view, table) {
        list.add(key_condition(alloc, places, table, *column, args)?)?;
    }
    Ok(list)
}

/// The next rows of a table along the argument `cursor`, `batch_size` at a time, as the argument `where` wants them.
pub(crate) fn stream_select(
    alloc: Global,
    places: &Places<'_>,
    table: u32,
    args: &[GPair],
    fields: FieldList,
) -> Result<Select, NoMemory>
    ensures { IfOk result (λ s. s ≡ stream_select places.now.view.now places.now.names.now places.now.slots.now
        table args.now fields) }
{
    let shape = Shape::Stream {
        column: initial_column(places.view, table, args),
        descending: descends(args),
        batch: batch(alloc, places, args)?,
    };
    Ok(Select {
        table,
        shape,
        filter: wanted_rows(alloc, places, table, args)?,
        order: OrderList::new(alloc),
        limit: None,
        offset: None,
        cap: places.view.cap(table),
        fields,
    })
}

/// The related rows: a list of them, or one row.
pub(crate) fn link_select(
    alloc: Global,
    places: &Places<'_>,
    link: &LinkDef,
    args: &[GPair],
    fields: FieldList,
) -> Result<Select, NoMemory>
    ensures { IfOk result (λ s. s ≡ link_select places.now.view.now places.now.names.now places.now.slots.now
        link.now args.now fields) }
{
    if link.many {
        return list_select(alloc, places, link.table, args, fields);
    }
    one_select(alloc, places, link.table, FilterList::new(alloc), fields)
}
