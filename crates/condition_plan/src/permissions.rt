ghost use Rattle.std.specs.Prelude.{◌≡◌, ◌<◌, map, position, length, IfOk, IfSome};
ghost use Rattle.std.specs.Ordering.{is_eq};
ghost use Rattle.std.specs.Option.{option_to_list};
ghost use Rattle.query_model.specs.Queries.{slot_cmp, session_name};
ghost use Rattle.query_model.specs.Results.{changed, items_changed};
ghost use Rattle.query_model.specs.Plans.{place_of, slotting, permission};

use crate::places::Places;
use crate::wheres::negation;
use plan_model::{Filter, FilterList, Items, Operand, OperandList};
use query_model::SessionSlot;
use role_fields::kind_of;
use role_schema::RoleView;
use scalar_val::{Kind, NoMemory, copy_val, same_kind};
use std::alloc::Global;
use std::cmp::Ordering;

fn session_name<'a>(view: &RoleView<'a>, slot: u32) -> &'a str
    ensures { result.now ≡ session_name view.now slot }
{
    view.session_name(slot).unwrap_or("")
}

fn is_slot(name: &str, kind: Kind, slot: &SessionSlot) -> bool
    ensures { result ≡ is_eq (slot_cmp (record { name = name.now; kind = kind }) slot.now) }
{
    match name.as_bytes().cmp(slot.name.as_str().as_bytes()) {
        Ordering::Equal => same_kind(kind, slot.kind),
        _ => false,
    }
}

fn slot_position(slots: &[SessionSlot], name: &str, kind: Kind) -> Option<usize>
    ensures value { result ≡ position (λ s. is_eq (slot_cmp (record { name = name.now; kind = kind }) s)) slots.now }
    ensures bound { IfSome result (λ at. at < length slots.now) }
{
    slots.iter().position(|slot| is_slot(name, kind, slot))
}

/// The place of a session variable of a kind among the slots, and 0 where it isn't there.
fn place_of(places: &Places<'_>, name: &str, kind: Kind) -> u32
    ensures { result ≡ place_of places.now.view.now places.now.names.now places.now.slots.now
        (record { name = name.now; kind = kind }) }
{
    match slot_position(places.slots, name, kind) {
        Some(at) => at as u32,
        None => 0,
    }
}

fn copy_operand(alloc: Global, operand: &Operand) -> Result<Operand, NoMemory>
    ensures { IfOk result (λ copy. copy ≡ operand.now) }
{
    match operand {
        Operand::Const(value) => Ok(Operand::Const(copy_val(alloc, value)?)),
        Operand::Var(slot) => Ok(Operand::Var(*slot)),
        Operand::Sess(slot) => Ok(Operand::Sess(*slot)),
    }
}

/// A value beside a column, with the place of its session variable among the slots.
fn slotted_operand(
    alloc: Global,
    places: &Places<'_>,
    table: u32,
    column: u32,
    operand: &Operand,
) -> Result<Operand, NoMemory>
    ensures { IfOk result (λ o. o ≡ slotting places.now.view.now places.now.names.now places.now.slots.now
        table column operand.now) }
{
    match operand {
        Operand::Sess(slot) => {
            let kind = kind_of(places.view, table, column);
            let name = session_name(places.view, *slot);
            Ok(Operand::Sess(place_of(places, name, kind)))
        }
        _ => copy_operand(alloc, operand),
    }
}

fn slotted_operands(
    alloc: Global,
    places: &Places<'_>,
    table: u32,
    column: u32,
    operands: &[Operand],
) -> Result<OperandList, NoMemory>
    ensures { IfOk result (λ list. list
        ≡ map (slotting places.now.view.now places.now.names.now places.now.slots.now table column) operands.now) }
{
    let mut list = OperandList::new(alloc);
    for operand in operands {
        list.add(slotted_operand(alloc, places, table, column, operand)?)?;
    }
    Ok(list)
}

fn slotted_items(
    alloc: Global,
    places: &Places<'_>,
    table: u32,
    column: u32,
    items: &Items,
) -> Result<Items, NoMemory>
    ensures { IfOk result (λ made. made ≡ items_changed
        (slotting places.now.view.now places.now.names.now places.now.slots.now table column) items.now) }
{
    match items {
        Items::Each(operands) => {
            let operands = operands.as_slice();
            Ok(Items::Each(slotted_operands(alloc, places, table, column, operands)?))
        }
        Items::Var(slot) => Ok(Items::Var(*slot)),
    }
}

/// A role's filter of a table with the places of its session variables among the slots.
#[cycle(slotted)]
#[tactic(auto, using(crate::proofs::Changes::changes))]
fn slotted(
    alloc: Global,
    places: &Places<'_>,
    table: u32,
    filter: &Filter,
) -> Result<Filter, NoMemory>
    ensures { IfOk result (λ f. f ≡ changed
        (slotting places.now.view.now places.now.names.now places.now.slots.now) table filter.now) }
{
    match filter {
        Filter::And(parts) => Ok(Filter::And(each_slotted(
            alloc,
            places,
            table,
            parts.as_slice(),
        )?)),
        Filter::Or(parts) => Ok(Filter::Or(each_slotted(alloc, places, table, parts.as_slice())?)),
        Filter::Not(part) => negation(alloc, slotted(alloc, places, table, part.get())?),
        Filter::Cmp {
            column,
            op,
            operand,
        } => Ok(Filter::Cmp {
            column: *column,
            op: *op,
            operand: slotted_operand(alloc, places, table, *column, operand)?,
        }),
        Filter::Among {
            column,
            negated,
            items,
        } => Ok(Filter::Among {
            column: *column,
            negated: *negated,
            items: slotted_items(alloc, places, table, *column, items)?,
        }),
        Filter::IsNull { column, want } => Ok(Filter::IsNull {
            column: *column,
            want: copy_operand(alloc, want)?,
        }),
    }
}

#[cycle(slotted)]
fn each_slotted(
    alloc: Global,
    places: &Places<'_>,
    table: u32,
    parts: &[Filter],
) -> Result<FilterList, NoMemory>
    ensures { IfOk result (λ list. list ≡ map (changed
        (slotting places.now.view.now places.now.names.now places.now.slots.now) table) parts.now) }
{
    let mut list = FilterList::new(alloc);
    for part in parts {
        list.add(slotted(alloc, places, table, part)?)?;
    }
    Ok(list)
}

/// The role's filter of a table, with the places of its session variables among the slots as their numbers. `None` where
/// the role has no filter there. `NoMemory` where memory is refused.
pub fn permission(
    alloc: Global,
    places: &Places<'_>,
    table: u32,
) -> Result<Option<Filter>, NoMemory>
    ensures { IfOk result (λ o. option_to_list o
        ≡ permission places.now.view.now places.now.names.now places.now.slots.now table) }
{
    match places.view.filter(table) {
        Some(filter) => Ok(Some(slotted(alloc, places, table, filter)?)),
        None => Ok(None),
    }
}
