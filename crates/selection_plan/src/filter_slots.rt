//! The session variables that filters name.

ghost use Rattle.std.specs.Prelude.{◌≡◌, flat_map, OnOk};
ghost use Rattle.query_model.specs.Queries.{session_name, slot_cmp, slots_of, item_slots, filter_slots};
ghost use Rattle.scalar_val.specs.Ordered.{included};
ghost use Rattle.selection_plan.specs.SlotRefs.{slots_in};
ghost use Rattle.selection_plan.specs.Gathered.{gathered};

use crate::slot_ref::SlotRef;
use plan_model::{Filter, Items, Operand};
use role_fields::kind_of;
use role_schema::RoleView;
use scalar_val::{Kind, NoMemory};
use std::collections::BTreeSet;

fn session_name<'a>(view: &RoleView<'a>, slot: u32) -> &'a str
    ensures { result.now ≡ session_name view.now slot }
{
    view.session_name(slot).unwrap_or("")
}

fn add<'a>(name: &'a str, kind: Kind, slots: &mut BTreeSet<SlotRef<'a>>) -> Result<(), NoMemory>
    ensures { OnOk result (slots_in slots.new ≡ included slot_cmp (record { name = name.now; kind = kind }) (slots_in slots.old)) }
{
    slots.insert(SlotRef { name, kind })?;
    Ok(())
}

/// Adds the session variable that a value beside a column of a table names.
fn add_operand<'a>(
    view: &RoleView<'a>,
    table: u32,
    column: u32,
    operand: &Operand,
    slots: &mut BTreeSet<SlotRef<'a>>,
) -> Result<(), NoMemory>
    ensures { OnOk result (slots_in slots.new ≡ gathered (slots_of view.now table column operand.now) (slots_in slots.old)) }
{
    match operand {
        Operand::Sess(slot) => {
            let kind = kind_of(view, table, column);
            add(session_name(view, *slot), kind, slots)
        }
        Operand::Const(_) | Operand::Var(_) => Ok(()),
    }
}

fn add_operands<'a>(
    view: &RoleView<'a>,
    table: u32,
    column: u32,
    operands: &[Operand],
    slots: &mut BTreeSet<SlotRef<'a>>,
) -> Result<(), NoMemory>
    ensures { OnOk result (slots_in slots.new
        ≡ gathered (flat_map (slots_of view.now table column) operands.now) (slots_in slots.old)) }
{
    for operand in operands {
        add_operand(view, table, column, operand, slots)?;
    }
    Ok(())
}

fn add_items<'a>(
    view: &RoleView<'a>,
    table: u32,
    column: u32,
    items: &Items,
    slots: &mut BTreeSet<SlotRef<'a>>,
) -> Result<(), NoMemory>
    ensures { OnOk result (slots_in slots.new ≡ gathered (item_slots view.now table column items.now) (slots_in slots.old)) }
{
    match items {
        Items::Each(operands) => add_operands(view, table, column, operands.as_slice(), slots),
        Items::Var(_) => Ok(()),
    }
}

/// Adds the session variables that a filter of a table names.
#[cycle(parts)]
#[tactic(auto, using(crate::proofs::FilterForms::forms))]
pub(crate) fn add_filter<'a>(
    view: &RoleView<'a>,
    table: u32,
    filter: &Filter,
    slots: &mut BTreeSet<SlotRef<'a>>,
) -> Result<(), NoMemory>
    ensures { OnOk result (slots_in slots.new ≡ gathered (filter_slots view.now filter.now table) (slots_in slots.old)) }
{
    match filter {
        Filter::And(parts) | Filter::Or(parts) => add_filters(view, table, parts.as_slice(), slots),
        Filter::Not(part) => add_filter(view, table, part.get(), slots),
        Filter::Cmp {
            column,
            operand,
            ..
        } => add_operand(view, table, *column, operand, slots),
        Filter::Among { column, items, .. } => add_items(view, table, *column, items, slots),
        Filter::IsNull { .. } => Ok(()),
    }
}

#[cycle(parts)]
fn add_filters<'a>(
    view: &RoleView<'a>,
    table: u32,
    filters: &[Filter],
    slots: &mut BTreeSet<SlotRef<'a>>,
) -> Result<(), NoMemory>
    ensures { OnOk result (slots_in slots.new
        ≡ gathered (flat_map (λ filter. filter_slots view.now filter table) filters.now) (slots_in slots.old)) }
{
    for filter in filters {
        add_filter(view, table, filter, slots)?;
    }
    Ok(())
}
