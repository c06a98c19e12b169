//! The tables of a selection, each of which is visited once, and the session variables that their filters name.

ghost use Rattle.std.specs.Prelude.{◌≡◌, ◌∷◌, [], flat_map, IfOk, OnOk};
ghost use Rattle.request_model.specs.declared.flat.FlatField.TheViews.{out-FlatField};
ghost use Rattle.query_model.specs.Queries.{tables_below, root_tables, root_of, selection_slots};
ghost use Rattle.selection_plan.specs.SlotRefs.{slots_in};
ghost use Rattle.selection_plan.specs.Gathered.{gathered_on, HasVisited};

use crate::filter_slots::add_filter;
use crate::slot_ref::{SlotRef, owned_slots};
use query_model::SessionSlotList;
use request_model::{Flat, FlatField, Word};
use role_fields::{Meant, Root, meant, root};
use role_schema::RoleView;
use scalar_val::NoMemory;
use std::alloc::Global;
use std::collections::BTreeSet;

/// The tables that were visited, and the session variables that their filters name.
#[derive(Drop)]
struct Visited<'a> {
    tables: BTreeSet<u32>,
    slots: BTreeSet<SlotRef<'a>>,
}

fn visit_table<'a>(
    view: &RoleView<'a>,
    table: u32,
    visited: &mut Visited<'a>,
) -> Result<(), NoMemory>
    requires { HasVisited view.now visited.old.tables (slots_in visited.old.slots) }
    ensures visited { OnOk result (HasVisited view.now visited.new.tables (slots_in visited.new.slots)) }
    ensures slots { OnOk result (slots_in visited.new.slots ≡ gathered_on view.now (table ∷ []) (slots_in visited.old.slots)) }
{
    if !visited.tables.insert(table)? {
        return Ok(());
    }
    match view.filter(table) {
        Some(filter) => add_filter(view, table, filter, &mut visited.slots),
        None => Ok(()),
    }
}

/// Visits the table of a field's rows and those below it, if the field is a relationship.
#[cycle(fields)]
fn visit_field<'a>(
    view: &RoleView<'a>,
    table: u32,
    field: &FlatField,
    visited: &mut Visited<'a>,
) -> Result<(), NoMemory>
    requires { HasVisited view.now visited.old.tables (slots_in visited.old.slots) }
    ensures visited { OnOk result (HasVisited view.now visited.new.tables (slots_in visited.new.slots)) }
    ensures slots { OnOk result (slots_in visited.new.slots
        ≡ gathered_on view.now (tables_below view.now table field.now) (slots_in visited.old.slots)) }
{
    match meant(view, table, field.name.as_str()) {
        Meant::ALink(link) => {
            visit_table(view, link.table, visited)?;
            visit_fields(view, link.table, field.fields.as_slice(), visited)
        }
        Meant::Typename | Meant::AColumn(_) | Meant::Unseen => Ok(()),
    }
}

#[cycle(fields)]
fn visit_fields<'a>(
    view: &RoleView<'a>,
    table: u32,
    fields: &[FlatField],
    visited: &mut Visited<'a>,
) -> Result<(), NoMemory>
    requires { HasVisited view.now visited.old.tables (slots_in visited.old.slots) }
    ensures visited { OnOk result (HasVisited view.now visited.new.tables (slots_in visited.new.slots)) }
    ensures slots { OnOk result (slots_in visited.new.slots
        ≡ gathered_on view.now (flat_map (tables_below view.now table) fields.now) (slots_in visited.old.slots)) }
{
    for field in fields {
        visit_field(view, table, field, visited)?;
    }
    Ok(())
}

/// Visits the tables of a field of the root.
fn visit_root<'a>(
    view: &RoleView<'a>,
    word: Word,
    field: &FlatField,
    visited: &mut Visited<'a>,
) -> Result<(), NoMemory>
    requires { HasVisited view.now visited.old.tables (slots_in visited.old.slots) }
    ensures visited { OnOk result (HasVisited view.now visited.new.tables (slots_in visited.new.slots)) }
    ensures slots { OnOk result (slots_in visited.new.slots
        ≡ gathered_on view.now (root_tables view.now (root_of view.now word field.now) (out-FlatField field.now).fields)
        (slots_in visited.old.slots)) }
{
    match root(view, word, field.name.as_str()) {
        Root::RowsOf(table) | Root::RowOf(table) | Root::StreamOf(table) => {
            visit_table(view, table, visited)?;
            visit_fields(view, table, field.fields.as_slice(), visited)
        }
        Root::NoRoot => Ok(()),
    }
}

fn visit_roots<'a>(
    view: &RoleView<'a>,
    flat: &Flat,
    visited: &mut Visited<'a>,
) -> Result<(), NoMemory>
    requires { HasVisited view.now visited.old.tables (slots_in visited.old.slots) }
    ensures { OnOk result (slots_in visited.new.slots ≡ gathered_on view.now
        (flat_map (λ f. root_tables view.now (root_of view.now flat.now.kind f) (out-FlatField f).fields) flat.now.fields)
        (slots_in visited.old.slots)) }
{
    for field in flat.fields.as_slice() {
        visit_root(view, flat.kind, field, visited)?;
    }
    Ok(())
}

/// The distinct session variables that the role's filters name on the tables of a selection, each with the kind that is
/// wanted of it, in the order of their names in bytes and then of their kinds. Each table is visited once. `NoMemory`
/// where memory is refused.
pub fn selection_slots(
    alloc: Global,
    view: &RoleView<'_>,
    flat: &Flat,
) -> Result<SessionSlotList, NoMemory>
    ensures { IfOk result (λ slots. slots ≡ selection_slots view.now flat.now) }
{
    let mut visited = Visited {
        tables: BTreeSet::new(alloc),
        slots: BTreeSet::new(alloc),
    };
    visit_roots(view, flat, &mut visited)?;
    owned_slots(alloc, &visited.slots)
}
