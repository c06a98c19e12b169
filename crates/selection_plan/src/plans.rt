//! The plan of a selection.

ghost use Rattle.std.specs.Prelude.{◌≡◌, ◌≤◌, length, option_map, IfOk};
ghost use Rattle.request_model.specs.declared.flat.FlatField.TheViews.{out-FlatField};
ghost use Rattle.query_model.specs.Queries.{root_of, selection_slots, text_variables};
ghost use Rattle.query_model.specs.Plans.{root_select, table_names, plan_with, plan_of};
ghost use Rattle.role_fields.specs.Said.{root_said};

use crate::fields::plan_fields;
use crate::selects::{key_conditions, list_select, one_select, stream_select};
use condition_plan::Places;
use data_model::TableDef;
use name_set::NameSet;
use plan_model::{Plan, Select, StrList};
use query_model::SessionSlot;
use request_model::{Flat, FlatField, GPair, Word};
use role_fields::{Root, root};
use role_schema::RoleView;
use scalar_val::{NoMemory, Str};
use std::alloc::Global;

fn table_names(alloc: Global, view: &RoleView<'_>) -> Result<StrList, NoMemory>
    ensures { IfOk result (λ names. names ≡ table_names view.now) }
{
    let mut names = StrList::new(alloc);
    for table in view.catalog().tables.as_slice() {
        names.add(Str::of(alloc, table.name.as_str())?)?;
    }
    Ok(names)
}

/// The selection of a field of the root, or `None` where the role sees no such field.
fn root_select(
    alloc: Global,
    places: &Places<'_>,
    root: Root,
    field: &FlatField,
) -> Result<Option<Select>, NoMemory>
    ensures { IfOk result (λ s. s ≡ root_select places.now.view.now places.now.names.now places.now.slots.now
        (root_said root) (out-FlatField field.now)) }
{
    let (args, inner) = (field.args.as_slice(), field.fields.as_slice());
    match root {
        Root::RowsOf(table) => {
            let fields = plan_fields(alloc, places, table, inner)?;
            Ok(Some(list_select(alloc, places, table, args, fields)?))
        }
        Root::RowOf(table) => {
            let fields = plan_fields(alloc, places, table, inner)?;
            let conditions = key_conditions(alloc, places, table, args)?;
            Ok(Some(one_select(alloc, places, table, conditions, fields)?))
        }
        Root::StreamOf(table) => {
            let fields = plan_fields(alloc, places, table, inner)?;
            Ok(Some(stream_select(alloc, places, table, args, fields)?))
        }
        Root::NoRoot => Ok(None),
    }
}

/// The plan of one field of the root.
fn field_plan(
    alloc: Global,
    places: &Places<'_>,
    word: Word,
    field: &FlatField,
) -> Result<Option<Plan>, NoMemory>
    ensures { IfOk result (λ plan. plan ≡ option_map (plan_with places.now.view.now (out-FlatField field.now).key)
        (root_select places.now.view.now places.now.names.now places.now.slots.now
        (root_of places.now.view.now word field.now) (out-FlatField field.now))) }
{
    let meant = root(places.view, word, field.name.as_str());
    match root_select(alloc, places, meant, field)? {
        Some(root) => Ok(Some(Plan {
            key: Str::of(alloc, field.key.as_str())?,
            names: table_names(alloc, places.view)?,
            root,
        })),
        None => Ok(None),
    }
}

/// The plan of a flat selection for the role, with slots in the places of the variables of the canonical text and of the
/// selection's session variables: `names` and `slots` have them in the order of their slots. There is one where the
/// root has one field and the role sees it, else `None`. `NoMemory` where memory is refused.
pub fn plan_of(
    alloc: Global,
    view: &RoleView<'_>,
    names: &NameSet,
    slots: &[SessionSlot],
    flat: &Flat,
) -> Result<Option<Plan>, NoMemory>
    requires names { names.now ≡ text_variables flat.now }
    requires slots { slots.now ≡ selection_slots view.now flat.now }
    requires few { (length names.now ≤ 4294967296) × (length slots.now ≤ 4294967296) }
    ensures { IfOk result (λ plan. plan ≡ plan_of view.now flat.now) }
{
    match flat.fields.as_slice() {
        [field] => {
            let places = Places { view, names, slots };
            field_plan(alloc, &places, flat.kind, field)
        }
        _ => Ok(None),
    }
}
