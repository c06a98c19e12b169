//! The fields of a plan.

ghost use Rattle.std.specs.Prelude.{◌≡◌, map, IfOk};
ghost use Rattle.query_model.specs.Plans.{link_select, plan_field};

use crate::selects::link_select;
use condition_plan::Places;
use data_model::ColumnList;
use plan_model::{Field, FieldList};
use request_model::{FlatField, GPair};
use role_fields::{Meant, meant};
use role_schema::LinkDef;
use scalar_val::{NoMemory, Str};
use sqlite_items::Boxed;
use std::alloc::Global;

fn copy_columns(alloc: Global, columns: &[u32]) -> Result<ColumnList, NoMemory>
    ensures { IfOk result (λ copy. copy ≡ columns.now) }
{
    let mut copy = ColumnList::new(alloc);
    for column in columns {
        copy.add(*column)?;
    }
    Ok(copy)
}

/// The fields in an object of a table, in their order.
#[cycle(fields)]
pub(crate) fn plan_fields(
    alloc: Global,
    places: &Places<'_>,
    table: u32,
    fields: &[FlatField],
) -> Result<FieldList, NoMemory>
    ensures { IfOk result (λ list. list
        ≡ map (plan_field places.now.view.now places.now.names.now places.now.slots.now table) fields.now) }
{
    let mut list = FieldList::new(alloc);
    for field in fields {
        list.add(plan_field(alloc, places, table, field)?)?;
    }
    Ok(list)
}

#[cycle(fields)]
fn plan_field(
    alloc: Global,
    places: &Places<'_>,
    table: u32,
    field: &FlatField,
) -> Result<Field, NoMemory>
    ensures { IfOk result (λ f. f
        ≡ plan_field places.now.view.now places.now.names.now places.now.slots.now table field.now) }
{
    let key = Str::of(alloc, field.key.as_str())?;
    match meant(places.view, table, field.name.as_str()) {
        Meant::Typename | Meant::Unseen => Ok(Field::Typename { key }),
        Meant::AColumn(column) => Ok(Field::Column { key, column }),
        Meant::ALink(link) => {
            let fields = plan_fields(alloc, places, link.table, field.fields.as_slice())?;
            link_field(alloc, places, key, link, field.args.as_slice(), fields)
        }
    }
}

fn link_field(
    alloc: Global,
    places: &Places<'_>,
    key: Str,
    link: &LinkDef,
    args: &[GPair],
    fields: FieldList,
) -> Result<Field, NoMemory>
    ensures { IfOk result (λ f. f ≡ Field.Link key link.now.from link.now.to
        (link_select places.now.view.now places.now.names.now places.now.slots.now link.now args.now fields)) }
{
    let from = copy_columns(alloc, link.from.as_slice())?;
    let to = copy_columns(alloc, link.to.as_slice())?;
    let select = link_select(alloc, places, link, args, fields)?;
    Ok(Field::Link {
        key,
        from,
        to,
        select: Boxed::new(alloc, select)?,
    })
}
