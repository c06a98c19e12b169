ghost use Rattle.std.specs.Prelude.{◌≡◌, map, codes, IfOk};
ghost use Rattle.query_model.specs.Names.{argument};
ghost use Rattle.query_model.specs.Plans.{operand_of, items_of, count_operand, batch_operand};

use crate::arguments::{argument, items_in};
use crate::places::Places;
use filter_read::slot_in;
use plan_model::{Items, Operand, OperandList};
use request_model::{GPair, GValue};
use scalar_val::{Kind, NoMemory, Val};
use std::alloc::Global;
use variable_values::literal_value;

/// One value of a kind: the slot of a variable, or else what the literal gives, which is null where it doesn't fit.
/// `NoMemory` where memory is refused.
pub fn operand(
    alloc: Global,
    places: &Places<'_>,
    kind: Kind,
    value: &GValue,
) -> Result<Operand, NoMemory>
    ensures { IfOk result (λ o. o
        ≡ operand_of places.now.view.now places.now.names.now places.now.slots.now kind value.now) }
{
    match value {
        GValue::Var(name) => Ok(Operand::Var(slot_in(places.names, name.as_str()))),
        _ => Ok(Operand::Const(literal_value(alloc, kind, value)?)),
    }
}

fn operands(
    alloc: Global,
    places: &Places<'_>,
    kind: Kind,
    values: &[GValue],
) -> Result<OperandList, NoMemory>
    ensures { IfOk result (λ list. list
        ≡ map (operand_of places.now.view.now places.now.names.now places.now.slots.now kind) values.now) }
{
    let mut list = OperandList::new(alloc);
    for value in values {
        list.add(operand(alloc, places, kind, value)?)?;
    }
    Ok(list)
}

/// The values of `_in` and `_nin`: the slot of a variable, or each item by itself.
pub(crate) fn items(
    alloc: Global,
    places: &Places<'_>,
    kind: Kind,
    value: &GValue,
) -> Result<Items, NoMemory>
    ensures { IfOk result (λ items. items
        ≡ items_of places.now.view.now places.now.names.now places.now.slots.now kind value.now) }
{
    match value {
        GValue::Var(name) => Ok(Items::Var(slot_in(places.names, name.as_str()))),
        _ => Ok(Items::Each(operands(alloc, places, kind, items_in(value))?)),
    }
}

/// The number that the argument of a name is, `limit` or `offset`: `None` without the argument, or where it is null.
/// `NoMemory` where memory is refused.
pub fn count(
    alloc: Global,
    places: &Places<'_>,
    name: &str,
    args: &[GPair],
) -> Result<Option<Operand>, NoMemory>
    ensures { IfOk result (λ o. o ≡ count_operand places.now.view.now places.now.names.now places.now.slots.now
        (argument name.now args.now)) }
{
    match argument(name, args) {
        None | Some(GValue::Null) => Ok(None),
        Some(value) => Ok(Some(operand(alloc, places, Kind::Int, value)?)),
    }
}

/// The number of rows that a stream sends at a time, its argument `batch_size`, and null without it. `NoMemory` where
/// memory is refused.
pub fn batch(alloc: Global, places: &Places<'_>, args: &[GPair]) -> Result<Operand, NoMemory>
    ensures { IfOk result (λ o. o ≡ batch_operand places.now.view.now places.now.names.now places.now.slots.now
        (argument (codes "batch_size") args.now)) }
{
    match argument("batch_size", args) {
        Some(value) => operand(alloc, places, Kind::Int, value),
        None => Ok(Operand::Const(Val::Null)),
    }
}
