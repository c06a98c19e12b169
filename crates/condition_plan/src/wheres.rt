ghost use Rattle.std.specs.Prelude.{◌≡◌, ◌∷◌, [], map, codes, IfOk};
ghost use Rattle.query_model.specs.Names.{argument, pair_name, pair_value};
ghost use Rattle.query_model.specs.Conditions.{always, compares, operator_filter, column_filter};
ghost use Rattle.query_model.specs.Conditions.{conditions_in, condition_at, where_filter};
ghost use Rattle.query_model.specs.Plans.{operand_of, items_of, operands, key_condition};
ghost use Rattle.role_model.specs.JsonFilters.{op_named};
ghost use Rattle.role_model.specs.Roles.{column_seen};

use crate::arguments::{argument, pairs_in};
use crate::operands::{items, operand};
use crate::places::Places;
use filter_read::op_of;
use plan_model::{Filter, FilterList, Op};
use request_model::{GPair, GValue};
use role_fields::{column_name, kind_of};
use scalar_val::{Kind, NoMemory};
use sqlite_items::Boxed;
use std::alloc::Global;

fn always(alloc: Global) -> Filter
    ensures { result ≡ always }
{
    Filter::And(FilterList::new(alloc))
}

fn compared(
    alloc: Global,
    places: &Places<'_>,
    column: u32,
    kind: Kind,
    pair: &GPair,
) -> Result<Filter, NoMemory>
    ensures { IfOk result (λ f. f ≡ compares column
        (operand_of places.now.view.now places.now.names.now places.now.slots.now kind (pair_value pair.now))
        (op_named (pair_name pair.now))) }
{
    match op_of(pair.name.as_str()) {
        Some(op) => {
            let operand = operand(alloc, places, kind, &pair.value)?;
            Ok(Filter::Cmp {
                column,
                op,
                operand,
            })
        }
        None => Ok(always(alloc)),
    }
}

fn among(
    alloc: Global,
    places: &Places<'_>,
    column: u32,
    kind: Kind,
    negated: bool,
    value: &GValue,
) -> Result<Filter, NoMemory>
    ensures { IfOk result (λ f. f ≡ Filter.Among column negated
        (items_of places.now.view.now places.now.names.now places.now.slots.now kind value.now)) }
{
    let items = items(alloc, places, kind, value)?;
    Ok(Filter::Among {
        column,
        negated,
        items,
    })
}

fn null_test(
    alloc: Global,
    places: &Places<'_>,
    column: u32,
    value: &GValue,
) -> Result<Filter, NoMemory>
    ensures { IfOk result (λ f. f ≡ Filter.IsNull column
        (operand_of places.now.view.now places.now.names.now places.now.slots.now Kind.Bool value.now)) }
{
    let want = operand(alloc, places, Kind::Bool, value)?;
    Ok(Filter::IsNull { column, want })
}

/// One operator of a column; one of no known name is always true.
fn operator(
    alloc: Global,
    places: &Places<'_>,
    column: u32,
    kind: Kind,
    pair: &GPair,
) -> Result<Filter, NoMemory>
    ensures { IfOk result (λ f. f ≡ operator_filter places.now.view.now
        (operands places.now.view.now places.now.names.now places.now.slots.now) column kind pair.now) }
{
    match pair.name.as_str() {
        "_in" => among(alloc, places, column, kind, false, &pair.value),
        "_nin" => among(alloc, places, column, kind, true, &pair.value),
        "_is_null" => null_test(alloc, places, column, &pair.value),
        _ => compared(alloc, places, column, kind, pair),
    }
}

fn operators(
    alloc: Global,
    places: &Places<'_>,
    column: u32,
    kind: Kind,
    pairs: &[GPair],
) -> Result<FilterList, NoMemory>
    ensures { IfOk result (λ parts. parts ≡ map (operator_filter places.now.view.now
        (operands places.now.view.now places.now.names.now places.now.slots.now) column kind) pairs.now) }
{
    let mut parts = FilterList::new(alloc);
    for pair in pairs {
        parts.add(operator(alloc, places, column, kind, pair)?)?;
    }
    Ok(parts)
}

fn column_condition(
    alloc: Global,
    places: &Places<'_>,
    table: u32,
    pair: &GPair,
) -> Result<Filter, NoMemory>
    ensures { IfOk result (λ f. f ≡ column_filter places.now.view.now
        (operands places.now.view.now places.now.names.now places.now.slots.now) table (pair_value pair.now)
        (column_seen places.now.view.now table (pair_name pair.now))) }
{
    match places.view.column(table, pair.name.as_str()) {
        Some(column) => {
            let kind = kind_of(places.view, table, column);
            let pairs = pairs_in(&pair.value);
            Ok(Filter::And(operators(alloc, places, column, kind, pairs)?))
        }
        None => Ok(always(alloc)),
    }
}

pub(crate) fn negation(alloc: Global, part: Filter) -> Result<Filter, NoMemory>
    ensures { IfOk result (λ f. f ≡ Filter.Not part) }
{
    Ok(Filter::Not(Boxed::new(alloc, part)?))
}

fn alone(alloc: Global, part: Filter) -> Result<FilterList, NoMemory>
    ensures { IfOk result (λ parts. parts ≡ part ∷ []) }
{
    let mut parts = FilterList::new(alloc);
    parts.add(part)?;
    Ok(parts)
}

/// The condition of one value on a table.
#[cycle(conditions)]
#[tactic(auto, using(crate::proofs::Forms::forms))]
fn condition(
    alloc: Global,
    places: &Places<'_>,
    table: u32,
    value: &GValue,
) -> Result<Filter, NoMemory>
    ensures { IfOk result (λ f. f ≡ (conditions_in places.now.view.now
        (operands places.now.view.now places.now.names.now places.now.slots.now) value.now).one table) }
{
    match value {
        GValue::Object(pairs) => Ok(Filter::And(each_key(alloc, places, table, pairs.as_slice())?)),
        _ => Ok(always(alloc)),
    }
}

/// The conditions of a list of values, and those of another value alone.
#[cycle(conditions)]
#[tactic(auto, using(crate::proofs::Forms::forms))]
fn conditions(
    alloc: Global,
    places: &Places<'_>,
    table: u32,
    value: &GValue,
) -> Result<FilterList, NoMemory>
    ensures { IfOk result (λ parts. parts ≡ (conditions_in places.now.view.now
        (operands places.now.view.now places.now.names.now places.now.slots.now) value.now).many table) }
{
    match value {
        GValue::Many(values) => each_condition(alloc, places, table, values.as_slice()),
        GValue::Object(pairs) => {
            let parts = each_key(alloc, places, table, pairs.as_slice())?;
            alone(alloc, Filter::And(parts))
        }
        _ => alone(alloc, always(alloc)),
    }
}

#[cycle(conditions)]
fn each_condition(
    alloc: Global,
    places: &Places<'_>,
    table: u32,
    values: &[GValue],
) -> Result<FilterList, NoMemory>
    ensures { IfOk result (λ parts. parts ≡ map (λ x. (conditions_in places.now.view.now
        (operands places.now.view.now places.now.names.now places.now.slots.now) x).one table) values.now) }
{
    let mut parts = FilterList::new(alloc);
    for value in values {
        parts.add(condition(alloc, places, table, value)?)?;
    }
    Ok(parts)
}

#[cycle(conditions)]
fn each_key(
    alloc: Global,
    places: &Places<'_>,
    table: u32,
    pairs: &[GPair],
) -> Result<FilterList, NoMemory>
    ensures { IfOk result (λ parts. parts ≡ map (λ p. condition_at places.now.view.now
        (operands places.now.view.now places.now.names.now places.now.slots.now) p table) pairs.now) }
{
    let mut parts = FilterList::new(alloc);
    for pair in pairs {
        parts.add(key(alloc, places, table, pair)?)?;
    }
    Ok(parts)
}

/// The condition of one key of an object.
#[cycle(conditions)]
#[tactic(auto, using(crate::proofs::Forms::forms))]
fn key(alloc: Global, places: &Places<'_>, table: u32, pair: &GPair) -> Result<Filter, NoMemory>
    ensures { IfOk result (λ f. f ≡ condition_at places.now.view.now
        (operands places.now.view.now places.now.names.now places.now.slots.now) pair.now table) }
{
    match pair.name.as_str() {
        "_and" => Ok(Filter::And(conditions(alloc, places, table, &pair.value)?)),
        "_or" => Ok(Filter::Or(conditions(alloc, places, table, &pair.value)?)),
        "_not" => negation(alloc, condition(alloc, places, table, &pair.value)?),
        _ => column_condition(alloc, places, table, pair),
    }
}

/// The condition of the argument `where` on a table: always true without the argument, or where it is null. Of an object
/// every key holds: `_and` and `_or` join a list of conditions or one, `_not` turns one round, and any other key is a
/// column, with an object of operators. A key that names no column that the role sees, an operator of another name and a
/// value that is no object are always true. `NoMemory` where memory is refused.
pub fn where_filter(
    alloc: Global,
    places: &Places<'_>,
    table: u32,
    args: &[GPair],
) -> Result<Filter, NoMemory>
    ensures { IfOk result (λ f. f ≡ where_filter places.now.view.now
        (operands places.now.view.now places.now.names.now places.now.slots.now) table
        (argument (codes "where") args.now)) }
{
    match argument("where", args) {
        Some(value) => condition(alloc, places, table, value),
        None => Ok(always(alloc)),
    }
}

/// The condition that a key column of a table equals the argument of its name; never true without it. `NoMemory` where
/// memory is refused.
pub fn key_condition(
    alloc: Global,
    places: &Places<'_>,
    table: u32,
    column: u32,
    args: &[GPair],
) -> Result<Filter, NoMemory>
    ensures { IfOk result (λ f. f ≡ key_condition places.now.view.now places.now.names.now places.now.slots.now
        table args.now column) }
{
    match argument(column_name(places.view, table, column), args) {
        Some(value) => {
            let kind = kind_of(places.view, table, column);
            let operand = operand(alloc, places, kind, value)?;
            Ok(Filter::Cmp {
                column,
                op: Op::Eq,
                operand,
            })
        }
        None => Ok(Filter::Or(FilterList::new(alloc))),
    }
}
