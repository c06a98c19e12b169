ghost use Rattle.std.specs.Prelude.{◌≡◌, ◌≤◌, ◌<◌, ◌++◌, ◌∷◌, [], if◌then◌else◌, length, unwrap_or, Some, None, IfOk};
ghost use Rattle.std.specs.Prelude.{OnOk, IfSome};
ghost use Rattle.std.specs.Prelude.{option_map, option_and_then, position};
ghost use Rattle.std.specs.List.{fold, list_any};
ghost use Rattle.std.specs.Option.{option_copied};
ghost use Rattle.std.specs.Str.{bytes_eq, str_to_ascii_lowercase};
ghost use Rattle.serde_json.specs.Find.{as_bool};
ghost use Rattle.serde_json.specs.View.{view, items_view, members_view};
ghost use Rattle.scalar_val.specs.Spellings.{fitted};
ghost use Rattle.data_model.specs.JsonParts.{scalar_of};
ghost use Rattle.role_model.specs.JsonFilters.{names_session, session_variable, constant, operand_by};
ghost use Rattle.role_model.specs.JsonFilters.{operand_of, item_of, items_of, op_named, operator_of, operators_of};
ghost use Rattle.role_model.specs.JsonFilters.{column_number, condition_on, column_condition, pair_of, filter_of};
ghost use Rattle.role_model.specs.JsonFilters.{filters_of, filters_of_items, pairs_of, of_each, of_each_member};
ghost use Rattle.role_model.specs.JsonFilters.{slot_of, with_text, mentions, mentions_of_items, mentions_of_members};

use data_model::{Column, read_scalar};
use name_set::NameSet;
use plan_model::{Filter, FilterList, Items, Op, Operand, OperandList, StrList};
use scalar_val::{Kind, NoMemory, ReadFault, Str, Val, fit_scalar};
use serde_json::{Map, Value};
use sqlite_items::Boxed;
use std::alloc::Global;

/// The name of the session variable that a text names, in lower case.
pub fn lowered_session_name(alloc: Global, text: &str) -> Result<Option<Str>, NoMemory>
    ensures { IfOk result (λ o. o ≡ (if names_session text.now then Some (str_to_ascii_lowercase text.now) else None)) }
{
    let mut name = String::from_str(alloc, text)?;
    name.make_ascii_lowercase();
    if name.as_bytes().starts_with(b"x-hasura-") {
        Ok(Some(Str::from_string(name)))
    } else {
        Ok(None)
    }
}

fn session_name_of(alloc: Global, value: &Value) -> Result<Option<Str>, NoMemory>
    ensures { IfOk result (λ o. o ≡ session_variable (view value.now)) }
{
    match value {
        Value::String(text) => lowered_session_name(alloc, text.as_str()),
        _ => Ok(None),
    }
}

fn fit(alloc: Global, kind: Kind, scalar: &Val) -> Result<Option<Val>, NoMemory>
    ensures { IfOk result (λ o. o ≡ fitted kind scalar.now) }
{
    match fit_scalar(alloc, kind, scalar) {
        Ok(val) => Ok(Some(val)),
        Err(ReadFault::BadValue) => Ok(None),
        Err(ReadFault::NoMemory) => Err(NoMemory),
    }
}

fn read_constant(alloc: Global, kind: Kind, value: &Value) -> Result<Option<Operand>, NoMemory>
    ensures { IfOk result (λ o. o ≡ constant kind (view value.now)) }
{
    let Some(scalar) = read_scalar(alloc, value)? else {
        return Ok(None);
    };
    match fit(alloc, kind, &scalar)? {
        Some(val) => Ok(Some(Operand::Const(val))),
        None => Ok(None),
    }
}

#[tactic(auto, using(crate::proofs::Numbers::place_within))]
fn place_in(names: &NameSet, name: &str) -> Option<usize>
    ensures value { result ≡ position (bytes_eq name.now) names.now }
    ensures bound { IfSome result (λ at. at < length names.now) }
{
    names.place(name)
}

/// The slot of a variable: its first place among the names, from 0, and 0 where there is none of that name.
pub fn slot_in(names: &NameSet, name: &str) -> u32
    requires slots { length names.now ≤ 4294967296 }
    ensures { result ≡ slot_of names.now name.now }
{
    match place_in(names, name) {
        Some(at) => at as u32,
        None => 0,
    }
}

fn read_operand(
    alloc: Global,
    names: &NameSet,
    kind: Kind,
    value: &Value,
) -> Result<Option<Operand>, NoMemory>
    requires slots { length names.now ≤ 4294967296 }
    ensures { IfOk result (λ o. o ≡ operand_of names.now kind (view value.now)) }
{
    match session_name_of(alloc, value)? {
        Some(name) => Ok(Some(Operand::Sess(slot_in(names, name.as_str())))),
        None => read_constant(alloc, kind, value),
    }
}

#[tactic(auto, unfolding(role_model::specs::JsonFilters::item_of))]
fn read_item(alloc: Global, kind: Kind, value: &Value) -> Result<Option<Operand>, NoMemory>
    ensures { IfOk result (λ o. o ≡ item_of kind (view value.now)) }
{
    match session_name_of(alloc, value)? {
        Some(_name) => Ok(None),
        None => read_constant(alloc, kind, value),
    }
}

fn read_items(alloc: Global, kind: Kind, value: &Value) -> Result<Option<OperandList>, NoMemory>
    ensures { IfOk result (λ o. o ≡ items_of kind (view value.now)) }
{
    let Some(values) = value.as_array() else {
        return Ok(None);
    };
    let mut items = OperandList::new(alloc);
    for value in values {
        let Some(item) = read_item(alloc, kind, value)? else {
            return Ok(None);
        };
        items.push(item).map_err(|_| NoMemory)?;
    }
    Ok(Some(items))
}

/// The comparison of a name, `_eq`, `_neq`, `_gt`, `_gte`, `_lt` or `_lte`.
pub fn op_of(name: &str) -> Option<Op>
    ensures { result ≡ op_named name.now }
{
    match name {
        "_eq" => Some(Op::Eq),
        "_neq" => Some(Op::Neq),
        "_gt" => Some(Op::Gt),
        "_gte" => Some(Op::Gte),
        "_lt" => Some(Op::Lt),
        "_lte" => Some(Op::Lte),
        _ => None,
    }
}

fn among(column: u32, negated: bool, items: Option<OperandList>) -> Option<Filter>
    ensures { result ≡ option_map (λ xs. Filter.Among column negated (Items.Each xs)) items }
{
    match items {
        Some(items) => Some(Filter::Among {
            column,
            negated,
            items: Items::Each(items),
        }),
        None => None,
    }
}

fn null_test(column: u32, value: &Value) -> Option<Filter>
    ensures { result ≡ option_map (λ b. Filter.IsNull column (Operand.Const (Val.Bool b))) (as_bool (view value.now)) }
{
    match value.as_bool() {
        Some(told) => Some(Filter::IsNull {
            column,
            want: Operand::Const(Val::Bool(told)),
        }),
        None => None,
    }
}

fn read_comparison(
    alloc: Global,
    names: &NameSet,
    column: u32,
    kind: Kind,
    name: &str,
    value: &Value,
) -> Result<Option<Filter>, NoMemory>
    requires slots { length names.now ≤ 4294967296 }
    ensures { IfOk result (λ o. o ≡ option_and_then (λ op. option_map (Filter.Cmp column op) (operand_of names.now kind (view value.now))) (op_named name.now)) }
{
    let Some(op) = op_of(name) else {
        return Ok(None);
    };
    match read_operand(alloc, names, kind, value)? {
        Some(operand) => Ok(Some(Filter::Cmp {
            column,
            op,
            operand,
        })),
        None => Ok(None),
    }
}

#[tactic(auto, unfolding(role_model::specs::JsonFilters::operator_of))]
fn read_operator(
    alloc: Global,
    names: &NameSet,
    column: u32,
    kind: Kind,
    name: &str,
    value: &Value,
) -> Result<Option<Filter>, NoMemory>
    requires slots { length names.now ≤ 4294967296 }
    ensures { IfOk result (λ o. o ≡ operator_of names.now column kind name.now (view value.now)) }
{
    match name {
        "_in" => Ok(among(column, false, read_items(alloc, kind, value)?)),
        "_nin" => Ok(among(column, true, read_items(alloc, kind, value)?)),
        "_is_null" => Ok(null_test(column, value)),
        _ => read_comparison(alloc, names, column, kind, name, value),
    }
}

fn read_operators(
    alloc: Global,
    names: &NameSet,
    column: u32,
    kind: Kind,
    value: &Value,
) -> Result<Option<Filter>, NoMemory>
    requires slots { length names.now ≤ 4294967296 }
    ensures { IfOk result (λ o. o ≡ operators_of names.now column kind (view value.now)) }
{
    let Some(map) = value.as_object() else {
        return Ok(None);
    };
    match read_each_operator(alloc, names, column, kind, map)? {
        Some(parts) => Ok(Some(Filter::And(parts))),
        None => Ok(None),
    }
}

fn push_filter(parts: &mut FilterList, part: Filter) -> Result<(), NoMemory>
    ensures { OnOk result (parts.new ≡ parts.old ++ part ∷ []) }
{
    match parts.push(part) {
        Ok(()) => Ok(()),
        Err(_back) => Err(NoMemory),
    }
}

fn read_each_operator(
    alloc: Global,
    names: &NameSet,
    column: u32,
    kind: Kind,
    map: &Map<String, Value>,
) -> Result<Option<FilterList>, NoMemory>
    requires slots { length names.now ≤ 4294967296 }
    ensures { IfOk result (λ o. o ≡ of_each_member (operator_of names.now column kind) (members_view map.now.entries)) }
{
    let mut parts = FilterList::new(alloc);
    'members: for (name, value) in map.iter() {
        let Some(part) = read_operator(alloc, names, column, kind, name.as_str(), value)? else {
            return Ok(None);
        };
        push_filter(&mut parts, part)?;
    }
    Ok(Some(parts))
}

fn column_place(columns: &[Column], name: &str) -> Option<usize>
    ensures value { result ≡ column_number columns.now name.now }
    ensures bound { IfSome result (λ at. at < length columns.now) }
{
    columns
        .iter()
        .position(|column| name == column.name.as_str())
}

/// The number of the column of a name, from 0, and 0 where there is none of that name.
pub fn number_of_column(columns: &[Column], name: &str) -> u32
    requires narrow { length columns.now ≤ 64 }
    ensures { result ≡ unwrap_or (column_number columns.now name.now) 0 }
{
    match column_place(columns, name) {
        Some(at) => at as u32,
        None => 0,
    }
}

#[tactic(auto, unfolding(role_model::specs::JsonFilters::column_condition))]
fn read_column_condition(
    alloc: Global,
    columns: &[Column],
    names: &NameSet,
    name: &str,
    value: &Value,
) -> Result<Option<Filter>, NoMemory>
    requires narrow { length columns.now ≤ 64 }
    requires slots { length names.now ≤ 4294967296 }
    ensures { IfOk result (λ o. o ≡ column_condition columns.now names.now name.now (view value.now)) }
{
    let Some(at) = column_place(columns, name) else {
        return Ok(None);
    };
    match columns.get(at) {
        Some(column) => read_operators(alloc, names, at as u32, column.kind, value),
        None => Ok(None),
    }
}

fn all_of(parts: Option<FilterList>) -> Option<Filter>
    ensures { result ≡ option_map Filter.And parts }
{
    match parts {
        Some(parts) => Some(Filter::And(parts)),
        None => None,
    }
}

fn one_of(parts: Option<FilterList>) -> Option<Filter>
    ensures { result ≡ option_map Filter.Or parts }
{
    match parts {
        Some(parts) => Some(Filter::Or(parts)),
        None => None,
    }
}

fn not_of(alloc: Global, part: Option<Filter>) -> Result<Option<Filter>, NoMemory>
    ensures { IfOk result (λ o. o ≡ option_map Filter.Not part) }
{
    match part {
        Some(part) => Ok(Some(Filter::Not(Boxed::new(alloc, part)?))),
        None => Ok(None),
    }
}

/// The filter that a JSON value is, over the at most 64 columns of its table and with the slots of these session
/// variables; `None` where it is none. `NoMemory` where memory is refused.
#[cycle(filters)]
pub fn read_filter(
    alloc: Global,
    columns: &[Column],
    names: &NameSet,
    value: &Value,
) -> Result<Option<Filter>, NoMemory>
    requires narrow { length columns.now ≤ 64 }
    requires slots { length names.now ≤ 4294967296 }
    ensures { IfOk result (λ o. o ≡ filter_of columns.now names.now (view value.now)) }
{
    match value {
        Value::Object(map) => Ok(all_of(read_pairs(alloc, columns, names, map)?)),
        _ => Ok(None),
    }
}

#[cycle(filters)]
fn read_filters(
    alloc: Global,
    columns: &[Column],
    names: &NameSet,
    value: &Value,
) -> Result<Option<FilterList>, NoMemory>
    requires narrow { length columns.now ≤ 64 }
    requires slots { length names.now ≤ 4294967296 }
    ensures { IfOk result (λ o. o ≡ filters_of columns.now names.now (view value.now)) }
{
    match value {
        Value::Array(values) => read_each_filter(alloc, columns, names, values),
        _ => Ok(None),
    }
}

#[cycle(filters)]
fn read_each_filter(
    alloc: Global,
    columns: &[Column],
    names: &NameSet,
    values: &Vec<Value>,
) -> Result<Option<FilterList>, NoMemory>
    requires narrow { length columns.now ≤ 64 }
    requires slots { length names.now ≤ 4294967296 }
    ensures { IfOk result (λ o. o ≡ filters_of_items columns.now names.now (items_view values.now.items)) }
{
    let mut parts = FilterList::new(alloc);
    'items: for value in values {
        let Some(part) = read_filter(alloc, columns, names, value)? else {
            return Ok(None);
        };
        push_filter(&mut parts, part)?;
    }
    Ok(Some(parts))
}

#[cycle(filters)]
fn read_pairs(
    alloc: Global,
    columns: &[Column],
    names: &NameSet,
    map: &Map<String, Value>,
) -> Result<Option<FilterList>, NoMemory>
    requires narrow { length columns.now ≤ 64 }
    requires slots { length names.now ≤ 4294967296 }
    ensures { IfOk result (λ o. o ≡ pairs_of columns.now names.now (members_view map.now.entries)) }
{
    let mut parts = FilterList::new(alloc);
    'members: for (name, value) in map.iter() {
        let Some(part) = read_pair(alloc, columns, names, name.as_str(), value)? else {
            return Ok(None);
        };
        push_filter(&mut parts, part)?;
    }
    Ok(Some(parts))
}

#[cycle(filters)]
#[tactic(auto, unfolding(role_model::specs::JsonFilters::pair_of))]
fn read_pair(
    alloc: Global,
    columns: &[Column],
    names: &NameSet,
    name: &str,
    value: &Value,
) -> Result<Option<Filter>, NoMemory>
    requires narrow { length columns.now ≤ 64 }
    requires slots { length names.now ≤ 4294967296 }
    ensures { IfOk result (λ o. o ≡ pair_of name.now (filter_of columns.now names.now (view value.now)) (filters_of columns.now names.now (view value.now)) (column_condition columns.now names.now name.now (view value.now))) }
{
    match name {
        "_and" => Ok(all_of(read_filters(alloc, columns, names, value)?)),
        "_or" => Ok(one_of(read_filters(alloc, columns, names, value)?)),
        "_not" => not_of(alloc, read_filter(alloc, columns, names, value)?),
        _ => read_column_condition(alloc, columns, names, name, value),
    }
}
