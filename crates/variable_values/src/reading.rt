//! Variables as they are given.

ghost use Rattle.std.specs.Prelude.{◌≡◌, Ok, Err, IfOk, map, option_and_then, option_map};
ghost use Rattle.std.specs.Option.{option_copied};
ghost use Rattle.serde_json.specs.Find.{get_member};
ghost use Rattle.serde_json.specs.View.{view, items_view};
ghost use Rattle.data_model.specs.JsonParts.{scalar_or_null};
ghost use Rattle.request_model.specs.Selection.{given_values};
ghost use Rattle.query_model.specs.declared.fault.QueryFault.{QueryFault};
ghost use Rattle.query_model.specs.declared.variable.Variable.{Variable};
ghost use Rattle.query_model.specs.Names.{literal};
ghost use Rattle.query_model.specs.Refusals.{refusal};
ghost use Rattle.query_model.specs.Variables.{item_value, item_values, input_value, or_wrong, json_items, json_input, literal_input};
ghost use Rattle.query_model.specs.Variables.{Several, counted, default_input, single_value, variable_of};
ghost use Rattle.query_model.specs.Admission.{variables_of};

use crate::literals::literal;
use crate::types::type_of;
use crate::values::{item_value, single_value};
use crate::variables::Variables;
use data_model::read_scalar_or_null;
use plan_model::{Slot, ValList};
use query_model::{AdmitFault, FaultKind, QueryFault, VarType, Variable, VariableList};
use request_model::{GValue, VarDef};
use scalar_val::{List, NoMemory, Str, Val};
use serde_json::Value;
use std::alloc::Global;

fn json_item(alloc: Global, type_: VarType, item: &Value) -> Result<Option<Val>, NoMemory>
    ensures { IfOk result (λ found. found ≡ option_and_then (item_value type_) (scalar_or_null (view item.now))) }
{
    let scalar = read_scalar_or_null(alloc, item)?;
    item_value(alloc, type_, scalar)
}

/// The items of a list that is given in JSON, and none where one of them may not stand there.
fn json_items(alloc: Global, type_: VarType, items: &[Value]) -> Result<Option<ValList>, NoMemory>
    ensures { IfOk result (λ found. found ≡ item_values type_ (json_items (items_view items.now))) }
{
    let mut values = Vec::with_capacity(alloc, items.len())?;
    for item in items {
        let Some(value) = json_item(alloc, type_, item)? else {
            return Ok(None);
        };
        values.push(value)?;
    }
    Ok(Some(List::from_vec(values)))
}

fn literal_item(alloc: Global, type_: VarType, item: &GValue) -> Result<Option<Val>, NoMemory>
    ensures { IfOk result (λ found. found ≡ option_and_then (item_value type_) (literal item.now)) }
{
    let scalar = literal(alloc, item)?;
    item_value(alloc, type_, scalar)
}

/// The items of a list that is written, and none where one of them may not stand there.
#[tactic(auto, using(crate::proofs::ListRules::item_read))]
fn literal_items(
    alloc: Global,
    type_: VarType,
    items: &[GValue],
) -> Result<Option<ValList>, NoMemory>
    ensures { IfOk result (λ found. found ≡ item_values type_ (map literal items.now)) }
{
    let mut values = Vec::with_capacity(alloc, items.len())?;
    for item in items {
        let Some(value) = literal_item(alloc, type_, item)? else {
            return Ok(None);
        };
        values.push(value)?;
    }
    Ok(Some(List::from_vec(values)))
}

fn many_or_wrong(values: Option<ValList>) -> Result<Slot, FaultKind>
    ensures { result ≡ or_wrong (option_map Slot.Many values) }
{
    match values {
        Some(values) => Ok(Slot::Many(values)),
        None => Err(FaultKind::WrongType),
    }
}

fn json_list(
    alloc: Global,
    type_: VarType,
    items: &[Value],
) -> Result<Result<Slot, FaultKind>, NoMemory>
    ensures { IfOk result (λ value. value ≡ input_value type_ (Several (json_items (items_view items.now)))) }
{
    if !type_.listed {
        return Ok(Err(FaultKind::WrongType));
    }
    Ok(many_or_wrong(json_items(alloc, type_, items)?))
}

fn json_scalar(
    alloc: Global,
    type_: VarType,
    given: &Value,
) -> Result<Result<Slot, FaultKind>, NoMemory>
    ensures { IfOk result (λ value. value ≡ single_value type_ (scalar_or_null (view given.now))) }
{
    let scalar = read_scalar_or_null(alloc, given)?;
    single_value(alloc, type_, scalar)
}

/// The value of a variable that is given in JSON, or why it isn't one.
fn json_value(
    alloc: Global,
    type_: VarType,
    given: &Value,
) -> Result<Result<Slot, FaultKind>, NoMemory>
    ensures { IfOk result (λ value. value ≡ input_value type_ (json_input (view given.now))) }
{
    match given {
        Value::Array(items) => json_list(alloc, type_, items.as_slice()),
        _ => json_scalar(alloc, type_, given),
    }
}

fn literal_list(
    alloc: Global,
    type_: VarType,
    items: &[GValue],
) -> Result<Result<Slot, FaultKind>, NoMemory>
    ensures { IfOk result (λ value. value ≡ input_value type_ (Several (map literal items.now))) }
{
    if !type_.listed {
        return Ok(Err(FaultKind::WrongType));
    }
    Ok(many_or_wrong(literal_items(alloc, type_, items)?))
}

fn literal_scalar(
    alloc: Global,
    type_: VarType,
    given: &GValue,
) -> Result<Result<Slot, FaultKind>, NoMemory>
    ensures { IfOk result (λ value. value ≡ single_value type_ (literal given.now)) }
{
    let scalar = literal(alloc, given)?;
    single_value(alloc, type_, scalar)
}

/// The value of a variable that is given as a literal, or why it isn't one.
fn literal_value(
    alloc: Global,
    type_: VarType,
    given: &GValue,
) -> Result<Result<Slot, FaultKind>, NoMemory>
    ensures { IfOk result (λ value. value ≡ input_value type_ (literal_input given.now)) }
{
    match given {
        GValue::Many(items) => literal_list(alloc, type_, items.as_slice()),
        _ => literal_scalar(alloc, type_, given),
    }
}

fn default_value(
    alloc: Global,
    type_: VarType,
    default: Option<&GValue>,
) -> Result<Result<Slot, FaultKind>, NoMemory>
    ensures { IfOk result (λ value. value ≡ input_value type_ (default_input (option_copied default.entry))) }
{
    match default {
        Some(default) => literal_value(alloc, type_, default),
        None => single_value(alloc, type_, Some(Val::Null)),
    }
}

/// The value that counts: the one that is given, else the default, else null.
fn value_of(
    alloc: Global,
    type_: VarType,
    given: Option<&Value>,
    default: Option<&GValue>,
) -> Result<Result<Slot, FaultKind>, NoMemory>
    ensures { IfOk result (λ value. value
        ≡ input_value type_ (counted (option_map (λ v. view v.now) given.entry) (option_copied default.entry))) }
{
    match given {
        Some(given) => json_value(alloc, type_, given),
        None => default_value(alloc, type_, default),
    }
}

/// The value that is given for a name.
fn given_for<'a>(values: &'a Value, name: &str) -> Option<&'a Value>
    ensures { option_map (λ v. view v.now) result ≡ get_member name.now (given_values (view values.now)) }
{
    values.get(name)
}

fn variable_of(
    alloc: Global,
    values: &Value,
    def: &VarDef,
) -> Result<Result<Variable, FaultKind>, NoMemory>
    ensures { IfOk result (λ found. found ≡ variable_of (given_values (view values.now)) def.now) }
{
    let Some(type_) = type_of(&def.kind) else {
        return Ok(Err(FaultKind::WrongType));
    };
    let given = given_for(values, def.name.as_str());
    match value_of(alloc, type_, given, def.default.as_ref())? {
        Ok(value) => {
            let name = Str::of(alloc, def.name.as_str())?;
            Ok(Ok(Variable { name, type_, value }))
        }
        Err(kind) => Ok(Err(kind)),
    }
}

fn refused(alloc: Global, kind: FaultKind, name: &str) -> AdmitFault
    ensures { (fault : QueryFault) → result ≡ AdmitFault.Refused fault → fault ≡ refusal kind name.now }
{
    match Str::of(alloc, name) {
        Ok(name) => AdmitFault::Refused(QueryFault { kind, at: 0, name }),
        Err(NoMemory) => AdmitFault::NoMemory,
    }
}

#[tactic(auto, using(crate::proofs::ListRules::no_variables_yet, crate::proofs::ListRules::one_more_variable))]
fn variables_of(alloc: Global, defs: &[VarDef], values: &Value) -> Result<VariableList, AdmitFault>
    ensures ok { IfOk result (λ vars. variables_of (given_values (view values.now)) defs.now ≡ Ok vars) }
    ensures refused { (fault : QueryFault) → result ≡ Err (AdmitFault.Refused fault) →
        variables_of (given_values (view values.now)) defs.now ≡ Err fault }
{
    let mut found = VariableList::new(alloc);
    for def in defs {
        match variable_of(alloc, values, def)? {
            Ok(variable) => found.add(variable)?,
            Err(kind) => return Err(refused(alloc, kind, def.name.as_str())),
        }
    }
    Ok(found)
}

/// The variables of an operation by their definitions (GraphQL October 2021, section 2.10) and the values that a
/// request gives for them (section 6.1.2), by name, which are none where `values` is no JSON object. What is given
/// counts, else the default, else null. A type is a kind, `Boolean`, `Int`, `bigint`, `String` or `uuid`, or a list of
/// one, each with or without `!`.
///
/// Refused is the first definition in their order that is at fault, with its name: `WrongType` where the type is another
/// or the value isn't of it, and `MissingVariable` where null counts and the type doesn't allow it. `NoMemory` where
/// memory is refused.
pub fn read_variables(
    alloc: Global,
    defs: &[VarDef],
    values: &Value,
) -> Result<Variables, AdmitFault>
    ensures ok { IfOk result (λ vars. variables_of (given_values (view values.now)) defs.now ≡ Ok vars) }
    ensures refused { (fault : QueryFault) → result ≡ Err (AdmitFault.Refused fault) →
        variables_of (given_values (view values.now)) defs.now ≡ Err fault }
{
    let items = variables_of(alloc, defs, values)?;
    Ok(Variables::of(alloc, items)?)
}
