//! The names of variables in values, arguments and fields, collected in order and each once.

ghost use Rattle.std.specs.Prelude.{◌≡◌, map, OnOk};
ghost use Rattle.request_model.specs.SelectionLaws.{bare_cursor, bare_initial};
ghost use Rattle.query_model.specs.Queries.{value_names};
ghost use Rattle.query_binding.specs.Added.{texts, with_name, added, added_each, pair_names, cursor_pair_names, object_names, argument_names, field_names};

use request_model::{FlatField, GPair, GValue};
use scalar_val::NoMemory;
use std::collections::BTreeSet;

fn add_name<'a>(names: &mut BTreeSet<&'a str>, name: &'a str) -> Result<(), NoMemory>
    ensures { OnOk result (texts names.new ≡ with_name name.now (texts names.old)) }
{
    let _is_new = names.insert(name)?;
    Ok(())
}

#[tactic(auto, using(crate::proofs::AddedRules::many_added, crate::proofs::AddedRules::object_added))]
#[cycle(value)]
fn add_value<'a>(names: &mut BTreeSet<&'a str>, value: &'a GValue) -> Result<(), NoMemory>
    ensures { OnOk result (texts names.new ≡ added (value_names value.now) (texts names.old)) }
{
    match value {
        GValue::Var(name) => add_name(names, name.as_str()),
        GValue::Many(items) => add_values(names, items.as_slice()),
        GValue::Object(pairs) => add_pairs(names, pairs.as_slice()),
        _ => Ok(()),
    }
}

#[cycle(value)]
fn add_values<'a>(names: &mut BTreeSet<&'a str>, values: &'a [GValue]) -> Result<(), NoMemory>
    ensures { OnOk result (texts names.new ≡ added_each (map value_names values.now) (texts names.old)) }
{
    for value in values {
        add_value(names, value)?;
    }
    Ok(())
}

#[cycle(value)]
fn add_pair<'a>(names: &mut BTreeSet<&'a str>, pair: &'a GPair) -> Result<(), NoMemory>
    ensures { OnOk result (texts names.new ≡ added (pair_names pair.now) (texts names.old)) }
{
    add_value(names, &pair.value)
}

#[cycle(value)]
fn add_pairs<'a>(names: &mut BTreeSet<&'a str>, pairs: &'a [GPair]) -> Result<(), NoMemory>
    ensures { OnOk result (texts names.new ≡ added_each (map pair_names pairs.now) (texts names.old)) }
{
    for pair in pairs {
        add_pair(names, pair)?;
    }
    Ok(())
}

/// The values of an initial value that is an object stand in no text.
#[tactic(auto, using(crate::proofs::AddedRules::initial_added))]
fn add_initial<'a>(names: &mut BTreeSet<&'a str>, value: &'a GValue) -> Result<(), NoMemory>
    ensures { OnOk result (texts names.new ≡ added (value_names (bare_initial value.now)) (texts names.old)) }
{
    match value {
        GValue::Object(_) => Ok(()),
        _ => add_value(names, value),
    }
}

fn add_cursor_pair<'a>(names: &mut BTreeSet<&'a str>, pair: &'a GPair) -> Result<(), NoMemory>
    ensures { OnOk result (texts names.new ≡ added (cursor_pair_names pair.now) (texts names.old)) }
{
    if pair.name.as_str() == "initial_value" {
        return add_initial(names, &pair.value);
    }
    add_pair(names, pair)
}

fn add_cursor_pairs<'a>(names: &mut BTreeSet<&'a str>, pairs: &'a [GPair]) -> Result<(), NoMemory>
    ensures { OnOk result (texts names.new ≡ added_each (map cursor_pair_names pairs.now) (texts names.old)) }
{
    for pair in pairs {
        add_cursor_pair(names, pair)?;
    }
    Ok(())
}

#[tactic(auto, using(crate::proofs::AddedRules::cursor_object_added))]
fn add_cursor_object<'a>(names: &mut BTreeSet<&'a str>, value: &'a GValue) -> Result<(), NoMemory>
    ensures { OnOk result (texts names.new ≡ added (object_names value.now) (texts names.old)) }
{
    match value {
        GValue::Object(pairs) => add_cursor_pairs(names, pairs.as_slice()),
        _ => add_value(names, value),
    }
}

fn add_cursor_objects<'a>(
    names: &mut BTreeSet<&'a str>,
    values: &'a [GValue],
) -> Result<(), NoMemory>
    ensures { OnOk result (texts names.new ≡ added_each (map object_names values.now) (texts names.old)) }
{
    for value in values {
        add_cursor_object(names, value)?;
    }
    Ok(())
}

#[tactic(auto, using(crate::proofs::AddedRules::cursor_added))]
fn add_cursor<'a>(names: &mut BTreeSet<&'a str>, value: &'a GValue) -> Result<(), NoMemory>
    ensures { OnOk result (texts names.new ≡ added (value_names (bare_cursor value.now)) (texts names.old)) }
{
    match value {
        GValue::Many(items) => add_cursor_objects(names, items.as_slice()),
        _ => add_cursor_object(names, value),
    }
}

fn add_argument<'a>(names: &mut BTreeSet<&'a str>, pair: &'a GPair) -> Result<(), NoMemory>
    ensures { OnOk result (texts names.new ≡ added (argument_names pair.now) (texts names.old)) }
{
    if pair.name.as_str() == "cursor" {
        return add_cursor(names, &pair.value);
    }
    add_value(names, &pair.value)
}

fn add_arguments<'a>(names: &mut BTreeSet<&'a str>, args: &'a [GPair]) -> Result<(), NoMemory>
    ensures { OnOk result (texts names.new ≡ added_each (map argument_names args.now) (texts names.old)) }
{
    for pair in args {
        add_argument(names, pair)?;
    }
    Ok(())
}

#[tactic(auto, using(crate::proofs::AddedRules::field_added))]
#[cycle(field)]
fn add_field<'a>(names: &mut BTreeSet<&'a str>, field: &'a FlatField) -> Result<(), NoMemory>
    ensures { OnOk result (texts names.new ≡ added (field_names field.now) (texts names.old)) }
{
    add_arguments(names, field.args.as_slice())?;
    add_fields(names, field.fields.as_slice())
}

/// Adds the names of the variables that stand in the text of fields.
#[cycle(field)]
pub(crate) fn add_fields<'a>(
    names: &mut BTreeSet<&'a str>,
    fields: &'a [FlatField],
) -> Result<(), NoMemory>
    ensures { OnOk result (texts names.new ≡ added_each (map field_names fields.now) (texts names.old)) }
{
    for field in fields {
        add_field(names, field)?;
    }
    Ok(())
}
