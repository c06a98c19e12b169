//! The fields of an object, and of those in it (GraphQL October 2021, section 6.4.3, "Merging Selection Sets").

ghost use Rattle.std.specs.Prelude.{
  ◌≡◌,
  ◌≤◌,
  ◌<◌,
  ◌+◌,
  ◌⊎◌,
  ◌↔◌,
  ◌∷◌,
  [],
  map,
  IfOk,
  IfSome,
  None,
  MatchResult,
  IsTrue,
};
ghost use Rattle.std.specs.List.{list_any};
ghost use Rattle.request_model.specs.Selection as spec;
ghost use Rattle.request_model.specs.declared.flat.FlatField.TheViews.{roll-FlatField};
ghost use Rattle.gql_flat.specs.Fields.{AreFields, AreTooLarge, FailsSo, IsCounted};

use crate::collecting::{Group, Selected, collected_inside, conditions_of, groups_of};
use crate::copies::{copy_pairs, copy_str};
use gql_canon::{ordered_by_name, same_ordered, same_pairs};
use gql_scope::Scope;
use request_model::{FlatFault, FlatField, FlatFieldList, GPair, StrList};
use scalar_val::{List, NoMemory, Str};
use std::alloc::Global;

/// An operation has at most so many fields.
const MOST_FIELDS: usize = 4096;

/// Whether a field of the key differs from the first in name or in arguments.
fn group_conflicts(alloc: Global, group: &Group<'_>) -> Result<bool, NoMemory>
    ensures { IfOk result (λ found. IsTrue found ↔ spec.Some_of (spec.Differ group.now.first) group.now.others) }
{
    some_differ(alloc, &group.first, group.others.as_slice())
}

/// Fields that are written alike are told without an order of their arguments.
fn some_differ(
    alloc: Global,
    first: &Selected<'_>,
    others: &[Selected<'_>],
) -> Result<bool, NoMemory>
    ensures { IfOk result (λ found. IsTrue found ↔ spec.Some_of (spec.Differ first.now) others.now) }
{
    for (index, field) in others.iter().enumerate() {
        match differ_as_written(first, field) {
            Some(true) => return Ok(true),
            Some(false) => {}
            None => return some_differ_in_order(alloc, first, &others[index..]),
        }
    }
    Ok(false)
}

/// Orders the arguments of the first field once, for all the others.
fn some_differ_in_order(
    alloc: Global,
    first: &Selected<'_>,
    others: &[Selected<'_>],
) -> Result<bool, NoMemory>
    ensures { IfOk result (λ found. IsTrue found ↔ spec.Some_of (spec.Differ first.now) others.now) }
{
    let ordered = ordered_by_name(alloc, first.args)?;
    for field in others {
        let found = differ(alloc, first, ordered.as_slice(), field)?;
        if found {
            return Ok(true);
        }
    }
    Ok(false)
}

fn differ(
    alloc: Global,
    first: &Selected<'_>,
    ordered: &[&GPair],
    field: &Selected<'_>,
) -> Result<bool, NoMemory>
    requires { map (λ p. p.now) ordered.now ≡ spec.by_name first.now.args }
    ensures { IfOk result (λ found. IsTrue found ↔ spec.Differ first.now field.now) }
{
    if let Some(found) = differ_as_written(first, field) {
        return Ok(found);
    }
    Ok(!same_ordered(alloc, ordered, field.args)?)
}

/// Whether the fields differ, where their names and the written order of their arguments tell.
fn differ_as_written(first: &Selected<'_>, field: &Selected<'_>) -> Option<bool>
    ensures told { IfSome result (λ found. IsTrue found ↔ spec.Differ first.now field.now) }
    ensures untold { result ≡ None → first.now.name ≡ field.now.name }
{
    if first.name.as_str() != field.name.as_str() {
        return Some(true);
    }
    if same_pairs(first.args, field.args) {
        return Some(false);
    }
    None
}

fn has_inner(group: &Group<'_>) -> bool
    ensures { result ≡ list_any spec.has_inner (spec.fields_of group.now) }
{
    if !group.first.select.is_empty() {
        return true;
    }
    for field in &group.others {
        if !field.select.is_empty() {
            return true;
        }
    }
    false
}

pub fn copy_texts(alloc: Global, texts: &[&Str]) -> Result<StrList, NoMemory>
    ensures { IfOk result (λ copy. copy ≡ map (λ t. t.now) texts.now) }
{
    let mut copy = List::new(alloc);
    for text in texts {
        copy.add(copy_str(alloc, text)?)?;
    }
    Ok(copy)
}

/// How many fields there are so far, and whether two of one key differ.
#[derive(Clone, Copy, Debug)]
pub struct Tally {
    pub fields: usize,
    pub conflict: bool,
}

/// Counts the field of a group.
fn count(alloc: Global, group: &Group<'_>, tally: &mut Tally) -> Result<(), FlatFault>
    ensures { MatchResult result (λ _. IsCounted group.now tally.old tally.new)
        (λ e. FailsSo e (spec.most_fields ≤ tally.old.fields)) }
{
    if tally.fields >= MOST_FIELDS {
        return Err(FlatFault::TooLarge);
    }
    match group_conflicts(alloc, group) {
        Ok(conflict) => {
            tally.fields += 1;
            tally.conflict = tally.conflict || conflict;
            Ok(())
        }
        Err(_) => Err(FlatFault::NoMemory),
    }
}

fn field_of(
    alloc: Global,
    group: &Group<'_>,
    conditions: &[&Str],
    fields: FlatFieldList,
) -> Result<FlatField, NoMemory>
    ensures { IfOk result (λ field. field ≡ roll-FlatField
        (record {
          key = group.now.first.key;
          name = group.now.first.name;
          args = group.now.first.args;
          nested = list_any
              spec.has_inner (spec.fields_of group.now);
          conditions = map (λ t. t.now) conditions.now;
          fields = fields;
        })) }
{
    let key = copy_str(alloc, group.first.key)?;
    let name = copy_str(alloc, group.first.name)?;
    let args = copy_pairs(alloc, group.first.args)?;
    let conditions = copy_texts(alloc, conditions)?;
    Ok(FlatField {
        key,
        name,
        args,
        nested: has_inner(group),
        conditions,
        fields,
    })
}

/// The field of a group, with so many levels left below it.
#[cycle(field)]
fn field<'a>(
    alloc: Global,
    scope: &Scope<'a>,
    levels: usize,
    group: &Group<'a>,
    tally: &mut Tally,
) -> Result<FlatField, FlatFault>
    ensures { MatchResult result
        (λ field. AreFields scope.now (levels + 1) (group.now ∷ []) tally.old tally.new (field ∷ []))
        (λ e. FailsSo e (AreTooLarge scope.now (levels + 1) (group.now ∷ []) tally.old.fields)) }
{
    match count(alloc, group, tally) {
        Ok(()) => {}
        Err(fault) => return Err(fault),
    }
    let inside = match collected_inside(alloc, scope, group) {
        Ok(inside) => inside,
        Err(_) => return Err(FlatFault::NoMemory),
    };
    let fields = match fields(alloc, scope, levels, groups_of(&inside), tally) {
        Ok(fields) => fields,
        Err(fault) => return Err(fault),
    };
    match field_of(alloc, group, conditions_of(&inside), fields) {
        Ok(field) => Ok(field),
        Err(_) => Err(FlatFault::NoMemory),
    }
}

/// The fields of groups, with so many levels left for them.
#[cycle(field)]
pub fn fields<'a>(
    alloc: Global,
    scope: &Scope<'a>,
    levels: usize,
    groups: &[Group<'a>],
    tally: &mut Tally,
) -> Result<FlatFieldList, FlatFault>
    requires { tally.old.fields ≤ spec.most_fields }
    ensures { MatchResult result
        (λ fields. AreFields scope.now levels groups.now tally.old tally.new fields)
        (λ e. FailsSo e (AreTooLarge scope.now levels groups.now tally.old.fields)) }
{
    let mut found = List::new(alloc);
    if groups.is_empty() {
        return Ok(found);
    }
    if levels == 0 {
        return Err(FlatFault::TooLarge);
    }
    for group in groups {
        let field = match field(alloc, scope, levels - 1, group, tally) {
            Ok(field) => field,
            Err(fault) => return Err(fault),
        };
        match found.add(field) {
            Ok(()) => {}
            Err(_) => return Err(FlatFault::NoMemory),
        }
    }
    Ok(found)
}
