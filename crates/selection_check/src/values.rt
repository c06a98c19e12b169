//! Values in their places: variables and literals of a kind, lists of them, and counts.

ghost use Rattle.std.specs.Prelude.{◌≡◌, [], IfOk, IfErr, Option, Some, map};
ghost use Rattle.std.specs.List.{list_any};
ghost use Rattle.scalar_val.specs.Values.{is_null};
ghost use Rattle.plan_model.specs.declared.filter.Slot.{Slot};
ghost use Rattle.query_model.specs.declared.fault.QueryFault.{QueryFault};
ghost use Rattle.query_model.specs.Refusals.{refused, first_of};
ghost use Rattle.query_model.specs.ValueFaults.{
  has_type,
  is_null_slot,
  single_fault,
  list_fault,
  null_slot_fault,
  null_list_fault,
  variable_fault,
};
ghost use Rattle.query_model.specs.CountFaults.{is_below, count_literal_fault, count_fault, batch_fault};
ghost use Rattle.query_model.specs.Variables.{value_read};
ghost use Rattle.plan_model.specs.Values.{one_value};
ghost use Rattle.selection_check.specs.Told.{told};

use crate::literals::{fits, int_literal};
use crate::refusal::{Refusal, refused, refused_if};
use plan_model::Slot;
use query_model::{FaultKind, Variable};
use request_model::GValue;
use scalar_val::{Kind, Val, same_kind};
use variable_values::Variables;

fn has_type(listed: bool, kind: Kind, variable: &Variable) -> bool
    ensures { result ≡ has_type [] listed kind variable.now }
{
    same_kind(kind, variable.type_.kind) && listed == variable.type_.listed
}

/// The value of the variable of a name, which has to be declared as a kind, or as a list of the kind.
fn declared<'v, 'a>(
    vars: &'v Variables,
    listed: bool,
    kind: Kind,
    name: &'a str,
) -> Result<&'v Slot, Refusal<'a>>
    ensures ok { IfOk result (λ slot. (judge : Slot → Option QueryFault) →
        variable_fault vars.now listed kind judge name.now ≡ judge slot.now) }
    ensures err { IfErr result (λ r. (judge : Slot → Option QueryFault) →
        variable_fault vars.now listed kind judge name.now ≡ refused r.kind r.name.now) }
{
    match vars.named(name) {
        Some(variable) => {
            if has_type(listed, kind, variable) {
                Ok(&variable.value)
            } else {
                Err(Refusal {
                    kind: FaultKind::WrongType,
                    name,
                })
            }
        }
        None => Err(Refusal {
            kind: FaultKind::MissingVariable,
            name,
        }),
    }
}

fn null_slot_fault<'a>(place: &'a str, slot: &Slot) -> Option<Refusal<'a>>
    ensures { told result ≡ null_slot_fault [] place.now slot.now }
{
    match slot {
        Slot::One(value) => refused_if(value.is_null(), FaultKind::NullOperand, place),
        Slot::Many(_) => refused(FaultKind::NullOperand, place),
    }
}

/// The fault of one value in a place of a kind.
pub fn single_fault<'a>(
    vars: &Variables,
    place: &'a str,
    kind: Kind,
    value: &'a GValue,
) -> Option<Refusal<'a>>
    ensures { told result ≡ single_fault vars.now place.now kind value.now }
{
    match value {
        GValue::Var(name) => match declared(vars, false, kind, name.as_str()) {
            Ok(slot) => null_slot_fault(place, slot),
            Err(refusal) => Some(refusal),
        },
        GValue::Null => refused(FaultKind::NullOperand, place),
        _ => refused_if(!fits(kind, value), FaultKind::WrongType, place),
    }
}

fn has_null(values: &[Val]) -> bool
    ensures { result ≡ list_any is_null values.now }
{
    for value in values {
        if value.is_null() {
            return true;
        }
    }
    false
}

fn is_null_slot(slot: &Slot) -> bool
    ensures { result ≡ is_null_slot [] slot.now }
{
    match slot {
        Slot::One(value) => value.is_null(),
        Slot::Many(values) => has_null(values.as_slice()),
    }
}

fn null_list_fault<'a>(place: &'a str, slot: &Slot) -> Option<Refusal<'a>>
    ensures { told result ≡ null_list_fault [] place.now slot.now }
{
    refused_if(is_null_slot(slot), FaultKind::NullOperand, place)
}

fn items_fault<'a>(
    vars: &Variables,
    place: &'a str,
    kind: Kind,
    items: &'a [GValue],
) -> Option<Refusal<'a>>
    ensures { told result ≡ first_of (map (single_fault vars.now place.now kind) items.now) }
{
    for item in items {
        if let Some(fault) = single_fault(vars, place, kind, item) {
            return Some(fault);
        }
    }
    None
}

/// The fault of the values of `_in` or `_nin` in a place of a kind.
pub fn list_fault<'a>(
    vars: &Variables,
    place: &'a str,
    kind: Kind,
    value: &'a GValue,
) -> Option<Refusal<'a>>
    ensures { told result ≡ list_fault vars.now place.now kind value.now }
{
    match value {
        GValue::Var(name) => match declared(vars, true, kind, name.as_str()) {
            Ok(slot) => null_list_fault(place, slot),
            Err(refusal) => Some(refusal),
        },
        GValue::Many(items) => items_fault(vars, place, kind, items.as_slice()),
        _ => single_fault(vars, place, kind, value),
    }
}

fn is_slot_below(least: i32, slot: &Slot) -> bool
    ensures { result ≡ is_below [] least (one_value (Some slot.now)) }
{
    match slot {
        Slot::One(Val::Int(number)) => *number < least,
        _ => false,
    }
}

fn count_literal_fault<'a>(place: &'a str, value: &'a GValue) -> Option<Refusal<'a>>
    ensures { told result ≡ count_literal_fault [] place.now value.now }
{
    if let GValue::Null = value {
        return None;
    }
    match int_literal(value) {
        Some(number) => refused_if(number < 0, FaultKind::WrongType, place),
        None => refused(FaultKind::WrongType, place),
    }
}

/// The fault of a count of rows: an integer of 0 or more, or null.
pub fn count_fault<'a>(vars: &Variables, place: &'a str, value: &'a GValue) -> Option<Refusal<'a>>
    ensures { told result ≡ count_fault vars.now place.now value.now }
{
    match value {
        GValue::Var(name) => match declared(vars, false, Kind::Int, name.as_str()) {
            Ok(slot) => refused_if(is_slot_below(0, slot), FaultKind::WrongType, place),
            Err(refusal) => Some(refusal),
        },
        _ => count_literal_fault(place, value),
    }
}

fn is_value_below(vars: &Variables, least: i32, value: &GValue) -> bool
    ensures { result ≡ is_below [] least (value_read vars.now Kind.Int value.now) }
{
    match value {
        GValue::Var(name) => match vars.named(name.as_str()) {
            Some(variable) => is_slot_below(least, &variable.value),
            None => false,
        },
        _ => match int_literal(value) {
            Some(number) => number < least,
            None => false,
        },
    }
}

/// The fault of the number of a stream's rows, an integer of 1 or more.
pub fn batch_fault<'a>(vars: &Variables, place: &'a str, value: &'a GValue) -> Option<Refusal<'a>>
    ensures { told result ≡ batch_fault vars.now place.now value.now }
{
    match single_fault(vars, place, Kind::Int, value) {
        Some(refusal) => Some(refusal),
        None => refused_if(is_value_below(vars, 1, value), FaultKind::WrongType, place),
    }
}
