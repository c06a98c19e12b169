//! Bindings.

ghost use Rattle.std.specs.Prelude.{◌≡◌, map, IfOk};
ghost use Rattle.query_model.specs.Variables.{variable_slot};
ghost use Rattle.query_model.specs.declared.session.SessionValue.{SessionValue};

use name_set::NameSet;
use plan_core::copy_slot;
use plan_model::{Binding, Slot, SlotList, ValList};
use query_model::SessionValue;
use scalar_val::{NoMemory, Str, Val, copy_val};
use std::alloc::Global;
use variable_values::Variables;

fn variable_slot(alloc: Global, vars: &Variables, name: &str) -> Result<Slot, NoMemory>
    ensures { IfOk result (λ slot. slot ≡ variable_slot vars.now name.now) }
{
    match vars.named(name) {
        Some(variable) => copy_slot(alloc, &variable.value),
        None => Ok(Slot::One(Val::Null)),
    }
}

fn variable_slots(alloc: Global, vars: &Variables, names: &[Str]) -> Result<SlotList, NoMemory>
    ensures { IfOk result (λ slots. slots ≡ map (variable_slot vars.now) names.now) }
{
    let mut slots = SlotList::new(alloc);
    for name in names {
        slots.add(variable_slot(alloc, vars, name.as_str())?)?;
    }
    Ok(slots)
}

fn values_of(alloc: Global, session: &[SessionValue]) -> Result<ValList, NoMemory>
    ensures { IfOk result (λ values. values ≡ map (λ (s : SessionValue). s.value) session.now) }
{
    let mut values = ValList::new(alloc);
    for slot in session {
        values.add(copy_val(alloc, &slot.value)?)?;
    }
    Ok(values)
}

/// What a plan is run with: copies of the values of the variables of these names, in their order, null where there is
/// no such variable; copies of the values of the session's slots, in their order; and the cursor, which is moved.
/// `NoMemory` where memory is refused.
pub fn bind(
    alloc: Global,
    vars: &Variables,
    names: &NameSet,
    session: &[SessionValue],
    cursor: Val,
) -> Result<Binding, NoMemory>
    ensures { IfOk result (λ b. b ≡ record {
      vars = map (variable_slot vars.now) names.now;
      session = map (λ (s : SessionValue). s.value) session.now;
      cursor = cursor;
    }) }
{
    let vars = variable_slots(alloc, vars, names.names())?;
    let session = values_of(alloc, session)?;
    Ok(Binding {
        vars,
        session,
        cursor,
    })
}
