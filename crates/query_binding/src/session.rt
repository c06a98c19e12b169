//! The values of the session's slots.

ghost use Rattle.std.specs.Prelude.{◌≡◌, Ok, Err, IfOk};
ghost use Rattle.role_model.specs.Texts.{value_of};
ghost use Rattle.scalar_val.specs.Spellings.{spelled};
ghost use Rattle.query_model.specs.declared.fault.QueryFault.{QueryFault};
ghost use Rattle.query_model.specs.Refusals.{refusal};
ghost use Rattle.query_model.specs.Admission.{slot_value, slots_given, spelled_value};

use query_model::{
    AdmitFault, FaultKind, QueryFault, SessionSlot, SessionSlotList, SessionValue, SessionValueList,
};
use role_model::Session;
use scalar_val::{ReadFault, Str, read_text};
use std::alloc::Global;

fn refused(kind: FaultKind, name: Str) -> AdmitFault
    ensures { result ≡ AdmitFault.Refused (refusal kind name) }
{
    AdmitFault::Refused(QueryFault { kind, at: 0, name })
}

fn spelled_value(alloc: Global, slot: SessionSlot, text: &str) -> Result<SessionValue, AdmitFault>
    ensures ok { IfOk result (λ value. spelled_value slot (spelled slot.kind text.now) ≡ Ok value) }
    ensures refused { (fault : QueryFault) → result ≡ Err (AdmitFault.Refused fault) →
        spelled_value slot (spelled slot.kind text.now) ≡ Err fault }
{
    match read_text(alloc, slot.kind, text) {
        Ok(value) => Ok(SessionValue { slot, value }),
        Err(ReadFault::BadValue) => Err(refused(FaultKind::BadSession, slot.name)),
        Err(ReadFault::NoMemory) => Err(AdmitFault::NoMemory),
    }
}

fn slot_value(
    alloc: Global,
    session: &Session,
    slot: SessionSlot,
) -> Result<SessionValue, AdmitFault>
    ensures ok { IfOk result (λ value. slot_value slot (value_of slot.name session.now.vars) ≡ Ok value) }
    ensures refused { (fault : QueryFault) → result ≡ Err (AdmitFault.Refused fault) →
        slot_value slot (value_of slot.name session.now.vars) ≡ Err fault }
{
    match session.vars.get(slot.name.as_str()) {
        Some(text) => spelled_value(alloc, slot, text.as_str()),
        None => Err(refused(FaultKind::MissingSession, slot.name)),
    }
}

/// The values that a session gives to slots, in their order. Refused is the first slot that is at fault, with its name:
/// `MissingSession` where the session doesn't have the variable, and `BadSession` where its text spells no value of the
/// slot's kind. `NoMemory` where memory is refused.
#[tactic(auto, using(crate::proofs::SessionRules::no_values_yet, crate::proofs::SessionRules::one_more_value))]
pub fn session_values(
    alloc: Global,
    session: &Session,
    slots: SessionSlotList,
) -> Result<SessionValueList, AdmitFault>
    ensures ok { IfOk result (λ values. slots_given session.now slots ≡ Ok values) }
    ensures refused { (fault : QueryFault) → result ≡ Err (AdmitFault.Refused fault) →
        slots_given session.now slots ≡ Err fault }
{
    let mut values = SessionValueList::new(alloc);
    for slot in slots.into_vec() {
        values.add(slot_value(alloc, session, slot)?)?;
    }
    Ok(values)
}
