//! The second half of admission, and the whole.

ghost use Rattle.std.specs.Prelude.{◌≡◌, ◌≤◌, [], None, Some, Ok, Err, IfOk, length, map};
ghost use Rattle.std.specs.Option.{option_copied};
ghost use Rattle.serde_json.specs.View.{view};
ghost use Rattle.role_model.specs.Roles.{View};
ghost use Rattle.role_model.specs.declared.metadata.Metadata.{Metadata};
ghost use Rattle.request_model.specs.Selection.{given_values};
ghost use Rattle.plan_model.specs.PlanFits.{PlanFits};
ghost use Rattle.plan_model.specs.BindingFits.{BindingFits};
ghost use Rattle.query_model.specs.declared.fault.FaultKind.TheVariants as fault;
ghost use Rattle.request_model.specs.Canonical.{canonical};
ghost use Rattle.request_model.specs.declared.flat.FlatField.TheViews.{out-FlatField};
ghost use Rattle.query_model.specs.Queries.{kind_by, root_of, selection_slots, text_variables};
ghost use Rattle.query_model.specs.Variables.{variable_slot};
ghost use Rattle.query_model.specs.Plans.{plan_of};
ghost use Rattle.query_model.specs.Refusals.{refusal};
ghost use Rattle.query_model.specs.Walk.{walk_fault};
ghost use Rattle.query_model.specs.Admission as query;
ghost use Rattle.query_model.specs.Admission.{
  Admits,
  admitted,
  initial_cursor,
  one_root,
  query_with,
  role_view,
  slots_given,
  variables_of,
};
ghost use Rattle.role_fields.specs.Said.{root_said};
ghost use Rattle.plan_build.specs.Made.{IsSelected, IsMade, IsRun};

use crate::selecting::{refuse, select};
use admission_bounds::{few_slots, few_variables};
use admission_laws::{plans, requests};
use gql_flat::{Flat, FlatField, canon};
use json_out::Request;
use name_set::NameSet;
use plan_model::{Binding, Plan};
use query_binding::{bind, initial_cursor, session_values, text_variables};
use query_model::{
    AdmitFault, FaultKind, QueryFault, SessionSlotList, SessionValue, SessionValueList, SubKind,
};
use request_model::canonical_texts;
use result_laws::results;
use role_fields::{Root, root};
use role_model::Session;
use role_schema::{Meta, RoleView};
use scalar_val::{NoMemory, Str, Word};
use selection_check::walk_fault;
use selection_plan::{plan_of, selection_slots};
use serde_json::Value;
use std::alloc::Global;
use variable_values::{Variables, read_variables};

/// A request that is admitted: what becomes of it, the plan that is run for it, its canonical text, and the binding that
/// the plan is run with, whose cursor is a stream's initial one, and else null. Requests of one word, role and canonical
/// text have one plan.
#[derive(Debug, Drop)]
pub struct Admitted {
    pub kind: SubKind,
    pub plan: Plan,
    pub canon: Str,
    pub binding: Binding,
}

fn only_field(fields: &[FlatField]) -> Option<&FlatField>
    ensures one { (f : FlatField) → option_copied result ≡ Some f → one_root fields.now ≡ Ok f }
    ensures none { option_copied result ≡ None → one_root fields.now ≡ Err (refusal fault.NotOneRoot []) }
{
    match fields {
        [field] => Some(field),
        _ => None,
    }
}

fn kind_of(word: Word, root: Root) -> SubKind
    ensures { result ≡ kind_by word (root_said root) }
{
    match (word, root) {
        (Word::Query, _) => SubKind::Once,
        (Word::Subscription, Root::StreamOf(_)) => SubKind::Stream,
        (Word::Subscription, _) => SubKind::Live,
    }
}

/// The field of the root and the variables of a selection in which the walk found no fault.
#[derive(Drop)]
struct Walked<'a> {
    field: &'a FlatField,
    vars: Variables,
}

#[tactic(auto, using(crate::proofs::AdmitRules::not_one_root, crate::proofs::AdmitRules::bad_variable, crate::proofs::AdmitRules::bad_field))]
fn walk<'a>(
    alloc: Global,
    seen: &RoleView<'a>,
    values: &Value,
    flat: &'a Flat,
) -> Result<Walked<'a>, AdmitFault>
    ensures root { IfOk result (λ p. one_root flat.now.fields ≡ Ok p.field.now) }
    ensures vars { IfOk result (λ p. variables_of (given_values (view values.now)) flat.now.vars ≡ Ok p.vars) }
    ensures walk { IfOk result (λ p. walk_fault p.vars seen.now flat.now p.field.now ≡ None) }
    ensures refused { (fault : QueryFault) → result ≡ Err (AdmitFault.Refused fault) →
        (m : Metadata) (session : Session) → seen.now ≡ role_view m session (given_values (view values.now)) flat.now →
        admitted m session (given_values (view values.now)) flat.now ≡ Err fault }
{
    let Some(field) = only_field(flat.fields.as_slice()) else {
        return Err(refuse(alloc, FaultKind::NotOneRoot, ""));
    };
    let vars = read_variables(alloc, flat.vars.as_slice(), values)?;
    if let Some(refusal) = walk_fault(&vars, seen, flat, field) {
        return Err(refuse(alloc, refusal.kind, refusal.name));
    }
    Ok(Walked { field, vars })
}

/// The variables that stand in the text of a selection, the session variables that it needs, and its plan.
#[derive(Drop)]
struct Parts {
    names: NameSet,
    slots: SessionSlotList,
    plan: Option<Plan>,
}

fn parts_of(alloc: Global, seen: &RoleView<'_>, flat: &Flat) -> Result<Parts, NoMemory>
    requires few { length (text_variables flat.now) ≤ 4294967296 }
    requires slots { length (selection_slots seen.now flat.now) ≤ 4294967296 }
    ensures names { IfOk result (λ parts. parts.names ≡ text_variables flat.now) }
    ensures slots { IfOk result (λ parts. parts.slots ≡ selection_slots seen.now flat.now) }
    ensures plan { IfOk result (λ parts. parts.plan ≡ plan_of seen.now flat.now) }
{
    let names = text_variables(alloc, flat)?;
    let slots = selection_slots(alloc, seen, flat)?;
    let plan = plan_of(alloc, seen, &names, slots.as_slice(), flat)?;
    Ok(Parts { names, slots, plan })
}

/// What is made of a selection that is admitted with these variables and session variables.
fn assembled(
    alloc: Global,
    seen: &RoleView<'_>,
    flat: &Flat,
    walked: &Walked<'_>,
    names: &NameSet,
    given: &SessionValueList,
    plan: Plan,
) -> Result<Admitted, NoMemory>
    requires { names.now ≡ text_variables flat.now }
    ensures kind { IfOk result (λ made. made.kind
        ≡ kind_by flat.now.kind (root_of seen.now flat.now.kind walked.now.field.now)) }
    ensures plan { IfOk result (λ made. made.plan ≡ plan) }
    ensures canon { IfOk result (λ made. made.canon ≡ canonical flat.now) }
    ensures binding { IfOk result (λ made. made.binding ≡ record {
      vars = map (variable_slot walked.now.vars) (text_variables flat.now);
      session = map (λ (s : SessionValue). s.value) given.now;
      cursor = initial_cursor walked.now.vars seen.now (root_of seen.now flat.now.kind walked.now.field.now)
          (out-FlatField walked.now.field.now).args;
    }) }
{
    let field = walked.field;
    let kind = kind_of(flat.kind, root(seen, flat.kind, field.name.as_str()));
    let cursor = initial_cursor(alloc, &walked.vars, seen, flat.kind, field)?;
    let binding = bind(alloc, &walked.vars, names, given.as_slice(), cursor)?;
    let canon = canon(alloc, flat)?;
    Ok(Admitted {
        kind,
        plan,
        canon,
        binding,
    })
}

/// A selection, and the metadata, the session and the values of variables that it is asked for with.
#[derive(Clone, Copy)]
struct Asked<'a> {
    meta: &'a Meta,
    session: &'a Session,
    values: &'a Value,
    flat: &'a Flat,
}

/// The plan of a selection that is admitted, which is there.
#[tactic(auto, using(crate::proofs::AdmitRules::admitted_with))]
fn plan_in(
    asked: &Asked<'_>,
    walked: &Walked<'_>,
    given: &SessionValueList,
    plan: Option<Plan>,
) -> Plan
    requires selected { IsSelected asked.now.flat.now }
    requires root { one_root asked.now.flat.now.fields ≡ Ok walked.now.field.now }
    requires vars { variables_of (given_values (view asked.now.values.now)) asked.now.flat.now.vars ≡ Ok walked.now.vars }
    requires walk { walk_fault walked.now.vars
        (role_view asked.now.meta.now asked.now.session.now (given_values (view asked.now.values.now)) asked.now.flat.now)
        asked.now.flat.now walked.now.field.now ≡ None }
    requires given { slots_given asked.now.session.now (selection_slots
        (role_view asked.now.meta.now asked.now.session.now (given_values (view asked.now.values.now)) asked.now.flat.now)
        asked.now.flat.now) ≡ Ok given.now }
    requires plan { plan ≡ plan_of
        (role_view asked.now.meta.now asked.now.session.now (given_values (view asked.now.values.now)) asked.now.flat.now)
        asked.now.flat.now }
    ensures admitted { admitted asked.now.meta.now asked.now.session.now (given_values (view asked.now.values.now)) asked.now.flat.now
        ≡ Ok (query_with asked.now.meta.now asked.now.session.now (given_values (view asked.now.values.now))
        asked.now.flat.now walked.now.field.now walked.now.vars given.now) }
    ensures plan { plan_of (role_view asked.now.meta.now asked.now.session.now (given_values (view asked.now.values.now)) asked.now.flat.now)
        asked.now.flat.now ≡ Some result }
{
    plans();
    canonical_texts();
    asked.meta.is_metadata();
    match plan {
        Some(plan) => plan,
        None => unreachable!(),
    }
}

/// What is made of a selection that is admitted stands for its query.
fn finished(
    alloc: Global,
    asked: &Asked<'_>,
    seen: &RoleView<'_>,
    walked: &Walked<'_>,
    names: &NameSet,
    given: &SessionValueList,
    plan: Plan,
) -> Result<Admitted, NoMemory>
    requires seen { seen.now
        ≡ role_view asked.now.meta.now asked.now.session.now (given_values (view asked.now.values.now)) asked.now.flat.now }
    requires names { names.now ≡ text_variables asked.now.flat.now }
    requires admitted { admitted asked.now.meta.now asked.now.session.now (given_values (view asked.now.values.now)) asked.now.flat.now
        ≡ Ok (query_with asked.now.meta.now asked.now.session.now (given_values (view asked.now.values.now))
        asked.now.flat.now walked.now.field.now walked.now.vars given.now) }
    requires plan { plan_of (role_view asked.now.meta.now asked.now.session.now (given_values (view asked.now.values.now)) asked.now.flat.now)
        asked.now.flat.now ≡ Some plan }
    ensures { IfOk result (λ made. (a : query.Admitted)
        × (admitted asked.now.meta.now asked.now.session.now (given_values (view asked.now.values.now)) asked.now.flat.now ≡ Ok a)
        × IsMade asked.now.meta.now a made) }
{
    assembled(alloc, seen, asked.flat, walked, names, given, plan)
}

/// The second half of admission: a selection of some request's text, for the metadata, the session and the values of the
/// variables, which are none where `values` is no JSON object.
///
/// Refused is the first of these that holds: `NotOneRoot`; the first fault of the variables in order of declaration,
/// `MissingVariable` or `WrongType`; the first fault of the walk over the fields; `MissingSession` or `BadSession` of the
/// first session variable, in order, that the role's filters name on the tables of the selection. `NoMemory` where memory
/// is refused.
#[tactic(auto, using(crate::proofs::BoundRules::names_few))]
pub fn admit_selected(
    alloc: Global,
    meta: &Meta,
    session: &Session,
    values: &Value,
    flat: &Flat,
) -> Result<Admitted, AdmitFault>
    requires { IsSelected flat.now }
    ensures ok { IfOk result (λ made. (a : query.Admitted)
        × (admitted meta.now session.now (given_values (view values.now)) flat.now ≡ Ok a) × IsMade meta.now a made) }
    ensures refused { (fault : QueryFault) → result ≡ Err (AdmitFault.Refused fault) →
        admitted meta.now session.now (given_values (view values.now)) flat.now ≡ Err fault }
{
    let seen = meta.view(session.role.as_str());
    let walked = walk(alloc, &seen, values, flat)?;
    few_variables();
    few_slots();
    meta.is_metadata();
    let Parts { names, slots, plan } = parts_of(alloc, &seen, flat)?;
    let given = session_values(alloc, session, slots)?;
    let asked = Asked {
        meta,
        session,
        values,
        flat,
    };
    let plan = plan_in(&asked, &walked, &given, plan);
    Ok(finished(alloc, &asked, &seen, &walked, &names, &given, plan)?)
}

/// What a request comes to: what is run for it, or its first fault. The faults of reading its text come first, those of
/// `select`, and then those of `admit_selected`, in the order of `FaultKind`, but that the faults of the walk, from
/// `NoField` to `BadCursor`, and with them `MissingVariable` and `WrongType`, also come in the order of their places.
/// `NoMemory` where memory is refused.
///
/// The plan fits the metadata's catalog and the binding fits the plan, with the query's own cursor and with any other in
/// its place; and on each database that fits the catalog they give the query's own result.
#[tactic(auto, using(crate::proofs::RunRules::refused_so))]
pub fn admit(
    alloc: Global,
    meta: &Meta,
    session: &Session,
    request: &Request,
) -> Result<Admitted, AdmitFault>
    ensures ok { IfOk result (λ made. (a : query.Admitted)
        × Admits meta.now session.now request.now.query request.now.operation
        (given_values (view request.now.variables)) (Ok a) × IsMade meta.now a made) }
    ensures run { (a : query.Admitted) → Admits meta.now session.now request.now.query request.now.operation
        (given_values (view request.now.variables)) (Ok a) → IfOk result (λ made. IsRun meta.now a made.plan) }
    ensures fits { IfOk result
        (λ made. PlanFits meta.now.catalog made.plan × BindingFits made.plan made.binding) }
    ensures refused { (fault : QueryFault) → result ≡ Err (AdmitFault.Refused fault) →
        Admits meta.now session.now request.now.query request.now.operation
        (given_values (view request.now.variables)) (Err fault) }
{
    requests();
    plans();
    results();
    canonical_texts();
    meta.is_metadata();
    let flat = select(alloc, request)?;
    admit_selected(alloc, meta, session, &request.variables, &flat)
}
