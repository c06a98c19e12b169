ghost use Rattle.std.specs.Prelude.{◌≡◌, Option, Some, Ok, Err, IfOk};
ghost use Rattle.serde_json.specs.Data.{Members};
ghost use Rattle.serde_json.specs.View.{view};
ghost use Rattle.request_model.specs.Strings.{Text};
ghost use Rattle.request_model.specs.Selection.{given_values};
ghost use Rattle.request_model.specs.Place.{Reads};
ghost use Rattle.query_model.specs.Refusals.{refusal};
ghost use Rattle.query_model.specs.Admission.{kind_of_fault, syntax_at};
ghost use Rattle.query_model.specs.Selecting.{Selects};

use gql_ast::{Document, ParseFault, parse};
use gql_flat::{Flat, FlatFault, flatten};
use gql_lex::tokens;
use json_out::Request;
use query_model::{AdmitFault, FaultKind, QueryFault};
use scalar_val::{NoMemory, Str};
use std::alloc::Global;

/// A refusal that speaks of a name, which is copied.
pub fn refuse(alloc: Global, kind: FaultKind, name: &str) -> AdmitFault
    ensures { (fault : QueryFault) → result ≡ AdmitFault.Refused fault → fault ≡ refusal kind name.now }
{
    match Str::of(alloc, name) {
        Ok(name) => AdmitFault::Refused(QueryFault { kind, at: 0, name }),
        Err(NoMemory) => AdmitFault::NoMemory,
    }
}

fn syntax_fault(alloc: Global, at: usize) -> AdmitFault
    ensures { (fault : QueryFault) → result ≡ AdmitFault.Refused fault → fault ≡ syntax_at at }
{
    match Str::of(alloc, "") {
        Ok(name) => AdmitFault::Refused(QueryFault {
            kind: FaultKind::Syntax,
            at,
            name,
        }),
        Err(NoMemory) => AdmitFault::NoMemory,
    }
}

#[tactic(auto, using(crate::proofs::SelectRules::unread_so))]
fn document_of(alloc: Global, text: &str) -> Result<Document, AdmitFault>
    ensures ok { IfOk result (λ d. Reads text.now d) }
    ensures refused { (fault : QueryFault) → result ≡ Err (AdmitFault.Refused fault) →
        (operation : Option Text) (values : Members) → Selects text.now operation values (Err fault) }
{
    let Ok(run) = tokens(alloc, text) else {
        return Err(AdmitFault::NoMemory);
    };
    match parse(alloc, text, &run) {
        Ok(document) => Ok(document),
        Err(ParseFault::Syntax { at }) => Err(syntax_fault(alloc, at)),
        Err(ParseFault::NoMemory) => Err(AdmitFault::NoMemory),
    }
}

/// The kind of a refusal for what is wrong with an operation; none for want of memory.
fn kind_of(fault: FlatFault) -> Option<FaultKind>
    ensures { result ≡ kind_of_fault fault }
{
    match fault {
        FlatFault::NoOperation => Some(FaultKind::NoOperation),
        FlatFault::AmbiguousOperation => Some(FaultKind::AmbiguousOperation),
        FlatFault::NotServed => Some(FaultKind::NotServed),
        FlatFault::UnknownFragment => Some(FaultKind::UnknownFragment),
        FlatFault::FragmentCycle => Some(FaultKind::FragmentCycle),
        FlatFault::NoDirective => Some(FaultKind::NoDirective),
        FlatFault::NotBoolean => Some(FaultKind::NotBoolean),
        FlatFault::TooLarge => Some(FaultKind::TooLarge),
        FlatFault::Conflict => Some(FaultKind::Conflict),
        FlatFault::NoMemory => None,
    }
}

#[tactic(auto, using(crate::proofs::SelectRules::selected_so, crate::proofs::SelectRules::unselected_so))]
fn flat_of(alloc: Global, document: &Document, request: &Request) -> Result<Flat, AdmitFault>
    requires { Reads request.now.query document.now }
    ensures ok { IfOk result
        (λ s. Selects request.now.query request.now.operation (given_values (view request.now.variables)) (Ok s)) }
    ensures refused { (fault : QueryFault) → result ≡ Err (AdmitFault.Refused fault) →
        Selects request.now.query request.now.operation (given_values (view request.now.variables)) (Err fault) }
{
    match flatten(alloc, document, request) {
        Ok(flat) => Ok(flat),
        Err(fault) => match kind_of(fault) {
            Some(kind) => Err(refuse(alloc, kind, "")),
            None => Err(AdmitFault::NoMemory),
        },
    }
}

/// The first half of admission: the text is read and the fields of the operation that is wanted are collected. It knows
/// no metadata and no session. The selection, or the first fault of these: `Syntax` to `Conflict` in the order of
/// `FaultKind`. `NoMemory` where memory is refused.
pub fn select(alloc: Global, request: &Request) -> Result<Flat, AdmitFault>
    ensures ok { IfOk result
        (λ s. Selects request.now.query request.now.operation (given_values (view request.now.variables)) (Ok s)) }
    ensures refused { (fault : QueryFault) → result ≡ Err (AdmitFault.Refused fault) →
        Selects request.now.query request.now.operation (given_values (view request.now.variables)) (Err fault) }
{
    let document = document_of(alloc, request.query.as_str())?;
    flat_of(alloc, &document, request)
}
