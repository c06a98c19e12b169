//! From a document to the flat selection of an operation.

ghost use Rattle.std.specs.Prelude.{◌≡◌, ◌≢◌, ◌⊎◌, ◌↔◌, ◌||◌, Some, None, Err, map, false, IfOk, IsTrue, MatchResult};
ghost use Rattle.std.specs.List.{list_any, filter_map};
ghost use Rattle.std.specs.Option.{option_copied};
ghost use Rattle.std.specs.Str.{bytes_eq};
ghost use Rattle.serde_json.specs.View.{view};
ghost use Rattle.request_model.specs.Selection as spec;
ghost use Rattle.gql_flat.specs.Fields.{FailsSo};
ghost use Rattle.request_model.specs.Selection.{given_values};
ghost use Rattle.gql_flat.specs.Whole.{IsWhole, OperationFlattens};

use crate::collecting::{collected, conditions_of, groups_of};
use crate::copies::copy_variables;
use crate::fields::{Tally, copy_texts, fields};
use gql_scope::{
    Fragment, Fragments, Operation, Scope, chosen, first_refusal, fragments_of, operations_of,
    repeats,
};
use json_out::Request;
use request_model::{Document, Flat, FlatFault, FlatFieldList, OpWord, StrList, VarDef, Word};
use scalar_val::{NoMemory, Str};
use serde_json::Value;
use std::alloc::Global;

/// A field stands at most at this level; those of the operation itself are at level 1.
const MOST_LEVELS: usize = 12;

fn served(word: OpWord) -> Option<Word>
    ensures { result ≡ spec.served word }
{
    match word {
        OpWord::Query => Some(Word::Query),
        OpWord::Subscription => Some(Word::Subscription),
        OpWord::Mutation => None,
    }
}

fn served_word(operation: &Operation<'_>) -> Option<Word>
    ensures { result ≡ spec.served operation.now.word }
{
    served(operation.word)
}

fn operation_names<'a>(
    alloc: Global,
    operations: &[Operation<'a>],
) -> Result<Vec<&'a Str>, NoMemory>
    ensures { IfOk result (λ names. map (λ n. n.now) names.items
        ≡ filter_map (λ (o : spec.Operation). o.name) operations.now) }
{
    let mut names = Vec::new(alloc);
    for operation in operations {
        if let Some(name) = operation.name {
            names.push(name)?;
        }
    }
    Ok(names)
}

fn fragment_names<'a>(alloc: Global, fragments: &[Fragment<'a>]) -> Result<Vec<&'a Str>, NoMemory>
    ensures { IfOk result (λ names. map (λ n. n.now) names.items ≡ map (λ (f : spec.Fragment). f.name) fragments.now) }
{
    let mut names = Vec::new(alloc);
    for fragment in fragments {
        names.push(fragment.name)?;
    }
    Ok(names)
}

fn variable_names(alloc: Global, variables: &[VarDef]) -> Result<Vec<&Str>, NoMemory>
    ensures { IfOk result (λ names. map (λ n. n.now) names.items ≡ map (λ (v : VarDef). v.name) variables.now) }
{
    let mut names = Vec::new(alloc);
    for variable in variables {
        names.push(&variable.name)?;
    }
    Ok(names)
}

/// Whether two operations, two fragments or two variables share a name.
fn shares_name(
    alloc: Global,
    operations: &[Operation<'_>],
    scope: &Scope<'_>,
) -> Result<bool, NoMemory>
    ensures { IfOk result (λ shares. shares ≡ (spec.repeats (filter_map (λ (o : spec.Operation). o.name) operations.now)
        || spec.repeats (map (λ (f : spec.Fragment). f.name) scope.now.fragments)
        || spec.repeats (map (λ (v : VarDef). v.name) scope.now.vars))) }
{
    let operation_names = operation_names(alloc, operations)?;
    let fragment_names = fragment_names(alloc, scope.fragments.as_slice())?;
    let variable_names = variable_names(alloc, scope.vars())?;
    let operations_share = repeats(alloc, operation_names.as_slice())?;
    let fragments_share = repeats(alloc, fragment_names.as_slice())?;
    let variables_share = repeats(alloc, variable_names.as_slice())?;
    Ok(operations_share || fragments_share || variables_share)
}

/// What an operation selects: the type conditions and the fields of its selection set, and whether two fields of one
/// key differ in some object.
#[derive(Drop)]
pub struct Whole {
    pub conditions: StrList,
    pub fields: FlatFieldList,
    pub conflict: bool,
}

fn collect_whole<'a>(
    alloc: Global,
    scope: &Scope<'a>,
    operation: &Operation<'a>,
) -> Result<Whole, FlatFault>
    ensures { MatchResult result (λ whole. IsWhole scope.now operation.now.select whole)
        (λ e. FailsSo e (IsTrue (spec.is_large (spec.fields_seen scope.now operation.now.select)))) }
{
    let Ok(root) = collected(alloc, scope, operation.select) else {
        return Err(FlatFault::NoMemory);
    };
    let mut tally = Tally {
        fields: 0,
        conflict: false,
    };
    let fields = match fields(alloc, scope, MOST_LEVELS, groups_of(&root), &mut tally) {
        Ok(fields) => fields,
        Err(fault) => return Err(fault),
    };
    match copy_texts(alloc, conditions_of(&root)) {
        Ok(conditions) => Ok(Whole {
            conditions,
            fields,
            conflict: tally.conflict,
        }),
        Err(_) => Err(FlatFault::NoMemory),
    }
}

/// What decides the conditions and the spreads of an operation.
fn scope_for<'a>(
    alloc: Global,
    document: &'a Document,
    operation: &Operation<'a>,
    variables: &'a Value,
) -> Result<Scope<'a>, NoMemory>
    ensures { IfOk result (λ scope. scope ≡ spec.scope document.now (given_values (view variables.now)) operation.now) }
{
    let fragments = Fragments::of(alloc, fragments_of(alloc, document)?)?;
    Scope::of(alloc, fragments, operation.vars, variables)
}

fn flat_of(
    alloc: Global,
    kind: Word,
    operation: &Operation<'_>,
    whole: Whole,
) -> Result<Flat, NoMemory>
    ensures { IfOk result
        (λ flat. flat
        ≡ record { kind = kind; vars = operation.now.vars; conditions = whole.conditions; fields = whole.fields }) }
{
    let vars = copy_variables(alloc, operation.vars)?;
    Ok(Flat {
        kind,
        vars,
        conditions: whole.conditions,
        fields: whole.fields,
    })
}

fn flatten_operation<'a>(
    alloc: Global,
    document: &'a Document,
    operations: &[Operation<'a>],
    operation: &Operation<'a>,
    variables: &'a Value,
) -> Result<Flat, FlatFault>
    requires { operations.now ≡ spec.operations document.now }
    ensures { OperationFlattens document.now (given_values (view variables.now)) operation.now result }
{
    let Some(kind) = served_word(operation) else {
        return Err(FlatFault::NotServed);
    };
    let Ok(scope) = scope_for(alloc, document, operation, variables) else {
        return Err(FlatFault::NoMemory);
    };
    let refusal = match first_refusal(alloc, &scope, operation) {
        Ok(refusal) => refusal,
        Err(_) => return Err(FlatFault::NoMemory),
    };
    if let Some(fault) = refusal {
        return Err(fault);
    }
    let whole = match collect_whole(alloc, &scope, operation) {
        Ok(whole) => whole,
        Err(fault) => return Err(fault),
    };
    let shared = match shares_name(alloc, operations, &scope) {
        Ok(shared) => shared,
        Err(_) => return Err(FlatFault::NoMemory),
    };
    if whole.conflict {
        return Err(FlatFault::Conflict);
    }
    if shared {
        return Err(FlatFault::Conflict);
    }
    match flat_of(alloc, kind, operation, whole) {
        Ok(flat) => Ok(flat),
        Err(_) => Err(FlatFault::NoMemory),
    }
}

/// The flat selection of the operation that a request wants of its document: the operation's fields as GraphQL October
/// 2021, section 6.3.2, collects them, with those of one response key merged as in section 6.4.3.
///
/// The answer is the first of these faults that holds, or else the selection. `NoOperation`: there is no operation,
/// or none of the wanted name. `AmbiguousOperation`: no name is wanted, and there are several operations.
/// `NotServed`: the operation is a mutation. `UnknownFragment`: a spread in the operation or in a fragment that it
/// reaches names no fragment. `FragmentCycle`: a fragment that it reaches reaches itself. `NoDirective`: a directive
/// other than `skip` and `include` stands there, or one on the definition of the operation, of a variable of it or of
/// a fragment that it reaches. `NotBoolean`: such a directive hasn't exactly one argument `if` with a boolean
/// literal, or with a declared variable whose value is a boolean. `TooLarge`: a field is at level 13, or there are
/// more than 4,096. `Conflict`: two operations, two fragments or two variables of the operation share a name, or two
/// fields of one response key in one object differ in name or in arguments ordered by name.
///
/// `NoMemory` comes only when out of memory. Collection stops at the first field that is too many or too deep, and an
/// object visits each selection of the document at most once.
pub fn flatten(alloc: Global, document: &Document, request: &Request) -> Result<Flat, FlatFault>
    ensures { result ≢ Err FlatFault.NoMemory →
        spec.Flattens document.now request.now.operation (given_values (view request.now.variables)) result }
{
    let Ok(operations) = operations_of(alloc, document) else {
        return Err(FlatFault::NoMemory);
    };
    let operation = match chosen(operations.as_slice(), request.operation.as_ref()) {
        Ok(operation) => operation,
        Err(fault) => return Err(fault),
    };
    flatten_operation(
        alloc,
        document,
        operations.as_slice(),
        operation,
        &request.variables,
    )
}
