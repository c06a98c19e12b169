//! What refuses an operation before its fields are collected.

ghost use Rattle.std.specs.Prelude.{◌≡◌, ◌↔◌, length, IfOk, IsTrue, MatchOption};
ghost use Rattle.std.specs.List.{AllByRecursion};
ghost use Rattle.request_model.specs.Selection as spec;
ghost use Rattle.gql_scope.specs.declared.walks.Check.TheVariants as check;
ghost use Rattle.gql_scope.specs.Refusals.{InReachFails, HasStray, HasFragmentCycle, Refuses, refusals};
ghost use Rattle.gql_scope.specs.Walks.{edges_of, AreReached};

use crate::graph::{has_cycle, reached};
use crate::operation::Operation;
use crate::scope::Scope;
use crate::walks::{Check, edges_of, reach_fails, targets_of, vars_have_directives};
use request_model::FlatFault;
use scalar_val::{List, NoMemory};
use std::alloc::Global;

/// Which fragments spread which, by their places, and which of them the operation reaches.
#[derive(Drop)]
pub struct Reach {
    pub edges: Vec<List<usize>>,
    pub marks: Vec<bool>,
}

fn reach_of(alloc: Global, scope: &Scope<'_>, operation: &Operation<'_>) -> Result<Reach, NoMemory>
    ensures edges { IfOk result (λ reach. reach.edges.items ≡ edges_of scope.now.fragments) }
    ensures len { IfOk result (λ reach. length reach.marks.items ≡ length scope.now.fragments) }
    ensures marks { IfOk result (λ reach. AreReached scope.now.fragments operation.now.select reach.marks.items) }
{
    let fragments = &scope.fragments;
    let edges = edges_of(alloc, fragments)?;
    let start = targets_of(alloc, fragments, operation.select)?;
    let marks = reached(alloc, edges.as_slice(), start.as_slice())?;
    Ok(Reach { edges, marks })
}

fn in_reach(
    alloc: Global,
    scope: &Scope<'_>,
    check: Check,
    operation: &Operation<'_>,
    marks: &[bool],
) -> Result<bool, NoMemory>
    requires len { length marks.now ≡ length scope.now.fragments }
    requires marks { AreReached scope.now.fragments operation.now.select marks.now }
    ensures { IfOk result (λ found. IsTrue found ↔ InReachFails check scope.now operation.now) }
{
    reach_fails(alloc, scope, check, operation, marks)
}

fn has_fragment_cycle(
    alloc: Global,
    scope: &Scope<'_>,
    operation: &Operation<'_>,
    reach: &Reach,
) -> Result<bool, NoMemory>
    requires edges { reach.now.edges.items ≡ edges_of scope.now.fragments }
    requires len { length reach.now.marks.items ≡ length scope.now.fragments }
    requires marks { AreReached scope.now.fragments operation.now.select reach.now.marks.items }
    ensures { IfOk result (λ found. IsTrue found ↔ HasFragmentCycle scope.now operation.now) }
{
    has_cycle(alloc, reach.edges.as_slice(), reach.marks.as_slice())
}

fn has_stray(
    alloc: Global,
    scope: &Scope<'_>,
    operation: &Operation<'_>,
    marks: &[bool],
) -> Result<bool, NoMemory>
    requires len { length marks.now ≡ length scope.now.fragments }
    requires marks { AreReached scope.now.fragments operation.now.select marks.now }
    ensures { IfOk result (λ found. IsTrue found ↔ HasStray scope.now operation.now) }
{
    let on_variables = vars_have_directives(operation.vars);
    let elsewhere = in_reach(alloc, scope, Check::Served, operation, marks)?;
    Ok(on_variables || elsewhere)
}

/// The first of these faults that holds: an unknown fragment, a cycle of fragments, a directive that isn't served, one
/// without a boolean.
pub fn first_refusal(
    alloc: Global,
    scope: &Scope<'_>,
    operation: &Operation<'_>,
) -> Result<Option<FlatFault>, NoMemory>
    ensures { IfOk result (λ found. MatchOption found
        (AllByRecursion (λ x. Refuses scope.now operation.now x → ⊥) refusals)
        (spec.IsFirst (Refuses scope.now operation.now) refusals)) }
{
    let reach = reach_of(alloc, scope, operation)?;
    let marks = reach.marks.as_slice();
    let unknown = in_reach(alloc, scope, Check::Fragments, operation, marks)?;
    if unknown {
        return Ok(Some(FlatFault::UnknownFragment));
    }
    let cycle = has_fragment_cycle(alloc, scope, operation, &reach)?;
    if cycle {
        return Ok(Some(FlatFault::FragmentCycle));
    }
    let stray = has_stray(alloc, scope, operation, marks)?;
    if stray {
        return Ok(Some(FlatFault::NoDirective));
    }
    let bare = in_reach(alloc, scope, Check::Booleans, operation, marks)?;
    if bare {
        return Ok(Some(FlatFault::NotBoolean));
    }
    Ok(None)
}
