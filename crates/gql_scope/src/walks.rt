//! What refuses an operation before its fields are collected: unknown fragments, cycles of fragments, and directives.

ghost use Rattle.std.specs.Prelude.{
  ◌≡◌,
  ◌++◌,
  ◌||◌,
  ◌&&◌,
  not,
  OnOk,
  ◌∷◌,
  [],
  ℕ,
  length,
  map,
  filter,
  nat_lt,
  IfOk,
  MatchResult,
  IsTrue,
  is_none,
};
ghost use Rattle.std.specs.List.{list_any};
ghost use Rattle.request_model.specs.Selection as spec;
ghost use Rattle.gql_scope.specs.Walks.{place_of, targets_of, edges_of, fails, some_marked_fails};

use crate::fragments::Fragments;
use crate::operation::{Fragment, Operation};
use crate::scope::{Scope, is_include, is_skip};
use crate::spreads::{put_directives, put_spreads};
use request_model::{Directive, FlatFault, Selection, VarDef};
use scalar_val::{List, NoMemory, Str};
use std::alloc::Global;

/// What is looked for in the operation and in each fragment that it reaches.
#[derive(Clone, Copy)]
pub enum Check {
    /// A spread names no fragment.
    Fragments,
    /// A directive isn't served, or stands on the definition.
    Served,
    /// A directive that is served hasn't a boolean.
    Booleans,
}

/// The places of the fragments that are spread.
pub fn targets_of(
    alloc: Global,
    fragments: &Fragments<'_>,
    set: &[Selection],
) -> Result<List<usize>, NoMemory>
    ensures { IfOk result (λ targets. targets ≡ targets_of fragments.now set.now) }
{
    let mut names = Vec::new(alloc);
    put_spreads(set, &mut names)?;
    places_of(alloc, fragments, names.as_slice())
}

fn places_of(
    alloc: Global,
    fragments: &Fragments<'_>,
    names: &[&Str],
) -> Result<List<usize>, NoMemory>
    ensures { IfOk result (λ places. places ≡ filter (λ k. nat_lt k (length fragments.now))
        (map (place_of fragments.now) (map (λ n. n.now) names.now))) }
{
    let mut places = List::new(alloc);
    for name in names {
        add_known(
            &mut places,
            fragments.place_or_count(name.as_str()),
            fragments.count(),
        )?;
    }
    Ok(places)
}

fn add_known(places: &mut List<usize>, place: usize, count: usize) -> Result<(), NoMemory>
    ensures { OnOk result (places.new ≡ places.old ++ filter (λ k. nat_lt k count) (place ∷ [])) }
{
    if place >= count {
        return Ok(());
    }
    places.add(place)
}

pub fn edges_of(alloc: Global, fragments: &Fragments<'_>) -> Result<Vec<List<usize>>, NoMemory>
    ensures { IfOk result (λ edges. edges.items ≡ edges_of fragments.now) }
{
    let mut edges = Vec::new(alloc);
    for fragment in fragments.as_slice() {
        edges.push(targets_of(alloc, fragments, fragment.select)?)?;
    }
    Ok(edges)
}

fn some_unknown(scope: &Scope<'_>, names: &[&Str]) -> bool
    ensures { result ≡ list_any (λ name. is_none (spec.fragment_named scope.now.fragments name))
        (map (λ n. n.now) names.now) }
{
    for name in names {
        if scope.fragment(name.as_str()).is_none() {
            return true;
        }
    }
    false
}

fn some_stray(directives: &[&Directive]) -> bool
    ensures { result ≡ list_any (λ x. not (spec.is_served x)) (map (λ n. n.now) directives.now) }
{
    for directive in directives {
        if !is_served(directive) {
            return true;
        }
    }
    false
}

fn has_boolean(scope: &Scope<'_>, directive: &Directive) -> bool
    ensures { not result ≡ (spec.is_served directive.now && is_none (spec.condition scope.now directive.now)) }
{
    !is_served(directive) || scope.condition(directive).is_some()
}

fn some_without_boolean(scope: &Scope<'_>, directives: &[&Directive]) -> bool
    ensures { result ≡ list_any (λ x. spec.is_served x && is_none (spec.condition scope.now x))
        (map (λ n. n.now) directives.now) }
{
    for directive in directives {
        if !has_boolean(scope, directive) {
            return true;
        }
    }
    false
}

fn is_served(directive: &Directive) -> bool
    ensures { result ≡ spec.is_served directive.now }
{
    is_skip(directive) || is_include(directive)
}

/// Whether the check refuses a definition with these directives and selections.
fn fails(
    alloc: Global,
    scope: &Scope<'_>,
    check: Check,
    directives: &[Directive],
    set: &[Selection],
) -> Result<bool, NoMemory>
    ensures { IfOk result (λ failed. failed ≡ fails check scope.now directives.now set.now) }
{
    match check {
        Check::Fragments => {
            let mut names = Vec::new(alloc);
            put_spreads(set, &mut names)?;
            Ok(some_unknown(scope, names.as_slice()))
        }
        Check::Served => {
            let mut found = Vec::new(alloc);
            put_directives(set, &mut found)?;
            Ok(!directives.is_empty() || some_stray(found.as_slice()))
        }
        Check::Booleans => {
            let mut found = Vec::new(alloc);
            put_directives(set, &mut found)?;
            Ok(some_without_boolean(scope, found.as_slice()))
        }
    }
}

fn fragment_fails(
    alloc: Global,
    scope: &Scope<'_>,
    check: Check,
    marked: bool,
    fragment: &Fragment<'_>,
) -> Result<bool, NoMemory>
    ensures { IfOk result (λ failed. failed ≡ (marked
        && fails check scope.now fragment.now.directives fragment.now.select)) }
{
    if marked {
        fails(alloc, scope, check, fragment.directives, fragment.select)
    } else {
        Ok(false)
    }
}

/// Whether the check refuses the operation or a marked fragment.
pub fn reach_fails(
    alloc: Global,
    scope: &Scope<'_>,
    check: Check,
    operation: &Operation<'_>,
    marks: &[bool],
) -> Result<bool, NoMemory>
    requires { length marks.now ≡ length scope.now.fragments }
    ensures { IfOk result (λ failed. failed ≡ (fails check scope.now operation.now.directives operation.now.select
        || some_marked_fails (λ f. fails check scope.now f.directives f.select) marks.now scope.now.fragments)) }
{
    if fails(alloc, scope, check, operation.directives, operation.select)? {
        return Ok(true);
    }
    for (index, fragment) in scope.fragments.as_slice().iter().enumerate() {
        if fragment_fails(alloc, scope, check, marks[index], fragment)? {
            return Ok(true);
        }
    }
    Ok(false)
}

pub fn vars_have_directives(vars: &[VarDef]) -> bool
    ensures { result ≡ list_any (λ v. spec.has_some v.directives) vars.now }
{
    for variable in vars {
        if !variable.directives.is_empty() {
            return true;
        }
    }
    false
}
