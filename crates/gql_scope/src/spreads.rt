//! What stands in selections, whether they are dropped or not.

ghost use Rattle.std.specs.Prelude.{◌≡◌, ◌++◌, map, OnOk};
ghost use Rattle.std.specs.List.{list_any};
ghost use Rattle.request_model.specs.Selection as spec;
ghost use Rattle.gql_scope.specs.Parts.{spreads_of, directives_of};

use request_model::{Directive, Selection};
use scalar_val::{NoMemory, Str};

/// Appends the names of the fragments that selections spread.
#[cycle(spread)]
pub fn put_spreads<'a>(set: &'a [Selection], names: &mut Vec<&'a Str>) -> Result<(), NoMemory>
    ensures { OnOk result (map (λ n. n.now) names.new.items ≡ map (λ n. n.now) names.old.items
        ++ spec.spreads set.now) }
{
    for selection in set {
        put_spreads_of(selection, names)?;
    }
    Ok(())
}

#[cycle(spread)]
#[tactic(auto, using(crate::proofs::PartRules::spreads_of_field, crate::proofs::PartRules::spreads_of_spread, crate::proofs::PartRules::spreads_of_inline))]
fn put_spreads_of<'a>(selection: &'a Selection, names: &mut Vec<&'a Str>) -> Result<(), NoMemory>
    ensures { OnOk result (map (λ n. n.now) names.new.items ≡ map (λ n. n.now) names.old.items
        ++ spreads_of selection.now) }
{
    match selection {
        Selection::Field { select, .. } => put_spreads(select.as_slice(), names),
        Selection::Spread { name, .. } => {
            names.push(name)?;
            Ok(())
        }
        Selection::Inline { select, .. } => put_spreads(select.as_slice(), names),
    }
}

/// Appends the directives of selections.
#[cycle(directive)]
pub fn put_directives<'a>(
    set: &'a [Selection],
    found: &mut Vec<&'a Directive>,
) -> Result<(), NoMemory>
    ensures { OnOk result (map (λ n. n.now) found.new.items ≡ map (λ n. n.now) found.old.items
        ++ spec.directives_in set.now) }
{
    for selection in set {
        put_directives_of(selection, found)?;
    }
    Ok(())
}

#[cycle(directive)]
#[tactic(auto, using(crate::proofs::PartRules::directives_of_field, crate::proofs::PartRules::directives_of_spread, crate::proofs::PartRules::directives_of_inline))]
fn put_directives_of<'a>(
    selection: &'a Selection,
    found: &mut Vec<&'a Directive>,
) -> Result<(), NoMemory>
    ensures { OnOk result (map (λ n. n.now) found.new.items ≡ map (λ n. n.now) found.old.items
        ++ directives_of selection.now) }
{
    match selection {
        Selection::Field {
            directives,
            select,
            ..
        } => put_both(directives.as_slice(), select.as_slice(), found),
        Selection::Spread { directives, .. } => put_all(directives.as_slice(), found),
        Selection::Inline {
            directives,
            select,
            ..
        } => put_both(directives.as_slice(), select.as_slice(), found),
    }
}

#[cycle(directive)]
fn put_both<'a>(
    directives: &'a [Directive],
    set: &'a [Selection],
    found: &mut Vec<&'a Directive>,
) -> Result<(), NoMemory>
    ensures { OnOk result (map (λ n. n.now) found.new.items ≡ map (λ n. n.now) found.old.items
        ++ (directives.now ++ spec.directives_in set.now)) }
{
    put_all(directives, found)?;
    put_directives(set, found)
}

fn put_all<'a>(directives: &'a [Directive], found: &mut Vec<&'a Directive>) -> Result<(), NoMemory>
    ensures { OnOk result (map (λ n. n.now) found.new.items ≡ map (λ n. n.now) found.old.items ++ directives.now) }
{
    for directive in directives {
        found.push(directive)?;
    }
    Ok(())
}
