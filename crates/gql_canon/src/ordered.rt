//! Arguments in the order of their names.

ghost use Rattle.std.specs.Prelude.{◌≡◌, map, IfOk};
ghost use Rattle.std.specs.Ordering.{nat_cmp};
ghost use Rattle.std.specs.Cmp.Lexicographic.{slice_cmp};
ghost use Rattle.request_model.specs.declared.document.GValue.TheViews.{out-GPair};
ghost use Rattle.request_model.specs.Selection.{by_name};
ghost use Rattle.gql_canon.specs.Names.{compare_names};

use request_model::GPair;
use scalar_val::NoMemory;
use std::alloc::Global;
use std::cmp::Ordering;

/// The order of the names.
fn compare(a: &&GPair, b: &&GPair) -> Ordering
    ensures { result ≡ compare_names a.now.now b.now.now }
{
    let (first, second) = (a.name.as_str(), b.name.as_str());
    first.as_bytes().cmp(second.as_bytes())
}

fn refs_of<'a>(alloc: Global, pairs: &'a [GPair]) -> Result<Vec<&'a GPair>, NoMemory>
    ensures { IfOk result (λ refs. map (λ p. p.now) refs.items ≡ pairs.now) }
{
    let mut refs = Vec::with_capacity(alloc, pairs.len())?;
    for pair in pairs {
        refs.push(pair)?;
    }
    Ok(refs)
}

/// The pairs ordered by name; pairs of one name stay in their order.
pub fn ordered_by_name<'a>(alloc: Global, pairs: &'a [GPair]) -> Result<Vec<&'a GPair>, NoMemory>
    ensures { IfOk result (λ ordered. map (λ p. p.now) ordered.items ≡ by_name pairs.now) }
{
    let mut ordered = refs_of(alloc, pairs)?;
    ordered.sort_by(compare)?;
    Ok(ordered)
}
