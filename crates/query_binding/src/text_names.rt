//! The variables of a query's text.

ghost use Rattle.std.specs.Prelude.{◌≡◌, IfOk};
ghost use Rattle.query_model.specs.Queries.{text_variables};
ghost use Rattle.query_binding.specs.Added.{texts};

use crate::names::add_fields;
use name_set::NameSet;
use request_model::Flat;
use scalar_val::{NoMemory, Str};
use std::alloc::Global;
use std::collections::BTreeSet;

#[tactic(auto, using(crate::proofs::OrderRules::next_copied, crate::proofs::OrderRules::in_order_once))]
fn copied(alloc: Global, names: &BTreeSet<&str>) -> Result<NameSet, NoMemory>
    ensures { IfOk result (λ copy. copy ≡ texts names.now) }
{
    let mut copy = NameSet::new(alloc);
    for name in names.iter() {
        let _is_new = copy.insert(alloc, Str::of(alloc, name)?)?;
    }
    Ok(copy)
}

/// The variables that stand in the canonical text of a flat selection, in order of their names' bytes. Those of a
/// cursor's initial value don't stand there. It takes time in the number of variables that are written, times the
/// logarithm of the number of those that differ. `NoMemory` where memory is refused.
#[tactic(auto, using(crate::proofs::AddedRules::fields_added))]
pub fn text_variables(alloc: Global, flat: &Flat) -> Result<NameSet, NoMemory>
    ensures { IfOk result (λ names. names ≡ text_variables flat.now) }
{
    let mut names = BTreeSet::new(alloc);
    add_fields(&mut names, flat.fields.as_slice())?;
    copied(alloc, &names)
}
