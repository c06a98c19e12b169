//! Names that stand twice.

ghost use Rattle.std.specs.Prelude.{◌≡◌, IfOk, map};
ghost use Rattle.name_set.specs.Names.{repeats};

use crate::index::NameIndex;
use scalar_val::{NoMemory, Str};
use std::alloc::Global;

/// Whether two of the names are the same.
#[tactic(auto, using(crate::proofs::RepeatRules::none_again))]
pub fn repeats(alloc: Global, names: &[&Str]) -> Result<bool, NoMemory>
    ensures { IfOk result (λ twice. twice ≡ repeats (map (λ n. n.now) names.now)) }
{
    let mut seen = NameIndex::new(alloc);
    for name in names {
        if !seen.insert(name)? {
            return Ok(true);
        }
    }
    Ok(false)
}
