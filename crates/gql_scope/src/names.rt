//! Names that repeat.

ghost use Rattle.std.specs.Prelude.{◌≡◌, IfOk, map};
ghost use Rattle.request_model.specs.Selection as spec;

use scalar_val::{NoMemory, Str};
use std::alloc::Global;

/// Whether two of the names are the same.
#[tactic(auto, using(crate::proofs::PlaceRules::same_repeats))]
pub fn repeats(alloc: Global, names: &[&Str]) -> Result<bool, NoMemory>
    ensures { IfOk result (λ twice. twice ≡ spec.repeats (map (λ n. n.now) names.now)) }
{
    name_set::repeats(alloc, names)
}
