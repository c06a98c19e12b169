//! Lists of what was read.

ghost use Rattle.std.specs.Prelude.{◌≡◌, [], ◌∷◌, ◌++◌, IfOk, OnOk};

use scalar_val::{List, NoMemory};

/// Adds an item at the end.
pub fn add<T: Drop>(found: &mut List<T>, item: T) -> Result<(), NoMemory>
    ensures { OnOk result (found.new ≡ found.old ++ item ∷ []) }
{
    match found.push(item) {
        Ok(()) => Ok(()),
        Err(_refused) => Err(NoMemory),
    }
}

/// Puts an item before the others.
pub fn cons<T: Drop>(first: T, others: List<T>) -> Result<List<T>, NoMemory>
    ensures { IfOk result (λ all. all ≡ first ∷ others) }
{
    let mut all = others;
    match all.insert(0, first) {
        Ok(()) => Ok(all),
        Err(_refused) => Err(NoMemory),
    }
}
