ghost use Rattle.std.specs.Prelude.{◌≡◌, ◌+◌, ◌≤◌, Ok, Err, IfOk, IfErr, OnOk};
ghost use Rattle.data_model.specs.declared.transaction.TxFault.{TxFault};
ghost use Rattle.data_model.specs.Transactions.{apply, change as outcome};
ghost use Rattle.tx_apply.specs.Cost.{change_cost, cost};

use crate::changing::change_one;
use data_model::{Catalog, Tx, TxChange, TxFault};
use row_store::Snapshot;
use scalar_val::{NoMemory, Steps};
use std::alloc::Global;
use std::sync::ledger::Ledger;

/// Why a transaction wasn't applied: the first change at fault with its reason, or memory was refused.
#[derive(Clone, Copy, Debug, PartialEq, Eq)]
pub enum ApplyFault {
    Refused(TxFault),
    NoMemory,
}

/// Makes the change with a number, or says with this number why not.
fn apply_change<L: Ledger>(
    alloc: Global,
    catalog: &Catalog,
    after: &mut Snapshot,
    number: u64,
    change: &TxChange,
    steps: &mut Steps<L>,
) -> Result<(), ApplyFault>
    requires { after.old.catalog ≡ catalog.now }
    ensures made { OnOk result (outcome catalog.now after.old.tables change.now ≡ Ok after.new.tables) }
    ensures refused { IfErr result (λ e. (fault : TxFault) → e ≡ ApplyFault.Refused fault → (outcome catalog.now after.old.tables change.now ≡ Err fault.reason) × (fault.change ≡ number)) }
    ensures catalog { after.new.catalog ≡ after.old.catalog }
    ensures steps { steps.new ≤ steps.old + change_cost catalog.now after.old.tables change.now }
{
    match change_one(alloc, catalog, after, change, steps) {
        Ok(None) => Ok(()),
        Ok(Some(reason)) => Err(ApplyFault::Refused(TxFault {
            change: number,
            reason,
        })),
        Err(NoMemory) => Err(ApplyFault::NoMemory),
    }
}

/// The snapshot after all changes of a transaction, in order. The first change at fault refuses them all, with its number
/// from 1 and the first reason that holds of it. The given snapshot stays as it is. It counts at most a step for each row
/// of a change's table, and one, for each change.
pub fn apply<L: Ledger>(
    alloc: Global,
    catalog: &Catalog,
    snapshot: &Snapshot,
    tx: &Tx,
    steps: &mut Steps<L>,
) -> Result<Snapshot, ApplyFault>
    requires { snapshot.now.catalog ≡ catalog.now }
    ensures applied { IfOk result (λ after. apply catalog.now snapshot.now.tables tx.now ≡ Ok after.tables) }
    ensures catalog { IfOk result (λ after. after.catalog ≡ catalog.now) }
    ensures refused { IfErr result (λ e. (fault : TxFault) → e ≡ ApplyFault.Refused fault → apply catalog.now snapshot.now.tables tx.now ≡ Err fault) }
    ensures steps { steps.new ≤ steps.old + cost catalog.now snapshot.now.tables tx.now }
{
    let mut after = match snapshot.share(alloc) {
        Ok(share) => share,
        Err(NoMemory) => return Err(ApplyFault::NoMemory),
    };
    let mut number = 0;
    for change in tx.as_slice() {
        number += 1;
        apply_change(alloc, catalog, &mut after, number, change, steps)?;
    }
    Ok(after)
}
