ghost use Rattle.std.specs.Prelude.{◌≡◌, ◌≤◌, ◌+◌, IfOk};
ghost use Rattle.plan_model.specs.Reads.{reads};
ghost use Rattle.hub_model.specs.Jobs.{Fits, evaluated};

use batch_join::eval_batch;
use hub::{Job, OutcomeList};
use scalar_val::{NoMemory, Steps};
use std::alloc::Global;
use std::sync::ledger::Ledger;

/// The results of a job's cohorts on its snapshot, in order. It counts at most the rows that its plan reads, however many
/// cohorts there are.
pub(crate) fn evaluate<L: Ledger>(
    alloc: Global,
    job: &Job,
    steps: &mut Steps<L>,
) -> Result<OutcomeList, NoMemory>
    requires { Fits job.now }
    ensures outcomes { IfOk result (λ outcomes. outcomes ≡ evaluated job.now) }
    ensures steps { steps.new ≤ steps.old + reads job.now.plan job.now.snapshot.tables }
{
    eval_batch(alloc, job.plan.plan(), &job.relation, &job.snapshot, steps)
}
