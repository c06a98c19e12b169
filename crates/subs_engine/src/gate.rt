//! Where jobs are evaluated.
ghost use Rattle.std.specs.Prelude.{◌≡◌, ◌+◌, ◌≤◌, IfOk};
ghost use Rattle.plan_model.specs.Reads.{reads};
ghost use Rattle.hub_model.specs.Jobs.{Fits, evaluated};

use hub::{Job, OutcomeList};
use scalar_val::{NoMemory, Steps};
use std::alloc::Global;
use std::sync::Wait;
use std::sync::ledger::Ledger;

/// Where jobs are evaluated, and when those who ask for it are to stop.
pub trait Gate {
    /// What tells that it is time to stop. A gate alone makes one.
    type Stop;

    /// Evaluates a job, while nobody holds a turn for it: the plan's outcome for the binding of each of its cohorts, in
    /// order. It counts at most a step for each row of each table of the plan, for each place where the plan has it.
    /// `NoMemory`: memory was refused.
    fn batch<R: Wait, L: Ledger>(
        &self,
        rt: &R,
        alloc: Global,
        job: &Job,
        steps: &mut Steps<L>,
    ) -> Result<OutcomeList, NoMemory>
        requires { Fits job.now }
        ensures outcomes { IfOk result (λ outcomes. outcomes ≡ evaluated job.now) }
        ensures steps { steps.new ≤ steps.old + reads job.now.plan job.now.snapshot.tables };

    /// Whether to stop.
    fn stop(&self) -> Option<Self::Stop>;
}
