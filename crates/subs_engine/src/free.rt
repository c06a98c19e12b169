//! A gate that evaluates at once.
ghost use Rattle.std.specs.Prelude.{◌≡◌, ◌+◌, ◌≤◌, IfOk};

use crate::gate::Gate;
use batch_join::eval_batch;
use hub::{Job, OutcomeList};
use scalar_val::{NoMemory, Steps};
use std::alloc::Global;
use std::sync::Wait;
use std::sync::ledger::Ledger;

/// Evaluates at once, and never stops.
#[derive(Clone, Copy)]
pub struct FreeGate;

/// A stop that nobody makes.
#[derive(Drop)]
pub enum Never {}

impl Gate for FreeGate {
    type Stop = Never;

    fn batch<R: Wait, L: Ledger>(
        &self,
        rt: &R,
        alloc: Global,
        job: &Job,
        steps: &mut Steps<L>,
    ) -> Result<OutcomeList, NoMemory> {
        let _rt = rt;
        eval_batch(alloc, job.plan.plan(), &job.relation, &job.snapshot, steps)
    }

    fn stop(&self) -> Option<Never> {
        None
    }
}
