ghost use Rattle.std.specs.Prelude.{◌≡◌, ◌+◌, ◌≤◌, map, IfOk};
ghost use Rattle.std.specs.List.{AllByRecursion};
ghost use Rattle.batch_rel.specs.declared.relation.RelRow.{RelRow};
ghost use Rattle.plan_model.specs.PlanFits.{PlanFits};
ghost use Rattle.plan_model.specs.BindingFits.{BindingFits};
ghost use Rattle.plan_model.specs.Planned.{planned};
ghost use Rattle.plan_model.specs.Reads.{reads};

use batch_rel::{RelRow, Relation};
use json_out::Outcome;
use nested_eval::PreparedPlan;
use plan_core::Plan;
use row_store::Snapshot;
use scalar_val::{List, NoMemory, Steps};
use std::alloc::Global;
use std::sync::ledger::Ledger;

pub type OutcomeList = List<Outcome>;

fn outcomes_of(
    alloc: Global,
    prepared: &PreparedPlan<'_>,
    rows: &[RelRow],
) -> Result<Vec<Outcome>, NoMemory>
    requires { AllByRecursion (λ (row : RelRow). BindingFits prepared.now.plan row.binding) rows.now }
    ensures { IfOk result (λ outcomes. outcomes.items ≡
        map (λ (row : RelRow). planned prepared.now.plan row.binding prepared.now.snapshot.tables) rows.now) }
{
    let mut buffer = Vec::new(alloc);
    let mut outcomes = Vec::with_capacity(alloc, rows.len())?;
    for row in rows {
        outcomes.push(prepared.outcome(alloc, &row.binding, &mut buffer)?)?;
    }
    Ok(outcomes)
}

/// The result of a plan with each binding of a relation on a snapshot, in the relation's order. The plan fits the
/// snapshot's catalog, and the bindings fit the plan. Each table is read once for each selection that names it, with a
/// step for each row, however many bindings there are. The only failure is want of memory.
pub fn eval_batch<L: Ledger>(
    alloc: Global,
    plan: &Plan,
    relation: &Relation,
    snapshot: &Snapshot,
    steps: &mut Steps<L>,
) -> Result<OutcomeList, NoMemory>
    requires plan { PlanFits snapshot.now.catalog plan.now }
    requires bindings { AllByRecursion (λ (row : RelRow). BindingFits plan.now row.binding) relation.now }
    ensures outcomes { IfOk result (λ outcomes. outcomes ≡
        map (λ (row : RelRow). planned plan.now row.binding snapshot.now.tables) relation.now) }
    ensures steps { steps.new ≤ steps.old + reads plan.now snapshot.now.tables }
{
    let prepared = PreparedPlan::of(alloc, plan, snapshot, steps)?;
    let outcomes = outcomes_of(alloc, &prepared, relation.as_slice())?;
    Ok(List::from_vec(outcomes))
}
