ghost use Rattle.std.specs.Prelude.{◌≡◌, IfOk};

use plan_core::Plan;
use scalar_val::NoMemory;
use std::alloc::Global;
use std::marker::Model;
use std::sync::Arc;

/// A plan that several owners hold, which contracts see as the plan.
#[derive(Drop)]
pub struct SharedPlan {
    plan: Arc<Plan, Global>,
}

impl Model for SharedPlan {
    ghost use Rattle.std.specs.Coded.{codes};
    ghost use Rattle.plan_model.specs.declared.plan.Plan.{Plan};
    ghost use Rattle.plan_model.specs.contracts.plan.Plan as whole_plan;

    ghost Value = { Plan };

    ghost coded = { Prim.hlevel (codes, whole_plan.the_row.coded) };

    ghost view = { λ s. s.plan.value };
}

impl SharedPlan {
    /// The first owner of a plan, which is moved and not copied.
    pub fn of(alloc: Global, plan: Plan) -> Result<SharedPlan, NoMemory>
        ensures { IfOk result (λ s. s ≡ plan) }
    {
        let plan = Arc::new(alloc, plan)?;
        Ok(SharedPlan { plan })
    }

    /// The plan. It takes no memory.
    pub fn plan(&self) -> &Plan
        ensures { result.now ≡ self.now }
    {
        &self.plan
    }

    /// One more owner of the same plan. It copies nothing.
    pub fn share(&self) -> Result<SharedPlan, NoMemory>
        ensures { IfOk result (λ s. s ≡ self.now) }
    {
        let plan = Arc::try_clone(&self.plan)?;
        Ok(SharedPlan { plan })
    }
}
