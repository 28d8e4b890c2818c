//! The steps of a plan, by address.

ghost use Rattle.std.specs.Prelude.{◌≡◌, IfOk};
ghost use Rattle.stream_record_steps.specs.Steps.{planned_steps, steps_at};

use crate::planned_step::{PlannedStep, planned_steps};
use apply_model::Plan;
use std::alloc::{AllocError, Global};
use std::collections::HashMap;
use std::marker::Model;

/// The steps of a plan. Contracts see the steps in the plan's order.
#[derive(Drop)]
pub struct PlanIndex<'a> {
    steps: Vec<PlannedStep<'a>>,
    by_address: HashMap<&'a str, Vec<PlannedStep<'a>>>,
}

impl<'a> Model for PlanIndex<'a> {
    ghost use Rattle.std.specs.Prelude.{List};
    ghost use Rattle.stream_record_steps.specs.Steps.{PlannedStep};
    ghost use Rattle.stream_record_steps.specs.ByAddress.{AreByAddress};

    ghost Value = { List PlannedStep };

    ghost view = { λ index. index.steps.items };

    ghost invariant = { λ index. AreByAddress index.by_address index.steps.items };
}

impl<'a> PlanIndex<'a> {
    /// The steps of the plan. `Err` where memory is refused.
    pub fn new(alloc: Global, plan: &'a Plan) -> Result<PlanIndex<'a>, AllocError>
        ensures { IfOk result (λ index. index ≡ planned_steps plan.now.changes) }
    {
        let steps = planned_steps(alloc, plan)?;
        let mut by_address: HashMap<&'a str, Vec<PlannedStep<'a>>> = HashMap::new(alloc);
        for step in steps.iter() {
            let address = step.change().address();
            by_address.entry(address)?.or_default().push(step.again())?;
        }
        Ok(PlanIndex { steps, by_address })
    }

    /// The steps, in the plan's order.
    pub fn as_slice(&self) -> &[PlannedStep<'a>]
        ensures { result.now ≡ self.now }
    {
        self.steps.as_slice()
    }

    /// The steps at an address, in the plan's order.
    pub fn at(&self, address: &str) -> &[PlannedStep<'a>]
        ensures { result.now ≡ steps_at self.now address.now }
    {
        let found = self.by_address.get(address);
        match found {
            Some(steps) => steps.as_slice(),
            None => &self.steps[..0],
        }
    }
}
