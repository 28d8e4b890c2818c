//! The steps of a plan by their numbers.
//!
//! Every `Err` means that memory was refused.

ghost use Rattle.std.specs.Prelude.{◌≡◌, ◌≤◌, ◌++◌, IfOk, OnOk, length, slice_get};
ghost use Rattle.stream_record.specs.EvenScript.{planned_steps, steps_from};

use apply_model::{Plan, StepKind, Wait};
use std::alloc::{AllocError, Global};

/// The steps of all changes, in the plan's order.
pub fn planned_steps(alloc: Global, plan: &Plan) -> Result<Vec<Wait>, AllocError>
    ensures { IfOk result (λ steps. steps.items ≡ planned_steps plan.now.changes) }
{
    let mut steps = Vec::new(alloc);
    for number in 0..plan.len() {
        push_steps(&mut steps, number, plan.change(number).steps())?;
    }
    Ok(steps)
}

/// Adds the steps of the change of this number, which has steps of these kinds.
fn push_steps(steps: &mut Vec<Wait>, change: u32, kinds: &[StepKind]) -> Result<(), AllocError>
    requires { length kinds.now ≤ 2 }
    ensures { OnOk result (steps.new.items ≡ steps.old.items ++ steps_from change 0 kinds.now) }
{
    for step in 0..kinds.len() {
        steps.push(Wait {
            change,
            step: step as u8,
        })?;
    }
    Ok(())
}
