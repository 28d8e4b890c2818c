//! Reads the plan with what only Terraform's form needs of it.

ghost use Rattle.std.specs.Prelude.{◌≡◌, IfErr, IfOk, Ok};
ghost use Rattle.apply_plan.specs.Plan.SavedPlan.{plan_of};
ghost use Rattle.apply_plan_terraform.specs.Outputs.{outputs_view};
ghost use Rattle.stream_record_cli.specs.Plans.{HasDetails, IsPlanFault};

use crate::record_fault::RecordFault;
use apply_plan::{Plan, PlanError, read_plan};
use apply_plan_terraform::{Details, PlanDetails, PlanNote, PlanOutputs, read_details};
use std::alloc::Global;

/// Reads the plan. `Err` is `RecordFault::Plan` if a run refuses it, and `RecordFault::Memory` if
/// memory was refused.
pub fn plan_in(alloc: Global, plan: &[u8]) -> Result<Plan, RecordFault>
    ensures ok { IfOk result (λ read. plan_of plan.now ≡ Ok read) }
    ensures err { IfErr result (IsPlanFault plan.now) }
{
    match read_plan(alloc, plan) {
        Ok(plan) => Ok(plan),
        Err(PlanError::Memory) => Err(RecordFault::Memory),
        Err(error) => Err(RecordFault::Plan(error)),
    }
}

/// The note about a whole plan, and its outputs.
#[derive(Drop)]
pub struct PlanExtras {
    pub note: Option<PlanNote>,
    pub outputs: PlanOutputs,
}

/// Reads the note and the outputs of a plan that a run takes. `Err` where memory was refused.
pub fn extras_in(alloc: Global, plan: &[u8]) -> Result<PlanExtras, RecordFault>
    ensures ok { IfOk result (λ extras. HasDetails plan.now extras.note (outputs_view extras.outputs)) }
    ensures err { IfErr result (λ fault. fault ≡ RecordFault.Memory) }
{
    let Ok(details) = read_details(alloc, plan) else {
        return Err(RecordFault::Memory);
    };
    let Details {
        plan: PlanDetails { note, .. },
        outputs,
    } = details;
    Ok(PlanExtras { note, outputs })
}
