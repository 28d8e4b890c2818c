//! Reads what a plan and a script state, and for Terraform's form the extras of both.

ghost use Rattle.std.specs.Prelude.{◌≡◌, ◌≤◌, length, Err, IfErr, IfOk, IfSome, Ok};
ghost use Rattle.std.specs.Option.{option_copied};
ghost use Rattle.apply_plan.specs.declared.script.script_error.ScriptError.TheVariants as script_error;
ghost use Rattle.apply_plan.specs.Bytes.{max_bytes};
ghost use Rattle.apply_plan.specs.Plan.SavedPlan.{plan_of};
ghost use Rattle.apply_plan.specs.Results.{Gives};
ghost use Rattle.apply_plan_terraform.specs.Extras.{extras_view};
ghost use Rattle.apply_plan_terraform.specs.Outputs.{outputs_view};
ghost use Rattle.apply_run.specs.Bytes.{given_script, MayBeRead, WasUnread};
ghost use Rattle.apply_run.specs.Read.{given_extras, IsStated, WasNotRead};
ghost use Rattle.apply_run.specs.ReadStated.{stated_view};

use crate::refusal::Refusal;
use apply_plan::{Plan, PlanError, Script, ScriptError, read_plan, read_script};
use apply_plan_terraform::{Details, Extras, PlanOutputs, read_details, read_extras};
use std::alloc::Global;

/// What a plan and a script state for Terraform's form.
#[derive(Debug, Drop)]
pub struct ReadStated {
    /// The plan and the script.
    pub read: ReadBytes,
    /// What only Terraform's form needs of the plan.
    pub details: Details,
    /// What only Terraform's form needs of the script.
    pub extras: Extras,
}

/// Reads a plan (JSON Output Format, "Plan Representation"), an optional script for it, and the
/// extras of both.
///
/// `Err` with `Refusal::Plan` if the bytes are not a plan. Else `Err` with `Refusal::Script` if
/// there is a script and it does not fit the plan, names outputs that the plan does not have, or
/// has malformed diagnostics. If memory is refused, the refusal names the input that was being read.
pub fn read_stated(alloc: Global, plan: &[u8], script: Option<&[u8]>) -> Result<ReadStated, Refusal>
    ensures ok { IfOk result (λ stated. IsStated plan.now (option_copied script.entry) (stated_view stated)) }
    ensures err { IfErr result (WasNotRead plan.now (option_copied script.entry)) }
{
    let read = read_bytes(alloc, plan, script)?;
    let Ok(details) = read_details(alloc, plan) else {
        return Err(Refusal::Plan(PlanError::Memory));
    };
    match read_given_extras(alloc, script, &details.outputs) {
        Ok(extras) => Ok(ReadStated {
            read,
            details,
            extras,
        }),
        Err(refusal) => Err(Refusal::Script(refusal)),
    }
}

/// A plan and a script for it, read from bytes.
#[derive(Debug, Drop)]
pub struct ReadBytes {
    /// The plan.
    pub plan: Plan,
    /// The script for it.
    pub script: Script,
}

/// Reads a plan and an optional script for it.
///
/// `Err` with `Refusal::Plan` if the bytes are not a plan. Else `Err` with `Refusal::Script` if
/// there is a script and it does not fit the plan. If memory is refused, the refusal names the
/// input that was being read.
pub(crate) fn read_bytes(
    alloc: Global,
    plan: &[u8],
    script: Option<&[u8]>,
) -> Result<ReadBytes, Refusal>
    ensures plan { IfOk result (λ read. plan_of plan.now ≡ Ok read.plan) }
    ensures script { IfOk result (λ read. given_script read.plan (option_copied script.entry) ≡ Ok read.script) }
    ensures err { IfErr result (WasUnread plan.now (option_copied script.entry)) }
{
    let plan = match read_plan(alloc, plan) {
        Ok(plan) => plan,
        Err(refusal) => return Err(Refusal::Plan(refusal)),
    };
    match read_given(alloc, script, &plan) {
        Ok(script) => Ok(ReadBytes { plan, script }),
        Err(refusal) => Err(Refusal::Script(refusal)),
    }
}

/// Reads the script for the plan; without bytes the script is empty.
fn read_given(alloc: Global, bytes: Option<&[u8]>, plan: &Plan) -> Result<Script, ScriptError>
    ensures defined { Gives script_error.Memory (λ script. script) result (given_script plan.now (option_copied bytes.entry)) }
    ensures memory { result ≡ Err script_error.Memory → MayBeRead (option_copied bytes.entry) }
{
    match bytes {
        Some(bytes) => read_script(alloc, bytes, plan),
        None => Ok(Script::empty()),
    }
}

/// Reads the extras of a script; without a script there are none.
fn read_given_extras(
    alloc: Global,
    bytes: Option<&[u8]>,
    plan: &PlanOutputs,
) -> Result<Extras, ScriptError>
    requires { IfSome (option_copied bytes) (λ some. length some ≤ max_bytes) }
    ensures defined { Gives script_error.Memory extras_view result
        (given_extras (outputs_view plan.now) (option_copied bytes.entry)) }
    ensures memory { result ≡ Err script_error.Memory → MayBeRead (option_copied bytes.entry) }
{
    match bytes {
        Some(bytes) => read_extras(alloc, bytes, plan),
        None => Ok(Extras::none(alloc)),
    }
}
