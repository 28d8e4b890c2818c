//! The steps of a change that are applied.

ghost use Rattle.std.specs.Prelude.{◌≡◌, ◌<◌, ◌≤◌, length, slice_get};
ghost use Rattle.apply_events.specs.Step.{kinds_applied};

use apply_model::{Plan, Script, StepKind};

/// The steps of a change before the first that the script skips, in the order in which they are
/// applied. There are two at most.
pub(crate) fn applied_steps<'a>(plan: &'a Plan, script: &Script, change: u32) -> &'a [StepKind]
    requires { change < length plan.now.changes }
    ensures steps { result.now ≡ kinds_applied plan.now script.now change }
    ensures few { length result.now ≤ 2 }
{
    let steps = plan.change(change).steps();
    match script.skipped(change) {
        Some(skipped) => &steps[..steps.len().min(skipped as usize)],
        None => steps,
    }
}

/// The kind of the step of that number. `None` where there is no such step.
pub(crate) fn kind_at(steps: &[StepKind], step: u8) -> Option<StepKind>
    ensures { result ≡ slice_get steps.now step }
{
    steps.get(step as usize).copied()
}
