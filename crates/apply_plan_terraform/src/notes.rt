//! Whether a plan is errored or incomplete.

ghost use Rattle.std.specs.Prelude.{◌≡◌};
ghost use Rattle.serde_json.specs.View.{view};
ghost use Rattle.apply_plan_terraform.specs.Plan as plans;

use crate::flags::is_flag;
use crate::plan_notes::PlanNote;
use apply_json_tree::members::member;
use serde_json::Value;

/// Whether planning ended with an error: the member `errored` is `true`.
pub fn is_errored(plan: &Value) -> bool
    ensures { result ≡ plans.is_errored (view plan.now) }
{
    is_flag(member(plan, "errored"), true)
}

/// Whether the plan leaves something to do: the member `complete` is `false`, and planning ended
/// without an error.
pub fn is_partial(plan: &Value) -> bool
    ensures { result ≡ plans.is_partial (view plan.now) }
{
    !is_errored(plan) && is_flag(member(plan, "complete"), false)
}

/// The note about the whole plan. `None` when the plan is complete.
pub fn plan_note(plan: &Value) -> Option<PlanNote>
    ensures { result ≡ plans.note_of (view plan.now) }
{
    if is_errored(plan) {
        Some(PlanNote::Unfinished)
    } else if is_partial(plan) {
        Some(PlanNote::Partial)
    } else {
        None
    }
}
