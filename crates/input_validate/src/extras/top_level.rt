//! Checks `outputs` and `diagnostics` in the tree of a script.

ghost use Rattle.std.specs.Prelude.{◌≡◌, IfOk, option_map};
ghost use Rattle.std.specs.Option.{option_copied};
ghost use Rattle.serde_json.specs.View.{view};
ghost use Rattle.apply_plan_terraform.specs.Outputs.{outputs_view};
ghost use Rattle.input_validate.specs.Extras.{in_extras};
ghost use Rattle.input_validate.specs.Findings.{reported};

use crate::extras::note::Note;
use crate::extras::outputs::Outputs;
use crate::findings::expected::Expected;
use crate::findings::list::{Findings, joined};
use crate::findings::name::Name;
use crate::rules::members::{fault, walk_inside, walk_list};
use crate::rules::rule::MemberRule;
use apply_plan_terraform::PlanOutputs;
use serde_json::Value;
use std::alloc::{AllocError, Global};

const OUTPUTS: MemberRule = MemberRule {
    name: Name::Outputs,
    expected: Expected::ObjectOrAbsent,
};

const DIAGNOSTICS: MemberRule = MemberRule {
    name: Name::Diagnostics,
    expected: Expected::ArrayOrAbsent,
};

/// Checks `outputs` and `diagnostics` at the top of a script. Outputs are compared with those of
/// the plan, if there are some. `Err` means that memory was refused.
#[tactic(auto, unfolding(crate::specs::Extras::in_extras))]
pub fn walk_extras(
    alloc: Global,
    planned: Option<&PlanOutputs>,
    script: &Value,
) -> Result<Findings, AllocError>
    ensures { IfOk result (λ f. f ≡ reported (in_extras (option_map outputs_view (option_copied planned.entry)) (view script.now))) }
{
    let outputs = Outputs { planned };
    let all = fault(alloc, script, OUTPUTS);
    let all = joined(all, walk_inside(alloc, &outputs, script, Name::Outputs));
    joined(all, walk_list(alloc, &Note, script, DIAGNOSTICS))
}
