//! Checks the top level of a plan.
//!
//! Every `Err` means that memory was refused.

ghost use Rattle.std.specs.Prelude.{◌≡◌, IfOk};
ghost use Rattle.serde_json.specs.View.{items_view, view};
ghost use Rattle.apply_json.specs.Tree.{list_of};
ghost use Rattle.input_validate.specs.Findings.{reported};
ghost use Rattle.input_validate.specs.PlanFindings.{in_elements, in_plan};

use crate::findings::expected::Expected;
use crate::findings::list::{Findings, joined};
use crate::findings::name::Name;
use crate::findings::path::Segment;
use crate::findings::problem::Problem;
use crate::plan::elements::walk_elements;
use crate::rules::members::{faults, items_at};
use crate::rules::rule::MemberRule;
use apply_model::MAX_CHANGES;
use serde_json::Value;
use std::alloc::{AllocError, Global};

const TABLE: [MemberRule; 3] = [
    MemberRule {
        name: Name::FormatVersion,
        expected: Expected::FormatVersion,
    },
    MemberRule {
        name: Name::TerraformVersion,
        expected: Expected::TextOrAbsent,
    },
    MemberRule {
        name: Name::ResourceChanges,
        expected: Expected::ArrayOrAbsent,
    },
];

/// Checks the elements of `resource_changes`. If there are more than 10,000, only that is reported.
fn walk_changes(alloc: Global, elements: &[Value]) -> Result<Findings, AllocError>
    ensures { IfOk result (λ f. f ≡ reported (in_elements (list_of (items_view elements.now)))) }
{
    if elements.len() > MAX_CHANGES {
        return Findings::at(
            alloc,
            Segment::Member(Name::ResourceChanges),
            Problem::TooManyChanges,
        );
    }
    walk_elements(alloc, elements)?.under(Segment::Member(Name::ResourceChanges))
}

/// Checks the tree of a plan.
#[tactic(auto, unfolding(crate::specs::PlanFindings::in_plan))]
pub fn walk_plan(alloc: Global, plan: &Value) -> Result<Findings, AllocError>
    ensures { IfOk result (λ f. f ≡ reported (in_plan (view plan.now))) }
{
    if !Expected::Plan.suits(plan) {
        return Findings::here(alloc, Problem::IsNot(Expected::Plan));
    }
    let all = faults(alloc, plan, &TABLE);
    joined(
        all,
        walk_changes(alloc, items_at(plan, Name::ResourceChanges)),
    )
}
