//! Checks a provisioner.

ghost use Rattle.std.specs.Prelude.{◌≡◌};
ghost use Rattle.serde_json.specs.View.{view};
ghost use Rattle.input_validate.specs.ScriptFindings.{growth_of_provisioner, in_provisioner, provisioner_violation};

use crate::findings::expected::Expected;
use crate::findings::list::{Findings, joined};
use crate::findings::name::Name;
use crate::findings::problem::Problem;
use crate::rules::ignored_members::walk_ignored;
use crate::rules::members::{count_at, faults, walk_inside, walk_list, walk_violations};
use crate::rules::rule::MemberRule;
use crate::rules::violation::Violation;
use crate::rules::walk::{Leaf, Walk};
use crate::script::diagnostic::Diagnostic;
use crate::script::output::walk_outputs;
use apply_plan::MAX_OUTPUTS;
use serde_json::Value;
use std::alloc::{AllocError, Global};

const TABLE: [MemberRule; 2] = [
    MemberRule {
        name: Name::Provisioner,
        expected: Expected::NonEmptyText,
    },
    MemberRule {
        name: Name::Seconds,
        expected: Expected::Seconds,
    },
];

pub(crate) const NAMES: [Name; 5] = [
    Name::Provisioner,
    Name::Seconds,
    Name::Output,
    Name::Failed,
    Name::OnFailure,
];

const OUTPUT: MemberRule = MemberRule {
    name: Name::Output,
    expected: Expected::ArrayOrAbsent,
};

const GROWTH: [MemberRule; 1] = [MemberRule {
    name: Name::OnFailure,
    expected: Expected::OnFailure,
}];

/// A provisioner of a step, without `on_failure` and without the members of its output items.
#[derive(Clone, Copy)]
pub struct Provisioner;

/// Tests whether a provisioner has more than 100 output items.
fn violation(value: &Value) -> Violation
    ensures { result ≡ provisioner_violation (view value.now) }
{
    Violation {
        holds: count_at(value, Name::Output) > MAX_OUTPUTS,
        at: Some(Name::Output),
        problem: Problem::TooManyTexts,
    }
}

impl<'a> Walk<'a> for Provisioner {
    ghost findings = { λ _ _ d. in_provisioner d };

    #[tactic(auto, unfolding(crate::specs::ScriptFindings::in_provisioner))]
    fn walk(
        &self,
        alloc: Global,
        _number: usize,
        value: &'a Value,
    ) -> Result<Findings, AllocError> {
        if !Expected::Provisioner.suits(value) {
            return Findings::here(alloc, Problem::IsNot(Expected::Provisioner));
        }
        let all = faults(alloc, value, &TABLE);
        let all = joined(
            all,
            walk_list(alloc, &Leaf(Expected::Output), value, OUTPUT),
        );
        let all = joined(all, walk_violations(alloc, &[violation(value)]));
        let all = joined(all, walk_inside(alloc, &Diagnostic, value, Name::Failed));
        joined(all, walk_ignored(alloc, value, &NAMES))
    }
}

/// The `on_failure` of a provisioner, and the members of its output items. They are checked apart,
/// because their findings come after those of the other members of the step.
#[derive(Clone, Copy)]
pub struct ProvisionerGrowth;

impl<'a> Walk<'a> for ProvisionerGrowth {
    ghost findings = { λ _ _ d. growth_of_provisioner d };

    #[tactic(auto, unfolding(crate::specs::ScriptFindings::growth_of_provisioner))]
    fn walk(
        &self,
        alloc: Global,
        _number: usize,
        value: &'a Value,
    ) -> Result<Findings, AllocError> {
        let all = faults(alloc, value, &GROWTH);
        joined(all, walk_outputs(alloc, value))
    }
}
