//! Checks a step.

ghost use Rattle.std.specs.Prelude.{◌≡◌, nat_lt};
ghost use Rattle.serde_json.specs.View.{view};
ghost use Rattle.apply_model.specs.Script.Limits.{max_seconds};
ghost use Rattle.input_validate.specs.ScriptFindings.{with_failed, with_skipped, is_skipped, seconds_in, seconds_in_all, skipped_violations, step_violations, step_table};

use crate::against_plan::planned::Planned;
use crate::against_plan::violations::kind_violations;
use crate::findings::expected::Expected;
use crate::findings::list::{Findings, joined};
use crate::findings::name::Name;
use crate::findings::problem::Problem;
use crate::rules::ignored_members::walk_ignored;
use crate::rules::members::{
    count_at, faults, is_set, items_at, walk_inside, walk_items_at, walk_list, walk_violations,
};
use crate::rules::rule::MemberRule;
use crate::rules::violation::Violation;
use crate::rules::walk::Walk;
use crate::script::diagnostic::Diagnostic;
use crate::script::failure::Failure;
use crate::script::output::whole_at;
use crate::script::provisioner::{Provisioner, ProvisionerGrowth};
use crate::script::wait::Wait;
use apply_json_tree::members::{member, non_empty_text_member};
use apply_plan::{Change, MAX_PROVISIONERS, MAX_SECONDS};
use serde_json::Value;
use std::alloc::{AllocError, Global};

const TABLE: [MemberRule; 2] = [
    MemberRule {
        name: Name::Seconds,
        expected: Expected::Seconds,
    },
    MemberRule {
        name: Name::Id,
        expected: Expected::TextOrAbsent,
    },
];

const TABLE_WHERE_SKIPPED: [MemberRule; 1] = [MemberRule {
    name: Name::Id,
    expected: Expected::TextOrAbsent,
}];

const GROWTH: [MemberRule; 1] = [MemberRule {
    name: Name::Skipped,
    expected: Expected::FlagOrAbsent,
}];

pub(crate) const NAMES: [Name; 7] = [
    Name::Seconds,
    Name::Id,
    Name::Warning,
    Name::Failed,
    Name::Provisioners,
    Name::Skipped,
    Name::After,
];

const PROVISIONERS: MemberRule = MemberRule {
    name: Name::Provisioners,
    expected: Expected::ArrayOrAbsent,
};

const AFTER: MemberRule = MemberRule {
    name: Name::After,
    expected: Expected::ArrayOrAbsent,
};

/// A step of an entry. `planned` holds the changes of the plan, and `change` is the change that the
/// entry is about.
#[derive(Drop)]
pub struct Step<'p, 'a> {
    pub planned: Option<&'p Planned<'a>>,
    pub change: Option<&'a Change>,
}

/// Returns whether `skipped` is `true`.
pub fn is_skipped(value: &Value) -> bool
    ensures { result ≡ is_skipped (view value.now) }
{
    is_set(value, Name::Skipped)
}

/// Returns the rules for `seconds` and `id`. A skipped step has no `seconds`.
fn table(is_skipped: bool) -> &'static [MemberRule]
    ensures { result.now ≡ step_table is_skipped }
{
    if is_skipped {
        &TABLE_WHERE_SKIPPED
    } else {
        &TABLE
    }
}

/// Reads the seconds of a step or of a provisioner. They are 0 if they are missing or wrong.
fn seconds(value: &Value) -> u64
    ensures { result ≡ seconds_in (view value.now) }
{
    whole_at(value, Name::Seconds).unwrap_or(0)
}

/// Returns whether a step takes longer than a day, its provisioners included.
fn is_too_long(value: &Value) -> bool
    ensures { result ≡ nat_lt max_seconds (seconds_in_all (view value.now)) }
{
    let Some(mut left) = u64::from(MAX_SECONDS).checked_sub(seconds(value)) else {
        return true;
    };
    for provisioner in items_at(value, Name::Provisioners) {
        let taken = seconds(provisioner);
        if taken > left {
            return true;
        }
        left -= taken;
    }
    false
}

/// Tests whether a member stands next to `failed`, where it may not.
fn with_failed(value: &Value, name: Name, stands: bool) -> Violation
    ensures { result ≡ with_failed name stands (view value.now) }
{
    Violation {
        holds: member(value, Name::Failed.text()).is_some() && stands,
        at: Some(name),
        problem: Problem::WithFailed,
    }
}

/// Tests a step without a look at its change.
fn violations(value: &Value) -> [Violation; 5]
    ensures { result ≡ step_violations (view value.now) }
{
    let count = count_at(value, Name::Provisioners);
    [
        with_failed(
            value,
            Name::Id,
            non_empty_text_member(value, Name::Id.text()).is_some(),
        ),
        with_failed(
            value,
            Name::Warning,
            member(value, Name::Warning.text()).is_some(),
        ),
        with_failed(value, Name::Provisioners, count > 0),
        Violation {
            holds: is_too_long(value),
            at: None,
            problem: Problem::TooLong,
        },
        Violation {
            holds: count > MAX_PROVISIONERS,
            at: Some(Name::Provisioners),
            problem: Problem::TooManyProvisioners,
        },
    ]
}

/// Tests whether a member stands next to `skipped`, where it may not.
fn with_skipped(value: &Value, name: Name, stands: bool) -> Violation
    ensures { result ≡ with_skipped name stands (view value.now) }
{
    Violation {
        holds: is_skipped(value) && stands,
        at: Some(name),
        problem: Problem::WithSkipped,
    }
}

/// Tests for members that a skipped step may not have.
fn skipped_violations(value: &Value) -> [Violation; 5]
    ensures { result ≡ skipped_violations (view value.now) }
{
    [
        with_skipped(
            value,
            Name::Seconds,
            member(value, Name::Seconds.text()).is_some(),
        ),
        with_skipped(
            value,
            Name::Id,
            non_empty_text_member(value, Name::Id.text()).is_some(),
        ),
        with_skipped(
            value,
            Name::Warning,
            member(value, Name::Warning.text()).is_some(),
        ),
        with_skipped(
            value,
            Name::Failed,
            member(value, Name::Failed.text()).is_some(),
        ),
        with_skipped(
            value,
            Name::Provisioners,
            count_at(value, Name::Provisioners) > 0,
        ),
    ]
}

impl<'a> Walk<'a> for Step<'_, 'a> {
    ghost use Rattle.std.specs.Option.{option_copied};
    ghost use Rattle.input_validate.specs.ScriptFindings.{in_step};

    ghost findings = { λ step number d. in_step (option_copied step.planned) (option_copied step.change) number d };

    #[tactic(auto, unfolding(crate::specs::ScriptFindings::in_step))]
    fn walk(&self, alloc: Global, number: usize, value: &'a Value) -> Result<Findings, AllocError> {
        if !Expected::Step.suits(value) {
            return Findings::here(alloc, Problem::IsNot(Expected::Step));
        }
        let wait = Wait {
            planned: self.planned,
        };
        let all = faults(alloc, value, table(is_skipped(value)));
        let all = joined(all, walk_inside(alloc, &Diagnostic, value, Name::Warning));
        let all = joined(all, walk_inside(alloc, &Failure, value, Name::Failed));
        let all = joined(all, walk_list(alloc, &Provisioner, value, PROVISIONERS));
        let all = joined(all, walk_violations(alloc, &violations(value)));
        let all = joined(
            all,
            walk_violations(alloc, &kind_violations(self.change, number, value)),
        );
        let all = joined(all, faults(alloc, value, &GROWTH));
        let all = joined(all, walk_violations(alloc, &skipped_violations(value)));
        let all = joined(
            all,
            walk_items_at(alloc, &ProvisionerGrowth, value, Name::Provisioners),
        );
        let all = joined(all, walk_list(alloc, &wait, value, AFTER));
        joined(all, walk_ignored(alloc, value, &NAMES))
    }
}
