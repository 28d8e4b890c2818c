//! Rules that a script must follow so that it fits its plan.

ghost use Rattle.std.specs.Prelude.{◌≡◌, IfOk, option_map};
ghost use Rattle.std.specs.Option.{option_copied};
ghost use Rattle.serde_json.specs.View.{view};
ghost use Rattle.apply_model.specs.Plan.StepKind.{is_kind};
ghost use Rattle.apply_plan.specs.Script.Refusals.{takes_provisioners};
ghost use Rattle.input_validate.specs.AgainstPlan.{repeat_violation, change_at, is_deposed, kind_violations, kind_of, object_named, only_warns, place_unknown, missing_step_violation, step_count_violation, unknown_violation, unknown_violations};
ghost use Rattle.input_validate.specs.Findings.{reported};
ghost use Rattle.input_validate.specs.ObjectNames.{name_view};
ghost use Rattle.input_validate.specs.Rules.{violation_findings};

use crate::against_plan::planned::Planned;
use crate::findings::list::Findings;
use crate::findings::name::Name;
use crate::findings::problem::Problem;
use crate::plan::object_name::ObjectName;
use crate::rules::members::{count_at, walk_violations};
use crate::rules::violation::Violation;
use apply_json_tree::members::{is_text, member};
use apply_plan::{Change, StepKind};
use serde_json::Value;
use std::alloc::{AllocError, Global};

/// Reads the object that an entry, or an item of `after`, names. A text is the address of an object
/// that is not deposed.
pub fn object_named(value: &Value) -> Option<ObjectName<'_>>
    ensures { option_map name_view result ≡ object_named (view value.now) }
{
    match value.as_str() {
        Some(address) => Some(ObjectName {
            address,
            deposed: None,
        }),
        None => ObjectName::of(value),
    }
}

/// Looks up the planned change of the object that a value names. `None` without a plan.
pub fn change_at<'a>(planned: Option<&Planned<'a>>, value: &'a Value) -> Option<&'a Change>
    ensures { option_copied result ≡ change_at (option_copied planned.entry) (view value.now) }
{
    planned?.change(object_named(value)?)
}

/// Chooses the member that an unknown object is reported at. `is_there` tells whether the plan
/// changes another object at the same address.
fn place_unknown(is_there: bool, value: &Value) -> Option<Name>
    ensures { result ≡ place_unknown is_there (view value.now) }
{
    if value.as_str().is_some() {
        None
    } else if is_there && member(value, Name::Deposed.text()).is_some() {
        Some(Name::Deposed)
    } else {
        Some(Name::Address)
    }
}

/// Tests whether the plan changes the object that a value names.
fn unknown_violation<'a>(planned: &Planned<'a>, value: &'a Value, name: ObjectName<'a>) -> Violation
    ensures { result ≡ unknown_violation planned.now (view value.now) (name_view name.entry) }
{
    let is_there = planned.has_address(name.address);
    Violation {
        holds: planned.change(name).is_none(),
        at: place_unknown(is_there, value),
        problem: if is_there {
            Problem::UnknownObject
        } else {
            Problem::UnknownAddress
        },
    }
}

/// Reports a value that names an object which the plan does not change. Nothing is reported without
/// a plan. `Err` means that memory was refused.
pub fn walk_unknown<'a>(
    alloc: Global,
    planned: Option<&Planned<'a>>,
    value: &'a Value,
) -> Result<Findings, AllocError>
    ensures { IfOk result (λ f. f ≡ reported (violation_findings (unknown_violations (option_copied planned.entry) (view value.now)))) }
{
    let Some(planned) = planned else {
        return Ok(Findings::none(alloc));
    };
    match object_named(value) {
        Some(name) => walk_violations(alloc, &[unknown_violation(planned, value, name)]),
        None => Ok(Findings::none(alloc)),
    }
}

/// Looks up the kind of the step with this number in a change.
pub fn kind_of(change: Option<&Change>, number: usize) -> Option<StepKind>
    ensures { result ≡ kind_of (option_copied change.entry) number }
{
    change?.steps().get(number).copied()
}

/// Tests whether an earlier entry is about the same change. `first` is the number of the first such
/// entry.
pub fn repeat_violation(change: Option<&Change>, first: Option<usize>) -> Violation
    ensures { result ≡ repeat_violation (option_copied change.entry) first }
{
    Violation {
        holds: change.is_some() && first.is_some(),
        at: None,
        problem: Problem::AboutAgain(first.unwrap_or(0)),
    }
}

/// Tests whether an entry has more steps than its change.
pub fn step_count_violation(change: Option<&Change>, entry: &Value) -> Violation
    ensures { result ≡ step_count_violation (option_copied change.entry) (view entry.now) }
{
    let holds = match change {
        Some(change) => count_at(entry, Name::Steps) > change.steps().len(),
        None => false,
    };
    Violation {
        holds,
        at: Some(Name::Steps),
        problem: Problem::TooManySteps(kind_of(change, 0), kind_of(change, 1)),
    }
}

/// Returns whether a change is of a deposed object.
fn is_deposed(change: Option<&Change>) -> bool
    ensures { result ≡ is_deposed (option_copied change.entry) }
{
    match change {
        Some(change) => change.deposed().is_some(),
        None => false,
    }
}

/// Returns whether the `failed` of a step has the severity `warning`.
pub fn only_warns(step: &Value) -> bool
    ensures { result ≡ only_warns (view step.now) }
{
    let Some(failed) = member(step, Name::Failed.text()) else {
        return false;
    };
    match member(failed, Name::Severity.text()) {
        Some(severity) => is_text(severity, "warning"),
        None => false,
    }
}

/// Returns whether a step may have provisioners: a create, or a delete that comes first and is of
/// an object that is not deposed.
fn takes_provisioners(is_deposed: bool, number: usize, kind: StepKind) -> bool
    ensures { result ≡ takes_provisioners is_deposed (number, kind) }
{
    kind.is_create() || (kind.is_delete() && number == 0 && !is_deposed)
}

fn is_read(kind: StepKind) -> bool
    ensures { result ≡ is_kind StepKind.Read kind }
{
    match kind {
        StepKind::Read => true,
        StepKind::Create | StepKind::Update | StepKind::Delete => false,
    }
}

/// Tests for members that a step of this kind may not have. `number` is the place of the step in
/// its change.
pub fn kind_violations(change: Option<&Change>, number: usize, step: &Value) -> [Violation; 2]
    ensures { result ≡ kind_violations (option_copied change.entry) number (view step.now) }
{
    let kind = kind_of(change, number);
    let (takes_none, is_no_read) = match kind {
        Some(kind) => (
            !takes_provisioners(is_deposed(change), number, kind),
            !is_read(kind),
        ),
        None => (false, false),
    };
    let kind = kind.unwrap_or(StepKind::Create);
    [
        Violation {
            holds: takes_none && count_at(step, Name::Provisioners) > 0,
            at: Some(Name::Provisioners),
            problem: Problem::TakesNone(kind),
        },
        Violation {
            holds: is_no_read && only_warns(step),
            at: Some(Name::Failed),
            problem: Problem::OnlyWarns(kind),
        },
    ]
}

/// Tests whether an item of `after` names a step that its change does not have.
pub fn missing_step_violation(change: Option<&Change>, step: Option<u64>) -> Violation
    ensures { result ≡ missing_step_violation (option_copied change.entry) step }
{
    let holds = match (change, step) {
        (Some(change), Some(step)) => step >= change.steps().len() as u64,
        _ => false,
    };
    Violation {
        holds,
        at: Some(Name::Step),
        problem: Problem::NoSuchStep(kind_of(change, 0), kind_of(change, 1)),
    }
}
