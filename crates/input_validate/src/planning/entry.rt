//! Checks an entry of `planning`.

ghost use Rattle.std.specs.Prelude.{◌≡◌, IfOk};
ghost use Rattle.std.specs.Option.{option_copied};
ghost use Rattle.serde_json.specs.View.{view};
ghost use Rattle.input_validate.specs.Findings.{reported};
ghost use Rattle.input_validate.specs.Planning.{beside_skipped, failed_violations, in_planned, in_planned_members, skipped_gone, skipped_id, skipped_seconds};

use crate::findings::expected::Expected;
use crate::findings::list::{Findings, joined};
use crate::findings::name::Name;
use crate::findings::problem::Problem;
use crate::planning::known_objects::KnownObjects;
use crate::planning::object::{again_violation, walk_object_of};
use crate::rules::ignored_members::walk_ignored;
use crate::rules::members::{fault, faults, is_set, walk_inside, walk_violations};
use crate::rules::rule::MemberRule;
use crate::rules::violation::Violation;
use crate::script::failure::Failure;
use crate::script::step::is_skipped;
use apply_json_tree::members::{member, non_empty_text_member};
use serde_json::Value;
use std::alloc::{AllocError, Global};

const TABLE: [MemberRule; 3] = [
    MemberRule {
        name: Name::Address,
        expected: Expected::NonEmptyText,
    },
    MemberRule {
        name: Name::Deposed,
        expected: Expected::TextOrAbsent,
    },
    MemberRule {
        name: Name::Seconds,
        expected: Expected::SecondsOrAbsent,
    },
];

const ID: MemberRule = MemberRule {
    name: Name::Id,
    expected: Expected::TextOrAbsent,
};

const GONE: MemberRule = MemberRule {
    name: Name::Gone,
    expected: Expected::FlagOrAbsent,
};

const SKIPPED: MemberRule = MemberRule {
    name: Name::Skipped,
    expected: Expected::FlagOrAbsent,
};

pub(crate) const NAMES: [Name; 7] = [
    Name::Address,
    Name::Deposed,
    Name::Seconds,
    Name::Id,
    Name::Failed,
    Name::Gone,
    Name::Skipped,
];

/// Tests whether a member stands next to `skipped`, where it may not.
fn beside_skipped(entry: &Value, name: Name, stands: bool) -> Violation
    ensures { result ≡ beside_skipped name stands (view entry.now) }
{
    Violation {
        holds: is_skipped(entry) && stands,
        at: Some(name),
        problem: Problem::WithSkippedObject,
    }
}

fn skipped_seconds(entry: &Value) -> Violation
    ensures { result ≡ skipped_seconds (view entry.now) }
{
    let seconds = member(entry, Name::Seconds.text());
    beside_skipped(entry, Name::Seconds, seconds.is_some())
}

fn skipped_id(entry: &Value) -> Violation
    ensures { result ≡ skipped_id (view entry.now) }
{
    let id = non_empty_text_member(entry, Name::Id.text());
    beside_skipped(entry, Name::Id, id.is_some())
}

fn skipped_gone(entry: &Value) -> Violation
    ensures { result ≡ skipped_gone (view entry.now) }
{
    beside_skipped(entry, Name::Gone, is_set(entry, Name::Gone))
}

/// Tests whether `failed` stands next to `gone` or `skipped`.
fn failed_violations(entry: &Value) -> [Violation; 2]
    ensures { result ≡ failed_violations (view entry.now) }
{
    let has_failed = member(entry, Name::Failed.text()).is_some();
    [
        Violation {
            holds: is_set(entry, Name::Gone) && has_failed,
            at: Some(Name::Failed),
            problem: Problem::WithGone,
        },
        beside_skipped(entry, Name::Failed, has_failed),
    ]
}

/// Checks the members of an entry, in their order. `Err` means that memory was refused.
#[tactic(auto, unfolding(crate::specs::Planning::in_planned_members))]
fn walk_members(alloc: Global, entry: &Value) -> Result<Findings, AllocError>
    ensures { IfOk result (λ f. f ≡ reported (in_planned_members (view entry.now))) }
{
    let all = faults(alloc, entry, &TABLE);
    let all = joined(all, walk_violations(alloc, &[skipped_seconds(entry)]));
    let all = joined(all, fault(alloc, entry, ID));
    let all = joined(all, walk_violations(alloc, &[skipped_id(entry)]));
    let all = joined(all, walk_inside(alloc, &Failure, entry, Name::Failed));
    let all = joined(all, walk_violations(alloc, &failed_violations(entry)));
    let all = joined(all, fault(alloc, entry, GONE));
    let all = joined(all, walk_violations(alloc, &[skipped_gone(entry)]));
    joined(all, fault(alloc, entry, SKIPPED))
}

/// Checks an entry. With `known`, it is compared with the objects of the plan. `first` is the
/// number of the first earlier entry about the same object. `Err` means that memory was refused.
#[tactic(auto, unfolding(crate::specs::Planning::in_planned))]
pub fn walk_planned<'a>(
    alloc: Global,
    known: Option<&KnownObjects<'a>>,
    first: Option<usize>,
    entry: &'a Value,
) -> Result<Findings, AllocError>
    ensures { IfOk result (λ f. f ≡ reported (in_planned (option_copied known.entry) first (view entry.now))) }
{
    if !Expected::Planned.suits(entry) {
        return Findings::here(alloc, Problem::IsNot(Expected::Planned));
    }
    let all = walk_members(alloc, entry);
    let all = joined(all, walk_object_of(alloc, known, entry));
    let all = joined(all, walk_violations(alloc, &[again_violation(first)]));
    joined(all, walk_ignored(alloc, entry, &NAMES))
}
