//! Checks an element of `resource_changes` by itself.

ghost use Rattle.std.specs.Prelude.{◌≡◌, IfOk, is_some};
ghost use Rattle.serde_json.specs.View.{items_view, view};
ghost use Rattle.apply_plan.specs.Plan.Steps.{steps_alone, steps_together};
ghost use Rattle.input_validate.specs.Findings.{reported};
ghost use Rattle.input_validate.specs.PlanFindings.{actions_violation, address_violations, by_itself, has_empty_address, in_change, is_one_of_eight, misplaces};

use crate::findings::expected::Expected;
use crate::findings::list::{Findings, joined};
use crate::findings::name::Name;
use crate::findings::problem::Problem;
use crate::rules::members::{faults, walk_inside, walk_violations};
use crate::rules::rule::MemberRule;
use crate::rules::violation::Violation;
use crate::rules::walk::Walk;
use apply_json_tree::members::{is_text, member, text_member, text_member_or};
use apply_model::relative_address;
use serde_json::Value;
use std::alloc::{AllocError, Global};

const TABLE: [MemberRule; 8] = [
    MemberRule {
        name: Name::Address,
        expected: Expected::Text,
    },
    MemberRule {
        name: Name::ModuleAddress,
        expected: Expected::TextOrAbsent,
    },
    MemberRule {
        name: Name::Mode,
        expected: Expected::Mode,
    },
    MemberRule {
        name: Name::Kind,
        expected: Expected::NonEmptyText,
    },
    MemberRule {
        name: Name::Name,
        expected: Expected::NonEmptyText,
    },
    MemberRule {
        name: Name::Index,
        expected: Expected::Key,
    },
    MemberRule {
        name: Name::Deposed,
        expected: Expected::TextOrAbsent,
    },
    MemberRule {
        name: Name::Change,
        expected: Expected::Object,
    },
];

const ACTIONS: [MemberRule; 1] = [MemberRule {
    name: Name::Actions,
    expected: Expected::Array,
}];

/// Returns whether a list of actions is one of the eight that a plan may have.
fn is_one_of_eight(actions: &[Value]) -> bool
    ensures { result ≡ is_one_of_eight (items_view actions.now) }
{
    match actions {
        [alone] => is_single(alone),
        [first, second] => is_replacement(first, second),
        _ => false,
    }
}

/// Returns whether an action may stand alone.
fn is_single(action: &Value) -> bool
    ensures { result ≡ is_some (steps_alone (view action.now)) }
{
    is_text(action, "no-op")
        || is_text(action, "create")
        || is_text(action, "read")
        || is_text(action, "update")
        || is_text(action, "delete")
        || is_text(action, "forget")
}

/// Returns whether two actions replace an object.
fn is_replacement(first: &Value, second: &Value) -> bool
    ensures { result ≡ is_some (steps_together (view first.now) (view second.now)) }
{
    (is_text(first, "delete") && is_text(second, "create"))
        || (is_text(first, "create") && is_text(second, "delete"))
}

/// Tests whether `actions` is an array, but none of the eight lists.
fn actions_violation(change: &Value) -> Violation
    ensures { result ≡ actions_violation (view change.now) }
{
    let holds = match member(change, Name::Actions.text()) {
        Some(list) => match list.as_array() {
            Some(actions) => !is_one_of_eight(actions),
            None => false,
        },
        None => false,
    };
    Violation {
        holds,
        at: Some(Name::Actions),
        problem: Problem::BadActions,
    }
}

/// The member `change` of an element.
#[derive(Clone, Copy)]
struct Change;

impl<'a> Walk<'a> for Change {
    ghost findings = { λ _ _ d. in_change d };

    #[tactic(auto, unfolding(crate::specs::PlanFindings::in_change))]
    fn walk(
        &self,
        alloc: Global,
        _number: usize,
        value: &'a Value,
    ) -> Result<Findings, AllocError> {
        if !value.is_object() {
            return Ok(Findings::none(alloc));
        }
        let all = faults(alloc, value, &ACTIONS);
        joined(all, walk_violations(alloc, &[actions_violation(value)]))
    }
}

/// Returns whether the address is outside the module that the element names.
fn misplaces(element: &Value) -> bool
    ensures { result ≡ misplaces (view element.now) }
{
    let Some(address) = text_member(element, Name::Address.text()) else {
        return false;
    };
    match text_member_or(element, Name::ModuleAddress.text(), "") {
        Some(module_address) => relative_address(module_address, address).is_none(),
        None => false,
    }
}

fn has_empty_address(element: &Value) -> bool
    ensures { result ≡ has_empty_address (view element.now) }
{
    match text_member(element, Name::Address.text()) {
        Some(address) => address.is_empty(),
        None => false,
    }
}

/// Tests whether the address is empty, or outside its module.
fn address_violations(element: &Value) -> [Violation; 2]
    ensures { result ≡ address_violations (view element.now) }
{
    let misplaced = misplaces(element);
    let empty = has_empty_address(element);
    [
        Violation {
            holds: misplaced && empty,
            at: Some(Name::Address),
            problem: Problem::EmptyAddress,
        },
        Violation {
            holds: misplaced && !empty,
            at: Some(Name::Address),
            problem: Problem::OutsideModule,
        },
    ]
}

/// Checks an element that is an object, without a look at other elements. `Err` means that memory
/// was refused.
pub fn walk_by_itself(alloc: Global, element: &Value) -> Result<Findings, AllocError>
    ensures { IfOk result (λ f. f ≡ reported (by_itself (view element.now))) }
{
    let all = faults(alloc, element, &TABLE);
    let all = joined(all, walk_inside(alloc, &Change, element, Name::Change));
    joined(all, walk_violations(alloc, &address_violations(element)))
}
