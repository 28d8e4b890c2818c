//! Finds failures that no step waits for.
//!
//! Every `Err` means that memory was refused.

ghost use Rattle.std.specs.Prelude.{◌≡◌, IfOk};
ghost use Rattle.serde_json.specs.View.{view};
ghost use Rattle.input_validate.specs.Doubts.{failure_of_step, failure_violation, unheeded_failures, unheeded_in_entry};
ghost use Rattle.input_validate.specs.Findings.{reported};

use crate::against_plan::violations::only_warns;
use crate::doubts::waited::Waited;
use crate::findings::list::Findings;
use crate::findings::name::Name;
use crate::findings::problem::Problem;
use crate::plan::object_name::ObjectName;
use crate::rules::members::{walk_items_at, walk_violations};
use crate::rules::violation::Violation;
use crate::rules::walk::Walk;
use apply_json_tree::members::member;
use serde_json::Value;
use std::alloc::{AllocError, Global};

/// Tests whether a step fails. A failure that only warns is none.
fn failure_violation(step: &Value) -> Violation
    ensures { result ≡ failure_violation (view step.now) }
{
    Violation {
        holds: member(step, Name::Failed.text()).is_some() && !only_warns(step),
        at: Some(Name::Failed),
        problem: Problem::UnheededFailure,
    }
}

/// A step that fails.
#[derive(Clone, Copy)]
struct Failure;

impl<'a> Walk<'a> for Failure {
    ghost findings = { λ _ _ d. failure_of_step d };

    fn walk(
        &self,
        alloc: Global,
        _number: usize,
        value: &'a Value,
    ) -> Result<Findings, AllocError> {
        walk_violations(alloc, &[failure_violation(value)])
    }
}

/// An entry with steps that fail, while no step waits for its object.
#[derive(Drop)]
struct Unheeded<'w, 'a> {
    waited: &'w Waited<'a>,
}

impl<'a> Walk<'a> for Unheeded<'_, 'a> {
    ghost findings = { λ unheeded _ d. unheeded_in_entry unheeded.waited.now d };

    fn walk(
        &self,
        alloc: Global,
        _number: usize,
        value: &'a Value,
    ) -> Result<Findings, AllocError> {
        if self.waited.has(ObjectName::of(value)) {
            Ok(Findings::none(alloc))
        } else {
            walk_items_at(alloc, &Failure, value, Name::Steps)
        }
    }
}

/// Lists the steps of a script that fail while no step waits for their change.
pub fn unheeded_failures(alloc: Global, script: &Value) -> Result<Findings, AllocError>
    ensures { IfOk result (λ f. f ≡ reported (unheeded_failures (view script.now))) }
{
    let waited = Waited::of(alloc, script)?;
    walk_items_at(alloc, &Unheeded { waited: &waited }, script, Name::Changes)
}
