//! Reads the planned changes of outputs. Every `Err` means that memory was refused.

ghost use Rattle.std.specs.Prelude.{◌≡◌, IfOk, option_map};
ghost use Rattle.serde_json.specs.View.{members_view, view};
ghost use Rattle.apply_prior.specs.Outputs.{changes_of, output_action, output_action_of, output_of, outputs_in, planned_outputs_of};

use crate::actions::action_of;
use crate::lookups::is_true;
use crate::planned_output::{OutputAction, PlannedOutput};
use apply_json_tree::members::member;
use apply_model::{Action, Text};
use serde_json::{Map, Value};
use std::alloc::{AllocError, Global};

/// Reads the planned changes of a plan's outputs, in the byte order of names.
pub fn planned_outputs_of(alloc: Global, plan: &Value) -> Result<Vec<PlannedOutput>, AllocError>
    ensures { IfOk result (λ outputs. outputs.items ≡ planned_outputs_of (view plan.now)) }
{
    match members_of(plan) {
        Some(changes) => outputs_in(alloc, changes),
        None => Ok(Vec::new(alloc)),
    }
}

/// The members of `output_changes`.
fn members_of(plan: &Value) -> Option<&Map<String, Value>>
    ensures { option_map (λ changes. members_view changes.now.entries) result ≡ changes_of (view plan.now) }
{
    member(plan, "output_changes")?.as_object()
}

fn outputs_in(alloc: Global, changes: &Map<String, Value>) -> Result<Vec<PlannedOutput>, AllocError>
    ensures { IfOk result (λ outputs. outputs.items ≡ outputs_in (members_view changes.now.entries)) }
{
    let mut outputs = Vec::new(alloc);
    for (name, change) in changes {
        if let Some(output) = output_of(alloc, name.as_str(), change)? {
            outputs.push(output)?;
        }
    }
    Ok(outputs)
}

/// Reads the planned change of an output. `None` means that its actions are invalid.
fn output_of(alloc: Global, name: &str, change: &Value) -> Result<Option<PlannedOutput>, AllocError>
    ensures { IfOk result (λ output. output ≡ output_of name.now (view change.now)) }
{
    match output_action_of(change) {
        Some(action) => Ok(Some(PlannedOutput {
            name: Text::new(alloc, name)?,
            action,
            sensitive: is_true(member(change, "after_sensitive")),
        })),
        None => Ok(None),
    }
}

/// What a planned change does to an output. `None` means that its actions are invalid.
fn output_action_of(change: &Value) -> Option<OutputAction>
    ensures { result ≡ output_action_of (view change.now) }
{
    output_action(action_of(change)?)
}

/// What an action does to an output. `None` means that no output has that action.
fn output_action(action: Action) -> Option<OutputAction>
    ensures { result ≡ output_action action }
{
    match action {
        Action::NoOp => Some(OutputAction::NoOp),
        Action::Create => Some(OutputAction::Create),
        Action::Read => Some(OutputAction::Read),
        Action::Update => Some(OutputAction::Update),
        Action::Delete => Some(OutputAction::Delete),
        Action::DeleteThenCreate | Action::CreateThenDelete => Some(OutputAction::Replace),
        Action::Forget => None,
    }
}
