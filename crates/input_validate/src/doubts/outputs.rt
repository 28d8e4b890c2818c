//! Finds outputs that a plan leaves unknown and a script does not state.
//!
//! Every `Err` means that memory was refused.

ghost use Rattle.std.specs.Prelude.{◌≡◌, ◌&&◌, IfOk, not};
ghost use Rattle.serde_json.specs.View.{members_view, view};
ghost use Rattle.input_validate.specs.Doubts.{first_valueless, is_unknown, output_changes, states_output, valueless_output};
ghost use Rattle.input_validate.specs.Findings.{reported};

use crate::findings::list::Findings;
use crate::findings::name::Name;
use crate::findings::problem::Problem;
use apply_json_tree::members::member;
use serde_json::{Map, Value};
use std::alloc::{AllocError, Global};

/// Returns whether the plan leaves the value of an output unknown.
fn is_unknown(change: &Value) -> bool
    ensures { result ≡ is_unknown (view change.now) }
{
    match change.get("after_unknown") {
        Some(flag) => flag.as_bool().unwrap_or(false),
        None => false,
    }
}

/// Returns whether a script has an output of this name.
fn states_output(script: &Value, name: &str) -> bool
    ensures { result ≡ states_output (view script.now) name.now }
{
    match member(script, Name::Outputs.text()) {
        Some(outputs) => outputs.get(name).is_some(),
        None => false,
    }
}

/// Returns whether an output is left unknown, and the script does not state it.
fn is_valueless(script: &Value, name: &str, change: &Value) -> bool
    ensures { result ≡ (is_unknown (view change.now) && not (states_output (view script.now) name.now)) }
{
    is_unknown(change) && !states_output(script, name)
}

/// Returns the number of the first such output.
fn first_valueless(script: &Value, changes: &Map<String, Value>) -> Option<usize>
    ensures { result ≡ first_valueless (view script.now) 0 (members_view changes.now.entries) }
{
    let count = changes.len();
    let mut left = count;
    for (name, change) in changes {
        if is_valueless(script, name.as_str(), change) {
            return Some(count - left);
        }
        left -= 1;
    }
    None
}

/// Returns the number of the first such output of a plan.
fn first_in(plan: &Value, script: &Value) -> Option<usize>
    ensures { result ≡ first_valueless (view script.now) 0 (output_changes (view plan.now)) }
{
    match plan.get("output_changes") {
        Some(changes) => match changes.as_object() {
            Some(changes) => first_valueless(script, changes),
            None => None,
        },
        None => None,
    }
}

/// Reports the first output that the plan leaves unknown and the script does not state.
pub fn valueless_output(alloc: Global, plan: &Value, script: &Value) -> Result<Findings, AllocError>
    ensures { IfOk result (λ f. f ≡ reported (valueless_output (view plan.now) (view script.now))) }
{
    match first_in(plan, script) {
        Some(number) => Findings::here(alloc, Problem::ValuelessOutput(number)),
        None => Ok(Findings::none(alloc)),
    }
}
