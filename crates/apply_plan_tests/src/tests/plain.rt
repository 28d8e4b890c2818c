//! A plain and slow reader of plans, for comparison.
//!
//! It reads the whole tree, takes each element in a plan of its own, and compares it with every
//! earlier element. Results are lines of text: proofs are faster than for values that are dropped.

use super::table::{compare, push, put};
use super::*;
use apply_json::JsonFault;
use apply_json_tree::members::{array_or_empty, member, text_member, text_member_or};
use apply_json_tree::parse;
use apply_plan::{Change, MAX_BYTES, MAX_CHANGES, PlanError};
use serde_json::Value;

/// The result of the reader for a text.
fn answer_to(rt: &impl Abort, alloc: Global, text: &str) -> &'static Result<Plan, PlanError> {
    leaked(rt, alloc, read_plan(alloc, text.as_bytes()))
}

/// A line for the object of a change. No line of another change contains it.
fn object_of(rt: &impl Abort, alloc: Global, change: &Change) -> &'static str {
    let address = change.address();
    let deposed = change.deposed();
    let line = format!(in alloc; "\n{address:?} {deposed:?}\n");
    leaked_text(rt, alloc, line.expect(rt, "memory"))
}

/// Adds a change: the line of its object, and a line of all its values.
fn push_change(rt: &impl Abort, alloc: Global, lines: &mut String, change: &Change) {
    push(rt, lines, object_of(rt, alloc, change));
    push(rt, lines, printed(rt, alloc, change));
}

/// The lines of a plan: its version, and two lines for each change.
fn lines_of(rt: &impl Abort, alloc: Global, plan: &Plan) -> &'static str {
    let mut lines = String::new(alloc);
    push(rt, &mut lines, printed(rt, alloc, &plan.version()));
    for number in 0..plan.len() {
        push_change(rt, alloc, &mut lines, plan.change(number));
    }
    leaked_text(rt, alloc, lines)
}

/// The lines of the plan, or the message of the error.
fn result_text(rt: &impl Abort, alloc: Global, answer: &Result<Plan, PlanError>) -> &'static str {
    match answer {
        Ok(plan) => lines_of(rt, alloc, plan),
        Err(error) => shown(rt, alloc, error),
    }
}

/// The fault of an element in a plan of its own, with its number in the whole plan.
fn numbered(error: PlanError, number: u32) -> PlanError {
    match error {
        PlanError::BadChange(_) => PlanError::BadChange(number),
        PlanError::BadActions(_) => PlanError::BadActions(number),
        PlanError::BadAddress(_) => PlanError::BadAddress(number),
        other => other,
    }
}

/// The result of the reader for the element in a plan of its own.
fn alone(rt: &impl Abort, alloc: Global, element: &Value) -> &'static Result<Plan, PlanError> {
    let plan = r#"{"format_version":"1.0","resource_changes":[CELL]}"#;
    let plan = put(rt, alloc, plan, "CELL", shown(rt, alloc, element));
    answer_to(rt, alloc, plan)
}

/// Adds the only change of a plan to the lines. An earlier change of the same object is a fault.
fn fault_of_change(
    rt: &impl Abort,
    alloc: Global,
    lines: &mut String,
    number: u32,
    plan: &Plan,
) -> Option<PlanError> {
    holds(rt, "one change", plan.len() == 1);
    let change = plan.change(0);
    let is_repeated = lines.contains(object_of(rt, alloc, change));
    push_change(rt, alloc, lines, change);
    if is_repeated {
        Some(PlanError::Duplicate(number))
    } else {
        None
    }
}

/// The fault of the element. Without a fault its change is added to the lines.
fn fault_of(
    rt: &impl Abort,
    alloc: Global,
    lines: &mut String,
    number: u32,
    element: &Value,
) -> Option<PlanError> {
    match alone(rt, alloc, element) {
        Ok(plan) => fault_of_change(rt, alloc, lines, number, plan),
        Err(error) => Some(numbered(*error, number)),
    }
}

/// The fault of this number of elements, whatever they contain.
fn fault_of_count(count: usize) -> Option<PlanError> {
    if count > MAX_CHANGES {
        Some(PlanError::TooMany)
    } else {
        None
    }
}

/// The lines of a plan with this version and these elements, or the message of the first fault.
fn result_of_elements(
    rt: &impl Abort,
    alloc: Global,
    version: &str,
    elements: &[Value],
) -> &'static str {
    let mut lines = String::new(alloc);
    push(rt, &mut lines, printed(rt, alloc, &version));
    let mut fault = fault_of_count(elements.len());
    let mut number: u32 = 0;
    for element in elements {
        if fault.is_none() {
            fault = fault_of(rt, alloc, &mut lines, number, element);
        }
        number = number.saturating_add(1);
    }
    let lines = leaked_text(rt, alloc, lines);
    match fault {
        Some(fault) => shown(rt, alloc, &fault),
        None => lines,
    }
}

/// The version and the elements of a plan of format 1.x.
fn header_of(tree: &Value) -> Option<(&str, &[Value])> {
    let format = text_member(tree, "format_version")?;
    let version = text_member_or(tree, "terraform_version", "0.0.0")?;
    let elements = array_or_empty(member(tree, "resource_changes"))?;
    if format.starts_with("1.") {
        Some((version, elements))
    } else {
        None
    }
}

/// The result for a tree.
fn result_of_tree(rt: &impl Abort, alloc: Global, tree: &Value) -> &'static str {
    match header_of(tree) {
        Some((version, elements)) => result_of_elements(rt, alloc, version, elements),
        None => shown(rt, alloc, &PlanError::NotAPlan),
    }
}

/// The message for bytes without a tree.
fn refusal_for(fault: JsonFault) -> PlanError {
    match fault {
        JsonFault::TooLarge => PlanError::TooLarge,
        JsonFault::NotJson => PlanError::NotJson,
        JsonFault::Memory => PlanError::Memory,
    }
}

/// The result for a text, from its whole tree.
fn plain_result(rt: &impl Abort, alloc: Global, text: &str) -> &'static str {
    match leaked(rt, alloc, parse(alloc, text.as_bytes(), MAX_BYTES)) {
        Ok(tree) => result_of_tree(rt, alloc, tree),
        Err(fault) => shown(rt, alloc, &refusal_for(*fault)),
    }
}

/// Fails if the reader and the plain reader differ for the text.
///
/// Gives `accepted`, or the message of the error.
pub fn reads_as_plainly(rt: &impl Abort, alloc: Global, text: &str) -> &'static str {
    let answer = answer_to(rt, alloc, text);
    let result_text = result_text(rt, alloc, answer);
    compare(rt, text, result_text, plain_result(rt, alloc, text));
    if answer.is_ok() {
        "accepted"
    } else {
        result_text
    }
}
