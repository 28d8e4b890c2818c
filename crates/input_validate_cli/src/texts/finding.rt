//! The text of one finding.
//!
//! Every `Err` means that memory was refused.

use crate::texts::against_plan::{
    no_such_step_text, only_warns_text, takes_none_text, too_many_steps_text, unknown_address_text,
    unknown_object_text,
};
use crate::texts::count::Count;
use crate::texts::expected::expected_text;
use crate::texts::jq_path::{path_text, value_at};
use crate::texts::json_end::json_end;
use crate::texts::nearest_names::not_read_text;
use crate::texts::plan_names::{PlanNames, text_at};
use crate::texts::plan_outputs::unknown_output_text;
use crate::texts::text_place::TextPlace;
use crate::texts::value::{shortened_json, value_text};
use apply_plan::{
    MAX_BYTES, MAX_CHANGES, MAX_OUTPUTS, MAX_PROVISIONERS, MAX_SECONDS, MAX_WAITS, ScriptError,
};
use input_validate::{Finding, MAX_PLANNED, Name, Problem};
use serde_json::Value;
use std::alloc::{AllocError, Global};

/// The input that a finding is about, with its size in bytes.
#[derive(Clone, Copy)]
pub enum Input {
    Plan(u64),
    Script(u64),
}

impl Input {
    fn word(self) -> &'static str {
        match self {
            Input::Plan(_) => "plan",
            Input::Script(_) => "script",
        }
    }

    fn len(self) -> Count {
        match self {
            Input::Plan(len) | Input::Script(len) => Count(len),
        }
    }

    /// Returns whether the input is the file of a saved plan, a zip file, in place of its JSON.
    fn is_saved_plan(self, bytes: &[u8]) -> bool {
        match self {
            Input::Plan(_) => bytes.starts_with(b"PK"),
            Input::Script(_) => false,
        }
    }
}

/// The line for the file of a saved plan.
const SAVED_PLAN: &str = "plan .: is a saved plan: terraform show -json PLANFILE prints it as JSON";

/// The eight lists of actions.
const ACTIONS: &str =
    r#"["no-op"], ["create"], ["read"], ["update"], ["delete"], ["forget"], ["delete","create"] or ["create","delete"]"#;

/// Makes the line for an input that is too large or not JSON. `bytes` is the input.
pub fn bytes_text(
    alloc: Global,
    input: Input,
    bytes: &[u8],
    problem: Problem,
) -> Result<String, AllocError> {
    let word = input.word();
    match problem {
        Problem::TooManyBytes => {
            let (len, most) = (input.len(), Count(MAX_BYTES as u64));
            format!(in alloc; "{word} .: has {len} bytes, {most} at most")
        }
        _ if input.is_saved_plan(bytes) => String::from_str(alloc, SAVED_PLAN),
        _ => {
            let TextPlace { line, column } = json_end(alloc, bytes)?;
            format!(in alloc;
                "{word} line {line}, column {column}: is not JSON, or nested more than 127 deep"
            )
        }
    }
}

/// Makes the line for a finding. `has_near` tells whether near names are added for an unknown
/// address or output.
pub fn finding_text(
    alloc: Global,
    input: Input,
    tree: &Value,
    finding: &Finding,
    names: &PlanNames<'_>,
    has_near: bool,
) -> Result<String, AllocError> {
    let (word, path) = place_text(alloc, input, tree, finding, names)?;
    let text = what_text(alloc, tree, finding, names, has_near)?;
    if finding.problem.is_refusal() {
        format!(in alloc; "{word} {path}: {text}")
    } else {
        format!(in alloc; "warning: {word} {path}: {text}")
    }
}

/// Makes the text of a place: the input, and the path. A doubt about an output is placed in the
/// plan.
fn place_text(
    alloc: Global,
    input: Input,
    tree: &Value,
    finding: &Finding,
    names: &PlanNames<'_>,
) -> Result<(&'static str, String), AllocError> {
    match finding.problem {
        Problem::ValuelessOutput(number) => Ok(("plan", names.changed_output_path(alloc, number)?)),
        _ => Ok((input.word(), path_text(alloc, tree, &finding.path)?)),
    }
}

/// Makes the text behind the path: what is wrong with the value.
fn what_text(
    alloc: Global,
    tree: &Value,
    finding: &Finding,
    names: &PlanNames<'_>,
    has_near: bool,
) -> Result<String, AllocError> {
    let stated = value_at(tree, &finding.path, finding.path.len());
    match finding.problem {
        Problem::IsNot(expected) => {
            let shown = shown_or_empty(alloc, stated)?;
            let expected = expected_text(expected);
            format!(in alloc; "is {shown}, and has to be {expected}")
        }
        Problem::IsMissing(expected) => {
            let expected = expected_text(expected);
            format!(in alloc; "is missing, and has to be {expected}")
        }
        Problem::TooManyBytes => String::from_str(alloc, "is too large"),
        Problem::NotJson => String::from_str(alloc, "is not JSON, or nested more than 127 deep"),
        Problem::TooManyChanges => {
            let (count, most) = (Count(count_of(stated)), Count(MAX_CHANGES as u64));
            format!(in alloc; "has {count} changes, {most} at most")
        }
        Problem::BadActions => {
            let shown = json_or_empty(alloc, stated)?;
            format!(in alloc; "is {shown}, and has to be {ACTIONS}")
        }
        Problem::EmptyAddress => String::from_str(alloc, "is empty"),
        Problem::OutsideModule => {
            let shown = json_or_empty(alloc, stated)?;
            let front = module_front(alloc, tree, finding)?;
            format!(in alloc; "is {shown}, and has to begin with its module, {front}")
        }
        Problem::NamedBefore(number) => {
            let address = address_text(alloc, stated)?;
            format!(in alloc; "is of the object of .resource_changes[{number}] again: {address}")
        }
        Problem::UnknownAddress => {
            let near = if has_near { Some(names) } else { None };
            unknown_address_text(alloc, tree, finding, near)
        }
        Problem::UnknownObject => unknown_object_text(alloc, tree, finding, names),
        Problem::UnknownOutput => {
            let near = if has_near { Some(names) } else { None };
            unknown_output_text(alloc, tree, finding, near)
        }
        Problem::AboutAgain(number) => {
            let address = address_text(alloc, stated)?;
            format!(in alloc; "is about the change of .changes[{number}] again: {address}")
        }
        Problem::TooManySteps(first, second) => {
            too_many_steps_text(alloc, count_of(stated), first, second)
        }
        Problem::TakesNone(kind) => takes_none_text(alloc, kind),
        Problem::OnlyWarns(kind) => only_warns_text(alloc, kind),
        Problem::NoSuchStep(first, second) => {
            let shown = shown_or_empty(alloc, stated)?;
            no_such_step_text(alloc, shown.as_str(), first, second)
        }
        Problem::TooManyWaits => {
            let most = Count(MAX_WAITS as u64);
            format!(in alloc; "goes beyond {most} waits")
        }
        Problem::WithFailed => {
            String::from_str(
                alloc,
                "stands beside `failed`, and a step that failed has none",
            )
        }
        Problem::WithSkipped => {
            String::from_str(
                alloc,
                "stands beside `skipped`, and a step that is skipped has none",
            )
        }
        Problem::WithGone => {
            String::from_str(
                alloc,
                "stands beside `gone`, and an object that is gone has none",
            )
        }
        Problem::WithSkippedObject => {
            String::from_str(
                alloc,
                "stands beside `skipped`, and an object that is skipped has none",
            )
        }
        Problem::TooLong => too_long_text(alloc, stated),
        Problem::TooManyProvisioners => {
            let (count, most) = (Count(count_of(stated)), Count(MAX_PROVISIONERS as u64));
            format!(in alloc; "has {count} provisioners, {most} at most")
        }
        Problem::TooManyTexts => {
            let (count, most) = (Count(count_of(stated)), Count(MAX_OUTPUTS as u64));
            format!(in alloc; "has {count} texts, {most} at most")
        }
        Problem::AfterTheEnd(seconds) => {
            let shown = shown_or_empty(alloc, stated)?;
            format!(in alloc;
                "is {shown}, and has to be {seconds} at most, the seconds of its provisioner"
            )
        }
        Problem::OutOfOrder(before) => {
            let shown = shown_or_empty(alloc, stated)?;
            format!(in alloc; "is {shown}, and has to be {before} at least, as the item before it")
        }
        Problem::TooManyPlanned => {
            let (count, most) = (Count(count_of(stated)), Count(MAX_PLANNED as u64));
            format!(in alloc; "has {count} objects, {most} at most")
        }
        Problem::NoObject => {
            let shown = json_or_empty(alloc, stated)?;
            format!(in alloc; "is {shown}, which the plan does not know and no resource can have")
        }
        Problem::OnlyRefreshed => {
            String::from_str(
                alloc,
                "stands at a data source, and only an object that is refreshed may have it",
            )
        }
        Problem::OnlyReadWarns => {
            String::from_str(
                alloc,
                "only warns at an object that is refreshed, and only that of a data source may",
            )
        }
        Problem::PlannedBefore(number) => {
            let address = address_text(alloc, stated)?;
            format!(in alloc; "is about the object of .planning[{number}] again: {address}")
        }
        Problem::NotRead => not_read_text(alloc, tree, finding),
        Problem::ForPlan(refusal) => String::from_str(alloc, for_plan_text(refusal)),
        Problem::Waits => String::from_str(alloc, "waits, which takes --parallelism"),
        Problem::UnheededFailure => {
            String::from_str(alloc, "fails, and no step waits for it (\"after\")")
        }
        Problem::NeedlessSkip => {
            String::from_str(alloc, "nothing fails, so Terraform would not skip it")
        }
        Problem::ValuelessOutput(_) => {
            String::from_str(alloc, "is unknown, and the script tells no value")
        }
    }
}

/// Returns the text for a refusal that no other finding explains.
fn for_plan_text(refusal: ScriptError) -> &'static str {
    match refusal {
        ScriptError::NeverBegins(_) => "has a step that could never begin",
        _ => "is refused",
    }
}

fn shown_or_empty(alloc: Global, stated: Option<&Value>) -> Result<String, AllocError> {
    match stated {
        Some(value) => value_text(alloc, value),
        None => Ok(String::new(alloc)),
    }
}

fn json_or_empty(alloc: Global, stated: Option<&Value>) -> Result<String, AllocError> {
    match stated {
        Some(value) => shortened_json(alloc, value),
        None => Ok(String::new(alloc)),
    }
}

/// Counts the items of an array. Any other value counts as empty.
fn count_of(stated: Option<&Value>) -> u64 {
    match stated {
        Some(Value::Array(items)) => items.len() as u64,
        _ => 0,
    }
}

/// Returns the address of an element or of an entry, as JSON.
fn address_text(alloc: Global, stated: Option<&Value>) -> Result<String, AllocError> {
    let Some(value) = stated else {
        return Ok(String::new(alloc));
    };
    json_or_empty(alloc, value.get(Name::Address.text()))
}

/// Returns how an address in the module of an element has to start: with the module's address and a
/// dot.
fn module_front(alloc: Global, tree: &Value, finding: &Finding) -> Result<String, AllocError> {
    let element = value_at(tree, &finding.path, finding.path.len().saturating_sub(1));
    let module = match element {
        Some(element) => text_at(element, Name::ModuleAddress).unwrap_or(""),
        None => "",
    };
    let front = Value::String(format!(in alloc; "{module}.")?);
    shortened_json(alloc, &front)
}

/// Makes the text for a step that takes longer than a day.
fn too_long_text(alloc: Global, stated: Option<&Value>) -> Result<String, AllocError> {
    let most = Count(u64::from(MAX_SECONDS));
    let Some(step) = stated else {
        return Ok(String::new(alloc));
    };
    let mut total = seconds_of(step);
    let mut words = "";
    if let Some(Value::Array(provisioners)) = step.get(Name::Provisioners.text()) {
        for provisioner in provisioners {
            total = total.saturating_add(seconds_of(provisioner));
            words = ", its provisioners included";
        }
    }
    let total = Count(total);
    format!(in alloc; "takes {total} seconds{words}, {most} at most")
}

fn seconds_of(value: &Value) -> u64 {
    match value.get(Name::Seconds.text()) {
        Some(seconds) => seconds.as_u64().unwrap_or(0),
        None => 0,
    }
}
