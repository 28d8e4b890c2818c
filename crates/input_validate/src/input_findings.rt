//! Lists the errors of a plan and a script, from their bytes.
//!
//! Every `Err` means that memory was refused.

ghost use Rattle.std.specs.Prelude.{◌≡◌, ◌++◌, [], IfOk, None, Some, if◌then◌else◌};
ghost use Rattle.std.specs.Option.{option_copied};
ghost use Rattle.serde_json.specs.View.{view};
ghost use Rattle.apply_plan.specs.Plan.SavedPlan.{plan_of};
ghost use Rattle.apply_plan.specs.Script.NeverBeginning.{never_beginning_of};
ghost use Rattle.apply_plan.specs.Script.OutcomeMap.{script_of};
ghost use Rattle.input_validate.specs.AgainstPlan.{place_of_waits, waits_findings};
ghost use Rattle.input_validate.specs.Findings.{reported};
ghost use Rattle.input_validate.specs.InForm.{findings_in};
ghost use Rattle.input_validate.specs.ScriptFindings.{in_script};
ghost use Rattle.input_validate.specs.Whole.{after_first, refusals_against_plan, changes_in, entry_of_refusal, given_findings, plan_findings, refusals_of, refused_for, script_findings, script_findings_for, stuck_entries, unless_waits, waits_at, waits_without_lanes};

use crate::against_plan::planned::Planned;
use crate::against_plan::waiting::{place_of_waits, waits_findings};
use crate::doubts::whole::doubts_unless;
use crate::extras::bytes::extras_for;
use crate::findings::list::{Findings, is_either, joined};
use crate::findings::name::Name;
use crate::findings::path::{Path, Segment};
use crate::findings::problem::Problem;
use crate::form::Form;
use crate::plan::top_level::walk_plan;
use crate::script::top_level::walk_script;
use apply_json::JsonFault;
use apply_json_tree::parse;
use apply_plan::{
    MAX_BYTES, Plan, PlanError, Script, ScriptError, never_beginning, read_plan, read_script,
};
use serde_json::Value;
use std::alloc::{AllocError, Global};

/// Lists the errors of a saved plan (JSON Output Format, "Plan Representation"). There is one if
/// and only if `apply_plan::read_plan` refuses the plan.
pub fn findings_of_plan(alloc: Global, bytes: &[u8]) -> Result<Findings, AllocError>
    ensures { IfOk result (λ f. f ≡ reported (plan_findings bytes.now)) }
{
    match parse(alloc, bytes, MAX_BYTES) {
        Ok(plan) => walk_plan(alloc, &plan),
        Err(JsonFault::TooLarge) => Findings::here(alloc, Problem::TooManyBytes),
        Err(JsonFault::NotJson) => Findings::here(alloc, Problem::NotJson),
        Err(JsonFault::Memory) => Err(AllocError),
    }
}

/// Checks the bytes of a script. With a plan, the script is compared with the changes of the plan.
fn findings_against(
    alloc: Global,
    plan: Option<&Plan>,
    bytes: &[u8],
) -> Result<Findings, AllocError>
    ensures { IfOk result (λ f. f ≡ reported (script_findings (changes_in (option_copied plan.entry)) bytes.now)) }
{
    match parse(alloc, bytes, MAX_BYTES) {
        Ok(script) => walk_against_plan(alloc, plan, &script),
        Err(JsonFault::TooLarge) => Findings::here(alloc, Problem::TooManyBytes),
        Err(JsonFault::NotJson) => Findings::here(alloc, Problem::NotJson),
        Err(JsonFault::Memory) => Err(AllocError),
    }
}

/// Checks the tree of a script. With a plan, the script is compared with the changes of the plan.
fn walk_against_plan(
    alloc: Global,
    plan: Option<&Plan>,
    script: &Value,
) -> Result<Findings, AllocError>
    ensures { IfOk result (λ f. f ≡ reported (in_script (changes_in (option_copied plan.entry)) (view script.now))) }
{
    match plan {
        Some(plan) => {
            let planned = Planned::of(alloc, plan)?;
            walk_script(alloc, Some(&planned), script)
        }
        None => walk_script(alloc, None, script),
    }
}

/// Lists the errors of a script alone, without a look at a plan.
pub fn findings_of_script(alloc: Global, bytes: &[u8]) -> Result<Findings, AllocError>
    ensures { IfOk result (λ f. f ≡ reported (script_findings None bytes.now)) }
{
    findings_against(alloc, None, bytes)
}

/// The findings of a plan and of a script for it.
#[derive(Debug, Drop)]
pub struct InputFindings {
    /// The findings of the plan.
    pub plan: Findings,
    /// The findings of the script. Without a script there are none.
    pub script: Findings,
}

/// Lists the errors of a saved plan, and of a script for it.
///
/// There is an error if and only if a run of the same bytes in that form refuses the plan or the
/// script. `lanes` says that the run has `--parallelism`; without it no step may wait. If the plan
/// has an error, the script is not compared with it. If there is no error, the last findings are
/// doubts: what a run accepts, and what is likely a mistake.
pub fn findings_of(
    alloc: Global,
    plan: &[u8],
    script: Option<&[u8]>,
    lanes: bool,
    form: Form,
) -> Result<InputFindings, AllocError>
    ensures plan { IfOk result (λ both. both.plan ≡ reported (plan_findings plan.now)) }
    ensures script { IfOk result (λ both. both.script ≡ reported (findings_in form lanes plan.now (option_copied script.entry))) }
{
    let of_plan = findings_of_plan(alloc, plan)?;
    let of_script = findings_given(alloc, plan, script, lanes)?;
    let extras = extras_for(alloc, form, of_plan.refuses(), plan, script)?;
    let all = of_script.then(extras)?;
    let is_refused = is_either(of_plan.refuses(), all.refuses());
    let doubts = doubts_unless(alloc, is_refused, form, lanes, plan, script)?;
    Ok(InputFindings {
        plan: of_plan,
        script: all.then(doubts)?,
    })
}

/// Lists the errors of a script, if one is given.
fn findings_given(
    alloc: Global,
    plan: &[u8],
    script: Option<&[u8]>,
    lanes: bool,
) -> Result<Findings, AllocError>
    ensures { IfOk result (λ f. f ≡ reported (given_findings lanes (plan_of plan.now) (option_copied script.entry))) }
{
    match script {
        Some(bytes) => findings_for(alloc, plan, bytes, lanes),
        None => Ok(Findings::none(alloc)),
    }
}

/// Lists the errors of a script for a plan that a run may refuse.
fn findings_for(
    alloc: Global,
    plan: &[u8],
    bytes: &[u8],
    lanes: bool,
) -> Result<Findings, AllocError>
    ensures { IfOk result (λ f. f ≡ reported (script_findings_for lanes (plan_of plan.now) bytes.now)) }
{
    match read_plan(alloc, plan) {
        Ok(plan) => findings_against_plan(alloc, &plan, bytes, lanes),
        Err(PlanError::Memory) => Err(AllocError),
        Err(_) => findings_without_plan(alloc, bytes, lanes),
    }
}

/// Lists the errors of a script for a plan that a run refuses.
fn findings_without_plan(alloc: Global, bytes: &[u8], lanes: bool) -> Result<Findings, AllocError>
    ensures { IfOk result (λ f. f ≡ reported (script_findings None bytes.now ++ waits_without_lanes lanes None bytes.now)) }
{
    let findings = findings_against(alloc, None, bytes);
    joined(findings, waits_without_lanes(alloc, lanes, None, bytes))
}

/// Lists the errors of a script for a plan that a run accepts.
fn findings_against_plan(
    alloc: Global,
    plan: &Plan,
    bytes: &[u8],
    lanes: bool,
) -> Result<Findings, AllocError>
    ensures { IfOk result (λ f. f ≡ reported (script_findings (Some plan.now.changes) bytes.now ++ refusals_against_plan lanes plan.now bytes.now)) }
{
    let findings = findings_against(alloc, Some(plan), bytes)?;
    let refusals = refusals_against_plan(alloc, findings.refuses(), plan, bytes, lanes)?;
    let all = findings.then(refusals)?;
    Ok(all)
}

/// Adds what a run refuses the script for, as `read_script` does. If the script has an error
/// already (`is_refused`), only waits without lanes are added.
fn refusals_against_plan(
    alloc: Global,
    is_refused: bool,
    plan: &Plan,
    bytes: &[u8],
    lanes: bool,
) -> Result<Findings, AllocError>
    ensures { IfOk result (λ f. f ≡ reported (if is_refused then waits_without_lanes lanes (Some plan.now.changes) bytes.now
        else refusals_of lanes plan.now.changes bytes.now (script_of plan.now bytes.now) (never_beginning_of plan.now bytes.now))) }
{
    if is_refused {
        return waits_without_lanes(alloc, lanes, Some(plan), bytes);
    }
    match read_script(alloc, bytes, plan) {
        Ok(script) => unless_waits(alloc, lanes, plan, bytes, &script),
        Err(ScriptError::Memory) => Err(AllocError),
        Err(refusal) => refused_with(alloc, lanes, refusal, plan, bytes),
    }
}

/// Reports a refusal, then each further entry with a step that can never start, then waits without
/// lanes.
fn refused_with(
    alloc: Global,
    lanes: bool,
    refusal: ScriptError,
    plan: &Plan,
    bytes: &[u8],
) -> Result<Findings, AllocError>
    ensures { IfOk result (λ f. f ≡ reported (refused_for refusal ++ stuck_entries (after_first (never_beginning_of plan.now bytes.now))
        ++ waits_without_lanes lanes (Some plan.now.changes) bytes.now)) }
{
    let first = refused_for(alloc, refusal);
    let all = joined(first, stuck_after_first(alloc, plan, bytes));
    joined(all, waits_without_lanes(alloc, lanes, Some(plan), bytes))
}

/// Reports each entry with a step that can never start, except the first.
fn stuck_after_first(alloc: Global, plan: &Plan, bytes: &[u8]) -> Result<Findings, AllocError>
    ensures { IfOk result (λ f. f ≡ reported (stuck_entries (after_first (never_beginning_of plan.now bytes.now)))) }
{
    match never_beginning(alloc, bytes, plan) {
        Ok(numbers) => match numbers.as_slice() {
            [_, others @ ..] => stuck_entries(alloc, others),
            [] => Ok(Findings::none(alloc)),
        },
        Err(ScriptError::Memory) => Err(AllocError),
        Err(_) => Ok(Findings::none(alloc)),
    }
}

/// Reports that each of these entries has a step that can never start.
fn stuck_entries(alloc: Global, numbers: &[u32]) -> Result<Findings, AllocError>
    ensures { IfOk result (λ f. f ≡ reported (stuck_entries numbers.now)) }
{
    let mut all = Findings::none(alloc);
    for number in numbers {
        all = all.then(refused_for(alloc, ScriptError::NeverBegins(*number))?)?;
    }
    Ok(all)
}

/// Reports waits in a script that a run reads, unless the run has lanes. The place is the first
/// waiting step.
fn unless_waits(
    alloc: Global,
    lanes: bool,
    plan: &Plan,
    bytes: &[u8],
    script: &Script,
) -> Result<Findings, AllocError>
    ensures { IfOk result (λ f. f ≡ reported (unless_waits lanes plan.now.changes bytes.now script.now)) }
{
    if !lanes && script.has_waits() {
        Findings::one(alloc, waits_at(alloc, plan, bytes)?, Problem::Waits)
    } else {
        Ok(Findings::none(alloc))
    }
}

/// Makes the path to the first waiting step, from the bytes of a script.
fn waits_at(alloc: Global, plan: &Plan, bytes: &[u8]) -> Result<Path, AllocError>
    ensures { IfOk result (λ path. path ≡ waits_at (Some plan.now.changes) bytes.now) }
{
    match parse(alloc, bytes, MAX_BYTES) {
        Ok(script) => waits_path_in_tree(alloc, plan, &script),
        Err(JsonFault::TooLarge) => Ok(Path::here(alloc)),
        Err(JsonFault::NotJson) => Ok(Path::here(alloc)),
        Err(JsonFault::Memory) => Err(AllocError),
    }
}

/// Makes the path to the first waiting step, in the tree of a script.
fn waits_path_in_tree(alloc: Global, plan: &Plan, script: &Value) -> Result<Path, AllocError>
    ensures { IfOk result (λ path. path ≡ place_of_waits (Some plan.now.changes) (view script.now)) }
{
    let planned = Planned::of(alloc, plan)?;
    place_of_waits(alloc, Some(&planned), script)
}

/// Reports waits in the bytes of a script, whatever other errors it has. With lanes nothing is
/// reported.
fn waits_without_lanes(
    alloc: Global,
    lanes: bool,
    plan: Option<&Plan>,
    bytes: &[u8],
) -> Result<Findings, AllocError>
    ensures { IfOk result (λ f. f ≡ reported (waits_without_lanes lanes (changes_in (option_copied plan.entry)) bytes.now)) }
{
    if lanes {
        return Ok(Findings::none(alloc));
    }
    match parse(alloc, bytes, MAX_BYTES) {
        Ok(script) => waits_in_tree(alloc, plan, &script),
        Err(JsonFault::TooLarge) => Ok(Findings::none(alloc)),
        Err(JsonFault::NotJson) => Ok(Findings::none(alloc)),
        Err(JsonFault::Memory) => Err(AllocError),
    }
}

/// Reports waits in the tree of a script.
fn waits_in_tree(alloc: Global, plan: Option<&Plan>, script: &Value) -> Result<Findings, AllocError>
    ensures { IfOk result (λ f. f ≡ reported (waits_findings (changes_in (option_copied plan.entry)) (view script.now))) }
{
    match plan {
        Some(plan) => {
            let planned = Planned::of(alloc, plan)?;
            waits_findings(alloc, Some(&planned), script)
        }
        None => waits_findings(alloc, None, script),
    }
}

/// Reports a refusal at the entry that it names, or at the top.
fn refused_for(alloc: Global, refusal: ScriptError) -> Result<Findings, AllocError>
    ensures { IfOk result (λ f. f ≡ reported (refused_for refusal)) }
{
    let findings = Findings::here(alloc, Problem::ForPlan(refusal))?;
    match entry_of(refusal) {
        Some(number) => {
            let findings = findings.under(Segment::Item(number))?;
            let findings = findings.under(Segment::Member(Name::Changes))?;
            Ok(findings)
        }
        None => Ok(findings),
    }
}

/// Returns the number of the entry that a refusal names.
fn entry_of(refusal: ScriptError) -> Option<usize>
    ensures { result ≡ entry_of_refusal refusal }
{
    match refusal {
        ScriptError::BadShape(Some(number))
        | ScriptError::UnknownChange(number)
        | ScriptError::Duplicate(number)
        | ScriptError::TooManySteps(number)
        | ScriptError::SecondsRange(number)
        | ScriptError::TooManyProvisioners(number)
        | ScriptError::TooMuchOutput(number)
        | ScriptError::NotACreate(number)
        | ScriptError::WarnsNotARead(number)
        | ScriptError::TooManyWaits(number)
        | ScriptError::UnknownWait(number)
        | ScriptError::NoSuchStep(number)
        | ScriptError::NeverBegins(number) => Some(number as usize),
        _ => None,
    }
}
