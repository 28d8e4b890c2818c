//! The text of a report: one line for each finding.
//!
//! Every `Err` means that memory was refused.

ghost use Rattle.std.specs.Prelude.{◌≡◌, ◌≢◌, ◌<◌, ◌+◌, ◌-◌, [], List, IfOk, OnOk, false, if◌then◌else◌, is_some, length, min, nat_lt, string_bytes, take};
ghost use Rattle.input_validate.specs.Findings.{reported};
ghost use Rattle.input_validate.specs.declared.findings.finding.Finding.{Finding as finding_type};
ghost use Rattle.input_validate_cli.specs.Lines.{line_count, lines_for, lines_of, max_printed};
ghost use Rattle.input_validate_cli.specs.Validated.{ReportsOn, accepted, nothing};

use crate::input_sizes::InputSizes;
use crate::texts::count::Count;
use crate::texts::finding::{Input, bytes_text, finding_text};
use crate::texts::plan_names::PlanNames;
use apply_json::JsonFault;
use apply_json_tree::parse;
use apply_plan::MAX_BYTES;
use input_validate::{Finding, Findings, InputFindings, Problem};
use serde_json::Value;
use std::alloc::{AllocError, Global};
use term_text::{nothing_hidden_is_shown, push_controls_escaped};

/// How many findings are printed.
const MAX_PRINTED: usize = 1000;

/// For how many unknown addresses near addresses are looked for, because each is compared with all
/// addresses of the plan. The same limit holds for outputs.
const MOST_SOUGHT: usize = 10;

/// Makes the lines that are printed: the first 1,000 findings, then how many more there are.
/// Without findings, one line accepts the inputs.
pub fn report_text(
    alloc: Global,
    findings: &InputFindings,
    plan: &[u8],
    script: Option<&[u8]>,
    sizes: InputSizes,
) -> Result<String, AllocError>
    ensures reports { IfOk result (λ text. ReportsOn findings.now.plan findings.now.script (is_some script.entry) (string_bytes text)) }
    ensures lines { (all more : List finding_type) → findings.now.plan ≡ reported all → findings.now.script ≡ reported more → (is_some script.entry ≡ false → more ≡ [])
        → IfOk result (λ text. line_count (string_bytes text) ≡ lines_for (length all + length more)) }
{
    let text = lines_text(alloc, findings, plan, script, sizes)?;
    or_accepted(text, script.is_some())
}

/// Returns the text, or the line that accepts the inputs if the text is empty.
fn or_accepted(mut text: String, has_script: bool) -> Result<String, AllocError>
    ensures some { IfOk result (λ all. 0 < length (string_bytes all)) }
    ensures accepted { string_bytes text ≡ [] → IfOk result (λ all. string_bytes all ≡ accepted has_script) }
    ensures same { string_bytes text ≢ [] → IfOk result (λ all. string_bytes all ≡ string_bytes text) }
{
    if text.is_empty() {
        text.push_str(accepted(has_script))?;
    }
    Ok(text)
}

/// Makes the lines of the findings.
fn lines_text(
    alloc: Global,
    findings: &InputFindings,
    plan: &[u8],
    script: Option<&[u8]>,
    sizes: InputSizes,
) -> Result<String, AllocError>
    ensures none { findings.now.plan ≡ nothing → findings.now.script ≡ nothing → IfOk result (λ text. string_bytes text ≡ []) }
    ensures lines { IfOk result (λ text. line_count (string_bytes text) ≡ lines_of findings.now.plan findings.now.script (is_some script.entry)) }
{
    let mut text = String::new(alloc);
    let tree = tree_of(alloc, plan)?;
    let names = PlanNames::of(alloc, tree.as_ref())?;
    push_findings(
        alloc,
        &mut text,
        Input::Plan(sizes.plan),
        &findings.plan,
        plan,
        &names,
        MAX_PRINTED,
    )?;
    push_script(alloc, &mut text, findings, script, sizes.script, &names)?;
    push_more(
        alloc,
        &mut text,
        findings
            .plan
            .count()
            .saturating_add(findings.script.count()),
    )?;
    Ok(text)
}

/// Adds the first findings of the script, if there is one.
fn push_script(
    alloc: Global,
    text: &mut String,
    findings: &InputFindings,
    script: Option<&[u8]>,
    len: u64,
    names: &PlanNames<'_>,
) -> Result<(), AllocError>
    ensures none { findings.now.script.stored ≡ [] → OnOk result (string_bytes text.new ≡ string_bytes text.old) }
    ensures lines { OnOk result (line_count (string_bytes text.new) ≡ line_count (string_bytes text.old)
        + (if is_some script.entry then min (max_printed - length findings.now.plan.stored) (length findings.now.script.stored) else 0)) }
{
    let Some(script) = script else {
        return Ok(());
    };
    let left = MAX_PRINTED.saturating_sub(findings.plan.stored().len());
    push_findings(
        alloc,
        text,
        Input::Script(len),
        &findings.script,
        script,
        names,
        left,
    )
}

/// Adds how many findings are not printed, if there are some.
fn push_more(alloc: Global, text: &mut String, count: usize) -> Result<(), AllocError>
    ensures none { count ≡ 0 → OnOk result (string_bytes text.new ≡ string_bytes text.old) }
    ensures lines { OnOk result (line_count (string_bytes text.new) ≡ line_count (string_bytes text.old) + (if nat_lt max_printed count then 1 else 0)) }
{
    if count <= MAX_PRINTED {
        return Ok(());
    }
    let more = Count((count - MAX_PRINTED) as u64);
    push_line(text, format!(in alloc; "and {more} more")?.as_str())
}

/// Returns the line that accepts the inputs.
fn accepted(has_script: bool) -> &'static str
    ensures { result.now ≡ accepted has_script }
{
    if has_script {
        "plan and script are accepted\n"
    } else {
        "the plan is accepted\n"
    }
}

/// Parses an input. `None` if it is too large or not JSON.
fn tree_of(alloc: Global, bytes: &[u8]) -> Result<Option<Value>, AllocError> {
    match parse(alloc, bytes, MAX_BYTES) {
        Ok(tree) => Ok(Some(tree)),
        Err(JsonFault::Memory) => Err(AllocError),
        Err(_) => Ok(None),
    }
}

/// Adds the first `most` findings of one input.
fn push_findings(
    alloc: Global,
    text: &mut String,
    input: Input,
    findings: &Findings,
    bytes: &[u8],
    names: &PlanNames<'_>,
    most: usize,
) -> Result<(), AllocError>
    ensures none { findings.now.stored ≡ [] → OnOk result (string_bytes text.new ≡ string_bytes text.old) }
    ensures lines { OnOk result (line_count (string_bytes text.new) ≡ line_count (string_bytes text.old) + min most (length findings.now.stored)) }
{
    let first = first_of(findings.stored(), most);
    if first.is_empty() {
        return Ok(());
    }
    match tree_of(alloc, bytes)? {
        Some(tree) => push_tree(alloc, text, input, first, &tree, names),
        None => push_no_tree(alloc, text, input, first, bytes),
    }
}

/// Returns the first `most` findings.
fn first_of(findings: &[Finding], most: usize) -> &[Finding]
    ensures { result.now ≡ take most findings.now }
{
    match findings.get(..most) {
        Some(first) => first,
        None => findings,
    }
}

/// Adds findings of an input that is JSON, one line each.
fn push_tree(
    alloc: Global,
    text: &mut String,
    input: Input,
    findings: &[Finding],
    tree: &Value,
    names: &PlanNames<'_>,
) -> Result<(), AllocError>
    ensures { OnOk result (line_count (string_bytes text.new) ≡ line_count (string_bytes text.old) + length findings.now) }
{
    let mut addresses = 0usize;
    let mut outputs = 0usize;
    for finding in findings {
        let has_near = match finding.problem {
            Problem::UnknownAddress => is_sought(&mut addresses),
            Problem::UnknownOutput => is_sought(&mut outputs),
            _ => false,
        };
        let line = finding_text(alloc, input, tree, finding, names, has_near)?;
        push_line(text, line.as_str())?;
    }
    Ok(())
}

/// Counts one more unknown name, and returns whether near names are looked for.
fn is_sought(count: &mut usize) -> bool {
    let before = *count;
    *count = before.saturating_add(1);
    before < MOST_SOUGHT
}

/// Adds findings of an input that is too large or not JSON, one line each.
fn push_no_tree(
    alloc: Global,
    text: &mut String,
    input: Input,
    findings: &[Finding],
    bytes: &[u8],
) -> Result<(), AllocError>
    ensures { OnOk result (line_count (string_bytes text.new) ≡ line_count (string_bytes text.old) + length findings.now) }
{
    for finding in findings {
        let line = bytes_text(alloc, input, bytes, finding.problem)?;
        push_line(text, line.as_str())?;
    }
    Ok(())
}

/// Adds a line.
///
/// All outside text in a line is already shown text. Showing the line again changes nothing
/// (`term_text::text_stands_as_it_is`), and proves for every line that it is one line and steers no
/// terminal.
fn push_line(text: &mut String, line: &str) -> Result<(), AllocError>
    ensures { OnOk result (line_count (string_bytes text.new) ≡ line_count (string_bytes text.old) + 1) }
{
    nothing_hidden_is_shown();
    push_controls_escaped(text, line.as_bytes())?;
    text.push('\n')
}
