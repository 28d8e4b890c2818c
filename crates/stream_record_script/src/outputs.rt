//! Which outputs of a stream a recorded script states.
//!
//! Every `Err` means that memory was refused.

ghost use Rattle.std.specs.Prelude.{◌≡◌, IfOk, map};
ghost use Rattle.std.specs.List.{filter_map, flat_map};
ghost use Rattle.std.specs.Option.{option_copied};
ghost use Rattle.apply_plan_terraform.specs.Outputs.{outputs_view};
ghost use Rattle.stream_record_script.specs.Outputs.{is_same, is_told, is_value, known_outputs, output_warning, outputs_told, script_output, shown_value, unknown_outputs, unless_told};
ghost use Rattle.term_words.specs.MessageTexts.{AppendsText};

use crate::told_outputs::ToldOutputs;
use apply_model as model;
use apply_model::Text;
use apply_plan_terraform::{Extras, PlanOutputs, written_outputs};
use std::alloc::{AllocError, Global};
use stream_record as script;
use stream_record_lines::Output;
use stream_record_warnings::{begin, end};
use term_words::MessageText;

/// The outputs of a stream, by whether the plan has them.
#[derive(Drop)]
pub struct SplitOutputs<'s> {
    /// Those that the plan has after the apply.
    pub known: Vec<&'s Output>,
    /// The others.
    pub unknown: Vec<&'s Output>,
}

/// The outputs of a stream, by whether the plan has them.
pub fn split_outputs<'s>(
    alloc: Global,
    plan: &PlanOutputs,
    outputs: &'s [Output],
) -> Result<SplitOutputs<'s>, AllocError>
    ensures known { IfOk result (λ split. map (λ output. output.now) split.known.items ≡ known_outputs (outputs_view plan.now) outputs.now) }
    ensures unknown { IfOk result (λ split. map (λ output. output.now) split.unknown.items ≡ unknown_outputs (outputs_view plan.now) outputs.now) }
{
    let names = plan.names(alloc)?;
    let mut known = Vec::new(alloc);
    let mut unknown = Vec::new(alloc);
    for output in outputs {
        if plan.has(&names, output.name.as_str()) {
            known.push(output)?;
        } else {
            unknown.push(output)?;
        }
    }
    Ok(SplitOutputs { known, unknown })
}

/// The outputs that a run tells without a script.
pub fn outputs_told(alloc: Global, plan: PlanOutputs) -> Result<Vec<model::Output>, AllocError>
    ensures { IfOk result (λ outputs. outputs.items ≡ outputs_told (outputs_view plan)) }
{
    written_outputs(alloc, plan, Extras::none(alloc))
}

/// The outputs of the script: these, but for what a run tells the same way.
pub fn script_outputs(
    alloc: Global,
    told: &[model::Output],
    known: &[&Output],
) -> Result<Vec<script::Output>, AllocError>
    ensures { IfOk result (λ outputs. outputs.items ≡ filter_map (unless_told told.now) (map (λ output. output.now) known.now)) }
{
    let told = ToldOutputs::new(alloc, told)?;
    let mut outputs = Vec::new(alloc);
    for output in known {
        if !is_told(&told, output) {
            outputs.push(script_output(alloc, output)?)?;
        }
    }
    Ok(outputs)
}

/// Whether a run tells the output the same way.
fn is_told(told: &ToldOutputs<'_>, output: &Output) -> bool
    ensures { result ≡ is_told told.now output.now }
{
    match told.named(output.name.as_str()) {
        Some(other) => is_same(output, other),
        None => false,
    }
}

/// Whether a run tells the output with this type, and with this value, if it may be shown.
fn is_same(output: &Output, other: &model::Output) -> bool
    ensures { result ≡ is_same output.now other.now }
{
    output.is_sensitive == other.sensitive
        && output.type_json.as_str() == other.kind.as_str()
        && (output.is_sensitive || has_value(output, other.value.as_str()))
}

/// Whether the output has that value, as JSON text.
fn has_value(output: &Output, value: &str) -> bool
    ensures { result ≡ is_value value.now output.now.value_json }
{
    match &output.value_json {
        Some(json) => json.as_str() == value,
        None => false,
    }
}

/// The output, without a value that must not be shown.
fn script_output(alloc: Global, output: &Output) -> Result<script::Output, AllocError>
    ensures { IfOk result (λ made. made ≡ script_output output.now) }
{
    Ok(script::Output {
        name: Text::new(alloc, output.name.as_str())?,
        is_sensitive: output.is_sensitive,
        type_json: Text::new(alloc, output.type_json.as_str())?,
        value_json: shown_value(alloc, output)?,
    })
}

/// The value, unless it must not be shown.
fn shown_value(alloc: Global, output: &Output) -> Result<Option<Text>, AllocError>
    ensures { IfOk result (λ value. value ≡ shown_value output.now) }
{
    match &output.value_json {
        Some(json) if !output.is_sensitive => Ok(Some(Text::new(alloc, json.as_str())?)),
        _ => Ok(None),
    }
}

/// Adds a warning for each of these outputs, which the plan does not have.
pub fn push_output_warnings(text: &mut MessageText, unknown: &[&Output])
    ensures { AppendsText text.old text.new (flat_map output_warning (map (λ output. output.now) unknown.now)) }
{
    for output in unknown {
        push_output_warning(text, output);
    }
}

/// Adds a warning about an output that the plan does not have.
fn push_output_warning(text: &mut MessageText, output: &Output)
    ensures { AppendsText text.old text.new (output_warning output.now) }
{
    begin(text);
    text.text("the output ");
    text.escaped(output.name.as_str().as_bytes());
    text.text(" is no output of the plan");
    end(text);
}
