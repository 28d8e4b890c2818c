//! The outputs that a script can repeat. Every `Err` means that memory was refused.

ghost use Rattle.std.specs.Prelude.{◌≡◌, ◌++◌, [], IfOk, OnOk, option_and_then, option_map, string_bytes};
ghost use Rattle.std.specs.List.{cons_option, filter_map};
ghost use Rattle.std.specs.Option.{option_copied};
ghost use Rattle.stream_record_lines.specs.Outputs.{output_of, unless_null_json};
ghost use Rattle.stream_record_lines.specs.OutputSlots.{entries_view, statement_view};

use crate::outputs::output::Output;
use crate::outputs::statement::Statement;
use apply_json::is_text;
use apply_model::Text;
use indexmap::IndexMap;
use std::alloc::{AllocError, Global};

/// Returns the outputs that have a type and no action, in the order of the map.
#[tactic(auto, using(crate::proofs::Appended::one_more))]
pub fn repeatable(
    alloc: Global,
    found: IndexMap<String, Statement>,
) -> Result<Vec<Output>, AllocError>
    ensures { IfOk result (λ outputs. outputs.items ≡ filter_map output_of (entries_view found.entries)) }
{
    let mut outputs = Vec::new(alloc);
    for (name, statement) in found {
        let output = output_of(alloc, name.as_str(), &statement)?;
        push_if_some(&mut outputs, output)?;
    }
    Ok(outputs)
}

/// Adds the output, if there is one.
fn push_if_some(outputs: &mut Vec<Output>, output: Option<Output>) -> Result<(), AllocError>
    ensures { OnOk result (outputs.new.items ≡ outputs.old.items ++ cons_option output []) }
{
    if let Some(output) = output {
        outputs.push(output)?;
    }
    Ok(())
}

/// The output of that name, if it has a type and no action.
fn output_of(alloc: Global, name: &str, statement: &Statement) -> Result<Option<Output>, AllocError>
    ensures { IfOk result (λ output. output ≡ output_of (statement_view name.now statement.now)) }
{
    if statement.has_action {
        return Ok(None);
    }
    let Some(json) = unless_null_json(borrowed(&statement.type_json)) else {
        return Ok(None);
    };
    let type_json = Text::new(alloc, json)?;
    let value_json = Text::of_option(alloc, borrowed(&statement.value_json))?;
    let name = Text::new(alloc, name)?;
    Ok(Some(Output {
        name,
        is_sensitive: statement.is_sensitive,
        type_json,
        value_json,
    }))
}

/// The JSON text. `None` if it is `null`.
fn unless_null_json(json: Option<&str>) -> Option<&str>
    ensures { option_copied result ≡ option_and_then unless_null_json (option_copied json.entry) }
{
    let json = json?;
    if is_text(json, "null") {
        None
    } else {
        Some(json)
    }
}

/// The text, borrowed.
fn borrowed(text: &Option<String>) -> Option<&str>
    ensures { option_copied result ≡ option_map string_bytes text.now }
{
    match text {
        Some(text) => Some(text.as_str()),
        None => None,
    }
}
