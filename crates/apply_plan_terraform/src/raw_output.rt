//! Outputs whose members are JSON texts.

ghost use Rattle.std.specs.Prelude.{◌≡◌, IfOk};
ghost use Rattle.std.specs.Option.{option_copied};
ghost use Rattle.apply_plan_terraform.specs.RawOutput as outputs;
ghost use Rattle.apply_plan_terraform.specs.StoredOutputs.{view};

use crate::stored::stored_output::StoredOutput;
use apply_model::{Output, Text};
use std::alloc::{AllocError, Global};

/// Whether the text is `word`. False for `None`.
pub fn equals_word(text: Option<&str>, word: &str) -> bool
    ensures { result ≡ outputs.equals_word word.now (option_copied text.entry) }
{
    match text {
        Some(text) => text == word,
        None => false,
    }
}

/// Whether there is a type other than `null`.
pub fn is_kind(kind: Option<&str>) -> bool
    ensures { result ≡ outputs.is_kind (option_copied kind.entry) }
{
    kind.is_some() && !equals_word(kind, "null")
}

/// Whether `sensitive` is `true`, `false`, `null` or absent.
pub fn is_flag_or_absent(text: Option<&str>) -> bool
    ensures { result ≡ outputs.is_flag_or_absent (option_copied text.entry) }
{
    match text {
        Some(text) => text == "true" || text == "false" || text == "null",
        None => true,
    }
}

/// Builds output `name`, and copies its members. An absent type or value becomes `null`. `Err` when
/// memory is refused.
pub fn output_with(
    alloc: Global,
    name: &str,
    sensitive: Option<&str>,
    kind: Option<&str>,
    value: Option<&str>,
) -> Result<Output, AllocError>
    ensures { IfOk result (λ built. built ≡ outputs.output_with name.now
        (option_copied sensitive.entry) (option_copied kind.entry) (option_copied value.entry)) }
{
    Ok(Output {
        name: Text::new(alloc, name)?,
        sensitive: equals_word(sensitive, "true"),
        kind: text_or_null(alloc, kind)?,
        value: text_or_null(alloc, value)?,
    })
}

/// Whether the output is an object with a type. Its member `sensitive` must be a boolean, `null` or
/// absent.
pub fn is_output(output: &StoredOutput) -> bool
    ensures { result ≡ outputs.is_output (view output.now) }
{
    is_kind(output.kind()) && is_flag_or_absent(output.sensitive())
}

/// Builds output `name` from its stored members. An absent value becomes `null`. `Err` when memory
/// is refused.
pub fn output_of(alloc: Global, name: &str, output: &StoredOutput) -> Result<Output, AllocError>
    ensures { IfOk result (λ built. built ≡ outputs.output_of name.now (view output.now)) }
{
    output_with(
        alloc,
        name,
        output.sensitive(),
        output.kind(),
        output.value(),
    )
}

/// Copies the text, or `null` when there is none. `Err` when memory is refused.
fn text_or_null(alloc: Global, text: Option<&str>) -> Result<Text, AllocError>
    ensures { IfOk result (λ copy. copy ≡ outputs.or_null (option_copied text.entry)) }
{
    match text {
        Some(text) => Text::new(alloc, text),
        None => Text::new(alloc, "null"),
    }
}
