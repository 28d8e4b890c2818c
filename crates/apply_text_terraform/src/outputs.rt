//! The line of the outputs. Types and values are JSON text already. Every `Err` means that memory
//! was refused.

ghost use Rattle.std.specs.Prelude.{◌≡◌, ◌++◌, [], codes, decimal, length, string_bytes, take, IfOk, OnErr, OnOk};
ghost use Rattle.json.specs.Print.{quoted};
ghost use Rattle.apply_text_terraform.specs.Escapes.{escaped};
ghost use Rattle.apply_text_terraform.specs.Lines.{line_of_text};
ghost use Rattle.apply_text_terraform.specs.Outputs as specs;
ghost use Rattle.apply_text_terraform.specs.Outputs.{output_text, outputs_from, outputs_message};

use crate::escaping::push_escaped;
use crate::timestamp::UtcTimestamp;
use apply_model::Output;
use json::Writer;
use std::alloc::{AllocError, Global};

/// The length of the line without its outputs, at most.
const LINE_LEN: usize = 160;

/// The length of an output without its name, type and value, at most.
const OUTPUT_LEN: usize = 48;

/// Appends the line of the outputs, piece by piece, so that no value is copied twice. Overwrites
/// `scratch`.
///
/// After an `Err` the lines are unchanged.
pub fn push_outputs(
    alloc: Global,
    lines: &mut Vec<u8>,
    scratch: &mut String,
    timestamp: &UtcTimestamp,
    outputs: &[Output],
) -> Result<(), AllocError>
    ensures ok { OnOk result (lines.new.items
        ≡ lines.old.items ++ line_of_text (outputs_message timestamp.now outputs.now)) }
    ensures err { OnErr result (lines.new.items ≡ lines.old.items) }
{
    let before = lines.len();
    match push_message(alloc, lines, scratch, timestamp, outputs) {
        Ok(()) => Ok(()),
        Err(refused) => {
            lines.truncate(before);
            Err(refused)
        }
    }
}

/// Appends the line of the outputs. Reserves memory for all of it at once. After an `Err` a part of
/// the line may be there.
fn push_message(
    alloc: Global,
    lines: &mut Vec<u8>,
    scratch: &mut String,
    timestamp: &UtcTimestamp,
    outputs: &[Output],
) -> Result<(), AllocError>
    ensures ok { OnOk result (lines.new.items
        ≡ lines.old.items ++ line_of_text (outputs_message timestamp.now outputs.now)) }
    ensures preserved { take (length lines.old.items) lines.new.items ≡ lines.old.items }
{
    lines.reserve(room_for(outputs))?;
    write_front(scratch, timestamp, outputs.len())?;
    push_escaped(lines, scratch.as_bytes())?;
    push_all(alloc, lines, scratch, outputs)?;
    lines.extend_from_slice(b"},\"type\":\"outputs\"}\n")
}

/// The length of the line of the outputs, at most. Escapes are not counted.
fn room_for(outputs: &[Output]) -> usize {
    let mut room = LINE_LEN;
    for output in outputs {
        room = room
            .saturating_add(OUTPUT_LEN)
            .saturating_add(output.name.as_str().len())
            .saturating_add(output.kind.as_str().len())
            .saturating_add(output.value.as_str().len());
    }
    room
}

/// Replaces `text` by the message up to its first output. `count` is the number of outputs.
fn write_front(text: &mut String, timestamp: &UtcTimestamp, count: usize) -> Result<(), AllocError>
    ensures { OnOk result (string_bytes text.new
        ≡ codes "{\"@level\":\"info\",\"@message\":\"Outputs: " ++ (decimal count
        ++ (codes "\",\"@module\":\"terraform.ui\",\"@timestamp\":\"" ++ (timestamp.now ++ codes "\",\"outputs\":{")))) }
{
    text.clear();
    write!(
        text,
        "{{\"@level\":\"info\",\"@message\":\"Outputs: {count}\",\"@module\":\"terraform.ui\",\"@timestamp\":\"{timestamp}\",\"outputs\":{{"
    )
}

/// Appends the outputs, separated by commas. After an `Err` a part may be there.
fn push_all(
    alloc: Global,
    lines: &mut Vec<u8>,
    scratch: &mut String,
    outputs: &[Output],
) -> Result<(), AllocError>
    ensures ok { OnOk result
        (lines.new.items ≡ lines.old.items ++ escaped (outputs_from [] outputs.now)) }
    ensures preserved { take (length lines.old.items) lines.new.items ≡ lines.old.items }
{
    match outputs {
        [] => Ok(()),
        [first, others @ ..] => {
            push_output(alloc, lines, scratch, "", first)?;
            push_more(alloc, lines, scratch, others)
        }
    }
}

/// Appends more outputs, each after a comma. After an `Err` a part may be there.
fn push_more(
    alloc: Global,
    lines: &mut Vec<u8>,
    scratch: &mut String,
    outputs: &[Output],
) -> Result<(), AllocError>
    ensures ok { OnOk result
        (lines.new.items ≡ lines.old.items ++ escaped (outputs_from (codes ",") outputs.now)) }
    ensures preserved { take (length lines.old.items) lines.new.items ≡ lines.old.items }
{
    for output in outputs {
        push_output(alloc, lines, scratch, ",", output)?;
    }
    Ok(())
}

/// Appends `comma` and an output. After an `Err` a part may be there.
fn push_output(
    alloc: Global,
    lines: &mut Vec<u8>,
    scratch: &mut String,
    comma: &str,
    output: &Output,
) -> Result<(), AllocError>
    ensures ok { OnOk result (lines.new.items ≡ lines.old.items
        ++ escaped (comma.now ++ (quoted output.now.name ++ output_text output.now))) }
    ensures preserved { take (length lines.old.items) lines.new.items ≡ lines.old.items }
{
    write_name(alloc, scratch, comma, output)?;
    push_escaped(lines, scratch.as_bytes())?;
    push_escaped(lines, output.kind.as_str().as_bytes())?;
    if output.sensitive {
        lines.extend_from_slice(b"}")
    } else {
        push_value(lines, output.value.as_str())
    }
}

/// Appends the value of an output, after its type. After an `Err` a part may be there.
fn push_value(lines: &mut Vec<u8>, value: &str) -> Result<(), AllocError>
    ensures ok { OnOk result
        (lines.new.items ≡ lines.old.items ++ escaped (codes ",\"value\":" ++ (value.now ++ codes "}"))) }
    ensures preserved { take (length lines.old.items) lines.new.items ≡ lines.old.items }
{
    lines.extend_from_slice(b",\"value\":")?;
    push_escaped(lines, value.as_bytes())?;
    lines.extend_from_slice(b"}")
}

/// Replaces `text` by `comma` and the output up to its type.
fn write_name(
    alloc: Global,
    text: &mut String,
    comma: &str,
    output: &Output,
) -> Result<(), AllocError>
    ensures { OnOk result (string_bytes text.new
        ≡ comma.now ++ (quoted output.now.name ++ specs.before_type output.now.sensitive)) }
{
    let name = quoted_text(alloc, output.name.as_str())?;
    let name = name.as_str();
    let before_type = before_type(output.sensitive);
    text.clear();
    write!(text, "{comma}{name}{before_type}")
}

/// The text between the name of an output and its type.
fn before_type(sensitive: bool) -> &'static str
    ensures { result.now ≡ specs.before_type sensitive }
{
    if sensitive {
        ":{\"sensitive\":true,\"type\":"
    } else {
        ":{\"sensitive\":false,\"type\":"
    }
}

/// The text as a JSON string.
fn quoted_text(alloc: Global, text: &str) -> Result<String, AllocError>
    ensures { IfOk result (λ whole. string_bytes whole ≡ quoted text.now) }
{
    let mut out = Writer::new(Vec::new(alloc));
    out.string(text)?;
    Ok(String::from_utf8(out.into_inner()).unwrap())
}
