//! Outputs of a script.

ghost use Rattle.std.specs.Prelude.{◌≡◌};
ghost use Rattle.stream_record.specs.Parts.{flag_text};
ghost use Rattle.stream_record.specs.ScriptText.{output_text, outputs_text};
ghost use Rattle.term_words.specs.MessageTexts.{AppendsText};

use crate::output::Output;
use crate::parts::{as_text, push_closing, push_opening, push_raw_member};
use term_words::MessageText;

/// Adds the outputs, if there are some.
pub fn push_outputs(text: &mut MessageText, outputs: &[Output])
    ensures { AppendsText text.old text.new (outputs_text outputs.now) }
{
    let mut later = false;
    for output in outputs {
        push_opening(text, ",\"outputs\":{", later);
        push_output(text, output);
        later = true;
    }
    push_closing(text, "}", later);
}

/// Adds an output.
fn push_output(text: &mut MessageText, output: &Output)
    ensures { AppendsText text.old text.new (output_text output.now) }
{
    text.json_string(output.name.as_str());
    text.text(":{\"sensitive\":");
    text.text(flag_text(output.is_sensitive));
    text.text(",\"type\":");
    text.text(output.type_json.as_str());
    push_raw_member(text, ",\"value\":", as_text(&output.value_json));
    text.text("}");
}

fn flag_text(flag: bool) -> &'static str
    ensures { result.now ≡ flag_text flag }
{
    if flag { "true" } else { "false" }
}
