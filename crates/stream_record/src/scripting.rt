//! The text of a script.

ghost use Rattle.std.specs.Prelude.{◌≡◌, ◌≢◌, ◌≤◌, ◌<◌, IfErr, IfOk, Ok, Err, OnOk, length, true};
ghost use Rattle.stream_record.specs.declared.script_fault.ScriptFault.TheVariants.{Memory, TooLarge};
ghost use Rattle.stream_record.specs.ScriptText.{max_bytes, script_within};
ghost use Rattle.term_words.specs.MessageTexts.{is_whole_text, text_bytes};

use crate::diagnostics::push_notes;
use crate::entries::{entry_steps, push_entry};
use crate::output::Output;
use crate::parts::push_opening;
use crate::script_fault::ScriptFault;
use crate::script_outputs::push_outputs;
use apply_model::{Note, Plan, StepOutcomes};
use std::alloc::Global;
use term_words::MessageText;

/// The most bytes of a script: 64 MiB, as many as a run takes.
pub const MAX_BYTES: usize = 67_108_864;

/// The text of a script of that plan, on one line that ends in a line feed.
///
/// `script` has an item for each change of the plan, by number: the steps that the script states, or
/// nothing. Each change with stated steps has an entry, in the plan's order. Waits for steps that the plan
/// does not have are ignored. Types, values, ranges and snippets are written as they are.
///
/// `ScriptFault::TooLarge` if the script has more than 67,108,864 bytes, and `ScriptFault::Memory`
/// if memory is refused.
pub fn script_text(
    alloc: Global,
    plan: &Plan,
    script: &[Option<StepOutcomes>],
    outputs: &[Output],
    notes: &[Note],
) -> Result<MessageText, ScriptFault>
    ensures ok { IfOk result (λ text. script_within plan.now.changes script.now outputs.now notes.now ≡ Ok (text_bytes text)) }
    ensures err { IfErr result (λ fault. fault ≢ Memory
        → script_within plan.now.changes script.now outputs.now notes.now ≡ Err fault) }
{
    let mut text = MessageText::new(alloc);
    text.text("{\"changes\":[");
    let mut later = false;
    for number in 0..plan.len() {
        let change = plan.change(number);
        if let Some(steps) = entry_steps(script, number) {
            push_opening(&mut text, "", later);
            push_entry(&mut text, plan, change, steps);
            check_size(&text)?;
            later = true;
        }
    }
    text.text("]");
    push_outputs(&mut text, outputs);
    push_notes(&mut text, notes);
    text.text("}\n");
    check_size(&text)?;
    Ok(text)
}

/// Checks that the text is whole, and no larger than a script may be.
fn check_size(text: &MessageText) -> Result<(), ScriptFault>
    ensures ok { OnOk result ((is_whole_text text.now ≡ true) × (length (text_bytes text.now) ≤ max_bytes)) }
    ensures err { IfErr result (λ fault. fault ≢ Memory
        → (fault ≡ TooLarge) × (is_whole_text text.now ≡ true) × (max_bytes < length (text_bytes text.now))) }
{
    if !text.is_whole() {
        Err(ScriptFault::Memory)
    } else if text.as_bytes().len() > MAX_BYTES {
        Err(ScriptFault::TooLarge)
    } else {
        Ok(())
    }
}
