//! Entries of a script.

ghost use Rattle.std.specs.Prelude.{◌≡◌};
ghost use Rattle.std.specs.Option.{option_copied};
ghost use Rattle.apply_model.specs.Script.OutcomeMap.{stated_steps};
ghost use Rattle.stream_record.specs.ScriptText.{entry_steps, entry_text};
ghost use Rattle.term_words.specs.MessageTexts.{AppendsText};

use crate::parts::push_text_member;
use crate::steps::push_steps;
use apply_model::{Change, Plan, StepOutcomes};
use term_words::MessageText;

/// The steps that the script states for the change of this number. `None` if it states no step.
pub fn entry_steps(script: &[Option<StepOutcomes>], number: u32) -> Option<&StepOutcomes>
    ensures { option_copied result ≡ entry_steps script.now number }
{
    let steps = stated_steps(script, number)?;
    if steps.len() > 0 { Some(steps) } else { None }
}

/// The steps that the script states for the change of this number, if it states the change.
fn stated_steps(script: &[Option<StepOutcomes>], number: u32) -> Option<&StepOutcomes>
    ensures { option_copied result ≡ stated_steps script.now number }
{
    script.get(number as usize)?.as_ref()
}

/// Adds the entry of a change of the plan, with these steps.
pub fn push_entry(text: &mut MessageText, plan: &Plan, change: &Change, steps: &StepOutcomes)
    ensures { AppendsText text.old text.new (entry_text plan.now.changes change.now steps.now) }
{
    text.text("{\"address\":");
    text.json_string(change.address());
    push_text_member(text, ",\"deposed\":", change.deposed());
    push_steps(text, plan, steps);
    text.text("}");
}
