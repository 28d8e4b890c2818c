//! The outputs of a provisioner, before their texts are copied.

ghost use Rattle.std.specs.Prelude.{◌≡◌, ◌≤◌, IfOk, length, map, true};
ghost use Rattle.apply_model.specs.Script.Limits.{max_outputs, max_seconds};
ghost use Rattle.apply_model.specs.Script.Outcome.{are_in_time};
ghost use Rattle.apply_plan.specs.Script.Entry.{timed};
ghost use Rattle.apply_plan.specs.Script.OutputView.{outputs_view};

use crate::script::raw_output::RawOutput;
use apply_model::TimedTexts;
use std::alloc::{AllocError, Global};

/// Whether the outputs come in order, and none after the provisioner, which takes `seconds`.
pub fn are_in_time(outputs: &[RawOutput<'_>], seconds: u64) -> bool
    ensures { result ≡ are_in_time 0 seconds (map (timed seconds) (outputs_view outputs.now)) }
{
    let mut before = 0;
    for output in outputs {
        let after = output.seconds_of(seconds);
        if after < before || after > seconds {
            return false;
        }
        before = after;
    }
    true
}

/// Copies the outputs of a provisioner that takes `seconds`. `Err` means that memory was refused.
pub fn copied_outputs(
    alloc: Global,
    outputs: &[RawOutput<'_>],
    seconds: u64,
) -> Result<TimedTexts, AllocError>
    requires few { length outputs.now ≤ max_outputs }
    requires short { seconds ≤ max_seconds }
    requires in_time { are_in_time 0 seconds (map (timed seconds) (outputs_view outputs.now)) ≡ true }
    ensures { IfOk result (λ copy. copy ≡ map (timed seconds) (outputs_view outputs.now)) }
{
    let mut texts = Vec::with_capacity(alloc, outputs.len())?;
    for output in outputs {
        texts.push(output.copied(alloc, seconds)?)?;
    }
    Ok(TimedTexts::new(texts))
}
