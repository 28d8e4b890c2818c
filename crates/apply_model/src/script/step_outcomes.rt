//! What a script states of the steps of one change.

ghost use Rattle.std.specs.Prelude.{◌≡◌, length, slice_get};
ghost use Rattle.std.specs.List.{list_any, position_from};
ghost use Rattle.std.specs.Option.{option_copied};
ghost use Rattle.apply_model.specs.Script.Step.{if_byte, is_skipped};
ghost use Rattle.apply_model.specs.Script.Waits.{has_a_wait};

use crate::script::script_step::ScriptStep;
use std::marker::Model;

/// What a script states of the first steps of a change. Contracts see a list.
#[derive(Debug, Drop)]
pub struct StepOutcomes {
    steps: Vec<ScriptStep>,
}

impl Model for StepOutcomes {
    ghost use Rattle.std.specs.Prelude.{List};
    ghost use Rattle.apply_model.specs.declared.script.script_step.ScriptStep.{ScriptStep};

    ghost Value = { List ScriptStep };

    ghost view = { λ o. o.steps.items };
}

impl StepOutcomes {
    /// These steps, in the order of the change.
    pub fn new(steps: Vec<ScriptStep>) -> StepOutcomes
        ensures { result ≡ steps.items }
    {
        StepOutcomes { steps }
    }

    /// The number of steps that the script states.
    pub fn len(&self) -> usize
        ensures { result ≡ length self.now }
    {
        self.steps.len()
    }

    /// The step of that number, counted from 0. `None` where the script does not state it.
    pub fn get(&self, step: usize) -> Option<&ScriptStep>
        ensures { option_copied result ≡ slice_get self.now step }
    {
        self.steps.get(step)
    }

    /// The number of the first skipped step, counted from 0. `None` where no step is skipped, or
    /// where the number does not fit 8 bits.
    pub fn first_skipped(&self) -> Option<u8>
        ensures { result ≡ if_byte (position_from is_skipped 0 self.now) }
    {
        let first = self.position_of_skipped()?;
        if first < 256 { Some(first as u8) } else { None }
    }

    /// The number of the first skipped step, counted from 0.
    fn position_of_skipped(&self) -> Option<usize>
        ensures { result ≡ position_from is_skipped 0 self.now }
    {
        self.steps.iter().position(ScriptStep::is_skipped)
    }

    /// Whether a step that is not skipped names a step that it waits for.
    pub fn name_a_wait(&self) -> bool
        ensures { result ≡ list_any has_a_wait self.now }
    {
        self.steps.iter().any(ScriptStep::has_a_wait)
    }
}
