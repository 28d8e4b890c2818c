//! Laws of recorded outcomes: what `record` makes of the lines of a step goes as the step went.
//!
//! Each function does nothing: its contract is the law. No program links this crate.
#![tactic(auto)]

ghost use Rattle.std.specs.Prelude.{ℕ, List, Option, None};
ghost use Rattle.apply_model.specs.declared.details.note.Note.{Note};
ghost use Rattle.apply_model.specs.declared.script.outcome.Outcome.{Outcome};
ghost use Rattle.stream_record_steps.specs.Steps.{PlannedStep};
ghost use Rattle.stream_record_steps.specs.declared.begun_step.BegunStep.{BegunStep};
ghost use Rattle.stream_record_outcomes.specs.Outcome.{outcome_of};
ghost use Rattle.stream_record_outcomes.specs.Took.{whole};
ghost use Rattle.laws_outcomes.specs.Told.{IsToldAgain, WasTold};

/// The outcome that `record` makes of the lines of a step, and of its diagnostic, goes as the step
/// went. Told again, it has the same seconds, provisioners, outputs, end, id and diagnostic.
pub fn a_recorded_outcome_goes_as_the_step_went()
    ensures { (step : PlannedStep) (outcome : Outcome) (id : Option (List ℕ)) (begun : BegunStep) (note : Option Note)
        → WasTold step outcome id begun note
        → IsToldAgain step outcome id note (outcome_of step (whole None begun) begun note) }
{}
