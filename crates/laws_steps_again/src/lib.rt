//! Laws of a stream of our own: what `record` makes of its steps tells them again.
//!
//! The contract of each function is the law. The function itself calls the laws that its own law
//! follows from. No program links this crate.
#![tactic(auto)]

ghost use Rattle.std.specs.Prelude.{◌≡◌, ◌<◌, ◌++◌, ℕ, List, [], Option, Some, true, false, length, slice_get};
ghost use Rattle.apply_events.specs.declared.event.Event.{Event};
ghost use Rattle.apply_events.specs.Step.{Work, kinds_of};
ghost use Rattle.apply_events.specs.Waits.Schedule.{schedule};
ghost use Rattle.apply_model.specs.declared.details.note.Note.{Note};
ghost use Rattle.apply_model.specs.declared.plan.step_kind.StepKind.{StepKind};
ghost use Rattle.apply_model.specs.Script.Outcome.{end_id, fails};
ghost use Rattle.apply_model.specs.Script.OutcomeMap.{OutcomeMap, outcome_of};
ghost use Rattle.apply_text.specs.Order.{hook_messages_of};
ghost use Rattle.apply_text_terraform.specs.Message.{end_id as planned_end_id};
ghost use Rattle.laws_begun.specs.Followed.{AreFollowed};
ghost use Rattle.laws_begun.specs.Runs.{IsFollowable};
ghost use Rattle.laws_lanes.specs.Alike.{IsAnsweredAlike, is_begun};
ghost use Rattle.laws_steps_again.specs.Again.{HasRecorded};
ghost use Rattle.laws_steps_again.specs.Own.{IsOwn};
ghost use Rattle.laws_waits.specs.Places.{place_of};
ghost use Rattle.laws_steps_again.specs.ReadBack.{IsReadBack, Reading};
ghost use Rattle.laws_steps_again.specs.Steps.{AreStepsAgain, StatesRecorded};
ghost use Rattle.laws_texts.specs.TimeLines.{EndsAlike, notes_by_ends};
ghost use Rattle.stream_record_outcomes.specs.declared.recorded_step.RecordedStep.{RecordedStep};
ghost use Rattle.stream_record_script.specs.Runs.{steps_of_plan};
ghost use Rattle.stream_record_steps.specs.Begun.{Begun};
ghost use Rattle.stream_record_waits.specs.declared.step_of_plan.RunFate.TheVariants.{Done};
ghost use Rattle.stream_record_waits.specs.declared.step_of_plan.StepRun.{StepRun};
ghost use Rattle.stream_record_waits.specs.Steps.{step_at};

use laws_begun::each_step_is_known_by_its_own_lines;
use laws_notes::{
    a_diagnostic_has_the_severity_and_the_address_of_its_step,
    diagnostics_come_again_in_their_order,
};

/// A run of our own can be followed by its hook messages.
pub fn a_run_of_our_own_can_be_followed()
    ensures { (work : Work) (n : ℕ) (events : List Event) → IsOwn work n events → IsFollowable work events }
{}

/// Of the steps of a run, just those are recorded that began, each with an outcome that goes as the
/// step went.
pub fn what_is_recorded_goes_as_the_steps_went()
    ensures { (work : Work) (n : ℕ) (events : List Event) (reading : Reading) (begun : Begun) (loose notes : List Note)
        (recorded : List (Option RecordedStep)) (left : List Note)
        → IsReadBack work n events reading begun loose notes recorded left
        → AreStepsAgain work n begun recorded reading.telling.id }
{
    each_step_is_known_by_its_own_lines();
    a_diagnostic_has_the_severity_and_the_address_of_its_step();
    diagnostics_come_again_in_their_order();
}

/// Of the hook messages of a stream that was read back, `record` knows each step by its own lines.
pub fn what_was_read_back_is_followed()
    ensures { (work : Work) (n : ℕ) (events : List Event) (reading : Reading) (begun : Begun) (loose notes : List Note)
        (recorded : List (Option RecordedStep)) (left : List Note)
        → IsReadBack work n events reading begun loose notes recorded left
        → AreFollowed reading.telling reading.start reading.first (hook_messages_of events) begun }
{
    each_step_is_known_by_its_own_lines();
}

/// A step that is recorded as one that ran, and does not fail, completed, and has the line of its
/// end.
pub fn a_recorded_step_that_does_not_fail_completed()
    ensures { (work : Work) (n c k : ℕ) (begun : Begun) (recorded : List (Option RecordedStep)) (id : (c k : ℕ) → Option (List ℕ))
        (run : StepRun) → AreStepsAgain work n begun recorded id → k < length (kinds_of work.plan c)
        → (step_at (steps_of_plan begun recorded) (place_of work.plan.changes c k)).run ≡ Some run
        → fails (outcome_of work.script c k) ≡ false → (run.fate ≡ Done) × ((end : ℕ) × (run.end ≡ Some end)) }
{}

/// The diagnostics of the recorded outcomes, in the order of the ends, and then those that are left
/// are the diagnostics that `record` read. None is left if all were of steps.
pub fn recorded_diagnostics_come_again()
    ensures again { (work : Work) (n : ℕ) (events : List Event) (reading : Reading) (begun : Begun) (loose notes : List Note)
        (recorded : List (Option RecordedStep)) (left : List Note) (other : OutcomeMap)
        → IsReadBack work n events reading begun loose notes recorded left → HasRecorded work n recorded other
        → notes_by_ends reading.look.address work.plan other events ++ left ≡ notes }
    ensures none_left { (work : Work) (n : ℕ) (events : List Event) (reading : Reading) (begun : Begun) (loose notes : List Note)
        (recorded : List (Option RecordedStep)) (left : List Note)
        → IsReadBack work n events reading begun loose notes recorded left → loose ≡ [] → left ≡ [] }
{
    each_step_is_known_by_its_own_lines();
    a_diagnostic_has_the_severity_and_the_address_of_its_step();
    diagnostics_come_again_in_their_order();
}

/// A script that states the recorded outcome of each step that began has what was recorded,
/// whatever it names for the steps to wait for.
pub fn a_script_of_recorded_outcomes_has_what_was_recorded()
    ensures { (work : Work) (n : ℕ) (begun : Begun) (recorded : List (Option RecordedStep)) (id : (c k : ℕ) → Option (List ℕ)) (other : OutcomeMap)
        → AreStepsAgain work n begun recorded id → StatesRecorded work begun recorded other → HasRecorded work n recorded other }
{}

/// A script with the recorded outcomes has each step that began go and end as it did in the run.
///
/// `plain`: the end reports the same id in the default form. `planned`: it does so in Terraform's
/// form, where the plan may give an id.
pub fn recorded_outcomes_end_as_the_steps_ended()
    ensures answered { (work : Work) (n c k : ℕ) (begun : Begun) (recorded : List (Option RecordedStep)) (id : (c k : ℕ) → Option (List ℕ))
        (other : OutcomeMap) (kind : StepKind) → AreStepsAgain work n begun recorded id → HasRecorded work n recorded other
        → slice_get (kinds_of work.plan c) k ≡ Some kind → is_begun work (schedule work n) c k ≡ true
        → IsAnsweredAlike kind (outcome_of work.script c k) (outcome_of other c k) }
    ensures plain { (work : Work) (n c k : ℕ) (begun : Begun) (recorded : List (Option RecordedStep)) (id : (c k : ℕ) → Option (List ℕ))
        (other : OutcomeMap) (kind : StepKind) → AreStepsAgain work n begun recorded id → HasRecorded work n recorded other
        → slice_get (kinds_of work.plan c) k ≡ Some kind → is_begun work (schedule work n) c k ≡ true
        → id c k ≡ end_id kind (outcome_of work.script c k).result
        → EndsAlike (end_id kind) (outcome_of work.script c k) (outcome_of other c k) }
    ensures planned { (work : Work) (n c k : ℕ) (begun : Begun) (recorded : List (Option RecordedStep)) (id : (c k : ℕ) → Option (List ℕ))
        (other : OutcomeMap) (kind : StepKind) (planned : Option (List ℕ)) → AreStepsAgain work n begun recorded id
        → HasRecorded work n recorded other
        → slice_get (kinds_of work.plan c) k ≡ Some kind → is_begun work (schedule work n) c k ≡ true
        → id c k ≡ planned_end_id kind (outcome_of work.script c k).result planned
        → EndsAlike (λ ending. planned_end_id kind ending planned) (outcome_of work.script c k) (outcome_of other c k) }
{}
