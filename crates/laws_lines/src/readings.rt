//! Laws of how `record` reads the whole stream of a run.

ghost use Rattle.std.specs.Prelude.{◌≡◌, ◌+◌, ◌<◌, ℕ, All, pos, List, [], ◌++◌, false, true, flat_map, length, map, Some, Ok};
ghost use Rattle.std.specs.List.{AllByRecursion, enumerate_from};
ghost use Rattle.apply_model.specs.Plan.SavedPlan.{SavedPlan};
ghost use Rattle.apply_model.specs.Script.OutcomeMap.{OutcomeMap};
ghost use Rattle.apply_plan.specs.Script.OutcomeMap.{script_of};
ghost use Rattle.apply_events.specs.declared.event.Event.{Event};
ghost use Rattle.apply_events.specs.Fits.{Fits};
ghost use Rattle.apply_events.specs.Lanes.TimeLine.{IsTimeLine};
ghost use Rattle.apply_events.specs.Step.{Work};
ghost use Rattle.apply_events.specs.Totals.{totals_of};
ghost use Rattle.apply_events.specs.Waits.TimeLine as waiting;
ghost use Rattle.apply_text.specs.declared.operation.Operation.{Operation};
ghost use Rattle.apply_text.specs.Lines.{stream_of};
ghost use Rattle.apply_text.specs.Order.{hook_messages_of, notes_of};
ghost use Rattle.apply_text.specs.Start.{end_of_starts};
ghost use Rattle.apply_writer.specs.Stream.Form.{stream_in};
ghost use Rattle.apply_writer.specs.Stream.Terraform.{StreamExtras, terraform_form};
ghost use Rattle.stream_record_steps.specs.Begun.{none_begun};
ghost use Rattle.stream_record_steps.specs.Steps.{planned_steps};
ghost use Rattle.laws_check.specs.Applied.{HasShortLines};
ghost use Rattle.laws_check.specs.FormTexts.{HasFormTexts};
ghost use Rattle.laws_check.specs.Texts.{FitBits, HasTexts};
ghost use Rattle.laws_lines.specs.Notes.{note_in_form};
ghost use Rattle.laws_lines.specs.Reading.{
  IsLoud,
  IsPlanned,
  IsReadAs,
  NeverFalls,
  NoReadFails,
  note_told,
  note_told_in_form,
  outputs_read,
  summary_told,
};
ghost use Rattle.laws_lines.specs.Stated.{summary_of, told_by, told_in_form};
ghost use Rattle.laws_lines.specs.Streams.{AreTold, planned_told};
ghost use Rattle.laws_begun.specs.Telling.{after_events};

/// What `record` reads of the stream of a run: the steps, by one hook message after another, the
/// diagnostics in their order, the outputs, the summary, and the form.
///
/// `before` is the number of lines before the stream. The first hook message comes after the version,
/// and in Terraform's form after the planned changes. The plan has the step of each event, the time
/// never falls from one hook message to the next, and no line is longer than 64 MiB. In Terraform's
/// form no event is the end of a read that failed.
pub fn record_reads_the_stream_of_a_run()
    ensures default { (plan : SavedPlan) (script : OutcomeMap) (start : ℕ) (operation : Operation)
        (taken : List Event) (before : ℕ) → HasTexts plan script → FitBits plan taken → AreTold script start taken
        → AllByRecursion (IsPlanned plan) taken → NeverFalls (hook_messages_of taken)
        → HasShortLines (stream_of plan script start operation taken)
        → IsReadAs plan before (stream_of plan script start operation taken)
        (after_events (told_by plan script) (pos start) (before + 2) (hook_messages_of taken)
        (none_begun (planned_steps plan.changes)))
        (flat_map (note_told plan script) (notes_of taken)) [] (Some (summary_of operation)) true }
    ensures terraform { (plan : SavedPlan) (script : OutcomeMap) (extras : StreamExtras) (start : ℕ) (operation : Operation)
        (taken : List Event) (before : ℕ)
        → HasFormTexts plan script extras → FitBits plan taken → AreTold script start taken
        → AllByRecursion (IsLoud plan) taken → NeverFalls (hook_messages_of taken)
        → HasShortLines (stream_in (terraform_form plan script extras start operation) taken)
        → IsReadAs plan before (stream_in (terraform_form plan script extras start operation) taken)
        (after_events (told_in_form plan script extras.details) (pos start)
        (before + 2 + length (flat_map (planned_told start extras.details) (enumerate_from 0 plan.changes)))
        (hook_messages_of taken) (none_begun (planned_steps plan.changes)))
        (flat_map (note_told_in_form plan script) (notes_of taken) ++ map note_in_form extras.notes)
        (outputs_read extras operation (totals_of plan taken))
        (summary_told extras.notes operation (totals_of plan taken)) false }
{}

/// The time never falls from one hook message of a time line to the next.
///
/// `of_changes`: no step waits for another. `of_steps`: steps may wait for others.
pub fn the_time_of_a_time_line_never_falls()
    ensures of_changes { (work : Work) (n : ℕ) (events : List Event)
        → IsTimeLine work n events → NeverFalls (hook_messages_of events) }
    ensures of_steps { (work : Work) (n : ℕ) (events : List Event)
        → waiting.IsTimeLine work n events → NeverFalls (hook_messages_of events) }
{}

/// Events that can happen with a script that was read can be told: their provisioners have names,
/// and a timestamp can show their time.
///
/// `empty`: the script states nothing. `planned`: the plan has the step of each of them. `loud`: if
/// no read fails, each of them has a line in Terraform's form.
pub fn events_that_can_happen_can_be_told()
    ensures read { (plan : SavedPlan) (bytes : List ℕ) (script : OutcomeMap) (start : ℕ) (events : List Event)
        → script_of plan bytes ≡ Ok script → start < end_of_starts → All (Fits plan script) events
        → AreTold script start events }
    ensures empty { (plan : SavedPlan) (start : ℕ) (events : List Event)
        → start < end_of_starts → All (Fits plan []) events → AreTold [] start events }
    ensures planned { (plan : SavedPlan) (script : OutcomeMap) (events : List Event)
        → All (Fits plan script) events → AllByRecursion (IsPlanned plan) events }
    ensures loud { (plan : SavedPlan) (script : OutcomeMap) (events : List Event)
        → NoReadFails plan script → All (Fits plan script) events → AllByRecursion (IsLoud plan) events }
{}
