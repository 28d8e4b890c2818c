//! Laws of streams in the default form, as they are written and then checked.
//!
//! Each function does nothing, or calls the laws that its own law follows from: its contract is the
//! law. `plain`: the checker takes each line for a message. `plans` states whether the checker also
//! takes the stream of a plan for whole.

ghost use Rattle.std.specs.Prelude.{◌≡◌, ◌<◌, ◌^◌, ℕ, All, Bool, List, [], length, Ok};
ghost use Rattle.std.specs.List.{AllByRecursion};
ghost use Rattle.apply_model.specs.declared.plan.step_kind.StepKind.{StepKind};
ghost use Rattle.apply_model.specs.declared.script.outcome.Outcome.{Outcome};
ghost use Rattle.apply_plan.specs.Plan.ResourceChange.{ResourceChange};
ghost use Rattle.apply_plan.specs.Plan.SavedPlan.{SavedPlan};
ghost use Rattle.apply_plan.specs.Script.OutcomeMap.{IsInRange, OutcomeMap, script_of};
ghost use Rattle.stream_lines.specs.Cut.{cut_lines};
ghost use Rattle.stream_check.specs.Lines.{tree_message, verdict_of};
ghost use Rattle.apply_events.specs.declared.event.Event.{Event};
ghost use Rattle.apply_events.specs.declared.what.What.{What};
ghost use Rattle.apply_events.specs.Fits.{Fits};
ghost use Rattle.apply_events.specs.Lanes.TimeLine.{IsTimeLine};
ghost use Rattle.apply_events.specs.Step.{Work};
ghost use Rattle.apply_text.specs.declared.operation.Operation.{Operation};
ghost use Rattle.apply_text.specs.Lines.{stream_of};
ghost use Rattle.apply_text.specs.Message.{event_message};
ghost use Rattle.apply_run.specs.Schedule.{IsRunOf, Schedule};
ghost use Rattle.laws_check.specs.Accepted.{stream_read_back, whole_stream};
ghost use Rattle.laws_check.specs.Objects.{object_of, stream_objects};
ghost use Rattle.laws_check.specs.Passing.{plain, verdict_on, verdict_on_objects};
ghost use Rattle.laws_check.specs.Plans.{IsOrdinary, ProvisionsCreates, ReadsComeLast, WarnsOfReads};
ghost use Rattle.laws_check.specs.Sound.{CanBeRead, IsShort};
ghost use Rattle.laws_check.specs.Texts.{FitBits, HasTexts};
ghost use Rattle.laws_check.specs.ReadBack.{action_of, read_back};
ghost use Rattle.laws_check.specs.WholeSteps.{CanRun, IsOfWholeSteps};

use laws_run::{
    a_line_has_one_line_feed, a_step_begins_exactly_where_its_waits_are_done,
    a_step_comes_after_what_it_waits_for, lanes_deal_out_the_changes, steps_are_whole,
};

/// The object of an event's message is read back as the message: the address, the action, the
/// seconds and the stage of a provisioner.
///
/// The time does not matter, nor whether the checker passes over lines without a message.
pub fn the_object_of_an_event_is_read_back()
    ensures { (find : Bool) (change : ResourceChange) (kind : StepKind) (outcome : Outcome) (what : What) (seconds : ℕ)
        → tree_message find (object_of seconds (event_message change kind outcome what))
        ≡ Ok (read_back change.address (action_of kind) what) }
{}

/// In a script that was read, only steps that may have provisioners have some.
///
/// These steps are a create, and a delete that is the first step of a change of an object that is
/// not deposed. The law holds of the empty script, too.
pub fn a_script_provisions_creates()
    ensures read { (plan : SavedPlan) (bytes : List ℕ) (script : OutcomeMap)
        → script_of plan bytes ≡ Ok script → ProvisionsCreates plan script }
    ensures empty { (plan : SavedPlan) → ProvisionsCreates plan [] }
{}

/// In a script that was read, only reads only warn, if each read is the last step of its change.
/// This is so in each plan that was read. The law holds of the empty script, too.
pub fn a_script_warns_of_reads()
    ensures read { (plan : SavedPlan) (bytes : List ℕ) (script : OutcomeMap)
        → script_of plan bytes ≡ Ok script → ReadsComeLast plan → WarnsOfReads plan script }
    ensures empty { (plan : SavedPlan) → WarnsOfReads plan [] }
{}

/// The events of a run are those of whole steps, of each change one after another.
///
/// By workers, the order of the workers' events does not matter. In lanes, steps may wait for
/// others.
pub fn a_run_is_of_whole_steps()
    ensures { (schedule : Schedule) (work : Work) (events : List Event) → CanRun schedule work → IsRunOf schedule work events
        → IsOfWholeSteps work events }
{
    steps_are_whole();
    a_step_comes_after_what_it_waits_for();
    a_step_begins_exactly_where_its_waits_are_done();
}

/// The checker accepts the messages of whole steps, in the order in which they are written, between
/// the version and the summary.
///
/// The verdict has their totals, and an error if and only if a step failed or was halted. A read
/// that only warns has a start and no end, and may stay open. The script, the hooks, the workers,
/// and the order of events of several changes do not matter. The plan changes no object twice, and
/// only deletes deposed objects. Only steps that may have provisioners have some. Only reads that
/// are the last step of their change only warn.
pub fn whole_steps_are_accepted()
    ensures { (plans : Bool) (work : Work) (events : List Event)
        → IsOrdinary work.plan
        → ProvisionsCreates work.plan work.script
        → WarnsOfReads work.plan work.script
        → IsOfWholeSteps work events
        → verdict_on (plain plans) (stream_read_back work.plan events) ≡ Ok (whole_stream work.plan events) }
{}

/// The checker accepts the messages of a run. By workers, the partition of the changes and the order
/// of the workers' events do not matter.
pub fn every_run_is_accepted()
    ensures { (plans : Bool) (schedule : Schedule) (work : Work) (events : List Event)
        → IsOrdinary work.plan
        → ProvisionsCreates work.plan work.script
        → WarnsOfReads work.plan work.script
        → CanRun schedule work → IsRunOf schedule work events
        → verdict_on (plain plans) (stream_read_back work.plan events) ≡ Ok (whole_stream work.plan events) }
{
    a_run_is_of_whole_steps();
    whole_steps_are_accepted();
}

/// The checker accepts the objects of the stream of a run, of an apply and of a destroy. The start
/// does not matter.
pub fn every_stream_of_objects_is_accepted()
    ensures { (plans : Bool) (schedule : Schedule) (work : Work) (start : ℕ) (events : List Event) (operation : Operation)
        → IsOrdinary work.plan → ProvisionsCreates work.plan work.script
        → WarnsOfReads work.plan work.script → CanRun schedule work → IsRunOf schedule work events
        → verdict_on_objects (plain plans) (stream_objects work.plan work.script start operation events)
        ≡ Ok (whole_stream work.plan events) }
{
    every_run_is_accepted();
}

/// The objects of a stream can be read back from their texts.
///
/// The texts of the plan and the script are UTF-8, and the numbers of the events and of their
/// totals fit 64 bits. No line is longer than 64 MiB. Timestamps, elapsed times and the words of
/// messages are ASCII.
pub fn a_stream_of_texts_can_be_read()
    ensures { (plan : SavedPlan) (script : OutcomeMap) (start : ℕ) (operation : Operation) (events : List Event)
        → HasTexts plan script → FitBits plan events
        → AllByRecursion IsShort (stream_objects plan script start operation events)
        → CanBeRead (stream_objects plan script start operation events) }
{}

/// The numbers of events that can happen, and their totals, fit 64 bits. The script was read, and
/// there are fewer than 2^64 events.
pub fn events_that_can_happen_fit_bits()
    ensures { (plan : SavedPlan) (script : OutcomeMap) (events : List Event) → IsInRange script
        → All (Fits plan script) events → length events < 2 ^ 64 → FitBits plan events }
{}

/// The checker accepts the bytes of the stream of whole steps, cut at their line feeds.
///
/// No text is damaged, no number is beyond 64 bits, and no line is longer than 64 MiB.
pub fn every_stream_of_whole_steps_is_accepted()
    ensures { (plans : Bool) (work : Work) (start : ℕ) (events : List Event) (operation : Operation)
        → IsOrdinary work.plan → ProvisionsCreates work.plan work.script
        → WarnsOfReads work.plan work.script → IsOfWholeSteps work events
        → CanBeRead (stream_objects work.plan work.script start operation events)
        → verdict_of (plain plans) (cut_lines (stream_of work.plan work.script start operation events))
        ≡ Ok (whole_stream work.plan events) }
{
    a_line_has_one_line_feed();
    whole_steps_are_accepted();
}

/// The checker accepts the bytes of the stream of a run.
pub fn every_stream_is_accepted()
    ensures { (plans : Bool) (schedule : Schedule) (work : Work) (start : ℕ) (events : List Event) (operation : Operation)
        → IsOrdinary work.plan → ProvisionsCreates work.plan work.script
        → WarnsOfReads work.plan work.script → CanRun schedule work → IsRunOf schedule work events
        → CanBeRead (stream_objects work.plan work.script start operation events)
        → verdict_of (plain plans) (cut_lines (stream_of work.plan work.script start operation events))
        ≡ Ok (whole_stream work.plan events) }
{
    a_run_is_of_whole_steps();
    every_stream_of_whole_steps_is_accepted();
}

/// So the checker accepts the bytes of the stream of a time line of changes that do not wait, with
/// any number of steps.
pub fn every_stream_in_lanes_is_accepted()
    ensures { (plans : Bool) (work : Work) (n start : ℕ) (events : List Event) (operation : Operation)
        → IsOrdinary work.plan → ProvisionsCreates work.plan work.script
        → WarnsOfReads work.plan work.script → 0 < n → IsTimeLine work n events
        → CanBeRead (stream_objects work.plan work.script start operation events)
        → verdict_of (plain plans) (cut_lines (stream_of work.plan work.script start operation events))
        ≡ Ok (whole_stream work.plan events) }
{
    lanes_deal_out_the_changes();
    every_stream_is_accepted();
}
