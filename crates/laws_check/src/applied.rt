//! Laws of plans and scripts that were read from bytes, and of the streams of their runs in the
//! default form: `check` accepts them.
//!
//! Each function calls the laws that its own law follows from: its contract is the law. `plain`:
//! the checker takes each line for a message. `plans` states whether the checker also takes the
//! stream of a plan for whole.

ghost use Rattle.std.specs.Prelude.{◌≡◌, ◌≤◌, ℕ, Bool, List, [], Some, length, Ok};
ghost use Rattle.apply_plan.specs.Plan.SavedPlan.{SavedPlan};
ghost use Rattle.apply_plan.specs.Script.OutcomeMap.{OutcomeMap};
ghost use Rattle.apply_hooks.specs.Hooks.{max_hooks};
ghost use Rattle.stream_lines.specs.Cut.{cut_lines};
ghost use Rattle.stream_check.specs.Lines.{verdict_of};
ghost use Rattle.apply_events.specs.declared.event.Event.{Event};
ghost use Rattle.apply_events.specs.Lanes.ToCome.{max_events};
ghost use Rattle.apply_events.specs.Laws.{AllFit, IsWithinLimits};
ghost use Rattle.apply_events.specs.Step.{Work};
ghost use Rattle.apply_text.specs.declared.operation.Operation.{Operation};
ghost use Rattle.apply_text.specs.Lines.{stream_of};
ghost use Rattle.apply_text_terraform.specs.declared.form.Form.TheVariants.{Applystream};
ghost use Rattle.apply_writer.specs.declared.report.Report.{Report};
ghost use Rattle.apply_run.specs.Bytes.{Inputs, IsRead};
ghost use Rattle.apply_run.specs.FromBytes.{WasAppliedBy};
ghost use Rattle.apply_run.specs.InForm.{WasAppliedInLanes};
ghost use Rattle.apply_run.specs.Run.{SinkState};
ghost use Rattle.apply_run.specs.Schedule.{IsRunOf, Schedule};
ghost use Rattle.laws_check.specs.Accepted.{whole_stream};
ghost use Rattle.laws_check.specs.Applied.{HasShortLines, whole_reported};
ghost use Rattle.laws_check.specs.Passing.{plain};
ghost use Rattle.laws_check.specs.Plans.{DeletesDeposed, IsOrdinary, ProvisionsCreates, WarnsOfReads};
ghost use Rattle.laws_check.specs.Texts.{HasTexts};
ghost use Rattle.laws_check.specs.WholeSteps.{CanRun, IsOfWholeSteps};

use crate::laws::{
    a_run_is_of_whole_steps, a_stream_of_texts_can_be_read, events_that_can_happen_fit_bits,
    every_stream_of_whole_steps_is_accepted,
};
use laws_run::{
    a_line_has_one_line_feed, a_list_of_a_partition_names_each_number_once,
    a_time_line_has_few_events, changes_that_are_dealt_out_have_few_events,
    each_object_is_named_once, every_event_can_happen, every_event_of_a_time_line_can_happen,
    relative_addresses_join_their_module, what_was_read_is_within_limits,
};

/// Each text of a plan and a script that a message contains is UTF-8, if both were read. An
/// instance key that is a number fits 64 bits.
pub fn texts_that_were_read_are_utf8()
    ensures { (given : Inputs) (plan : SavedPlan) (script : OutcomeMap) → IsRead given plan script → HasTexts plan script }
{
    relative_addresses_join_their_module();
}

/// A plan and a script that were read meet what `check` asks of a stream, if the plan only deletes
/// deposed objects.
///
/// `plan`: the plan names each object once. `script`: only steps that may have provisioners have
/// some. `warnings`: only reads only warn.
pub fn a_plan_that_was_read_is_ordinary()
    ensures plan { (given : Inputs) (plan : SavedPlan) (script : OutcomeMap) → IsRead given plan script
        → DeletesDeposed plan → IsOrdinary plan }
    ensures script { (given : Inputs) (plan : SavedPlan) (script : OutcomeMap) → IsRead given plan script
        → ProvisionsCreates plan script }
    ensures warnings { (given : Inputs) (plan : SavedPlan) (script : OutcomeMap) → IsRead given plan script
        → WarnsOfReads plan script }
{
    each_object_is_named_once();
}

/// A run of a plan and a script within the limits, by any number of workers or in lanes.
///
/// `few`: it has at most 189,180,000 events. `fit`: with at most 32 hooks, each event can happen.
pub fn every_event_of_a_run_can_happen()
    ensures few { (schedule : Schedule) (work : Work) (events : List Event) → CanRun schedule work → IsWithinLimits work
        → IsRunOf schedule work events → length events ≤ max_events }
    ensures fit { (schedule : Schedule) (work : Work) (events : List Event) → CanRun schedule work → IsWithinLimits work
        → length work.hooks ≤ max_hooks → IsRunOf schedule work events → AllFit work events }
{
    changes_that_are_dealt_out_have_few_events();
    a_list_of_a_partition_names_each_number_once();
    every_event_can_happen();
    a_time_line_has_few_events();
    every_event_of_a_time_line_can_happen();
}

/// `check` accepts the stream of whole steps of a plan and a script that were read.
///
/// Each event can happen, and there are few events. The plan only deletes deposed objects, and no
/// line is longer than 64 MiB.
pub fn every_stream_of_whole_steps_that_were_read_is_accepted()
    ensures { (plans : Bool) (given : Inputs) (work : Work) (start : ℕ) (events : List Event) (operation : Operation)
        → IsRead given work.plan work.script → DeletesDeposed work.plan
        → length events ≤ max_events → AllFit work events → IsOfWholeSteps work events
        → HasShortLines (stream_of work.plan work.script start operation events)
        → verdict_of (plain plans) (cut_lines (stream_of work.plan work.script start operation events))
        ≡ Ok (whole_stream work.plan events) }
{
    a_line_has_one_line_feed();
    texts_that_were_read_are_utf8();
    what_was_read_is_within_limits();
    a_plan_that_was_read_is_ordinary();
    events_that_can_happen_fit_bits();
    a_stream_of_texts_can_be_read();
    every_stream_of_whole_steps_is_accepted();
}

/// `check` accepts the stream of a run of a plan and a script that were read, by workers and in
/// lanes.
///
/// There are at most 32 hooks, and the hooks may be any. The plan only deletes deposed objects, and
/// no line is longer than 64 MiB.
pub fn every_stream_of_what_was_read_is_accepted()
    ensures { (plans : Bool) (schedule : Schedule) (given : Inputs) (work : Work) (start : ℕ) (events : List Event) (operation : Operation)
        → CanRun schedule work → IsRead given work.plan work.script → DeletesDeposed work.plan
        → length work.hooks ≤ max_hooks → IsRunOf schedule work events
        → HasShortLines (stream_of work.plan work.script start operation events)
        → verdict_of (plain plans) (cut_lines (stream_of work.plan work.script start operation events))
        ≡ Ok (whole_stream work.plan events) }
{
    what_was_read_is_within_limits();
    every_event_of_a_run_can_happen();
    a_run_is_of_whole_steps();
    every_stream_of_whole_steps_that_were_read_is_accepted();
}

/// `check` accepts what `apply_bytes` and `apply_bytes_in_lanes` of `apply_run` write, and its
/// verdict agrees with the report.
///
/// The verdict has the same totals, and a line for each event that was taken. It has an error if
/// and only if a step failed or was halted. The plan only deletes deposed objects, there are at
/// most as many hooks as a registry holds, and no line is longer than 64 MiB. `bytes`: the sink
/// knows its bytes and had none before; `check` accepts these bytes.
pub fn every_applied_stream_is_accepted()
    ensures stream { (plans : Bool) (schedule : Schedule) (given : Inputs) (start : ℕ) (operation : Operation) (report : Report)
        (before after : SinkState) (applied : WasAppliedBy schedule Applystream given start operation report before after)
        → DeletesDeposed applied.read.plan → length given.hooks ≤ max_hooks
        → HasShortLines (stream_of applied.read.plan applied.read.script start operation applied.streamed.events)
        → verdict_of (plain plans) (cut_lines (stream_of applied.read.plan applied.read.script start operation
        applied.streamed.events)) ≡ Ok (whole_reported report) }
    ensures bytes { (plans : Bool) (schedule : Schedule) (given : Inputs) (start : ℕ) (operation : Operation) (report : Report)
        (before after : SinkState) (bytes : List ℕ) (applied : WasAppliedBy schedule Applystream given start operation report before after)
        → DeletesDeposed applied.read.plan → length given.hooks ≤ max_hooks
        → before.bytes ≡ Some [] → after.bytes ≡ Some bytes → HasShortLines bytes
        → verdict_of (plain plans) (cut_lines bytes) ≡ Ok (whole_reported report) }
{
    what_was_read_is_within_limits();
    every_stream_of_what_was_read_is_accepted();
}

/// So `check` accepts what `apply_bytes_in_lanes` of `apply_run` writes.
///
/// The conditions are those of `every_applied_stream_is_accepted`.
pub fn every_stream_applied_in_lanes_is_accepted()
    ensures stream { (plans : Bool) (given : Inputs) (lanes start : ℕ) (operation : Operation) (report : Report)
        (before after : SinkState) (applied : WasAppliedInLanes given lanes start operation report before after)
        → DeletesDeposed applied.read.plan → length given.hooks ≤ max_hooks
        → HasShortLines (stream_of applied.read.plan applied.read.script start operation applied.streamed.events)
        → verdict_of (plain plans) (cut_lines (stream_of applied.read.plan applied.read.script start operation
        applied.streamed.events)) ≡ Ok (whole_reported report) }
    ensures bytes { (plans : Bool) (given : Inputs) (lanes start : ℕ) (operation : Operation) (report : Report)
        (before after : SinkState) (bytes : List ℕ) (applied : WasAppliedInLanes given lanes start operation report before after)
        → DeletesDeposed applied.read.plan → length given.hooks ≤ max_hooks
        → before.bytes ≡ Some [] → after.bytes ≡ Some bytes → HasShortLines bytes
        → verdict_of (plain plans) (cut_lines bytes) ≡ Ok (whole_reported report) }
{
    every_applied_stream_is_accepted();
}
