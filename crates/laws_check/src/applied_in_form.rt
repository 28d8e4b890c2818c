//! Laws of plans and scripts that were read from bytes, and of the streams of their runs in
//! Terraform's form: `check` accepts them.
//!
//! Each function calls the laws that its own law follows from: its contract is the law. `plain`:
//! the checker takes each line for a message. `plans` states whether the checker also takes the
//! stream of a plan for whole.

ghost use Rattle.std.specs.Prelude.{◌≡◌, ◌≤◌, ◌↔◌, ℕ, Bool, List, [], Some, length};
ghost use Rattle.apply_hooks.specs.Hooks.{max_hooks};
ghost use Rattle.stream_lines.specs.Cut.{cut_lines};
ghost use Rattle.stream_check.specs.Lines.{verdict_of};
ghost use Rattle.apply_events.specs.declared.event.Event.{Event};
ghost use Rattle.apply_events.specs.Lanes.ToCome.{max_events};
ghost use Rattle.apply_events.specs.Laws.{AllFit};
ghost use Rattle.apply_events.specs.Totals.{totals_of};
ghost use Rattle.apply_text.specs.declared.operation.Operation.{Operation};
ghost use Rattle.apply_run.specs.declared.form_report.FormReport.{FormReport};
ghost use Rattle.apply_run.specs.Bytes.{Inputs};
ghost use Rattle.apply_run.specs.FromBytes.{WasAppliedBy, WasReportedBy, form_for, work_for};
ghost use Rattle.apply_run.specs.Read.{IsStated, StatedInputs, applied_plan, applied_script, extras_of};
ghost use Rattle.apply_run.specs.Run.{SinkState};
ghost use Rattle.apply_run.specs.Schedule.{InLanes, Schedule};
ghost use Rattle.apply_text_terraform.specs.declared.form.Form.TheVariants.{Terraform};
ghost use Rattle.apply_writer.specs.declared.report.Report.{Report};
ghost use Rattle.apply_writer.specs.Stream.Form.{stream_in};
ghost use Rattle.laws_check.specs.AcceptedInForm.{AreAcceptedInForm, MayBeApplied};
ghost use Rattle.laws_check.specs.Applied.{HasShortLines};
ghost use Rattle.laws_check.specs.FormTexts.{HasFormTexts};
ghost use Rattle.laws_check.specs.Passing.{plain};
ghost use Rattle.laws_check.specs.Plans.{DeletesDeposed};
ghost use Rattle.laws_check.specs.ReadBackInForm.{whole_reported_in_form};
ghost use Rattle.laws_check.specs.Unstarted.{IsJudged, IsLeftOut, NeverStarts};
ghost use Rattle.laws_check.specs.WholeSteps.{IsOfWholeSteps};

use crate::applied::every_event_of_a_run_can_happen;
use crate::form_streams::every_line_in_terraforms_form_is_read_back;
use crate::in_form::{
    lines_are_judged_by_their_messages, whole_steps_are_accepted_in_terraforms_form,
};
use crate::laws::{a_run_is_of_whole_steps, events_that_can_happen_fit_bits};
use laws_run::{
    all_but_no_ops_are_planned, each_object_is_named_once, lanes_leave_out_what_waits_in_vain,
    relative_addresses_join_their_module, steps_are_whole,
};

/// What was read for Terraform's form can be written in it and read back.
///
/// Each text is UTF-8. The verbatim texts of outputs, of diagnostics of no step and of diagnostics
/// of steps are JSON values.
pub fn what_was_read_for_terraforms_form_can_be_read_back()
    ensures { (given : Inputs) (stated : StatedInputs) → IsStated given.plan given.script stated
        → HasFormTexts (applied_plan stated) (applied_script stated) (extras_of stated) }
{
    all_but_no_ops_are_planned();
    each_object_is_named_once();
    relative_addresses_join_their_module();
}

/// What was read for Terraform's form is within the limits, as it is applied.
///
/// Each change does one thing to its object or replaces the object, and no object is named twice.
/// Only steps that may have provisioners have some, and only reads only warn. The plan only deletes
/// deposed objects.
pub fn what_was_read_for_terraforms_form_may_be_applied()
    ensures { (given : Inputs) (stated : StatedInputs) → IsStated given.plan given.script stated → MayBeApplied given stated }
{
    all_but_no_ops_are_planned();
    each_object_is_named_once();
    relative_addresses_join_their_module();
}

/// `check` accepts the stream in Terraform's form of whole steps of a plan and a script that were
/// read, but where the stream tells no error and a create of the plan never starts.
///
/// Then the fault is `planned`, and `check` finds just these creates. In a run that waits no step
/// fails to start but one that the script skips, or that waits for such a step, for a failure or for
/// a halt.
///
/// Each event can happen, and there are few events. The plan only deletes deposed objects, and no
/// line is longer than 64 MiB. The stream has a line for each message.
pub fn every_stream_of_whole_steps_in_terraforms_form_is_accepted()
    ensures { (plans : Bool) (given : Inputs) (stated : StatedInputs) (start : ℕ) (operation : Operation) (events : List Event)
        → IsStated given.plan given.script stated → DeletesDeposed (applied_plan stated)
        → length events ≤ max_events → AllFit (work_for Terraform given stated) events → IsOfWholeSteps (work_for Terraform given stated) events
        → AreAcceptedInForm plans stated operation events (stream_in (form_for Terraform stated start operation) events) }
{
    all_but_no_ops_are_planned();
    what_was_read_for_terraforms_form_can_be_read_back();
    what_was_read_for_terraforms_form_may_be_applied();
    events_that_can_happen_fit_bits();
    every_line_in_terraforms_form_is_read_back();
    whole_steps_are_accepted_in_terraforms_form();
    lines_are_judged_by_their_messages();
}

/// `check` accepts the stream in Terraform's form of each run of what was read, by workers and in
/// lanes, but where it tells no error and a create of the plan never starts. There are at most as
/// many hooks as a registry holds.
pub fn every_run_in_terraforms_form_is_accepted()
    ensures { (plans : Bool) (schedule : Schedule) (given : Inputs) (start : ℕ) (operation : Operation) (report : Report)
        (before after : SinkState) (applied : WasAppliedBy schedule Terraform given start operation report before after)
        → DeletesDeposed (applied_plan applied.read) → length given.hooks ≤ max_hooks
        → AreAcceptedInForm plans applied.read operation applied.streamed.events
        (stream_in (form_for Terraform applied.read start operation) applied.streamed.events) }
{
    what_was_read_for_terraforms_form_may_be_applied();
    every_event_of_a_run_can_happen();
    a_run_is_of_whole_steps();
    every_stream_of_whole_steps_in_terraforms_form_is_accepted();
}

/// `check` accepts what `apply_bytes_in_form` and `apply_bytes_in_form_and_lanes` of `apply_run`
/// write in Terraform's form, and its verdict agrees with the report. Where the report has no error
/// and a create of the plan never starts, the verdict is the fault `planned` of the last line.
///
/// The verdict has the same totals, an error if and only if the report has one, and the number of
/// lines. The plan only deletes deposed objects, there are at most as many hooks as a registry
/// holds, and no line is longer than 64 MiB. `bytes`: the sink knows its bytes and had none before;
/// `check` accepts these bytes.
pub fn every_stream_in_terraforms_form_is_accepted()
    ensures stream { (plans : Bool) (schedule : Schedule) (given : Inputs) (start : ℕ) (operation : Operation) (report : FormReport)
        (before after : SinkState) (run : WasReportedBy schedule Terraform given start operation report before after)
        → DeletesDeposed (applied_plan run.applied.read) → length given.hooks ≤ max_hooks
        → HasShortLines (stream_in (form_for Terraform run.applied.read start operation) run.applied.streamed.events)
        → IsJudged (applied_plan run.applied.read) run.applied.streamed.events
        (whole_reported_in_form report
        (length (cut_lines (stream_in (form_for Terraform run.applied.read start operation) run.applied.streamed.events))))
        (verdict_of (plain plans)
        (cut_lines (stream_in (form_for Terraform run.applied.read start operation) run.applied.streamed.events))) }
    ensures bytes { (plans : Bool) (schedule : Schedule) (given : Inputs) (start : ℕ) (operation : Operation) (report : FormReport)
        (before after : SinkState) (bytes : List ℕ) (run : WasReportedBy schedule Terraform given start operation report before after)
        → DeletesDeposed (applied_plan run.applied.read) → length given.hooks ≤ max_hooks
        → before.bytes ≡ Some [] → after.bytes ≡ Some bytes → HasShortLines bytes
        → IsJudged (applied_plan run.applied.read) run.applied.streamed.events (whole_reported_in_form report (length (cut_lines bytes)))
        (verdict_of (plain plans) (cut_lines bytes)) }
{
    every_run_in_terraforms_form_is_accepted();
}

/// In a stream that lanes wrote in Terraform's form, and in which no step was halted, a create never
/// starts if and only if it is skipped or waits in vain.
///
/// If no step failed, it waits for a skipped step. So where `check` finds a stream without an error
/// `planned`, it names just the creates that are skipped or wait for a skipped step.
pub fn creates_that_never_start_are_skipped_or_wait_in_vain()
    ensures { (given : Inputs) (lanes start : ℕ) (operation : Operation) (report : Report) (before after : SinkState)
        (applied : WasAppliedBy (InLanes lanes) Terraform given start operation report before after)
        → (totals_of (applied_plan applied.read) applied.streamed.events).halted ≡ 0 → (address : List ℕ)
        → NeverStarts (applied_plan applied.read) applied.streamed.events address
        ↔ IsLeftOut (work_for Terraform given applied.read) applied.streamed.events address }
{
    lanes_leave_out_what_waits_in_vain();
    steps_are_whole();
}
