//! Laws of the streams of a command: `check` accepts them.
//!
//! Each function does nothing, or calls the laws that its own law follows from: its contract is the
//! law. `plain`: the checker takes each line for a message. `plans`: it also takes the stream of a
//! plan for whole, as with `--plan`.

ghost use Rattle.std.specs.Prelude.{◌≡◌, ◌<◌, ◌≤◌, ℕ, Bool, List, [], Some, length};
ghost use Rattle.std.specs.List.{AllByRecursion};
ghost use Rattle.apply_hooks.specs.declared.rule.Rule.{Rule};
ghost use Rattle.apply_hooks.specs.Hooks.{max_hooks};
ghost use Rattle.stream_lines.specs.Cut.{cut_lines};
ghost use Rattle.stream_check.specs.Lines.{verdict_of};
ghost use Rattle.apply_model.specs.Plan.SavedPlan.{SavedPlan};
ghost use Rattle.apply_model.specs.Script.OutcomeMap.{OutcomeMap};
ghost use Rattle.apply_events.specs.declared.event.Event.{Event};
ghost use Rattle.apply_events.specs.Waits.Merging.{time_line};
ghost use Rattle.apply_planning.specs.declared.told.Told.{Told};
ghost use Rattle.apply_planning.specs.PlanningWork.{planning_work};
ghost use Rattle.apply_text.specs.declared.operation.Operation.{Operation};
ghost use Rattle.apply_text_terraform.specs.declared.command.Command.{Command};
ghost use Rattle.apply_run.specs.declared.form_report.FormReport.{FormReport};
ghost use Rattle.apply_run.specs.Bytes.{Inputs};
ghost use Rattle.apply_run.specs.FromBytes.{WasReportedOf};
ghost use Rattle.apply_run.specs.Run.{SinkState};
ghost use Rattle.apply_run.specs.Schedule.{Schedule};
ghost use Rattle.apply_command.specs.declared.head_line.HeadLine.{HeadLine};
ghost use Rattle.apply_command.specs.Form.{command_form};
ghost use Rattle.apply_command.specs.Head.{HeadInputs};
ghost use Rattle.apply_command.specs.Reading.{
  AreStated,
  CommandInputs,
  applied_plan,
  applied_script,
  extras,
  form,
  head_inputs,
  is_applied,
  lines,
  planned_reading,
};
ghost use Rattle.apply_writer.specs.Stream.Form.{stream_in};
ghost use Rattle.apply_writer.specs.Stream.Terraform.{StreamExtras};
ghost use Rattle.laws_check.specs.Applied.{HasShortLines};
ghost use Rattle.laws_check.specs.FormTexts.{HasFormTexts, StreamIsReadBackAs};
ghost use Rattle.laws_check.specs.Passing.{plain};
ghost use Rattle.laws_check.specs.Texts.{FitBits};
ghost use Rattle.laws_check.specs.WholeSteps.{IsOfWholeSteps};
ghost use Rattle.laws_command_check.specs.CommandAccepted.{IsCommandTaken, command_stream_read_back};
ghost use Rattle.laws_command_check.specs.Commands.{IsCommandJudged, IsPlannedSo, MayBePlanned, is_plan_told};
ghost use Rattle.laws_command_check.specs.FewTold.{OnlyReadsWarn};
ghost use Rattle.laws_command_check.specs.HeadTexts.{HasHeadTexts, HasPlanningTexts, IsSmallLine};

use laws_check::{
    a_run_is_of_whole_steps, events_that_can_happen_fit_bits, every_event_of_a_run_can_happen,
    lines_are_judged_by_their_messages,
};
use laws_run::{
    all_but_no_ops_are_planned, each_object_is_named_once, relative_addresses_join_their_module,
    there_is_a_time_line,
};

/// The events while a plan is made are those of whole steps: each object is refreshed or read once,
/// if at all.
pub fn a_planning_is_of_whole_steps()
    ensures { (told : List Told) (lanes : ℕ) → 0 < lanes
        → IsOfWholeSteps (planning_work told) (time_line (planning_work told) lanes) }
{
    there_is_a_time_line();
    a_run_is_of_whole_steps();
}

/// What a command reads beyond a saved plan and its script can be read back: the texts of what it
/// tells while it plans, of drifts and of planned outputs are UTF-8. Seconds fit 64 bits.
pub fn what_was_read_of_a_planning_can_be_read_back()
    ensures { (command : Command) (refresh : Bool) (given : Inputs) (read : CommandInputs) → AreStated command refresh given read
        → HasPlanningTexts read }
{}

/// By a script that was read, only a read of a data source may fail with a warning. A refresh that
/// fails ends with an error.
pub fn only_reads_of_a_planning_warn()
    ensures { (command : Command) (refresh : Bool) (given : Inputs) (read : CommandInputs) → AreStated command refresh given read
        → OnlyReadsWarn read.told }
{}

/// The stream of a command is lines, and each line is read back as one message: those before an
/// apply, then those of events, the diagnostics of no step, and the end where the plan is applied.
///
/// The texts that the lines contain are UTF-8, and their numbers fit 64 bits.
pub fn every_line_of_a_command_is_read_back()
    ensures { (inputs : HeadInputs) (lines : List HeadLine) (applies : Bool) (plan : SavedPlan) (script : OutcomeMap)
        (extras : StreamExtras) (operation : Operation) (events : List Event)
        → HasFormTexts plan script extras → HasHeadTexts inputs → AllByRecursion IsSmallLine lines → FitBits plan events
        → StreamIsReadBackAs (stream_in (command_form inputs lines applies plan script extras operation) events)
        (command_stream_read_back inputs lines applies plan script extras operation events) }
{}

/// The checker accepts the messages of a command to the end of its stream, with the totals of the
/// plan, or of the apply.
///
/// The stream of a plan, or of an apply whose planning failed, is whole with `--plan`, and with an
/// error. That of an apply is whole, with `--plan` and without, but where it tells no error and a
/// create of the plan never starts. The verdict has an error if and only if a step failed or was
/// halted, or a diagnostic of no step is an error. Refreshes and reads that fail have an error, so
/// none stays open without one. Few objects share an address.
pub fn every_message_of_a_command_is_accepted()
    ensures { (plans : Bool) (command : Command) (lanes : ℕ) (read : CommandInputs) (start : ℕ) (hooks : List (List Rule))
        (operation : Operation) (events : List Event) → 0 < lanes → MayBePlanned read
        → IsOfWholeSteps (record { plan = applied_plan command lanes read; script = applied_script command lanes read; hooks = hooks }) events
        → IsCommandTaken plans (is_plan_told command lanes read) (head_inputs command lanes read start) (lines command lanes read)
        (is_applied command lanes read) (applied_plan command lanes read) (applied_script command lanes read) (extras command lanes read) operation events }
{
    a_planning_is_of_whole_steps();
}

/// `check` accepts what `apply_planned` and `apply_planned_in_lanes` of `apply_command` write, and
/// its verdict agrees with the report. Where a plan was applied, the report has no error, and a
/// create of the plan never starts, the verdict is the fault `planned` of the last line.
///
/// The verdict has the totals of the plan, or of the apply, an error if and only if the report has
/// one, and the number of lines. The stream of a plan without an error is whole with `--plan`.
/// There are at most as many hooks as a registry holds, and no line is longer than 64 MiB. The plan
/// only deletes deposed objects, and few objects that are told while it is made share an address.
/// `bytes`: the sink knows its bytes and had none before; `check` accepts these bytes.
pub fn every_stream_of_a_command_is_accepted()
    ensures stream { (plans : Bool) (schedule : Schedule) (command : Command) (refresh : Bool) (lanes : ℕ) (given : Inputs)
        (start : ℕ) (operation : Operation) (report : FormReport) (before after : SinkState)
        (run : WasReportedOf schedule (planned_reading command refresh lanes) given start operation report before after)
        → 0 < lanes → IsPlannedSo run.applied.read → length given.hooks ≤ max_hooks
        → HasShortLines (stream_in (form command lanes run.applied.read start operation) run.applied.streamed.events)
        → IsCommandJudged plans command lanes run.applied.read run.applied.streamed.events report
        (length (cut_lines (stream_in (form command lanes run.applied.read start operation) run.applied.streamed.events)))
        (verdict_of (plain plans)
        (cut_lines (stream_in (form command lanes run.applied.read start operation) run.applied.streamed.events))) }
    ensures bytes { (plans : Bool) (schedule : Schedule) (command : Command) (refresh : Bool) (lanes : ℕ) (given : Inputs)
        (start : ℕ) (operation : Operation) (report : FormReport) (before after : SinkState) (bytes : List ℕ)
        (run : WasReportedOf schedule (planned_reading command refresh lanes) given start operation report before after)
        → 0 < lanes → IsPlannedSo run.applied.read → length given.hooks ≤ max_hooks
        → before.bytes ≡ Some [] → after.bytes ≡ Some bytes → HasShortLines bytes
        → IsCommandJudged plans command lanes run.applied.read run.applied.streamed.events report (length (cut_lines bytes))
        (verdict_of (plain plans) (cut_lines bytes)) }
{
    all_but_no_ops_are_planned();
    each_object_is_named_once();
    relative_addresses_join_their_module();
    what_was_read_of_a_planning_can_be_read_back();
    only_reads_of_a_planning_warn();
    a_planning_is_of_whole_steps();
    a_run_is_of_whole_steps();
    every_event_of_a_run_can_happen();
    events_that_can_happen_fit_bits();
    every_line_of_a_command_is_read_back();
    every_message_of_a_command_is_accepted();
    lines_are_judged_by_their_messages();
}
