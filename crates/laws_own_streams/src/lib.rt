//! Laws of what `record` reads of a stream of our own.
//!
//! The stream is that of a run in lanes, without hooks. Its plan and its script were read.
//!
//! Each function calls the laws that its own law follows from: its contract is the law. No program
//! links this crate.
#![tactic(auto)]

ghost use Rattle.std.specs.Prelude.{◌≡◌, ◌≢◌, ℕ, ◌+◌, ◌++◌, All, List, [], true, false, Ok, Option, Some};
ghost use Rattle.std.specs.List.{AllByRecursion};
ghost use Rattle.stream_lines.specs.Cut.{cut_lines};
ghost use Rattle.apply_model.specs.Plan.ResourceChange.{ResourceChange};
ghost use Rattle.apply_model.specs.Plan.SavedPlan.{SavedPlan};
ghost use Rattle.apply_plan.specs.Plan.SavedPlan.{plan_of};
ghost use Rattle.apply_events.specs.declared.event.Event.{Event};
ghost use Rattle.apply_events.specs.Step.{Work};
ghost use Rattle.apply_events.specs.Totals.{totals_of};
ghost use Rattle.apply_text.specs.declared.operation.Operation.{Operation};
ghost use Rattle.apply_text.specs.Order.{hook_messages_of};
ghost use Rattle.apply_run.specs.Bytes.{Inputs, IsRead};
ghost use Rattle.apply_text_terraform.specs.declared.form.Form.TheVariants.{Terraform};
ghost use Rattle.apply_run.specs.FromBytes.{form_for, work_for};
ghost use Rattle.apply_run.specs.Read.{IsStated, StatedInputs, applied_plan, applied_script, extras_of, is_unfinished};
ghost use Rattle.apply_text_terraform.specs.Message.{diagnostic_address};
ghost use Rattle.apply_writer.specs.Stream.Form.{plain_form, stream_in};
ghost use Rattle.apply_writer.specs.Stream.Terraform.{contains_error, terraform_form};
ghost use Rattle.stream_record_stream.specs.Reading.{read_of};
ghost use Rattle.stream_record_stream.specs.Streams.{StreamRead, has_error};
ghost use Rattle.laws_lines.specs.Reading.{NoReadFails, outputs_read};
ghost use Rattle.laws_lines.specs.Stated.{told_by, told_in_form};
ghost use Rattle.laws_own_streams.specs.Runs.{AreShallow, IsRun, notes_read, notes_read_by_ends, notes_read_by_ends_in_form, notes_read_in_form, planned_count, without_hooks};
ghost use Rattle.laws_reads.specs.Runs.{IsOfRun, unless};
ghost use Rattle.laws_texts.specs.Notes.{HasAnEnd};
ghost use Rattle.laws_texts.specs.TimeLines.{notes_by_ends};

use laws_check::{
    a_run_is_of_whole_steps, events_that_can_happen_fit_bits, texts_that_were_read_are_utf8,
    what_was_read_for_terraforms_form_can_be_read_back,
    what_was_read_for_terraforms_form_may_be_applied,
};
use laws_lines::the_time_of_a_time_line_never_falls;
use laws_run::{
    a_time_line_has_few_events, every_event_of_a_time_line_can_happen,
    relative_addresses_join_their_module, what_was_read_is_within_limits,
};

/// In a plan that was read, no change has an empty address.
pub fn no_address_is_empty()
    ensures { (bytes : List ℕ) (plan : SavedPlan) → plan_of bytes ≡ Ok plan
        → AllByRecursion (λ (change : ResourceChange). change.address ≢ []) plan.changes }
{
    relative_addresses_join_their_module();
}

/// What `record` reads of the stream of a run in the default form.
///
/// `as_told`: the diagnostics are those of the events, in order, without their ranges and snippets.
/// `by_ends`: they are those of the steps that end, in the order of the ends. No step only warns.
pub fn a_run_in_lanes_is_read()
    ensures as_told { (given : Inputs) (work : Work) (lanes start : ℕ) (operation : Operation) (events : List Event) (read : StreamRead)
        → IsRead given work.plan work.script → IsRun work lanes start events
        → read_of work.plan false 0 (cut_lines (stream_in (plain_form work.plan work.script start operation) events)) ≡ Ok read
        → IsOfRun (told_by work.plan work.script) start 2 (hook_messages_of events)
        (notes_read work.plan work.script events) [] (Some operation) true read }
    ensures by_ends { (given : Inputs) (work : Work) (lanes start : ℕ) (operation : Operation) (events : List Event) (read : StreamRead)
        → IsRead given work.plan work.script → IsRun work lanes start events
        → All (HasAnEnd work.script) (hook_messages_of events)
        → read_of work.plan false 0 (cut_lines (stream_in (plain_form work.plan work.script start operation) events)) ≡ Ok read
        → IsOfRun (told_by work.plan work.script) start 2 (hook_messages_of events)
        (notes_read_by_ends work.plan work.script events) [] (Some operation) true read }
{
    texts_that_were_read_are_utf8();
    what_was_read_is_within_limits();
    a_time_line_has_few_events();
    every_event_of_a_time_line_can_happen();
    events_that_can_happen_fit_bits();
    the_time_of_a_time_line_never_falls();
    no_address_is_empty();
}

/// In Terraform's form `record` reads a diagnostic that is an error if and only if the stream ends
/// without a summary.
pub fn an_error_is_read_if_there_is_no_summary()
    ensures { (given : Inputs) (stated : StatedInputs) (lanes start : ℕ) (events : List Event)
        → IsStated given.plan given.script stated → IsRun (work_for Terraform given stated) lanes start events
        → has_error (notes_read_in_form (applied_plan stated) (applied_script stated) (extras_of stated) events)
        ≡ contains_error (extras_of stated).notes (totals_of (applied_plan stated) events) }
{
    what_was_read_for_terraforms_form_may_be_applied();
    every_event_of_a_time_line_can_happen();
    a_run_is_of_whole_steps();
}

/// What `record` reads of the stream of a run in Terraform's form.
///
/// No read fails, since the end of a failed read has no line.
///
/// `as_told`: the diagnostics are those of the events, in order, then those of no step. `by_ends`:
/// those of steps are in the order of the ends of their steps. No step only warns.
pub fn a_run_in_lanes_is_read_in_terraforms_form()
    ensures as_told { (given : Inputs) (stated : StatedInputs) (lanes start : ℕ) (operation : Operation) (events : List Event) (read : StreamRead)
        → IsStated given.plan given.script stated → IsRun (work_for Terraform given stated) lanes start events → NoReadFails (applied_plan stated) (applied_script stated)
        → read_of (applied_plan stated) false 0 (cut_lines (stream_in (form_for Terraform stated start operation) events)) ≡ Ok read
        → IsOfRun (told_in_form (applied_plan stated) (applied_script stated) stated.details.changes) start
        (2 + planned_count (applied_plan stated) stated.details.changes) (hook_messages_of events)
        (notes_read_in_form (applied_plan stated) (applied_script stated) (extras_of stated) events)
        (outputs_read (extras_of stated) operation (totals_of (applied_plan stated) events))
        (unless (contains_error (extras_of stated).notes (totals_of (applied_plan stated) events)) operation) false read }
    ensures by_ends { (given : Inputs) (stated : StatedInputs) (lanes start : ℕ) (operation : Operation) (events : List Event) (read : StreamRead)
        → IsStated given.plan given.script stated → IsRun (work_for Terraform given stated) lanes start events → NoReadFails (applied_plan stated) (applied_script stated)
        → All (HasAnEnd (applied_script stated)) (hook_messages_of events)
        → read_of (applied_plan stated) false 0 (cut_lines (stream_in (form_for Terraform stated start operation) events)) ≡ Ok read
        → IsOfRun (told_in_form (applied_plan stated) (applied_script stated) stated.details.changes) start
        (2 + planned_count (applied_plan stated) stated.details.changes) (hook_messages_of events)
        (notes_read_by_ends_in_form (applied_plan stated) (applied_script stated) (extras_of stated) events)
        (outputs_read (extras_of stated) operation (totals_of (applied_plan stated) events))
        (unless (contains_error (extras_of stated).notes (totals_of (applied_plan stated) events)) operation) false read }
{
    what_was_read_for_terraforms_form_can_be_read_back();
    what_was_read_for_terraforms_form_may_be_applied();
    a_time_line_has_few_events();
    every_event_of_a_time_line_can_happen();
    events_that_can_happen_fit_bits();
    the_time_of_a_time_line_never_falls();
    no_address_is_empty();
    an_error_is_read_if_there_is_no_summary();
}

/// The same for a plan that Terraform finished: it is applied as it is.
pub fn a_run_of_a_finished_plan_is_read_in_terraforms_form()
    ensures { (plan : List ℕ) (script : Option (List ℕ)) (stated : StatedInputs) (lanes start : ℕ) (operation : Operation) (events : List Event)
        (read : StreamRead) → IsStated plan script stated → is_unfinished stated.details.note ≡ false
        → IsRun (without_hooks stated.plan stated.script) lanes start events → NoReadFails stated.plan stated.script
        → All (HasAnEnd stated.script) (hook_messages_of events)
        → read_of stated.plan false 0 (cut_lines (stream_in (terraform_form stated.plan stated.script (extras_of stated) start operation) events))
        ≡ Ok read
        → IsOfRun (told_in_form stated.plan stated.script stated.details.changes) start
        (2 + planned_count stated.plan stated.details.changes) (hook_messages_of events)
        (notes_read_by_ends_in_form stated.plan stated.script (extras_of stated) events)
        (outputs_read (extras_of stated) operation (totals_of stated.plan events))
        (unless (contains_error (extras_of stated).notes (totals_of stated.plan events)) operation) false read }
{
    a_run_in_lanes_is_read_in_terraforms_form();
}

/// If no range and no snippet nests too deep, the diagnostics of a run in Terraform's form are read
/// as they are.
pub fn shallow_diagnostics_are_read_whole()
    ensures { (plan : List ℕ) (script : Option (List ℕ)) (stated : StatedInputs) (events : List Event)
        → IsStated plan script stated → AreShallow stated.script (extras_of stated)
        → notes_read_by_ends_in_form stated.plan stated.script (extras_of stated) events
        ≡ notes_by_ends diagnostic_address stated.plan stated.script events ++ (extras_of stated).notes }
{}
