//! Reads a plan and a script from bytes, and applies them in lanes.

ghost use Rattle.std.specs.Prelude.{◌≡◌, ◌<◌, ◌-◌, ◌^◌, IfErr, IfOk};
ghost use Rattle.std.specs.Option.{option_copied};
ghost use Rattle.apply_events.specs.Lanes.{AreLanes};
ghost use Rattle.apply_hooks.specs.Registry.{rules_of};
ghost use Rattle.apply_run.specs.Bytes.{Inputs};
ghost use Rattle.apply_run.specs.FromBytes.{form_for, IsReadAs, ReadFor, work_for};
ghost use Rattle.apply_run.specs.InForm.{WasAppliedInFormAndLanes, WasAppliedInLanes, WasRefusedInFormAndLanes, WasRefusedInLanes};
ghost use Rattle.apply_run.specs.Run.{HasFailedBy, HasStreamedBy, sink_state};
ghost use Rattle.apply_run.specs.Schedule.{InLanes};

use crate::form_report::FormReport;
use crate::lanes::{apply_lanes_in_form, are_lanes};
use crate::read_inputs::{ReadInputs, read_inputs};
use crate::refusal::Refusal;
use apply_hooks::Registry;
use apply_text::{Operation, Start};
use apply_text_terraform::Form;
use apply_writer::{Fault, PlainLines, Report, Sink, TerraformLines, Why};
use std::alloc::Global;

/// Reads a plan (JSON Output Format, "Plan Representation") and an optional script, and applies
/// both as [`apply_in_lanes`](crate::apply_in_lanes) does. Every answer returns the sink.
///
/// `Err` with `Refusal::Plan` if the bytes are not a plan. Else `Err` with `Refusal::Script` if
/// there is a script and it does not fit the plan. Else `Err` with `Refusal::Size` unless there are
/// 1 to 64 lanes. Then nothing was written.
///
/// `Err` with `Refusal::Fault` if the run failed.
pub fn apply_bytes_in_lanes<S: Sink + Drop>(
    alloc: Global,
    plan: &[u8],
    script: Option<&[u8]>,
    registry: &Registry,
    lanes: u8,
    start: Start,
    operation: Operation,
    sink: S,
) -> (S, Result<Report, Refusal>)
    requires { S.failed sink < 2 ^ 64 - 1 }

    ensures ok { IfOk result.1 (λ report. WasAppliedInLanes
        (record { plan = plan.now; script = option_copied script.entry; hooks = rules_of registry.now }) lanes start operation report
        (sink_state S.bytes S.failed sink) (sink_state S.bytes S.failed result.0)) }

    ensures err { IfErr result.1 (λ refusal. WasRefusedInLanes
        (record { plan = plan.now; script = option_copied script.entry; hooks = rules_of registry.now }) lanes start operation refusal
        (sink_state S.bytes S.failed sink) (sink_state S.bytes S.failed result.0)) }
{
    let form = Form::Applystream;
    let (sink, result) = apply_bytes_in_form_and_lanes(
        alloc, plan, script, registry, lanes, start, operation, form, sink,
    );
    match result {
        Ok(report) => (sink, Ok(report.run)),
        Err(refusal) => (sink, Err(refusal)),
    }
}

/// Does what [`apply_bytes_in_form`](crate::apply_bytes_in_form) does, in 1 to 64 lanes as
/// [`apply_in_lanes`](crate::apply_in_lanes). `Refusal::Size` comes unless there are 1 to 64 lanes,
/// and `Refusal::Waits` never.
pub fn apply_bytes_in_form_and_lanes<S: Sink + Drop>(
    alloc: Global,
    plan: &[u8],
    script: Option<&[u8]>,
    registry: &Registry,
    lanes: u8,
    start: Start,
    operation: Operation,
    form: Form,
    sink: S,
) -> (S, Result<FormReport, Refusal>)
    requires { S.failed sink < 2 ^ 64 - 1 }

    ensures ok { IfOk result.1 (λ report. WasAppliedInFormAndLanes form
        (record { plan = plan.now; script = option_copied script.entry; hooks = rules_of registry.now }) lanes start operation report
        (sink_state S.bytes S.failed sink) (sink_state S.bytes S.failed result.0)) }

    ensures err { IfErr result.1 (λ refusal. WasRefusedInFormAndLanes form
        (record { plan = plan.now; script = option_copied script.entry; hooks = rules_of registry.now }) lanes start operation refusal
        (sink_state S.bytes S.failed sink) (sink_state S.bytes S.failed result.0)) }
{
    let read = match read_inputs(alloc, plan, script, form) {
        Ok(read) => read,
        Err(refusal) => return (sink, Err(refusal)),
    };
    if !are_lanes(lanes) {
        return (sink, Err(Refusal::Size));
    }
    let (sink, result) = apply_read(alloc, &read, registry, lanes, start, operation, form, sink);
    match result {
        Ok(run) => (sink, Ok(read.report(run))),
        Err(fault) => (sink, Err(Refusal::Fault(fault))),
    }
}

/// Applies in lanes what was read for that form.
fn apply_read<S: Sink + Drop>(
    alloc: Global,
    read: &ReadInputs,
    registry: &Registry,
    lanes: u8,
    start: Start,
    operation: Operation,
    form: Form,
    sink: S,
) -> (S, Result<Report, Fault>)
    requires lanes { AreLanes lanes }
    requires failures { S.failed sink < 2 ^ 64 - 1 }

    ensures ok { (given : Inputs) (stated : ReadFor form) → given.hooks ≡ rules_of registry.now → IsReadAs form stated read.now
        → IfOk result.1 (λ report. HasStreamedBy (InLanes lanes)
        (form_for form stated start operation) (work_for form given stated) report
        (sink_state S.bytes S.failed sink) (sink_state S.bytes S.failed result.0)) }

    ensures err { (given : Inputs) (stated : ReadFor form) → given.hooks ≡ rules_of registry.now → IsReadAs form stated read.now
        → IfErr result.1 (λ fault. HasFailedBy fault.why (InLanes lanes)
        (form_for form stated start operation) (work_for form given stated) fault.report
        (sink_state S.bytes S.failed sink) (sink_state S.bytes S.failed result.0)) }
{
    let (plan, script) = (&read.plan, &read.script);
    match form {
        Form::Applystream => match PlainLines::new(alloc, plan, script, start, operation) {
            Ok(lines) => apply_lanes_in_form(alloc, plan, script, registry, lanes, lines, sink),
            Err(_) => (sink, Err(Fault::at_once(Why::Memory))),
        },
        Form::Terraform => {
            let extras = read.stream_extras();
            match TerraformLines::new(alloc, plan, script, extras, start, operation) {
                Ok(lines) => apply_lanes_in_form(alloc, plan, script, registry, lanes, lines, sink),
                Err(_) => (sink, Err(Fault::at_once(Why::Memory))),
            }
        }
    }
}
