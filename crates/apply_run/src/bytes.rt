//! Reads a plan and a script from bytes, and applies them with workers.

ghost use Rattle.std.specs.Prelude.{◌≡◌, ◌<◌, ◌-◌, ◌^◌, IfErr, IfOk};
ghost use Rattle.std.specs.Option.{option_copied};
ghost use Rattle.apply_hooks.specs.Registry.{rules_of};
ghost use Rattle.apply_run.specs.Bytes.{Inputs};
ghost use Rattle.apply_run.specs.FromBytes.{form_for, IsReadAs, ReadFor, work_for};
ghost use Rattle.apply_run.specs.InForm.{WasApplied, WasAppliedInForm, WasRefused, WasRefusedInForm};
ghost use Rattle.apply_run.specs.Options.{IsInRange};
ghost use Rattle.apply_run.specs.Run.{by_workers, HasFailedBy, HasStreamedBy, sink_state};

use crate::applying::apply_in_form;
use crate::form_report::FormReport;
use crate::options::Options;
use crate::read_inputs::{ReadInputs, read_inputs};
use crate::refusal::Refusal;
use crate::worker::gate::Gate;
use apply_hooks::Registry;
use apply_text_terraform::Form;
use apply_writer::{Fault, PlainLines, Report, Sink, TerraformLines, Why};
use std::alloc::Global;
use std::sync::Wait;
use std::thread::Threads;

/// Reads a plan (JSON Output Format, "Plan Representation") and an optional script, and applies
/// both as [`apply_stream`](crate::apply_stream) does. Every answer returns the sink.
///
/// `Err` with `Refusal::Plan` if the bytes are not a plan. Else `Err` with `Refusal::Script` if
/// there is a script and it does not fit the plan. Else `Err` with `Refusal::Waits` if it states
/// dependencies, which workers do not keep. Else `Err` with `Refusal::Size` if the options are out
/// of range. Then nothing was written.
///
/// `Err` with `Refusal::Fault` if the run failed.
pub fn apply_bytes<S: Sink + Drop, G: Gate, R: Threads + Wait + Sync>(
    rt: &R,
    alloc: Global,
    plan: &[u8],
    script: Option<&[u8]>,
    registry: &Registry,
    options: Options,
    sink: S,
    gate: &G,
) -> (S, Result<Report, Refusal>)
    requires { S.failed sink < 2 ^ 64 - 1 }

    ensures ok { IfOk result.1 (λ report. WasApplied
        (record { plan = plan.now; script = option_copied script.entry; hooks = rules_of registry.now }) options report
        (sink_state S.bytes S.failed sink) (sink_state S.bytes S.failed result.0)) }

    ensures err { IfErr result.1 (λ refusal. WasRefused
        (record { plan = plan.now; script = option_copied script.entry; hooks = rules_of registry.now }) options refusal
        (sink_state S.bytes S.failed sink) (sink_state S.bytes S.failed result.0)) }
{
    let form = Form::Applystream;
    let (sink, result) = apply_bytes_in_form(
        rt, alloc, plan, script, registry, options, form, sink, gate,
    );
    match result {
        Ok(report) => (sink, Ok(report.run)),
        Err(refusal) => (sink, Err(refusal)),
    }
}

/// Reads a plan (JSON Output Format, "Plan Representation") and an optional script, and writes the
/// stream in that form. The default form is that of [`apply_bytes`](crate::apply_bytes).
/// Terraform's form also prints the extras of plan and script. Every answer returns the sink.
///
/// In Terraform's form, a plan that ended with an error is applied without changes, and the stream
/// reports that error.
///
/// `Err` with `Refusal::Plan` if the bytes are not a plan. Else `Err` with `Refusal::Script` if
/// there is a script and it does not fit the plan. In Terraform's form, that includes outputs that
/// the plan does not have, and malformed diagnostics. Else `Err` with `Refusal::Waits` if the
/// script states dependencies. Else `Err` with `Refusal::Size` if the options are out of range.
/// Then nothing was written.
///
/// `Err` with `Refusal::Fault` if the run failed.
pub fn apply_bytes_in_form<S: Sink + Drop, G: Gate, R: Threads + Wait + Sync>(
    rt: &R,
    alloc: Global,
    plan: &[u8],
    script: Option<&[u8]>,
    registry: &Registry,
    options: Options,
    form: Form,
    sink: S,
    gate: &G,
) -> (S, Result<FormReport, Refusal>)
    requires { S.failed sink < 2 ^ 64 - 1 }

    ensures ok { IfOk result.1 (λ report. WasAppliedInForm form
        (record { plan = plan.now; script = option_copied script.entry; hooks = rules_of registry.now }) options report
        (sink_state S.bytes S.failed sink) (sink_state S.bytes S.failed result.0)) }

    ensures err { IfErr result.1 (λ refusal. WasRefusedInForm form
        (record { plan = plan.now; script = option_copied script.entry; hooks = rules_of registry.now }) options refusal
        (sink_state S.bytes S.failed sink) (sink_state S.bytes S.failed result.0)) }
{
    let read = match read_inputs(alloc, plan, script, form) {
        Ok(read) => read,
        Err(refusal) => return (sink, Err(refusal)),
    };
    if read.has_waits {
        return (sink, Err(Refusal::Waits));
    }
    if !options.in_range() {
        return (sink, Err(Refusal::Size));
    }
    let (sink, result) = apply_read(rt, alloc, &read, registry, options, form, sink, gate);
    match result {
        Ok(run) => (sink, Ok(read.report(run))),
        Err(fault) => (sink, Err(Refusal::Fault(fault))),
    }
}

/// Applies with workers what was read for that form.
fn apply_read<S: Sink + Drop, G: Gate, R: Threads + Wait + Sync>(
    rt: &R,
    alloc: Global,
    read: &ReadInputs,
    registry: &Registry,
    options: Options,
    form: Form,
    sink: S,
    gate: &G,
) -> (S, Result<Report, Fault>)
    requires sizes { IsInRange options }
    requires failures { S.failed sink < 2 ^ 64 - 1 }

    ensures ok { (given : Inputs) (stated : ReadFor form) → given.hooks ≡ rules_of registry.now → IsReadAs form stated read.now
        → IfOk result.1 (λ report. HasStreamedBy (by_workers options)
        (form_for form stated options.start options.operation) (work_for form given stated) report
        (sink_state S.bytes S.failed sink) (sink_state S.bytes S.failed result.0)) }

    ensures err { (given : Inputs) (stated : ReadFor form) → given.hooks ≡ rules_of registry.now → IsReadAs form stated read.now
        → IfErr result.1 (λ fault. HasFailedBy fault.why (by_workers options)
        (form_for form stated options.start options.operation) (work_for form given stated) fault.report
        (sink_state S.bytes S.failed sink) (sink_state S.bytes S.failed result.0)) }
{
    let (plan, script) = (&read.plan, &read.script);
    let (start, operation) = (options.start, options.operation);
    match form {
        Form::Applystream => match PlainLines::new(alloc, plan, script, start, operation) {
            Ok(lines) => {
                apply_in_form(
                    rt, alloc, plan, script, registry, options, lines, sink, gate,
                )
            }
            Err(_) => (sink, Err(Fault::at_once(Why::Memory))),
        },
        Form::Terraform => {
            let extras = read.stream_extras();
            match TerraformLines::new(alloc, plan, script, extras, start, operation) {
                Ok(lines) => {
                    apply_in_form(
                        rt, alloc, plan, script, registry, options, lines, sink, gate,
                    )
                }
                Err(_) => (sink, Err(Fault::at_once(Why::Memory))),
            }
        }
    }
}
