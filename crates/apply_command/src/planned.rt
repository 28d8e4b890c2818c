//! Runs a command that plans: reads its inputs, and applies its plan.

ghost use Rattle.std.specs.Prelude.{◌≡◌, ℕ, ◌<◌, ◌-◌, ◌^◌, IfErr, IfOk};
ghost use Rattle.std.specs.Option.{option_copied};
ghost use Rattle.apply_events.specs.Lanes.{AreLanes};
ghost use Rattle.apply_hooks.specs.Registry.{rules_of};
ghost use Rattle.apply_planning.specs.Schedule.{IsScheduleOf};
ghost use Rattle.apply_run.specs.FromBytes.{WasRefusedOf, WasReportedOf};
ghost use Rattle.apply_run.specs.Options.{IsInRange};
ghost use Rattle.apply_run.specs.Run.{by_workers, HasFailedBy, HasStreamedBy, sink_state};
ghost use Rattle.apply_run.specs.Schedule.{InLanes};
ghost use Rattle.apply_command.specs.Prepared.{IsPrepared};
ghost use Rattle.apply_command.specs.Reading.{applied_plan, applied_script, CommandInputs, form, planned_reading};
ghost use Rattle.apply_text_terraform.specs.declared.command.Command.{Command};

use crate::command_lines::CommandLines;
use crate::prepared::Prepared;
use crate::preparing::prepare;
use crate::reading::read_command;
use apply_hooks::Registry;
use apply_run::{
    Fault, FormReport, Gate, Options, Refusal, Report, Sink, Why, apply_in_form,
    apply_lanes_in_form, are_lanes,
};
use apply_text::{Operation, Start};
use apply_text_terraform::Command;
use std::alloc::Global;
use std::sync::Wait;
use std::thread::Threads;

/// Reads a plan (JSON Output Format, "Plan Representation") and an optional script, and writes the
/// stream of a command that plans before it applies: what it refreshes and reads, what drifted,
/// what it plans, and the apply. `refresh` says whether objects are refreshed. Every answer returns
/// the sink.
///
/// The planning takes place in the stream's own time, in one lane. The apply begins when the planning
/// has ended, as [`apply_run::apply_bytes_in_form`] applies a saved plan in Terraform's form. Where
/// the planning fails, and with `Command::Plan`, nothing is applied. `Command::Saved` plans as
/// `Command::Apply`.
///
/// `Err` as of that call. `Refusal::Script` comes also if what the script says of the planning is
/// wrong.
pub fn apply_planned<S: Sink + Drop, G: Gate, R: Threads + Wait + Sync>(
    rt: &R,
    alloc: Global,
    plan: &[u8],
    script: Option<&[u8]>,
    registry: &Registry,
    options: Options,
    command: Command,
    refresh: bool,
    sink: S,
    gate: &G,
) -> (S, Result<FormReport, Refusal>)
    requires { S.failed sink < 2 ^ 64 - 1 }

    ensures ok { IfOk result.1 (λ report. WasReportedOf (by_workers options) (planned_reading command refresh 1)
        (record { plan = plan.now; script = option_copied script.entry; hooks = rules_of registry.now })
        options.start options.operation report
        (sink_state S.bytes S.failed sink) (sink_state S.bytes S.failed result.0)) }

    ensures err { IfErr result.1 (λ refusal. WasRefusedOf (by_workers options) (planned_reading command refresh 1)
        (record { plan = plan.now; script = option_copied script.entry; hooks = rules_of registry.now })
        options.start options.operation refusal
        (sink_state S.bytes S.failed sink) (sink_state S.bytes S.failed result.0)) }
{
    let read = match read_command(alloc, plan, script, command, refresh) {
        Ok(read) => read,
        Err(refusal) => return (sink, Err(refusal)),
    };
    if read.stated.read.script.has_waits() {
        return (sink, Err(Refusal::Waits));
    }
    if !options.in_range() {
        return (sink, Err(Refusal::Size));
    }
    let Ok(prepared) = prepare(alloc, command, 1, read) else {
        return (sink, Err(Refusal::Fault(Fault::at_once(Why::Memory))));
    };
    let (sink, result) = apply_prepared(rt, alloc, &prepared, registry, options, sink, gate);
    match result {
        Ok(run) => (sink, Ok(prepared.report(run))),
        Err(fault) => (sink, Err(Refusal::Fault(fault))),
    }
}

/// Applies with workers what was prepared.
fn apply_prepared<S: Sink + Drop, G: Gate, R: Threads + Wait + Sync>(
    rt: &R,
    alloc: Global,
    prepared: &Prepared,
    registry: &Registry,
    options: Options,
    sink: S,
    gate: &G,
) -> (S, Result<Report, Fault>)
    requires sizes { IsInRange options }
    requires planned { IsScheduleOf prepared.now.told.items prepared.now.schedule }
    requires lanes { prepared.now.schedule.lanes ≡ prepared.now.lanes }
    requires failures { S.failed sink < 2 ^ 64 - 1 }

    ensures ok { (command : Command) (lanes : ℕ) (read : CommandInputs) → IsPrepared command lanes read prepared.now
        → IfOk result.1 (λ report. HasStreamedBy (by_workers options) (form command lanes read options.start options.operation)
        (record { plan = applied_plan command lanes read; script = applied_script command lanes read; hooks = rules_of registry.now }) report
        (sink_state S.bytes S.failed sink) (sink_state S.bytes S.failed result.0)) }

    ensures err { (command : Command) (lanes : ℕ) (read : CommandInputs) → IsPrepared command lanes read prepared.now
        → IfErr result.1 (λ fault. HasFailedBy fault.why (by_workers options) (form command lanes read options.start options.operation)
        (record { plan = applied_plan command lanes read; script = applied_script command lanes read; hooks = rules_of registry.now }) fault.report
        (sink_state S.bytes S.failed sink) (sink_state S.bytes S.failed result.0)) }
{
    let (plan, script) = (prepared.applied(), prepared.applied_script());
    match CommandLines::new(alloc, prepared, options.start, options.operation) {
        Ok(lines) => {
            apply_in_form(
                rt, alloc, plan, script, registry, options, lines, sink, gate,
            )
        }
        Err(_) => (sink, Err(Fault::at_once(Why::Memory))),
    }
}

/// Does what [`apply_planned`] does, in 1 to 64 lanes. The planning has as many. `Refusal::Size`
/// comes unless there are 1 to 64 lanes, and `Refusal::Waits` never.
pub fn apply_planned_in_lanes<S: Sink + Drop>(
    alloc: Global,
    plan: &[u8],
    script: Option<&[u8]>,
    registry: &Registry,
    lanes: u8,
    start: Start,
    operation: Operation,
    command: Command,
    refresh: bool,
    sink: S,
) -> (S, Result<FormReport, Refusal>)
    requires { S.failed sink < 2 ^ 64 - 1 }

    ensures ok { IfOk result.1 (λ report. WasReportedOf (InLanes lanes) (planned_reading command refresh lanes)
        (record { plan = plan.now; script = option_copied script.entry; hooks = rules_of registry.now })
        start operation report
        (sink_state S.bytes S.failed sink) (sink_state S.bytes S.failed result.0)) }

    ensures err { IfErr result.1 (λ refusal. WasRefusedOf (InLanes lanes) (planned_reading command refresh lanes)
        (record { plan = plan.now; script = option_copied script.entry; hooks = rules_of registry.now })
        start operation refusal
        (sink_state S.bytes S.failed sink) (sink_state S.bytes S.failed result.0)) }
{
    let read = match read_command(alloc, plan, script, command, refresh) {
        Ok(read) => read,
        Err(refusal) => return (sink, Err(refusal)),
    };
    if !are_lanes(lanes) {
        return (sink, Err(Refusal::Size));
    }
    let Ok(prepared) = prepare(alloc, command, lanes, read) else {
        return (sink, Err(Refusal::Fault(Fault::at_once(Why::Memory))));
    };
    let (sink, result) = apply_prepared_in_lanes(
        alloc, &prepared, registry, lanes, start, operation, sink,
    );
    match result {
        Ok(run) => (sink, Ok(prepared.report(run))),
        Err(fault) => (sink, Err(Refusal::Fault(fault))),
    }
}

/// Applies in lanes what was prepared.
fn apply_prepared_in_lanes<S: Sink + Drop>(
    alloc: Global,
    prepared: &Prepared,
    registry: &Registry,
    lanes: u8,
    start: Start,
    operation: Operation,
    sink: S,
) -> (S, Result<Report, Fault>)
    requires lanes { AreLanes lanes }
    requires planned { IsScheduleOf prepared.now.told.items prepared.now.schedule }
    requires planned_lanes { prepared.now.schedule.lanes ≡ prepared.now.lanes }
    requires failures { S.failed sink < 2 ^ 64 - 1 }

    ensures ok { (command : Command) (read : CommandInputs) → IsPrepared command lanes read prepared.now
        → IfOk result.1 (λ report. HasStreamedBy (InLanes lanes) (form command lanes read start operation)
        (record { plan = applied_plan command lanes read; script = applied_script command lanes read; hooks = rules_of registry.now }) report
        (sink_state S.bytes S.failed sink) (sink_state S.bytes S.failed result.0)) }

    ensures err { (command : Command) (read : CommandInputs) → IsPrepared command lanes read prepared.now
        → IfErr result.1 (λ fault. HasFailedBy fault.why (InLanes lanes) (form command lanes read start operation)
        (record { plan = applied_plan command lanes read; script = applied_script command lanes read; hooks = rules_of registry.now }) fault.report
        (sink_state S.bytes S.failed sink) (sink_state S.bytes S.failed result.0)) }
{
    let (plan, script) = (prepared.applied(), prepared.applied_script());
    match CommandLines::new(alloc, prepared, start, operation) {
        Ok(lines) => apply_lanes_in_form(alloc, plan, script, registry, lanes, lines, sink),
        Err(_) => (sink, Err(Fault::at_once(Why::Memory))),
    }
}
