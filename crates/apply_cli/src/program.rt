//! Runs the main command, from its arguments to its exit status.

ghost use Rattle.std.specs.Prelude.{◌≡◌, ◌<◌, ◌≤◌, ◌-◌, ◌^◌, ◌⊎◌, false, map, None, option_map, Some, string_bytes, true, IfErr, IfOk, OnOk};
ghost use Rattle.std.specs.Io.KnownBytes.{Keeps};
ghost use Rattle.std.specs.Option.{option_copied};
ghost use Rattle.apply_hooks.specs.Registry.{rules_of};
ghost use Rattle.apply_run.specs.Bytes.{Inputs};
ghost use Rattle.apply_run.specs.FromBytes.{WasRefusedOf, WasReportedOf};
ghost use Rattle.apply_run.specs.Run.{SinkState};
ghost use Rattle.apply_run.specs.Schedule.{InLanes};
ghost use Rattle.apply_cli.specs.Command.{AreOfName, HasApplied, HasAppliedBy, HasBegun, HasBegunBy, IsFrontOfFile, OfInput, sink_state};
ghost use Rattle.apply_cli.specs.Ended.{HasEnded, HasEndedOn};
ghost use Rattle.apply_cli.specs.Invocation.{HasAppliedAsAsked, HasBegunAsAsked, job_reading, schedule_of, unfailed, WasFollowed, WasFollowedInPart, WereApplied, WereBegun};
ghost use Rattle.apply_cli.specs.Options.{options_of};
ghost use Rattle.apply_cli.specs.Status.{input_status_of, usage_status_of};
ghost use Rattle.apply_cli.specs.Unmatched.{AreAllMatched, AreReported, unmatched_of, WereReported};
ghost use Rattle.apply_cli.specs.Version.{AskForVersion, AskForVersionAlone, WasAnswered, WereAnsweredVersion};
ghost use Rattle.apply_cli_args.specs.CommandLine.{AskForHelp, AskForHelpAlone};
ghost use Rattle.apply_cli_args.specs.Halt.{rules_of_halt};

use crate::answer::{answer_usage, report_hook};
use crate::input::{finish_reading, read_input};
use crate::input_fault::InputFault;
use crate::job::Job;
use crate::reporting::{report_refusal, report_unless_gone};
use crate::script_file::{read_file, report_script};
use crate::status::{FAILED, input_status, refusal_status, run_status};
use crate::unmatched::report_unmatched;
use crate::version::{answer_version, ask_for_version};
use apply_cli_args::{Halt, Invocation, Settings, Usage, read_invocation};
use apply_command::{apply_planned, apply_planned_in_lanes};
use apply_hooks::{FnHook, Hook, HookCall, HookClosure, HookError, Registry, Rules};
use apply_plan::Text;
use apply_run::{
    FormReport, NoGate, Options, Refusal, Sink, StdSink, Why, apply_bytes_in_form,
    apply_bytes_in_form_and_lanes, one_worker_applies_all_changes_in_order,
};
use apply_text_terraform::{Command, Form};
use std::alloc::{AllocError, Global};
use std::env::Env;
use std::io::{ErrorKind, Read, Write};
use std::rt::Files;
use std::sync::Wait;
use std::thread::Threads;
use std::time::Clock;

/// Returns the arguments of the command line, with the program's name.
///
/// `Err` with `Usage::Words` if an argument is not UTF-8, and with `Usage::Memory` if memory is
/// refused or the arguments are not available.
pub fn given_words<R: Env + AllocGlobal>(rt: &R) -> Result<Vec<String>, Usage> {
    match std::env::args(rt) {
        Ok(words) => Ok(words.collect(rt.alloc())?),
        Err(error) if error.kind() == ErrorKind::InvalidData => {
            Err(Usage::Words(Text::new(rt.alloc(), "error: an argument is not UTF-8\n")?))
        }
        Err(_) => Err(Usage::Memory),
    }
}

/// Does what the arguments after the program's name ask for, and returns the output and the exit
/// status. The clock gives the start if they state `--at now`.
///
/// `answer_version` answers arguments that ask for the version, `answer_usage` those that
/// `read_invocation` refuses, and `follow_invocation` all others. If a write fails since the reader
/// of the output is gone, nothing is reported. Help that cannot be written is dropped, and does not
/// count as a failure. With status 0 and 1 nothing is reported but prefixes of halts, as in
/// `run_command`.
pub fn follow<
    F: Files,
    C: Clock,
    R: Read + Drop,
    W: Write + Drop,
    E: Write,
    T: Threads + Wait + Sync,
>(
    rt: &T,
    files: &F,
    clock: &C,
    alloc: Global,
    words: &[String],
    input: R,
    output: W,
    faults: &mut E,
) -> (StdSink<W>, u8)
    ensures version { AskForVersion (map string_bytes words.now)
        → WasAnswered (unfailed (W.contents output)) (sink_state W.contents result.0) result.1 }
    ensures version_too { AskForVersionAlone (map string_bytes words.now)
        → WasAnswered (unfailed (W.contents output)) (sink_state W.contents result.0) result.1
        ⊎ ((result.1 ≡ 3) × Keeps (W.contents output) (W.contents result.0.writer)) }
    ensures applied { result.1 ≤ 1
        → WereApplied F.File.remaining (map string_bytes words.now) (R.remaining input) (W.contents output) (sink_state W.contents result.0) result.1
        ⊎ ((result.1 ≡ 0) × (WereAnsweredVersion (map string_bytes words.now) (unfailed (W.contents output)) (sink_state W.contents result.0) result.1
        ⊎ AskForHelp (map string_bytes words.now))) }
    ensures help { AskForHelpAlone (map string_bytes words.now) → (result.1 ≡ 0) ⊎ (result.1 ≡ 3) }
    ensures refused { result.1 ≡ 2 → Keeps (W.contents output) (W.contents result.0.writer) }
    ensures cut_off { result.1 ≡ 3 → Keeps (W.contents output) (W.contents result.0.writer)
        ⊎ (WereBegun F.File.remaining (map string_bytes words.now) (R.remaining input) (W.contents output) (sink_state W.contents result.0)
        ⊎ WereAnsweredVersion (map string_bytes words.now) (unfailed (W.contents output)) (sink_state W.contents result.0) result.1) }
    ensures quiet { result.1 ≤ 1 → AreAllMatched (map string_bytes words.now) (R.remaining input)
        → Keeps (E.contents faults.old) (E.contents faults.new) }
    ensures reported { result.1 ≤ 1 → Keeps (E.contents faults.old) (E.contents faults.new)
        ⊎ WereReported (map string_bytes words.now) (R.remaining input) (E.contents faults.old) (E.contents faults.new) }
    ensures gone { result.0.is_reader_gone ≡ true → Keeps (E.contents faults.old) (E.contents faults.new) }
    ensures statuses { result.1 ≤ 3 }
{
    if ask_for_version(words) {
        let mut output = StdSink::new(output);
        let status = answer_version(&mut output, faults);
        return (output, status);
    }
    match read_invocation(clock, alloc, words) {
        Ok(invocation) => follow_invocation(
            rt,
            files,
            alloc,
            &invocation,
            input,
            StdSink::new(output),
            faults,
        ),
        Err(usage) => answer_unfollowed(&usage, output, faults),
    }
}

/// Answers arguments that give no invocation: `answer_version` answers the version, and
/// `answer_usage` everything else.
fn answer_unfollowed<W: Write + Drop, E: Write>(
    usage: &Usage,
    mut output: W,
    faults: &mut E,
) -> (StdSink<W>, u8)
    ensures version_answered { usage.now ≡ Usage.Version
        → WasAnswered (unfailed (W.contents output)) (sink_state W.contents result.0) result.1 }
    ensures answered { ¬ (usage.now ≡ Usage.Version) → (result.1 ≡ usage_status_of usage.now)
        × (2 ≤ result.1 → Keeps (W.contents output) (W.contents result.0.writer)) }
    ensures quiet { result.1 ≡ 0 → Keeps (E.contents faults.old) (E.contents faults.new) }
    ensures gone { result.0.is_reader_gone ≡ true → Keeps (E.contents faults.old) (E.contents faults.new) }
{
    match usage {
        Usage::Version => {
            let mut output = StdSink::new(output);
            let status = answer_version(&mut output, faults);
            (output, status)
        }
        _ => {
            let status = answer_usage(usage, &mut output, faults);
            (StdSink::new(output), status)
        }
    }
}

/// Makes a hook for each halt of the invocation, in their order, and reads the script's file, if the
/// settings name one. Then runs the job: in lanes if a parallelism is given, else with workers.
///
/// The exit status is that of `run_job` or `run_job_in_lanes`. Before these run, it is 2 if there are
/// more than 32 halts or the script's file could not be read, and 3 if memory was refused. Then
/// nothing was written.
pub fn follow_invocation<
    F: Files,
    R: Read + Drop,
    W: Write + Drop,
    E: Write,
    T: Threads + Wait + Sync,
>(
    rt: &T,
    files: &F,
    alloc: Global,
    invocation: &Invocation,
    input: R,
    output: StdSink<W>,
    faults: &mut E,
) -> (StdSink<W>, u8)
    requires { output.failures < 2 ^ 64 - 1 }
    ensures ended { HasEndedOn (R.remaining input)
        (WasFollowed F.File.remaining invocation.now (sink_state W.contents output) (sink_state W.contents result.0) result.1)
        (WasFollowedInPart F.File.remaining invocation.now (sink_state W.contents output) (sink_state W.contents result.0))
        invocation.now.settings.halts.items (sink_state W.contents output) (sink_state W.contents result.0)
        (E.contents faults.old) (E.contents faults.new) result.1 }
    ensures gone { output.is_reader_gone ≡ false → result.0.is_reader_gone ≡ true
        → Keeps (E.contents faults.old) (E.contents faults.new) }
{
    let settings = &invocation.settings;
    // The closures are boxed here, where the registry is owned: a function that returned them would
    // hide their answers.
    let mut registry = Registry::new(alloc);
    for halt in &settings.halts {
        let Ok((rules, own)) = rules_twice(alloc, halt) else {
            return (output, report_hook(faults, HookError::Memory));
        };
        let Ok(closure) = Box::new(alloc, move |call: &HookCall<'_>| own.decide(call)) else {
            return (output, report_hook(faults, HookError::Memory));
        };
        let answer: HookClosure = closure;
        if let Err((refused, _)) = registry.add(FnHook::new(rules, answer)) {
            return (output, report_hook(faults, refused));
        }
    }
    let script = match script_of(files, alloc, settings, faults) {
        Ok(script) => script,
        Err(status) => return (output, status),
    };
    let script = script.as_deref();
    let (form, registry) = (invocation.form, &registry);
    let job = Job {
        settings,
        form,
        command: invocation.command,
        refresh: invocation.refresh,
        registry,
        script,
    };
    match invocation.parallelism {
        Some(lanes) => run_job_in_lanes(alloc, &job, lanes, input, output, faults),
        None => run_job(rt, alloc, &job, input, output, faults),
    }
}

/// Returns the rules of the halt twice: for its hook, and for its closure. `Err` if memory is
/// refused.
fn rules_twice(alloc: Global, halt: &Halt) -> Result<(Rules, Rules), AllocError>
    ensures { IfOk result (λ both. (both.0 ≡ rules_of_halt halt.now) × (both.1 ≡ rules_of_halt halt.now)) }
{
    let rules = halt.rules(alloc)?;
    let own = halt.rules(alloc)?;
    Ok((rules, own))
}

/// Returns the bytes of the script's file, if the settings name one. `Err` with the exit status, 2 or
/// 3, if `read_file` fails; then its error was reported.
fn script_of<F: Files, E: Write>(
    files: &F,
    alloc: Global,
    settings: &Settings,
    faults: &mut E,
) -> Result<Option<Vec<u8>>, u8>
    ensures ok { IfOk result (λ bytes.
        AreOfName (IsFrontOfFile F.File.remaining) settings.now.script (option_map (λ b. b.items) bytes)) }
    ensures err { IfErr result (λ status. (2 ≤ status) × (status ≤ 3)) }
    ensures quiet { OnOk result (faults.new ≡ faults.old) }
{
    match &settings.script {
        Some(file) => match read_file(files, alloc, file.as_str()) {
            Ok(bytes) => Ok(Some(bytes)),
            Err(fault) => Err(report_script(alloc, faults, file.as_str(), fault)),
        },
        None => Ok(None),
    }
}

/// Reads a plan, and writes the stream of its apply with the settings, the hooks and the script.
/// Without a script each step succeeds after 0 seconds. Returns the output and the exit status:
///
/// - 0: the whole stream was written, and no step failed or was halted.
/// - 1: the whole stream was written, and a step failed or was halted.
/// - 2: the input could not be read or is not a plan, the script does not fit, or the settings are
///   out of range. Nothing was written.
/// - 3: memory or a thread was refused, or the output could not be written. A prefix of the stream
///   may have been written. It has a summary only if the whole plan was applied.
///
/// Errors are reported on `faults`. After a whole stream, so is each prefix of the settings' halts
/// that no address of the plan begins with, unless memory is refused for that. Nothing is reported
/// if `faults` fails too, or if the output's reader is gone.
///
/// If the plan is too large, a read failed, or memory was refused for it, the rest of the input is
/// read and dropped after the report. So whoever writes into the pipe is not stopped. A read that
/// fails then changes nothing.
pub fn run_command<R: Read + Drop, W: Write + Drop, E: Write, T: Threads + Wait + Sync>(
    rt: &T,
    alloc: Global,
    settings: &Settings,
    registry: &Registry,
    script: Option<&[u8]>,
    input: R,
    output: StdSink<W>,
    faults: &mut E,
) -> (StdSink<W>, u8)
    requires { output.failures < 2 ^ 64 - 1 }

    // The plan's bytes are all bytes of the input, if the reader reveals them. The bytes of the
    // output are known if one worker applies the changes.
    ensures applied { result.1 ≤ 1 → OfInput (R.remaining input) (λ bytes.
        HasApplied (record { plan = bytes; script = option_copied script.entry; hooks = rules_of registry.now })
        (options_of settings.now) (sink_state W.contents output) (sink_state W.contents result.0) result.1) }
    ensures refused { result.1 ≡ 2 → Keeps (W.contents output.writer) (W.contents result.0.writer) }
    ensures cut_off { result.1 ≡ 3 → Keeps (W.contents output.writer) (W.contents result.0.writer)
        ⊎ OfInput (R.remaining input) (λ bytes.
        HasBegun (record { plan = bytes; script = option_copied script.entry; hooks = rules_of registry.now })
        (options_of settings.now) (sink_state W.contents output) (sink_state W.contents result.0)) }
    ensures reported { result.1 ≤ 1 → OfInput (R.remaining input) (λ bytes.
        AreReported (unmatched_of bytes settings.now.halts.items) (E.contents faults.old) (E.contents faults.new)) }
    ensures gone { result.0.is_reader_gone ≡ true → Keeps (E.contents faults.old) (E.contents faults.new) }
    ensures statuses { result.1 ≤ 3 }
{
    let job = Job {
        settings,
        form: Form::Applystream,
        command: Command::Saved,
        refresh: true,
        registry,
        script,
    };
    run_job(rt, alloc, &job, input, output, faults)
}

/// Does what `run_command` does, with `lanes` changes at once in the stream's own time. The
/// settings' workers and queue are ignored. The same input, script, hooks, settings and lanes give
/// the same bytes.
///
/// The exit status is that of `run_command`; it is 2 also unless there are 1 to 64 lanes. With
/// status 3 a prefix of the stream may have been written.
pub fn run_in_lanes<R: Read + Drop, W: Write + Drop, E: Write>(
    alloc: Global,
    settings: &Settings,
    lanes: u8,
    registry: &Registry,
    script: Option<&[u8]>,
    input: R,
    output: StdSink<W>,
    faults: &mut E,
) -> (StdSink<W>, u8)
    requires { output.failures < 2 ^ 64 - 1 }
    ensures applied { result.1 ≤ 1 → OfInput (R.remaining input) (λ bytes.
        HasAppliedBy (InLanes lanes) Form.Applystream
        (record { plan = bytes; script = option_copied script.entry; hooks = rules_of registry.now })
        settings.now.at settings.now.operation (sink_state W.contents output) (sink_state W.contents result.0) result.1) }
    ensures refused { result.1 ≡ 2 → Keeps (W.contents output.writer) (W.contents result.0.writer) }
    ensures cut_off { result.1 ≡ 3 → Keeps (W.contents output.writer) (W.contents result.0.writer)
        ⊎ OfInput (R.remaining input) (λ bytes.
        HasBegunBy (InLanes lanes) Form.Applystream
        (record { plan = bytes; script = option_copied script.entry; hooks = rules_of registry.now })
        settings.now.at settings.now.operation (sink_state W.contents output) (sink_state W.contents result.0)) }
    ensures reported { result.1 ≤ 1 → OfInput (R.remaining input) (λ bytes.
        AreReported (unmatched_of bytes settings.now.halts.items) (E.contents faults.old) (E.contents faults.new)) }
    ensures gone { result.0.is_reader_gone ≡ true → Keeps (E.contents faults.old) (E.contents faults.new) }
    ensures statuses { result.1 ≤ 3 }
{
    let job = Job {
        settings,
        form: Form::Applystream,
        command: Command::Saved,
        refresh: true,
        registry,
        script,
    };
    run_job_in_lanes(alloc, &job, lanes, input, output, faults)
}

/// Reads a plan, and applies the job to it with workers, as `run_command` does. Terraform's form also
/// prints the extras of plan and script. Each command but `Command::Saved` prints how its plan is
/// made first, in one lane.
///
/// The exit status is that of `run_command`. It is 1 if and only if the whole stream was written
/// and reports an error. In Terraform's form, that includes the error of a plan whose planning
/// failed. There, status 2 also comes if the script's outputs are not those of the plan, or its
/// diagnostics are malformed. With such a command, it also comes if the objects that the script
/// names in `planning` are malformed or do not fit.
pub fn run_job<R: Read + Drop, W: Write + Drop, E: Write, T: Threads + Wait + Sync>(
    rt: &T,
    alloc: Global,
    job: &Job<'_, '_>,
    mut input: R,
    output: StdSink<W>,
    faults: &mut E,
) -> (StdSink<W>, u8)
    requires { output.failures < 2 ^ 64 - 1 }
    ensures ended { HasEndedOn (R.remaining input)
        (λ plan. HasAppliedAsAsked (record { plan = plan; script = option_copied job.now.script; hooks = rules_of job.now.registry.now })
        job.now.settings.now None (job_reading job.now None) (sink_state W.contents output) (sink_state W.contents result.0) result.1)
        (λ plan. HasBegunAsAsked (record { plan = plan; script = option_copied job.now.script; hooks = rules_of job.now.registry.now })
        job.now.settings.now None (job_reading job.now None) (sink_state W.contents output) (sink_state W.contents result.0))
        job.now.settings.now.halts.items (sink_state W.contents output) (sink_state W.contents result.0)
        (E.contents faults.old) (E.contents faults.new) result.1 }
    ensures gone { result.0.is_reader_gone ≡ true → Keeps (E.contents faults.old) (E.contents faults.new) }
{
    let (plan, is_whole) = read_input(alloc, &mut input);
    let (output, status) = run_input(rt, alloc, job, plan, output, faults);
    finish_reading(is_whole, &mut input, faults);
    (output, status)
}

/// Does what `run_job` does, in 1 to 64 lanes as `run_in_lanes`. A plan is made in as many lanes. The
/// exit status is 2 also unless there are so many.
pub fn run_job_in_lanes<R: Read + Drop, W: Write + Drop, E: Write>(
    alloc: Global,
    job: &Job<'_, '_>,
    lanes: u8,
    mut input: R,
    output: StdSink<W>,
    faults: &mut E,
) -> (StdSink<W>, u8)
    requires { output.failures < 2 ^ 64 - 1 }
    ensures ended { HasEndedOn (R.remaining input)
        (λ plan. HasAppliedAsAsked (record { plan = plan; script = option_copied job.now.script; hooks = rules_of job.now.registry.now })
        job.now.settings.now (Some lanes) (job_reading job.now (Some lanes)) (sink_state W.contents output) (sink_state W.contents result.0) result.1)
        (λ plan. HasBegunAsAsked (record { plan = plan; script = option_copied job.now.script; hooks = rules_of job.now.registry.now })
        job.now.settings.now (Some lanes) (job_reading job.now (Some lanes)) (sink_state W.contents output) (sink_state W.contents result.0))
        job.now.settings.now.halts.items (sink_state W.contents output) (sink_state W.contents result.0)
        (E.contents faults.old) (E.contents faults.new) result.1 }
    ensures gone { result.0.is_reader_gone ≡ true → Keeps (E.contents faults.old) (E.contents faults.new) }
{
    let (plan, is_whole) = read_input(alloc, &mut input);
    let (output, status) = run_input_in_lanes(alloc, job, lanes, plan, output, faults);
    finish_reading(is_whole, &mut input, faults);
    (output, status)
}

/// Does what `run_job` does, with an input that was already read, or with the error of reading it.
///
/// After a successful read, status 2 comes only if the bytes are not a plan, the script does not
/// fit, or the settings are out of range, and always if the bytes are too many. After an error, the
/// status is that of the error.
pub fn run_input<W: Write + Drop, E: Write, T: Threads + Wait + Sync>(
    rt: &T,
    alloc: Global,
    job: &Job<'_, '_>,
    input: Result<Vec<u8>, InputFault>,
    output: StdSink<W>,
    faults: &mut E,
) -> (StdSink<W>, u8)
    requires { output.failures < 2 ^ 64 - 1 }
    ensures ended { IfOk input (λ plan.
        HasEnded (record { plan = plan.items; script = option_copied job.now.script; hooks = rules_of job.now.registry.now })
        job.now.settings.now None (job_reading job.now None) (sink_state W.contents output) (sink_state W.contents result.0)
        (E.contents faults.old) (E.contents faults.new) result.1) }
    ensures unread { IfErr input (λ fault. (result.1 ≡ input_status_of fault)
        × Keeps (W.contents output.writer) (W.contents result.0.writer)) }
    ensures gone { result.0.is_reader_gone ≡ true → Keeps (E.contents faults.old) (E.contents faults.new) }
{
    let plan = match input {
        Ok(plan) => plan,
        Err(fault) => {
            report_unless_gone(&output, faults, fault);
            return (output, input_status(fault));
        }
    };
    let failures = output.failures();
    let ended = apply_job(rt, alloc, job, &plan, output);
    end_run(alloc, job, None, &plan, failures, ended, faults)
}

/// Does what `run_input` does, in lanes.
fn run_input_in_lanes<W: Write + Drop, E: Write>(
    alloc: Global,
    job: &Job<'_, '_>,
    lanes: u8,
    input: Result<Vec<u8>, InputFault>,
    output: StdSink<W>,
    faults: &mut E,
) -> (StdSink<W>, u8)
    requires { output.failures < 2 ^ 64 - 1 }
    ensures ended { IfOk input (λ plan.
        HasEnded (record { plan = plan.items; script = option_copied job.now.script; hooks = rules_of job.now.registry.now })
        job.now.settings.now (Some lanes) (job_reading job.now (Some lanes)) (sink_state W.contents output) (sink_state W.contents result.0)
        (E.contents faults.old) (E.contents faults.new) result.1) }
    ensures unread { IfErr input (λ fault. (result.1 ≡ input_status_of fault)
        × Keeps (W.contents output.writer) (W.contents result.0.writer)) }
    ensures gone { result.0.is_reader_gone ≡ true → Keeps (E.contents faults.old) (E.contents faults.new) }
{
    let plan = match input {
        Ok(plan) => plan,
        Err(fault) => {
            report_unless_gone(&output, faults, fault);
            return (output, input_status(fault));
        }
    };
    let failures = output.failures();
    let ended = apply_job_in_lanes(alloc, job, lanes, &plan, output);
    end_run(alloc, job, Some(lanes), &plan, failures, ended, faults)
}

/// Applies a plan from bytes with workers, as the job asks: a saved plan, or one that the command
/// makes first. Returns the output, and the report of the run or why the plan was not applied.
fn apply_job<W: Write + Drop, T: Threads + Wait + Sync>(
    rt: &T,
    alloc: Global,
    job: &Job<'_, '_>,
    plan: &[u8],
    output: StdSink<W>,
) -> (StdSink<W>, Result<FormReport, Refusal>)
    requires { output.failures < 2 ^ 64 - 1 }
    ensures ok { IfOk result.1 (λ report. WasReportedOf (schedule_of job.now.settings.now None) (job_reading job.now None)
        (record { plan = plan.now; script = option_copied job.now.script; hooks = rules_of job.now.registry.now })
        job.now.settings.now.at job.now.settings.now.operation report (sink_state W.contents output) (sink_state W.contents result.0)) }
    ensures err { IfErr result.1 (λ refusal. WasRefusedOf (schedule_of job.now.settings.now None) (job_reading job.now None)
        (record { plan = plan.now; script = option_copied job.now.script; hooks = rules_of job.now.registry.now })
        job.now.settings.now.at job.now.settings.now.operation refusal (sink_state W.contents output) (sink_state W.contents result.0)) }
{
    let settings = job.settings;
    let options = Options {
        workers: settings.workers,
        capacity: settings.queue,
        start: settings.at,
        operation: settings.operation,
    };
    let (script, registry, form) = (job.script, job.registry, job.form);
    match job.command {
        Command::Saved => {
            apply_bytes_in_form(
                rt, alloc, plan, script, registry, options, form, output, &NoGate,
            )
        }
        command => apply_planned(
            rt,
            alloc,
            plan,
            script,
            registry,
            options,
            command,
            job.refresh,
            output,
            &NoGate,
        ),
    }
}

/// Does what `apply_job` does, in lanes.
fn apply_job_in_lanes<W: Write + Drop>(
    alloc: Global,
    job: &Job<'_, '_>,
    lanes: u8,
    plan: &[u8],
    output: StdSink<W>,
) -> (StdSink<W>, Result<FormReport, Refusal>)
    requires { output.failures < 2 ^ 64 - 1 }
    ensures ok { IfOk result.1 (λ report. WasReportedOf (schedule_of job.now.settings.now (Some lanes)) (job_reading job.now (Some lanes))
        (record { plan = plan.now; script = option_copied job.now.script; hooks = rules_of job.now.registry.now })
        job.now.settings.now.at job.now.settings.now.operation report (sink_state W.contents output) (sink_state W.contents result.0)) }
    ensures err { IfErr result.1 (λ refusal. WasRefusedOf (schedule_of job.now.settings.now (Some lanes)) (job_reading job.now (Some lanes))
        (record { plan = plan.now; script = option_copied job.now.script; hooks = rules_of job.now.registry.now })
        job.now.settings.now.at job.now.settings.now.operation refusal (sink_state W.contents output) (sink_state W.contents result.0)) }
{
    let (start, operation) = (job.settings.at, job.settings.operation);
    let (script, registry, form) = (job.script, job.registry, job.form);
    match job.command {
        Command::Saved => apply_bytes_in_form_and_lanes(
            alloc, plan, script, registry, lanes, start, operation, form, output,
        ),
        command => apply_planned_in_lanes(
            alloc,
            plan,
            script,
            registry,
            lanes,
            start,
            operation,
            command,
            job.refresh,
            output,
        ),
    }
}

/// Ends a run whose output counted `failures` failed writes before: flushes the output, reports what
/// is to be reported, and returns the exit status.
fn end_run<W: Write + Drop, E: Write>(
    alloc: Global,
    job: &Job<'_, '_>,
    parallelism: Option<u8>,
    plan: &[u8],
    failures: u64,
    ended: (StdSink<W>, Result<FormReport, Refusal>),
    faults: &mut E,
) -> (StdSink<W>, u8)
    requires { failures < 2 ^ 64 - 1 }
    ensures ended { (given : Inputs) (before : SinkState) → given.plan ≡ plan.now → before.failed ≡ failures
        → IfOk ended.1 (λ report. WasReportedOf (schedule_of job.now.settings.now parallelism) (job_reading job.now parallelism) given
        job.now.settings.now.at job.now.settings.now.operation report before (sink_state W.contents ended.0))
        → IfErr ended.1 (λ refusal. WasRefusedOf (schedule_of job.now.settings.now parallelism) (job_reading job.now parallelism) given
        job.now.settings.now.at job.now.settings.now.operation refusal before (sink_state W.contents ended.0))
        → HasEnded given job.now.settings.now parallelism (job_reading job.now parallelism) before (sink_state W.contents result.0)
        (E.contents faults.old) (E.contents faults.new) result.1 }
    ensures gone { result.0.is_reader_gone ≡ true → Keeps (E.contents faults.old) (E.contents faults.new) }
{
    let (mut output, result) = ended;
    match result {
        Ok(report) => {
            flush_unless_failed(&mut output, failures);
            if output.failures() > failures {
                report_unless_gone(&output, faults, Why::Write);
                return (output, FAILED);
            }
            report_unmatched(alloc, &output, faults, &job.settings.halts, plan);
            one_worker_applies_all_changes_in_order();
            (output, run_status(report.contains_error))
        }
        Err(Refusal::Fault(fault)) => {
            flush_unless_failed(&mut output, failures);
            report_unless_gone(&output, faults, fault);
            (output, FAILED)
        }
        Err(refusal) => {
            report_refusal(alloc, &output, faults, plan, job, parallelism, refusal);
            (output, refusal_status(refusal))
        }
    }
}

/// Flushes the output if no write has failed since it counted `failures` failed writes. A failed
/// flush is ignored.
fn flush_unless_failed<W: Write + Drop>(output: &mut StdSink<W>, failures: u64)
    requires { failures < 2 ^ 64 - 1 }
    ensures bytes { Keeps (W.contents output.old.writer) (W.contents output.new.writer) }
    ensures failed { output.old.failures ≤ output.new.failures }
{
    if output.failures() == failures {
        let _ = output.flush();
    }
}
