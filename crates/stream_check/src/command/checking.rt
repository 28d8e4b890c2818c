//! Checks a stream with given settings, and reports the verdict.

ghost use Rattle.std.specs.Prelude.{◌≡◌, ℕ, Bool, List, IfSome, OnOk, Option, Some, Ok, Err, is_some};
ghost use Rattle.std.specs.Io.KnownBytes.{Keeps};
ghost use Rattle.stream_lines.specs.Cut.{cut_lines};
ghost use Rattle.stream_check.specs.CommandLine.{HasJudged, HasJudgedChoice, IsSilent};
ghost use Rattle.stream_check.specs.Judged.{Stops};
ghost use Rattle.stream_check.specs.Reading.{IsAnswer};
ghost use Rattle.stream_check.specs.Reports.{IsReported};
ghost use Rattle.stream_check.specs.declared.command.unreported.Unreported.TheVariants.{Gone};
ghost use Rattle.stream_check.specs.declared.rules.mode.Mode.{Mode as mode_type};

use crate::command::checked::Checked;
use crate::command::findings::report_finding;
use crate::command::refusals::refuse;
use crate::command::settings::{Form, Settings};
use crate::command::unreported::Unreported;
use crate::command::verdict_lines::whole_line;
use crate::command::writing::{report_failure, write_line};
use crate::rules::checker::Checker;
use crate::rules::mode::Mode;
use crate::verdict::from_reader::check_with;
use crate::verdict::read_fault::ReadFault;
use crate::verdict::whole::Whole;
use std::alloc::Global;
use std::io::{BufRead, Write};
use stream_lines::Line;
use stream_runs::{Run, RunChoice, select_run};

/// Checks the stream of the reader, or the run of it that the settings choose, and reports the
/// verdict: the totals of a whole stream on `out`, a finding on `out` as an object or on `faults` as
/// a text, and why there is no verdict on `faults`.
pub fn check_input<R: BufRead, W: Write, E: Write>(
    alloc: Global,
    settings: &Settings,
    reader: &mut R,
    out: &mut W,
    faults: &mut E,
) -> Checked
    ensures judged { HasJudgedChoice settings.now.run settings.now (R.remaining reader.old) (W.contents out.old) (W.contents out.new) result }
    ensures silent { IsSilent result → Keeps (E.contents faults.old) (E.contents faults.new) }
{
    match settings.run {
        None => check_reader(alloc, settings, settings.mode, reader, out, faults),
        Some(choice) => check_choice(alloc, settings, choice, reader, out, faults),
    }
}

/// Checks the chosen run of the reader, and reports the verdict. The input is read to its end before
/// that.
fn check_choice<R: BufRead, W: Write, E: Write>(
    alloc: Global,
    settings: &Settings,
    choice: RunChoice,
    reader: &mut R,
    out: &mut W,
    faults: &mut E,
) -> Checked
    ensures judged { HasJudgedChoice (Some choice) settings.now (R.remaining reader.old) (W.contents out.old) (W.contents out.new) result }
    ensures silent { IsSilent result → Keeps (E.contents faults.old) (E.contents faults.new) }
{
    match select_run(alloc, settings.mode.find, choice, reader) {
        Ok(run) => check_run(alloc, settings, &run, out, faults),
        Err(fault) => {
            let fault = ReadFault::from(fault);
            let checker = Checker::new(alloc);
            let line = Line::new(alloc);
            Checked {
                verdict: Err(fault),
                reported: report_fault(
                    alloc,
                    settings,
                    settings.mode,
                    &checker,
                    &line,
                    fault,
                    reader,
                    out,
                    faults,
                ),
            }
        }
    }
}

/// Checks a run, and reports the verdict with the lines of the input.
fn check_run<W: Write, E: Write>(
    alloc: Global,
    settings: &Settings,
    run: &Run,
    out: &mut W,
    faults: &mut E,
) -> Checked
    ensures judged { HasJudged settings.now (record settings.now.mode { lines_before = run.now.lines_before }) (Some run.now.bytes.items)
        (W.contents out.old) (W.contents out.new) result }
    ensures silent { IsSilent result → Keeps (E.contents faults.old) (E.contents faults.new) }
{
    let mode = Mode {
        find: settings.mode.find,
        plan: settings.mode.plan,
        lines_before: run.lines_before,
    };
    let mut bytes = run.bytes.as_slice();
    check_reader(alloc, settings, mode, &mut bytes, out, faults)
}

/// Checks the stream of the reader, which is read so, and reports the verdict.
fn check_reader<R: BufRead, W: Write, E: Write>(
    alloc: Global,
    settings: &Settings,
    mode: Mode,
    reader: &mut R,
    out: &mut W,
    faults: &mut E,
) -> Checked
    ensures judged { HasJudged settings.now mode (R.remaining reader.old) (W.contents out.old) (W.contents out.new) result }
    ensures silent { IsSilent result → Keeps (E.contents faults.old) (E.contents faults.new) }
{
    let mut checker = Checker::new(alloc);
    let mut line = Line::new(alloc);
    match check_with(alloc, mode, &mut checker, reader, &mut line) {
        Ok(whole) => Checked {
            verdict: Ok(whole),
            reported: report_whole(alloc, settings.form, &whole, out, faults),
        },
        Err(fault) => Checked {
            verdict: Err(fault),
            reported: report_fault(
                alloc, settings, mode, &checker, &line, fault, reader, out, faults,
            ),
        },
    }
}

/// Reports why the stream is not whole, or was not checked. `Err` where the report failed.
fn report_fault<R: BufRead, W: Write, E: Write>(
    alloc: Global,
    settings: &Settings,
    mode: Mode,
    checker: &Checker,
    line: &Line,
    fault: ReadFault,
    reader: &mut R,
    out: &mut W,
    faults: &mut E,
) -> Result<(), Unreported>
    ensures reported { (seen : Option (List ℕ)) → Stops mode seen checker.now line.now.text.items line.now.has_feed (R.remaining reader.old) (Err fault)
        → IsReported (is_some settings.now.file) mode seen settings.now.form (Err fault) result (W.contents out.old) (W.contents out.new) }
    ensures gone { result ≡ Err Gone → Keeps (E.contents faults.old) (E.contents faults.new) }
{
    match fault {
        ReadFault::Found(finding) => {
            let reported = report_finding(
                alloc,
                mode,
                settings.form,
                checker,
                line,
                &finding,
                reader,
                out,
                faults,
            );
            report_failure(faults, reported);
            reported
        }
        _ => refuse(alloc, faults, settings.file(), fault),
    }
}

/// Reports that the stream is whole. `Err` where the report failed: the reason is on `faults` then.
fn report_whole<W: Write, E: Write>(
    alloc: Global,
    form: Form,
    whole: &Whole,
    out: &mut W,
    faults: &mut E,
) -> Result<(), Unreported>
    ensures reported { (is_named : Bool) (seen : Option (List ℕ)) (mode : mode_type)
        → IsReported is_named mode seen form (Ok whole.now) result (W.contents out.old) (W.contents out.new) }
    ensures quiet { OnOk result (Keeps (E.contents faults.old) (E.contents faults.new)) }
    ensures gone { result ≡ Err Gone → Keeps (E.contents faults.old) (E.contents faults.new) }
{
    let reported = write_whole(alloc, form, whole, out);
    report_failure(faults, reported);
    reported
}

/// Writes that the stream is whole. `Err` where memory was refused, or the output could not be
/// written.
fn write_whole<W: Write>(
    alloc: Global,
    form: Form,
    whole: &Whole,
    out: &mut W,
) -> Result<(), Unreported>
    ensures { (is_named : Bool) (seen : Option (List ℕ)) (mode : mode_type)
        → IsReported is_named mode seen form (Ok whole.now) result (W.contents out.old) (W.contents out.new) }
{
    let text = whole_line(alloc, form, whole)?;
    write_line(out, text.as_str())
}
