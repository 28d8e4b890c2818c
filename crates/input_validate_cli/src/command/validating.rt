//! Validates a plan and a script, and writes the findings.

ghost use Rattle.std.specs.Prelude.{◌≡◌, ◌≤◌, ℕ, Err, IfOk, Ok, OnErr, OnOk, take};
ghost use Rattle.std.specs.Io.KnownBytes.{Appends, Keeps};
ghost use Rattle.std.specs.Option.{option_copied};
ghost use Rattle.input_validate_cli.specs.Statuses.{status_by};
ghost use Rattle.input_validate_cli.specs.Validated.{HasOutcome, WasReported};
ghost use Rattle.input_validate_cli.specs.declared.command.validate_fault.ValidateFault.TheVariants.{Gone};

use crate::command::refusals::refuse;
use crate::command::report_text::report_text;
use crate::command::validate_fault::ValidateFault;
use crate::input_sizes::InputSizes;
use input_validate::{Form, InputFindings, findings_of};
use std::alloc::Global;
use std::io::Write;
use stream_tool::{REFUSED, Report, WriteFault, flush, write_whole};

/// The exit status if there are only warnings.
const WARNED: u8 = 1;

/// Prints the findings of a plan, and of a script for it.
///
/// The run has this form; `lanes` tells whether it has `--parallelism`. `plan` and `script` hold
/// whole inputs, or as many bytes as show that an input is too large. `sizes` are the sizes of the
/// inputs.
///
/// The exit status is:
/// - 0 without findings.
/// - 1 if there are only warnings.
/// - 2 if a run refuses for one of the findings.
/// - 3 if memory was refused, or if `out` could not be written.
///
/// An error is printed to `faults`, unless the reader of `out` is gone.
pub fn validate<W: Write, E: Write>(
    alloc: Global,
    form: Form,
    lanes: bool,
    plan: &[u8],
    script: Option<&[u8]>,
    sizes: InputSizes,
    out: &mut W,
    faults: &mut E,
) -> Report<Result<(), ValidateFault>>
    ensures came { HasOutcome form lanes plan.now (option_copied script.entry) (W.contents out.old) (W.contents out.new) result.status result.answer }
    ensures quiet { result.status ≤ 1 → Keeps (E.contents faults.old) (E.contents faults.new) }
    ensures success { result.answer ≡ Ok tt → Keeps (E.contents faults.old) (E.contents faults.new) }
    ensures gone { result.answer ≡ Err Gone → Keeps (E.contents faults.old) (E.contents faults.new) }
    ensures statuses { result.status ≤ 3 }
{
    match write_report(alloc, form, lanes, plan, script, sizes, out) {
        Ok(status) => Report {
            status,
            answer: Ok(()),
        },
        Err(fault) => Report {
            status: refuse(faults, fault),
            answer: Err(fault),
        },
    }
}

/// Writes the findings, and returns the exit status for them.
///
/// `Err` is `ValidateFault::Memory` if memory was refused, and then nothing was written. It is
/// `Gone` or `Unwritten` as in `write_whole`.
fn write_report<W: Write>(
    alloc: Global,
    form: Form,
    lanes: bool,
    plan: &[u8],
    script: Option<&[u8]>,
    sizes: InputSizes,
    out: &mut W,
) -> Result<u8, ValidateFault>
    ensures reported { WasReported form lanes plan.now (option_copied script.entry) (W.contents out.old) (W.contents out.new) result }
    ensures statuses { IfOk result (λ status. status ≤ 2) }
{
    let findings = findings_of(alloc, plan, script, lanes, form)?;
    let text = report_text(alloc, &findings, plan, script, sizes)?;
    write_text(out, text.as_str().as_bytes())?;
    Ok(status_of(&findings))
}

/// Writes the text and flushes. `Err` is as in `write_whole`.
fn write_text<W: Write>(out: &mut W, text: &[u8]) -> Result<(), WriteFault>
    ensures ok { OnOk result (Appends (W.contents out.old) (W.contents out.new) text.now) }
    ensures part { OnErr result ((n : ℕ) × Appends (W.contents out.old) (W.contents out.new) (take n text.now)) }
{
    write_whole(out, text)?;
    flush(out)
}

/// Returns the exit status for these findings.
fn status_of(findings: &InputFindings) -> u8
    ensures by_findings { result ≡ status_by findings.now.plan findings.now.script }
    ensures statuses { result ≤ 2 }
{
    if findings.plan.refuses() || findings.script.refuses() {
        REFUSED
    } else if findings.plan.count() > 0 || findings.script.count() > 0 {
        WARNED
    } else {
        0
    }
}
