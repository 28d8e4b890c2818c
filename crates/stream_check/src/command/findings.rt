//! Reports findings to people and to programs.

ghost use Rattle.std.specs.Prelude.{◌≡◌, ◌&&◌, not, ℕ, Bool, List, IfErr, IfOk, IfSome, None, Option, Err, if◌then◌else◌, option_map};
ghost use Rattle.std.specs.Io.KnownBytes.{Keeps};
ghost use Rattle.stream_check.specs.About.{about_line, object_view};
ghost use Rattle.stream_check.specs.Checking.{HasRead};
ghost use Rattle.stream_check.specs.Faults.{is_no_json, reports_object};
ghost use Rattle.stream_check.specs.Judged.{StopsAt};
ghost use Rattle.stream_check.specs.Message.{Message};
ghost use Rattle.stream_check.specs.Reports.{AreListed, IsReported, IsReportOf};
ghost use Rattle.stream_check.specs.declared.command.settings.Form.TheVariants as forms;
ghost use Rattle.stream_check.specs.declared.command.unreported.Unreported.TheVariants.{Gone, Memory};
ghost use Rattle.stream_check.specs.declared.rules.mode.Mode.{Mode as mode_type};
ghost use Rattle.stream_check.specs.declared.verdict.read_fault.ReadFault.{ReadFault as fault_type};

use crate::command::finding_report::FindingReport;
use crate::command::object::{Object, object_in};
use crate::command::reading_on::{runs_there, suggest};
use crate::command::settings::Form;
use crate::command::texts::{finding_line, report_text};
use crate::command::unreported::Unreported;
use crate::command::verdict_lines::finding_json;
use crate::command::writing::write_line;
use crate::rules::checker::Checker;
use crate::rules::fault::Fault;
use crate::rules::mode::Mode;
use crate::rules::open_entry::OpenEntry;
use crate::verdict::finding::Finding;
use apply_json::Scratch;
use std::alloc::{AllocError, Global};
use std::io::{BufRead, Write};
use stream_lines::Line;

/// Reports the finding, with what is known about the faulty line. `reader` has the bytes after that
/// line. They are read on where they tell which option takes the stream.
///
/// `Err` with `Unreported::Memory` where memory was refused. In the form `Json`, `Err` also where
/// the object could not be written.
pub fn report_finding<R: BufRead, W: Write, E: Write>(
    alloc: Global,
    mode: Mode,
    form: Form,
    checker: &Checker,
    line: &Line,
    finding: &Finding,
    reader: &mut R,
    out: &mut W,
    faults: &mut E,
) -> Result<(), Unreported>
    ensures reported { (seen : Option (List ℕ)) → IfSome seen (λ bytes. StopsAt mode bytes finding.now checker.now line.now.text.items line.now.has_feed (R.remaining reader.old))
        → (is_named : Bool) → IsReported is_named mode seen form (Err (fault_type.Found finding.now)) result (W.contents out.old) (W.contents out.new) }
    ensures gone { result ≡ Err Gone → Keeps (E.contents faults.old) (E.contents faults.new) }
{
    let mut scratch = Scratch::new(alloc);
    let object = object_of(alloc, &mut scratch, mode, line, finding.fault)?;
    let listed = listed_entries(alloc, checker, finding.fault)?;
    let runs = runs_there(alloc, mode.find, form, finding.fault, reader)?;
    let report = FindingReport {
        finding: *finding,
        text: &line.text,
        is_cut_off: is_cut_off(line, finding.fault),
        object,
        listed: &listed,
        lines_before: mode.lines_before,
        runs,
    };
    match form {
        Form::Text => report_finding_text(alloc, mode.find, &report, reader, faults),
        Form::Json => report_finding_object(alloc, &report, out),
    }
}

/// Returns what is reported of the finding to people, without the name of the program and without a
/// line feed. Texts of the stream are cut, and their control characters are escaped.
///
/// `checker` has read the lines before the finding, and `line` holds the line at which the check
/// ended. `Err` where memory was refused.
pub fn finding_words(
    alloc: Global,
    mode: Mode,
    checker: &Checker,
    line: &Line,
    finding: &Finding,
) -> Result<String, AllocError> {
    let mut scratch = Scratch::new(alloc);
    let object = object_of(alloc, &mut scratch, mode, line, finding.fault)?;
    let listed = listed_entries(alloc, checker, finding.fault)?;
    let report = FindingReport {
        finding: *finding,
        text: &line.text,
        is_cut_off: is_cut_off(line, finding.fault),
        object,
        listed: &listed,
        lines_before: mode.lines_before,
        runs: None,
    };
    report_text(alloc, &report)
}

/// Whether the stream was cut off within its last line.
fn is_cut_off(line: &Line, fault: Fault) -> bool
    ensures { result ≡ (is_no_json fault && not line.now.has_feed) }
{
    match fault {
        Fault::NotJson => !line.has_feed,
        _ => false,
    }
}

/// Writes the finding for people, on `faults`, and then which option takes the stream. `Err` where
/// memory was refused for the finding.
fn report_finding_text<R: BufRead, E: Write>(
    alloc: Global,
    find: bool,
    report: &FindingReport<'_>,
    reader: &mut R,
    faults: &mut E,
) -> Result<(), Unreported>
    ensures { IfErr result (λ unreported. unreported ≡ Memory) }
{
    let line = finding_line(alloc, report)?;
    let _ = faults.write_all(line.as_str().as_bytes());
    let _ = faults.flush();
    suggest(alloc, find, report, reader, faults);
    Ok(())
}

/// Writes the finding for programs, on `out`. `Err` where memory was refused, or the object could
/// not be written.
fn report_finding_object<W: Write>(
    alloc: Global,
    report: &FindingReport<'_>,
    out: &mut W,
) -> Result<(), Unreported>
    ensures { (seen : Option (List ℕ)) (mode : mode_type) → IfSome seen (λ bytes. IsReportOf mode bytes report.now)
        → (is_named : Bool) → IsReported is_named mode seen forms.Json (Err (fault_type.Found report.now.finding)) result (W.contents out.old) (W.contents out.new) }
{
    let text = finding_json(alloc, report)?;
    write_line(out, text.as_str())
}

/// Returns what the faulty line is about, where the fault reports it. `Err` where memory was
/// refused.
fn object_of<'a>(
    alloc: Global,
    scratch: &'a mut Scratch,
    mode: Mode,
    line: &'a Line,
    fault: Fault,
) -> Result<Option<Object<'a>>, AllocError>
    ensures { IfOk result (λ object. option_map object_view object
        ≡ (if reports_object fault then about_line mode.find line.now.text.items else None)) }
{
    if fault.reports_object() {
        object_in(alloc, scratch, mode, &line.text)
    } else {
        Ok(None)
    }
}

/// Returns what stands open, or what was planned and never began, where that is the fault. `Err`
/// where memory was refused.
fn listed_entries<'a>(
    alloc: Global,
    checker: &'a Checker,
    fault: Fault,
) -> Result<Vec<OpenEntry<'a>>, AllocError>
    ensures { IfOk result (λ entries. (messages : List Message) → HasRead checker.now messages
        → AreListed fault messages entries.items) }
{
    match fault {
        Fault::Unended => checker.open_entries(alloc),
        Fault::Planned => checker.unbegun_entries(alloc),
        _ => Ok(Vec::new(alloc)),
    }
}
