//! Verdicts in the form that was asked for. Each `Err` means that memory was refused.

ghost use Rattle.std.specs.Prelude.{◌≡◌, IfOk, string_bytes};
ghost use Rattle.serde_json.specs.Data.{no_members, object};
ghost use Rattle.serde_json.specs.Written.{compact_text};
ghost use Rattle.stream_check.specs.Reports.{whole_report};
ghost use Rattle.stream_check.specs.ReportObject.{with_report};

use crate::command::finding_report::FindingReport;
use crate::command::members::Members;
use crate::command::objects::{put_report, put_whole};
use crate::command::settings::Form;
use crate::command::texts::whole_text;
use crate::verdict::whole::Whole;
use std::alloc::{AllocError, Global};

/// Returns the line about a whole stream, without its line feed.
pub fn whole_line(alloc: Global, form: Form, whole: &Whole) -> Result<String, AllocError>
    ensures { IfOk result (λ text. string_bytes text ≡ whole_report form whole.now) }
{
    match form {
        Form::Text => whole_text(alloc, whole),
        Form::Json => {
            let mut members = Members::new(alloc);
            put_whole(&mut members, whole);
            members.object()?.to_string(alloc)
        }
    }
}

/// Returns the object about a stream that is not whole, as JSON text.
pub fn finding_json(alloc: Global, report: &FindingReport<'_>) -> Result<String, AllocError>
    ensures { IfOk result (λ text. string_bytes text ≡ compact_text (object (with_report report.now no_members))) }
{
    let mut members = Members::new(alloc);
    put_report(&mut members, report);
    members.object()?.to_string(alloc)
}
