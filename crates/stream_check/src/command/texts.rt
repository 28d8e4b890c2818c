//! Verdicts as texts for people. Control characters of the stream are escaped, so that no stream
//! steers a terminal or the log of a job. Each `Err` means that memory was refused.

ghost use Rattle.std.specs.Prelude.{◌≡◌, ◌++◌, [], IfOk, codes, decimal, if◌then◌else◌, string_bytes};
ghost use Rattle.stream_check.specs.MessageTexts.{AppendsText};
ghost use Rattle.stream_check.specs.Reports.{passed_text, totals_text, whole_text};

use crate::command::finding_report::FindingReport;
use crate::command::message_text::MessageText;
use crate::command::object::Object;
use crate::messages::totals::Totals;
use crate::rules::fault::{Fault, line_after};
use crate::rules::open_entry::OpenEntry;
use crate::verdict::whole::Whole;
use std::alloc::{AllocError, Global};
use term_text::front;

/// How many bytes of one text of the stream are printed.
const MAX_SHOWN: usize = 1_024;

/// How many bytes are printed of a line that is no message.
pub const LINE_FRONT: usize = 80;

/// How many entries are printed of what stands open, or never began.
const MAX_LISTED: usize = 10;

/// Returns the line about a stream that is not whole.
pub fn finding_line(alloc: Global, report: &FindingReport<'_>) -> Result<String, AllocError> {
    let mut words = MessageText::new(alloc);
    words.text("applystream: ");
    append_report(alloc, &mut words, report);
    words.text("\n");
    words.words()
}

/// Returns the text about a stream that is not whole.
pub fn report_text(alloc: Global, report: &FindingReport<'_>) -> Result<String, AllocError> {
    let mut words = MessageText::new(alloc);
    append_report(alloc, &mut words, report);
    words.words()
}

/// Appends the number of the line, the fault, and what else is known about it.
fn append_report(alloc: Global, words: &mut MessageText, report: &FindingReport<'_>) {
    append_finding(alloc, words, report);
    append_details(words, report);
}

/// Appends the number of the line and the fault.
fn append_finding(alloc: Global, words: &mut MessageText, report: &FindingReport<'_>) {
    let finding = report.finding.after_lines(report.lines_before);
    if report.is_cut_off {
        words.text("line ");
        words.count(finding.line, " is cut off");
    } else if let Fault::Planned = finding.fault {
        words.text("line ");
        words.count(finding.line, " is the last, and ");
    } else {
        words.made(finding.to_string(alloc));
    }
}

/// Appends what else is known about the fault.
fn append_details(words: &mut MessageText, report: &FindingReport<'_>) {
    match report.finding.fault {
        Fault::NotJson | Fault::NoType => {
            words.text(": ");
            words.bytes(front(report.text, LINE_FRONT));
        }
        Fault::Unended => {
            words.text(": ");
            append_open(words, report.lines_before, report.listed);
        }
        Fault::Planned => append_planned(words, report.lines_before, report.listed),
        Fault::WrongTotals(stated, counted) => {
            words.text(": says ");
            append_totals(words, stated, " added, ", " changed, ", " destroyed, and ");
            append_totals(words, counted, ", ", ", ", " were");
        }
        Fault::WrongPlanTotals(stated, counted) => {
            words.text(": says ");
            append_totals(
                words,
                stated,
                " to add, ",
                " to change, ",
                " to destroy, and ",
            );
            append_totals(words, counted, ", ", ", ", " were planned");
        }
        _ => if let Some(object) = report.object {
            append_object(words, object);
        },
    }
}

/// Appends what a message is about.
fn append_object(words: &mut MessageText, object: Object<'_>) {
    words.text(": ");
    words.escaped(MAX_SHOWN, object.word());
    words.text(" of ");
    words.escaped(MAX_SHOWN, object.address());
}

/// Appends what stands open: one entry by itself, else their number and the first ten.
fn append_open(words: &mut MessageText, lines_before: u64, open: &[OpenEntry<'_>]) {
    if open.len() != 1 {
        words.count(open.len() as u64, " stand open: ");
    }
    append_entries(words, lines_before, open, " since line ", "");
}

/// Appends which planned creates never began: one by itself, else their number and the first ten.
fn append_planned(words: &mut MessageText, lines_before: u64, planned: &[OpenEntry<'_>]) {
    let before_line = " (planned in line ";
    if planned.len() == 1 {
        append_entries(words, lines_before, planned, before_line, ")");
        words.text(" never began");
    } else {
        words.count(planned.len() as u64, " creates never began: ");
        append_entries(words, lines_before, planned, before_line, ")");
    }
}

/// Appends the first ten entries, and how many more there are.
fn append_entries(
    words: &mut MessageText,
    lines_before: u64,
    entries: &[OpenEntry<'_>],
    before_line: &str,
    after_line: &str,
) {
    let named = &entries[..entries.len().min(MAX_LISTED)];
    for (index, entry) in named.iter().enumerate() {
        if index > 0 {
            words.text(", ");
        }
        words.text(entry.kind.word());
        words.text(" of ");
        words.escaped(MAX_SHOWN, entry.address);
        words.text(before_line);
        words.count(line_after(lines_before, entry.line), after_line);
    }
    if entries.len() > MAX_LISTED {
        words.text(", and ");
        words.count((entries.len() - MAX_LISTED) as u64, " more");
    }
}

/// Returns the text about a whole stream, without a line feed. `Err` where memory was refused.
pub fn whole_text(alloc: Global, whole: &Whole) -> Result<String, AllocError>
    ensures { IfOk result (λ text. string_bytes text ≡ whole_text whole.now) }
{
    let mut words = MessageText::new(alloc);
    append_done(&mut words, whole.is_plan, whole.totals);
    words.text(errors_text(whole.has_errors));
    append_passed(&mut words, whole.passed);
    words.words()
}

/// Returns the part of the text about errors, where the stream reports one.
fn errors_text(has_errors: bool) -> &'static str
    ensures { result.now ≡ (if has_errors then codes ", with errors" else []) }
{
    if has_errors { ", with errors" } else { "" }
}

/// Appends how many lines were ignored, where that was asked for.
fn append_passed(words: &mut MessageText, passed: Option<u64>)
    ensures { AppendsText words.old words.new (passed_text passed) }
{
    match passed {
        None => words.text(""),
        Some(count) => if count == 1 {
            words.text(", 1 line passed over");
        } else {
            words.text(", ");
            words.count(count, " lines passed over");
        },
    }
}

/// Appends how much was done, or is planned.
fn append_done(words: &mut MessageText, is_plan: bool, totals: Totals)
    ensures { AppendsText words.old words.new (totals_text is_plan totals) }
{
    if is_plan {
        words.text("the plan's stream is whole: ");
        append_totals(words, totals, " to add, ", " to change, ", " to destroy");
    } else {
        words.text("the stream is whole: ");
        append_totals(words, totals, " added, ", " changed, ", " destroyed");
    }
}

/// Appends three counts, each with its label.
fn append_totals(
    words: &mut MessageText,
    totals: Totals,
    added_label: &str,
    changed_label: &str,
    removed_label: &str,
)
    ensures { AppendsText words.old words.new (decimal totals.added ++ added_label.now
        ++ decimal totals.changed ++ changed_label.now ++ decimal totals.removed ++ removed_label.now) }
{
    words.count(totals.added, added_label);
    words.count(totals.changed, changed_label);
    words.count(totals.removed, removed_label);
}
