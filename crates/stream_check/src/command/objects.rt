//! Verdicts as JSON objects (RFC 8259).

ghost use Rattle.std.specs.Prelude.{◌≡◌, IfOk};
ghost use Rattle.serde_json.specs.View.{view};
ghost use Rattle.stream_check.specs.Objects as object;
ghost use Rattle.stream_check.specs.Putting.{Puts};
ghost use Rattle.stream_check.specs.ReportObject as report_object;

use crate::command::finding_report::FindingReport;
use crate::command::members::Members;
use crate::command::object::Object;
use crate::command::texts::LINE_FRONT;
use crate::messages::totals::Totals;
use crate::rules::fault::{Fault, line_after};
use crate::rules::open_entry::OpenEntry;
use crate::verdict::finding::Finding;
use crate::verdict::whole::Whole;
use serde_json::Value;
use std::alloc::{AllocError, Global};
use term_text::front;

/// Adds the members of a verdict on a whole stream.
pub fn put_whole(members: &mut Members, whole: &Whole)
    ensures { Puts members.old members.new (object.with_whole whole.now) }
{
    members.number("add", whole.totals.added);
    members.number("change", whole.totals.changed);
    members.flag("errors", whole.has_errors);
    members.number("lines", whole.lines);
    members.number("remove", whole.totals.removed);
    members.flag("whole", true);
    put_plan(members, whole.is_plan);
    put_count(members, "passed", whole.passed);
}

/// Adds that the stream is that of a plan, where it is.
fn put_plan(members: &mut Members, is_plan: bool)
    ensures { Puts members.old members.new (object.with_plan is_plan) }
{
    if is_plan {
        members.flag("plan", true);
    }
}

/// Adds a count, where there is one.
fn put_count(members: &mut Members, name: &str, count: Option<u64>)
    ensures { Puts members.old members.new (object.with_count name.now count) }
{
    if let Some(count) = count {
        members.number(name, count);
    }
}

/// Adds the members of a report on a stream that is not whole.
pub fn put_report(members: &mut Members, report: &FindingReport<'_>)
    ensures { Puts members.old members.new (report_object.with_report report.now) }
{
    put_finding(members, &report.finding.after_lines(report.lines_before));
    put_object(members, report.object);
    put_details(members, report);
    put_count(members, "runs", report.runs);
}

/// Adds the fault and its line, with the line that the faulty one contradicts.
fn put_finding(members: &mut Members, finding: &Finding)
    ensures { Puts members.old members.new (object.with_finding finding.now) }
{
    members.text("fault", finding.fault.word());
    members.number("line", finding.line);
    members.flag("whole", false);
    put_count(members, "other", finding.fault.other());
    put_count(members, "passed", finding.passed);
}

/// Adds what the faulty line is about.
fn put_object(members: &mut Members, object: Option<Object<'_>>)
    ensures { Puts members.old members.new (report_object.with_object object.entry) }
{
    match object {
        None => {}
        Some(Object::Step { action, address }) => {
            members.text("address", address);
            members.text("action", action.word());
        }
        Some(Object::Provisioner { name, address }) => {
            members.text("address", address);
            if let Some(name) = name {
                members.text("provisioner", name);
            }
        }
    }
}

/// Adds the members that only some faults have.
fn put_details(members: &mut Members, report: &FindingReport<'_>)
    ensures { Puts members.old members.new (report_object.with_details report.now) }
{
    match report.finding.fault {
        Fault::NotJson | Fault::NoType => put_front(members, report.text, report.is_cut_off),
        Fault::Malformed(path, _) => members.text("member", path.text()),
        Fault::WrongTotals(stated, counted) | Fault::WrongPlanTotals(stated, counted) => {
            put_totals(members, "says", stated);
            put_totals(members, "counted", counted);
        }
        Fault::Unended => put_entries(members, "open", report.lines_before, report.listed),
        Fault::Planned => put_entries(members, "planned", report.lines_before, report.listed),
        Fault::NoMessage(lines) => members.number("lines", lines),
        _ => {}
    }
}

/// Adds the front of a line that is no message.
fn put_front(members: &mut Members, text: &[u8], is_cut_off: bool)
    ensures { Puts members.old members.new (object.with_front text.now is_cut_off) }
{
    members.readable("text", front(text, LINE_FRONT));
    members.flag("cut_off", is_cut_off);
}

/// Adds totals, as an object of their own.
fn put_totals(members: &mut Members, name: &str, totals: Totals)
    ensures { Puts members.old members.new (object.with_totals name.now totals) }
{
    let value = totals_object(members.alloc(), totals);
    members.made(name, value);
}

/// Returns totals as an object. `Err` where memory was refused.
fn totals_object(alloc: Global, totals: Totals) -> Result<Value, AllocError>
    ensures { IfOk result (λ value. view value ≡ object.totals_object totals) }
{
    let mut members = Members::new(alloc);
    members.number("add", totals.added);
    members.number("change", totals.changed);
    members.number("remove", totals.removed);
    members.object()
}

/// Adds all entries, as a member of that name.
fn put_entries(members: &mut Members, name: &str, lines_before: u64, entries: &[OpenEntry<'_>])
    ensures { Puts members.old members.new (report_object.with_entries name.now lines_before entries.now) }
{
    let value = entries_array(members.alloc(), lines_before, entries);
    members.made(name, value);
}

/// Returns all entries, as an array. `Err` where memory was refused.
fn entries_array(
    alloc: Global,
    lines_before: u64,
    entries: &[OpenEntry<'_>],
) -> Result<Value, AllocError>
    ensures { IfOk result (λ value. view value ≡ report_object.entries_array lines_before entries.now) }
{
    let mut values = Vec::new(alloc);
    for entry in entries {
        values.push(entry_object(alloc, lines_before, entry)?)?;
    }
    Ok(Value::Array(values))
}

/// Returns one open entry as an object. `Err` where memory was refused.
fn entry_object(
    alloc: Global,
    lines_before: u64,
    entry: &OpenEntry<'_>,
) -> Result<Value, AllocError>
    ensures { IfOk result (λ value. view value ≡ report_object.entry_object lines_before entry.now) }
{
    let mut members = Members::new(alloc);
    members.text("address", entry.address);
    members.text("kind", entry.kind.word());
    members.number("line", line_after(lines_before, entry.line));
    members.object()
}
