//! The first line of a picture: what was done.

ghost use Rattle.std.specs.Prelude.{◌≡◌, ◌++◌, [], codes, if◌then◌else◌, length};
ghost use Rattle.std.specs.List.{count_by, list_any};
ghost use Rattle.stream_timeline.specs.Intervals.{span_of};
ghost use Rattle.stream_view.specs.Heading.{agrees, completed_words, disagreement_words, done_words, error_words, heading_words, headline_words, imported_words, is_change, is_not_ended, lacks_summary, only_plan, plan_words, read_words, steps_words, summary_words, total_words, uncompleted_words, version_words, words_if_any};
ghost use Rattle.term_words.specs.MessageTexts.{HasText, AppendsText};

use crate::picture::Picture;
use std::alloc::Global;
use stream_timeline::{Numbers, Step, Totals};
use term_words::MessageText;

/// The first line of a picture: the version of Terraform, the number of steps and the span, what
/// was completed, and what was not. Of a stream that is only a plan, what the plan would do.
pub fn heading(alloc: Global, picture: &Picture<'_>) -> MessageText
    ensures { HasText result (heading_words picture.now.time_range picture.now.timeline.now picture.now.numbers) }
{
    let mut text = MessageText::new(alloc);
    push_version(&mut text, picture);
    push_headline(&mut text, picture);
    text
}

/// The heading without the version of Terraform. It has no text of the stream.
pub fn headline(alloc: Global, picture: &Picture<'_>) -> MessageText
    ensures { HasText result (headline_words picture.now.time_range picture.now.timeline.now picture.now.numbers) }
{
    let mut text = MessageText::new(alloc);
    push_headline(&mut text, picture);
    text
}

/// Adds all but the version of Terraform.
fn push_headline(text: &mut MessageText, picture: &Picture<'_>)
    ensures { AppendsText text.old text.new (headline_words picture.now.time_range picture.now.timeline.now picture.now.numbers) }
{
    push_done(text, picture);
    push_uncompleted(text, picture);
    push_errors(text, picture);
    push_summary(text, picture);
}

fn push_version(text: &mut MessageText, picture: &Picture<'_>)
    ensures { AppendsText text.old text.new (version_words picture.now.timeline.now.version) }
{
    match picture.timeline.version() {
        Some(version) if !version.is_empty() => {
            text.text("Terraform ");
            text.text(version);
            text.text(": ");
        }
        _ => {}
    }
}

/// Adds what was completed, or what the plan would do if the stream is only a plan.
fn push_done(text: &mut MessageText, picture: &Picture<'_>)
    ensures { AppendsText text.old text.new
        (done_words (length picture.now.timeline.now.steps) (span_of picture.now.time_range) picture.now.timeline.now picture.now.numbers) }
{
    let count = picture.timeline.steps().len();
    match only_plan(picture) {
        Some(totals) => push_plan(text, count, picture.span(), totals),
        None => push_completed(text, count, picture.span(), &picture.numbers),
    }
}

/// The totals of the plan, if the stream is only a plan: it has the summary of a plan and none of an
/// apply, and no create, update or delete began.
fn only_plan(picture: &Picture<'_>) -> Option<Totals>
    ensures { result ≡ only_plan picture.now.timeline.now }
{
    if picture.timeline.totals().is_some() || has_changes(picture.timeline.steps()) {
        None
    } else {
        picture.timeline.plan_totals()
    }
}

/// Adds how many steps there were, unless there were none, and what the plan would do.
fn push_plan(text: &mut MessageText, steps: usize, span: u64, totals: Totals)
    ensures { AppendsText text.old text.new (read_words steps span ++ plan_words totals) }
{
    push_read(text, steps, span);
    push_planned(text, totals);
}

/// Adds how many steps there were, and how long they took, unless there were none.
fn push_read(text: &mut MessageText, steps: usize, span: u64)
    ensures { AppendsText text.old text.new (read_words steps span) }
{
    if steps > 0 {
        push_steps(text, steps, span);
    }
}

/// Adds what the plan would do.
fn push_planned(text: &mut MessageText, totals: Totals)
    ensures { AppendsText text.old text.new (plan_words totals) }
{
    text.text("a plan of ");
    push_total(text, totals.added);
    text.text(" to add, ");
    push_total(text, totals.changed);
    text.text(" to change, ");
    push_total(text, totals.removed);
    text.text(" to destroy");
    push_if_any(text, totals.imported.unwrap_or(0), "to import");
}

/// Adds how many steps there were, and how long they took.
fn push_steps(text: &mut MessageText, steps: usize, span: u64)
    ensures { AppendsText text.old text.new (steps_words steps span) }
{
    text.things(steps as u64, "step");
    text.text(" in ");
    text.duration(span as u128);
    text.text(": ");
}

/// Adds how many steps there were, how long they took, and what was completed.
fn push_completed(text: &mut MessageText, steps: usize, span: u64, numbers: &Numbers)
    ensures { AppendsText text.old text.new (completed_words steps span numbers.now) }
{
    push_steps(text, steps, span);
    text.count(numbers.created as u64);
    text.text(" added, ");
    text.count(numbers.updated as u64);
    text.text(" changed, ");
    text.count(numbers.deleted as u64);
    text.text(" destroyed");
}

/// Adds that there were errors, if no step failed.
fn push_errors(text: &mut MessageText, picture: &Picture<'_>)
    ensures { AppendsText text.old text.new
        (error_words picture.now.timeline.now.errors.count (count_by (λ step. step.failed) picture.now.timeline.now.steps)) }
{
    if picture.timeline.errors().count() > 0 && failed_count(picture.timeline.steps()) == 0 {
        text.text(", with errors");
    }
}

fn push_uncompleted(text: &mut MessageText, picture: &Picture<'_>)
    ensures { AppendsText text.old text.new (uncompleted_words picture.now.timeline.now.steps) }
{
    let steps = picture.timeline.steps();
    push_if_any(text, failed_count(steps) as u64, "failed");
    push_if_any(text, open_count(steps) as u64, "not ended");
}

/// How many steps failed.
pub fn failed_count(steps: &[Step]) -> usize
    ensures { result ≡ count_by (λ step. step.failed) steps.now }
{
    steps.iter().filter(|step| step.has_failed()).count()
}

/// How many steps neither ended nor failed.
pub fn open_count(steps: &[Step]) -> usize
    ensures { result ≡ count_by is_not_ended steps.now }
{
    steps.iter().filter(|step| is_open(step)).count()
}

/// Whether the step neither ended nor failed.
fn is_open(step: &Step) -> bool
    ensures { result ≡ is_not_ended step.now }
{
    step.end().is_none() && !step.has_failed()
}

/// Adds a number and the words for it, unless the number is 0.
fn push_if_any(text: &mut MessageText, count: u64, what: &str)
    ensures { AppendsText text.old text.new (words_if_any count what.now) }
{
    if count > 0 {
        text.text(", ");
        text.count(count);
        text.text(" ");
        text.text(what);
    }
}

/// Adds where the summary differs from what was completed, or that a summary is missing.
fn push_summary(text: &mut MessageText, picture: &Picture<'_>)
    ensures { AppendsText text.old text.new (summary_words picture.now.timeline.now picture.now.numbers) }
{
    match picture.timeline.totals() {
        Some(totals) => {
            push_disagreement(text, picture, totals);
            push_imported(text, totals.imported);
        }
        None => push_lack(text, picture),
    }
}

/// Adds that there is no summary, if one is missing.
fn push_lack(text: &mut MessageText, picture: &Picture<'_>)
    ensures { AppendsText text.old text.new (if lacks_summary picture.now.timeline.now then codes ", no summary" else []) }
{
    if lacks_summary(picture) {
        text.text(", no summary");
    }
}

/// Adds the totals of the summary, if they differ from what was completed.
fn push_disagreement(text: &mut MessageText, picture: &Picture<'_>, totals: Totals)
    ensures { AppendsText text.old text.new (disagreement_words picture.now.numbers totals) }
{
    if agrees(picture, totals) {
        return;
    }
    text.text(", but the summary says ");
    push_total(text, totals.added);
    text.text(", ");
    push_total(text, totals.changed);
    text.text(", ");
    push_total(text, totals.removed);
}

/// Adds how many imports the summary counts, unless it is 0.
fn push_imported(text: &mut MessageText, imported: Option<u64>)
    ensures { AppendsText text.old text.new (imported_words imported) }
{
    let imported = imported.unwrap_or(0);
    if imported > 0 {
        text.text(", ");
        text.count(imported);
        text.text(" imported");
    }
}

/// Whether a summary is missing. A stream with an error needs none. Any other stream needs the
/// summary of an apply, unless it has that of a plan and changes nothing.
fn lacks_summary(picture: &Picture<'_>) -> bool
    ensures { result ≡ lacks_summary picture.now.timeline.now }
{
    picture.timeline.errors().count() == 0
        && (!picture.timeline.has_plan_summary() || has_changes(picture.timeline.steps()))
}

/// Whether some step is a create, an update or a delete.
fn has_changes(steps: &[Step]) -> bool
    ensures { result ≡ list_any is_change steps.now }
{
    steps.iter().any(|step| changes(step))
}

/// Whether the step is a create, an update or a delete.
fn changes(step: &Step) -> bool
    ensures { result ≡ is_change step.now }
{
    matches!(step.action(), "create" | "update" | "delete")
}

/// Whether the totals of the summary are what was completed.
fn agrees(picture: &Picture<'_>, totals: Totals) -> bool
    ensures { result ≡ agrees picture.now.numbers totals }
{
    totals.added == Some(picture.numbers.created as u64)
        && totals.changed == Some(picture.numbers.updated as u64)
        && totals.removed == Some(picture.numbers.deleted as u64)
}

fn push_total(text: &mut MessageText, total: Option<u64>)
    ensures { AppendsText text.old text.new (total_words total) }
{
    match total {
        Some(total) => text.count(total),
        None => text.text("?"),
    }
}
