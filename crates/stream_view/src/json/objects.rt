//! The objects of a time line and of its steps.

ghost use Rattle.std.specs.Prelude.{◌≡◌, ◌+◌, Some};
ghost use Rattle.serde_json.specs.Written.{compact_text};
ghost use Rattle.stream_view.specs.Json.{figures_text, named, step_data, summary_data};
ghost use Rattle.term_words.specs.MessageTexts.{AppendsText};

use crate::captions::heading::{failed_count, open_count};
use crate::json::members::{
    push_count, push_flag, push_null, push_number, push_optional, push_string,
};
use crate::picture::Picture;
use stream_timeline::{Step, Totals};
use term_words::MessageText;

/// Adds the front of the object of a time line: its figures, its version and its summary.
pub fn push_figures(text: &mut MessageText, picture: &Picture<'_>)
    ensures { AppendsText text.old text.new (figures_text picture.now) }
{
    let timeline = picture.timeline;
    let numbers = &picture.numbers;
    push_number(text, "{\"added\":", numbers.created as u128);
    push_number(text, ",\"changed\":", numbers.updated as u128);
    push_number(text, ",\"destroyed\":", numbers.deleted as u128);
    push_number(text, ",\"failed\":", failed_count(timeline.steps()) as u128);
    push_number(text, ",\"unended\":", open_count(timeline.steps()) as u128);
    push_number(text, ",\"errors\":", timeline.errors().count() as u128);
    push_number(text, ",\"span\":", picture.span() as u128);
    push_number(text, ",\"busy\":", numbers.busy as u128);
    push_number(text, ",\"work\":", numbers.work);
    push_number(text, ",\"peak\":", numbers.peak as u128);
    push_number(text, ",\"passed\":", timeline.passed_over() as u128);
    push_optional(text, ",\"terraform\":", timeline.version());
    push_summary(text, ",\"summary\":", timeline.totals());
    text.text(",\"steps\":[");
}

/// Adds the text `before`, and the totals of a summary as an object, or `null` without one.
fn push_summary(text: &mut MessageText, before: &str, totals: Option<Totals>)
    ensures { AppendsText text.old text.new (named before.now (summary_data totals)) }
{
    match totals {
        Some(totals) => push_totals(text, before, totals),
        None => push_null(text, before),
    }
}

/// Adds the text `before`, and totals as an object.
fn push_totals(text: &mut MessageText, before: &str, totals: Totals)
    ensures { AppendsText text.old text.new (named before.now (summary_data (Some totals))) }
{
    text.text(before);
    push_count(text, "{\"add\":", totals.added);
    push_count(text, ",\"change\":", totals.changed);
    push_count(text, ",\"remove\":", totals.removed);
    text.text("}");
}

/// The line of the input that begins the step.
fn line_of(picture: &Picture<'_>, step: &Step) -> u128
    ensures { result ≡ picture.now.lines_before + step.now.line }
{
    picture.lines_before as u128 + step.line() as u128
}

/// Adds the object of the step at index `place`.
pub fn push_step(text: &mut MessageText, picture: &Picture<'_>, place: usize, step: &Step)
    ensures { AppendsText text.old text.new (compact_text (step_data picture.now place step.now)) }
{
    push_string(text, "{\"address\":", step.address());
    push_string(text, ",\"action\":", step.action());
    push_number(text, ",\"line\":", line_of(picture, step));
    push_number(text, ",\"begin\":", picture.begin_of(step) as u128);
    push_number(
        text,
        ",\"length\":",
        step.length(picture.time_range) as u128,
    );
    push_flag(text, ",\"ended\":", step.end().is_some());
    push_flag(text, ",\"failed\":", step.has_failed());
    push_number(text, ",\"alone\":", picture.alone_of(place) as u128);
    text.text("}");
}
