//! The row of a step.

ghost use Rattle.std.specs.Prelude.{◌≡◌};
ghost use Rattle.stream_view.specs.Axes.{axis_in};
ghost use Rattle.stream_view.specs.Growth.{HasParts};
ghost use Rattle.stream_view.specs.Markup.{bar_end, bar_left, bar_parts, bar_width, title_parts};

use crate::column::label_of;
use crate::kind::Kind;
use crate::picture::Picture;
use crate::svg::dimensions::{BAR, EDGE, LEAST_BAR, ROW};
use crate::svg::fragment::Fragment;
use crate::svg::markup::Markup;
use crate::svg::markup_part::MarkupPart;
use crate::svg::scale::Scale;
use stream_timeline::{Provisioner, Step};
use term_words::MessageText;

/// Where the bar of a step stands. `left` and `width` are in tenths of a pixel, `top` is in pixels.
#[derive(Clone, Copy)]
pub struct Place {
    left: u64,
    width: u64,
    top: u64,
}

/// Where the bar of a step stands in a row at the height `y`.
pub fn place_of(picture: &Picture<'_>, scale: Scale, step: &Step, y: u64) -> Place
    ensures left { result.left ≡ bar_left (axis_in scale) picture.now.time_range step.now }
    ensures width { result.width ≡ bar_width (axis_in scale) picture.now.time_range step.now }
{
    let left = scale.x_in(picture.span(), picture.begin_of(step));
    let right = scale.x_in(picture.span(), picture.until_of(step));
    Place {
        left,
        width: right.saturating_sub(left).max(LEAST_BAR),
        top: y.saturating_add((ROW - BAR) / 2),
    }
}

/// Adds the begin of a row: its group, and the address and action of the step as the begin of its
/// title.
pub fn begin_row(markup: &mut Markup, step: &Step)
    ensures { HasParts markup.old markup.new (title_parts step.now) }
{
    markup.add(&[
        MarkupPart::Fixed(Fragment::GroupBegin),
        MarkupPart::Fixed(Fragment::TitleBegin),
    ]);
    markup.shown(step.address().as_bytes());
    markup.fixed(Fragment::NewLine);
    markup.shown(step.action().as_bytes());
}

/// Adds the markup before the bar: the rest of the title, and the label. `place` is the index of
/// the step.
pub fn push_before_bar(
    markup: &mut Markup,
    picture: &Picture<'_>,
    place: usize,
    step: &Step,
    y: u64,
) {
    push_title(markup, picture, place, step);
    push_label(markup, step, y);
}

/// Adds the markup after the bar: what is drawn over the bar, and the length.
pub fn push_after_bar(
    markup: &mut Markup,
    picture: &Picture<'_>,
    scale: Scale,
    step: &Step,
    bar: Place,
    y: u64,
) {
    push_over(markup, picture, scale, step, bar);
    push_length(markup, picture, step, bar, y);
}

/// Adds the length, begin and end of a step to its title, how long it ran alone, and its
/// provisioners. Then ends the title.
fn push_title(markup: &mut Markup, picture: &Picture<'_>, place: usize, step: &Step) {
    push_duration(markup, before_length(step), step.length(picture.time_range));
    push_duration(markup, Fragment::From, picture.begin_of(step));
    push_duration(markup, Fragment::To, picture.until_of(step));
    push_alone(markup, picture, place);
    for provisioner in step.provisioners() {
        push_provisioner(markup, picture, step, provisioner);
    }
    markup.fixed(title_end(step));
}

/// The words before the length of a step: `at most` or `at least` if the step has no end.
fn before_length(step: &Step) -> Fragment {
    match (step.has_failed(), step.end()) {
        (_, Some(_)) => Fragment::Comma,
        (true, None) => Fragment::AtMost,
        (false, None) => Fragment::AtLeast,
    }
}

/// The end of the title, with words if the step failed or has no end.
fn title_end(step: &Step) -> Fragment {
    match (step.has_failed(), step.end()) {
        (true, _) => Fragment::FailedTitleEnd,
        (false, Some(_)) => Fragment::TitleEnd,
        (false, None) => Fragment::NotEndedTitleEnd,
    }
}

/// Adds how long the step at index `place` ran alone, if it did.
fn push_alone(markup: &mut Markup, picture: &Picture<'_>, place: usize) {
    let alone = picture.alone_of(place);
    if alone > 0 {
        push_duration(markup, Fragment::AloneFor, alone);
    }
}

/// Adds a provisioner to the title of its step.
fn push_provisioner(
    markup: &mut Markup,
    picture: &Picture<'_>,
    step: &Step,
    provisioner: &Provisioner,
) {
    let (begin, end) = interval_of(picture, step, provisioner);
    markup.fixed(Fragment::Provisioner);
    markup.shown(provisioner.name().as_bytes());
    push_duration(markup, Fragment::Colon, end.saturating_sub(begin));
    if provisioner.has_failed() {
        markup.fixed(Fragment::HasFailed);
    }
}

/// The begin and end of a provisioner, in microseconds since the start of the stream. A provisioner
/// without an end runs as long as its step.
fn interval_of(picture: &Picture<'_>, step: &Step, provisioner: &Provisioner) -> (u64, u64) {
    let begin = picture.time_range.offset(provisioner.begin());
    let end = match provisioner.end() {
        Some(end) => picture.time_range.offset(end),
        None => picture.until_of(step),
    };
    (begin, end)
}

/// Adds the sign and the address of a step.
fn push_label(markup: &mut Markup, step: &Step, y: u64) {
    let class = if step.has_failed() {
        Fragment::Fail
    } else {
        Fragment::Ink
    };
    let sign = Kind::of(step.action()).sign();
    markup.begin_text(EDGE * 10, y.saturating_add(14), class);
    markup.add(&[
        MarkupPart::Character(sign),
        MarkupPart::Fixed(Fragment::Space),
    ]);
    markup.text_if_any(&label_of(markup.alloc(), step));
    markup.fixed(Fragment::TextEnd);
}

/// Adds the bar of a step.
pub fn push_bar(markup: &mut Markup, step: &Step, bar: Place)
    ensures { HasParts markup.old markup.new (bar_parts bar.left bar.width bar.top step.now) }
{
    let kind = Kind::of(step.action()).name();
    markup.begin_box(bar.left, bar.top, bar.width, BAR);
    markup.add(&[
        MarkupPart::Fixed(Fragment::RoundedClass),
        MarkupPart::Fixed(kind),
        MarkupPart::Fixed(end_of(step)),
    ]);
}

/// The closing markup of a bar. The bar is paler if the step failed or has no end.
fn end_of(step: &Step) -> Fragment
    ensures { result ≡ bar_end step.now }
{
    if step.is_marked() {
        Fragment::OpenEnd
    } else {
        Fragment::WholeEnd
    }
}

/// Adds what is drawn over the bar of a step: stripes and an edge if the step failed, else strips
/// for its provisioners.
fn push_over(markup: &mut Markup, picture: &Picture<'_>, scale: Scale, step: &Step, bar: Place) {
    if step.has_failed() {
        push_box(markup, bar, Fragment::StripesEnd);
        push_box(markup, bar, Fragment::EdgeEnd);
    } else {
        push_inner_bars(markup, picture, scale, step, bar.top.saturating_add(4));
    }
}

/// Adds a box over the bar with the closing markup `end`.
fn push_box(markup: &mut Markup, bar: Place, end: Fragment) {
    markup.begin_box(bar.left, bar.top, bar.width, BAR);
    markup.fixed(end);
}

/// Adds the strips of the provisioners of a step at the height `y`.
fn push_inner_bars(markup: &mut Markup, picture: &Picture<'_>, scale: Scale, step: &Step, y: u64) {
    for provisioner in step.provisioners() {
        let (begin, end) = interval_of(picture, step, provisioner);
        push_inner(markup, scale.x_of(begin), scale.x_of(end), y);
    }
}

/// Adds the strip of a provisioner, unless its width is 0.
fn push_inner(markup: &mut Markup, left: u64, right: u64, y: u64) {
    if right > left {
        markup.begin_box(left, y, right - left, BAR - 8);
        markup.fixed(Fragment::InnerEnd);
    }
}

/// Adds the length of a step, right of its bar.
fn push_length(markup: &mut Markup, picture: &Picture<'_>, step: &Step, bar: Place, y: u64) {
    let x = bar.left.saturating_add(bar.width).saturating_add(50);
    let class = if step.has_failed() {
        Fragment::SmallFail
    } else {
        Fragment::SmallSoft
    };
    markup.begin_text(x, y.saturating_add(14), class);
    push_bound(markup, step);
    push_time(markup, step.length(picture.time_range));
    push_mark(markup, step);
    markup.fixed(Fragment::TextEnd);
}

/// Adds the sign of a bound if the step has no end.
fn push_bound(markup: &mut Markup, step: &Step) {
    if step.end().is_none() {
        let sign = if step.has_failed() { '≤' } else { '≥' };
        markup.add(&[
            MarkupPart::Character(sign),
            MarkupPart::Fixed(Fragment::Space),
        ]);
    }
}

/// Adds a mark if the step failed or has no end.
fn push_mark(markup: &mut Markup, step: &Step) {
    if step.is_marked() {
        let mark = if step.has_failed() { '✗' } else { '…' };
        markup.add(&[
            MarkupPart::Fixed(Fragment::Space),
            MarkupPart::Character(mark),
        ]);
    }
}

/// Adds words and a duration.
fn push_duration(markup: &mut Markup, before: Fragment, microseconds: u64) {
    markup.fixed(before);
    push_time(markup, microseconds);
}

/// Adds a duration.
fn push_time(markup: &mut Markup, microseconds: u64) {
    let mut time = MessageText::new(markup.alloc());
    time.duration(microseconds as u128);
    markup.message(&time);
}
