//! The markup above the rows.

use crate::captions::heading::heading;
use crate::captions::overlap::overlap;
use crate::picture::Picture;
use crate::svg::concurrency::push_concurrency;
use crate::svg::dimensions::EDGE;
use crate::svg::fragment::Fragment;
use crate::svg::legend::push_legend;
use crate::svg::markup::Markup;
use crate::svg::markup_part::MarkupPart;
use crate::svg::scale::Scale;
use term_words::MessageText;

/// Adds the markup above the rows. Returns the height at which the rows begin.
pub fn push_header(markup: &mut Markup, picture: &Picture<'_>, scale: Scale) -> u64 {
    let y = push_heading(markup, picture);
    let y = y
        .saturating_add(push_legend(markup, picture, y))
        .saturating_add(6);
    if picture.rows.places.is_empty() {
        return y;
    }
    let y = y.saturating_add(push_concurrency(markup, picture, scale, y));
    push_ticks(markup, scale, y.saturating_add(12));
    y.saturating_add(18)
}

/// Adds the heading, and how many steps ran at once. Returns the height at which the next part
/// begins.
fn push_heading(markup: &mut Markup, picture: &Picture<'_>) -> u64 {
    let what = heading(markup.alloc(), picture);
    markup.line_of(EDGE * 10, EDGE + 16, Fragment::HeadInk, &what);
    match overlap(markup.alloc(), picture) {
        Some(how) => {
            markup.line_of(EDGE * 10, EDGE + 37, Fragment::SubSoft, &how);
            EDGE + 44
        }
        None => EDGE + 24,
    }
}

/// Adds the texts of the axis at the height `y`.
pub fn push_ticks(markup: &mut Markup, scale: Scale, y: u64) {
    for count in 0..scale.ticks() {
        let offset = scale.step.saturating_mul(count);
        let class = if count == 0 {
            Fragment::SmallSoft
        } else {
            Fragment::SmallSoftMid
        };
        push_tick(markup, scale.x_of(offset), y, class, offset);
    }
}

/// Adds the text of a tick. `offset` is its time in microseconds since the start of the stream.
fn push_tick(markup: &mut Markup, x: u64, y: u64, class: Fragment, offset: u64) {
    let mut tick = MessageText::new(markup.alloc());
    tick.tick(offset / 1_000);
    markup.line_of(x, y, class, &tick);
}

/// Adds the lines of the ticks, between the heights `top` and `bottom`.
pub fn push_grid(markup: &mut Markup, scale: Scale, top: u64, bottom: u64) {
    markup.fixed(Fragment::PathBegin);
    for count in 0..scale.ticks() {
        markup.add(&[
            MarkupPart::Fixed(Fragment::MoveTo),
            MarkupPart::Tenths(scale.x_of(scale.step.saturating_mul(count))),
            MarkupPart::Fixed(Fragment::Space),
            MarkupPart::Number(top),
            MarkupPart::Fixed(Fragment::DownTo),
            MarkupPart::Number(bottom),
        ]);
    }
    markup.fixed(Fragment::GridEnd);
}
