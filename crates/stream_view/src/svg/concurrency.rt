//! The area that shows how many steps ran at once.

use crate::picture::Picture;
use crate::svg::fragment::Fragment;
use crate::svg::markup::Markup;
use crate::svg::markup_part::MarkupPart;
use crate::svg::scale::Scale;
use stream_timeline::levels_of;
use term_words::MessageText;

/// The height of the area, in pixels.
const AREA_HEIGHT: u64 = 30;

/// Adds the area at the height `y`, with one level for each pixel, if two steps ever ran at once.
/// Returns the height that the area takes.
pub fn push_concurrency(markup: &mut Markup, picture: &Picture<'_>, scale: Scale, y: u64) -> u64 {
    if picture.numbers.peak <= 1 {
        return 0;
    }
    let bottom = y.saturating_add(AREA_HEIGHT);
    push_peak(markup, picture, scale.left.saturating_sub(80), bottom);
    markup.add(&[
        MarkupPart::Fixed(Fragment::PathBegin),
        MarkupPart::Fixed(Fragment::MoveTo),
        MarkupPart::Tenths(scale.left),
        MarkupPart::Fixed(Fragment::Space),
        MarkupPart::Number(bottom),
    ]);
    push_levels(markup, picture, scale, bottom);
    markup.add(&[
        MarkupPart::Fixed(Fragment::DownTo),
        MarkupPart::Number(bottom),
        MarkupPart::Fixed(Fragment::LevelEnd),
    ]);
    AREA_HEIGHT + 4
}

/// Adds the peak as a label.
fn push_peak(markup: &mut Markup, picture: &Picture<'_>, x: u64, y: u64) {
    let mut text = MessageText::new(markup.alloc());
    text.text("at once, at most ");
    text.count(picture.numbers.peak as u64);
    markup.line_of(x, y, Fragment::SmallSoftEnd, &text);
}

/// Adds the outline of the area.
fn push_levels(markup: &mut Markup, picture: &Picture<'_>, scale: Scale, bottom: u64) {
    let cells = u32::try_from(scale.width() / 10).unwrap_or(0);
    let stretches = &picture.numbers.stretches;
    match levels_of(markup.alloc(), stretches, scale.span, cells) {
        Ok(levels) => push_line(markup, picture, scale, bottom, &levels),
        Err(_) => markup.merge_whole(false),
    }
    markup.add(&[
        MarkupPart::Fixed(Fragment::AcrossTo),
        MarkupPart::Tenths(end_of(scale, cells as u64)),
    ]);
}

/// Adds a corner to the outline wherever the level changes.
fn push_line(
    markup: &mut Markup,
    picture: &Picture<'_>,
    scale: Scale,
    bottom: u64,
    levels: &[usize],
) {
    let mut before = 0;
    for (cell, level) in levels.iter().enumerate() {
        if *level != before {
            let high = height_of(*level, picture.numbers.peak);
            markup.add(&[
                MarkupPart::Fixed(Fragment::AcrossTo),
                MarkupPart::Tenths(end_of(scale, cell as u64)),
                MarkupPart::Fixed(Fragment::DownTo),
                MarkupPart::Tenths(bottom.saturating_mul(10).saturating_sub(high)),
            ]);
            before = *level;
        }
    }
}

/// Where the pixel `cell` of the axis begins, in tenths of a pixel.
fn end_of(scale: Scale, cell: u64) -> u64 {
    scale.left.saturating_add(cell.saturating_mul(10))
}

/// The height of a level, in tenths of a pixel.
fn height_of(level: usize, peak: usize) -> u64 {
    let high = level as u128 * (AREA_HEIGHT * 10) as u128 / peak.max(1) as u128;
    u64::try_from(high).unwrap_or(0)
}
