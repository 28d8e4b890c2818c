//! The lines of the longest steps.

ghost use Rattle.std.specs.Prelude.{◌≡◌};

use crate::picture::Picture;
use crate::text::line_buffer::LineBuffer;
use crate::text::row::length_of;
use std::alloc::Global;
use stream_timeline::{Step, rows_by_length};
use term_words::MessageText;

/// How many steps are listed.
const MOST: usize = 5;

/// The blanks that align a length to the right.
const LENGTH: &[u8] = b"       ";

/// How many bytes the sign of a bound has besides its column.
const SIGN: usize = 2;

/// Adds the five longest steps, the longest first, if they are wanted. Steps of the same length
/// stand in the order of their lines.
pub fn push_longest(line_buffer: &mut LineBuffer, picture: &Picture<'_>, is_wanted: bool)
    ensures { line_buffer.new.style ≡ line_buffer.old.style }
{
    if !is_wanted {
        return;
    }
    let steps = picture.timeline.steps();
    match rows_by_length(line_buffer.alloc(), picture.time_range, steps, Some(MOST)) {
        Ok(rows) => push_longest_lines(line_buffer, picture, &rows.places),
        Err(_) => line_buffer.merge_whole(false),
    }
}

/// Adds the title and the lines of the steps at these indices, if there are any.
fn push_longest_lines(line_buffer: &mut LineBuffer, picture: &Picture<'_>, places: &[usize])
    ensures { line_buffer.new.style ≡ line_buffer.old.style }
{
    if places.is_empty() {
        return;
    }
    line_buffer.push_title("Longest");
    for place in places {
        push_longest_line(line_buffer, picture, *place);
    }
}

/// Adds the line of the step at index `place`.
fn push_longest_line(line_buffer: &mut LineBuffer, picture: &Picture<'_>, place: usize)
    ensures { line_buffer.new.style ≡ line_buffer.old.style }
{
    if let Some(step) = picture.timeline.steps().get(place) {
        line_buffer.push_fitted(&longest_line(line_buffer.alloc(), picture, step));
    }
}

/// The line of a step: its length, with the sign of a bound, its action and its address.
fn longest_line(alloc: Global, picture: &Picture<'_>, step: &Step) -> MessageText {
    let length = length_of(alloc, picture, step);
    let sign = if step.end().is_some() { 0 } else { SIGN };
    let columns = length.as_bytes().len().saturating_sub(sign);
    let mut line = MessageText::new(alloc);
    line.text("  ");
    line.bytes(&LENGTH[columns.min(LENGTH.len())..]);
    line.add(&length);
    line.text(": ");
    line.text(step.action());
    line.text(" of ");
    line.text(step.address());
    line
}
