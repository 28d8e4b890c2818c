//! The steps that ran alone while everything else waited.

use crate::picture::Picture;
use std::alloc::{AllocError, Global};
use std::cmp::Reverse;
use stream_timeline::Step;
use term_words::MessageText;

/// A step is listed from one millisecond alone on, if that is at least a 100th of the span. In
/// microseconds.
const LEAST: u64 = 1_000;

const PARTS: u128 = 100;

/// How many steps are listed.
const MOST: usize = 5;

/// The blanks that align a duration to the right.
const TIME: &[u8] = b"       ";

/// The five steps that ran alone for the longest time: that time in microseconds, and the index of
/// the step. Steps with the same time stand in the order of their lines. The list is empty if no
/// two steps ever ran at once.
///
/// `Err` means that memory was refused.
pub fn longest_alone(
    alloc: Global,
    picture: &Picture<'_>,
) -> Result<Vec<(Reverse<u64>, usize)>, AllocError> {
    let mut listed = Vec::new(alloc);
    for (place, alone) in picture.numbers.alone.iter().enumerate() {
        if is_listed(picture, *alone) {
            listed.push((Reverse(*alone), place))?;
        }
    }
    listed.sort()?;
    listed.truncate(MOST);
    Ok(listed)
}

/// Whether a step that ran alone for `alone` microseconds is listed.
fn is_listed(picture: &Picture<'_>, alone: u64) -> bool {
    picture.numbers.peak > 1 && alone >= LEAST && alone as u128 * PARTS >= picture.span() as u128
}

/// How long the step at index `place` ran alone.
pub fn alone_time(alloc: Global, picture: &Picture<'_>, place: usize) -> MessageText {
    let mut time = MessageText::new(alloc);
    time.duration(picture.alone_of(place) as u128);
    time
}

/// The rest of the line: the length of the step, its action and its address.
pub fn alone_text(alloc: Global, picture: &Picture<'_>, step: &Step) -> MessageText {
    let mut text = MessageText::new(alloc);
    text.text("of ");
    text.duration(step.length(picture.time_range) as u128);
    text.text(": ");
    text.text(step.action());
    text.text(" of ");
    text.text(step.address());
    text
}

/// The whole line about a step that ran alone.
pub fn alone_line(alloc: Global, picture: &Picture<'_>, place: usize, step: &Step) -> MessageText {
    let time = alone_time(alloc, picture, place);
    let mut line = MessageText::new(alloc);
    line.text("  ");
    line.bytes(&TIME[time.as_bytes().len().min(TIME.len())..]);
    line.add(&time);
    line.text(" ");
    line.add(&alone_text(alloc, picture, step));
    line
}
