//! The second line of a picture: how many steps ran at once.

use crate::picture::Picture;
use std::alloc::Global;
use term_words::MessageText;

/// Idle time is shown from one second on, if it is at least a 50th of the span. In microseconds.
const IDLE: u64 = 1_000_000;

const IDLE_PARTS: u128 = 50;

/// How many steps ran at once, and for how long none did. `None` if no step took any time.
pub fn overlap(alloc: Global, picture: &Picture<'_>) -> Option<MessageText> {
    if picture.numbers.peak != 1 && picture.numbers.busy == 0 {
        return None;
    }
    let mut message = MessageText::new(alloc);
    if picture.numbers.peak == 1 {
        message.text("one at a time");
    } else {
        push_average(&mut message, picture);
    }
    push_idle(&mut message, picture);
    Some(message)
}

/// Adds for how long no step ran, if that is long enough to be shown.
fn push_idle(message: &mut MessageText, picture: &Picture<'_>) {
    let idle = picture.span().saturating_sub(picture.numbers.busy);
    if idle >= IDLE && idle as u128 * IDLE_PARTS >= picture.span() as u128 {
        message.text("; idle for ");
        message.duration(idle as u128);
    }
}

/// Adds the greatest number of steps at once, the average, and the work done in the busy time.
fn push_average(message: &mut MessageText, picture: &Picture<'_>) {
    let busy = picture.numbers.busy;
    let work = picture.numbers.work;
    let parts = busy.max(1) as u128;
    message.text("at most ");
    message.count(picture.numbers.peak as u64);
    message.text(" at once, ");
    message.count(u64::try_from(work / parts).unwrap_or(u64::MAX));
    message.text(".");
    message.number(u64::try_from(work % parts * 10 / parts).unwrap_or(0));
    message.text(" on average; ");
    message.duration(work);
    message.text(" of work in ");
    message.duration(busy as u128);
}
