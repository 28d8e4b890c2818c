//! The line about lines that were passed over.

use crate::picture::Picture;
use std::alloc::Global;
use term_words::MessageText;

/// How many lines were passed over. `None` if none was.
pub fn passed_over(alloc: Global, picture: &Picture<'_>) -> Option<MessageText> {
    if picture.timeline.passed_over() == 0 {
        return None;
    }
    let mut message = MessageText::new(alloc);
    message.things(picture.timeline.passed_over(), "line");
    message.text(" passed over: no message, or of a step that is not open");
    Some(message)
}
