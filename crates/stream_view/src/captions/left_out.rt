//! The line about the steps without a row.

ghost use Rattle.std.specs.Prelude.{◌≡◌, None};
ghost use Rattle.stream_view.specs.LeftOut.{left_out_words};
ghost use Rattle.term_words.specs.MessageTexts.{HasText};

use crate::picture::Picture;
use std::alloc::Global;
use term_words::MessageText;

/// How many steps have no row, their greatest length, and the sum of their lengths.
pub fn left_out(alloc: Global, picture: &Picture<'_>) -> MessageText
    ensures { HasText result (left_out_words picture.now.rows) }
{
    let mut message = MessageText::new(alloc);
    message.more_things(picture.rows.left_out as u64, "step");
    message.text(", each at most ");
    message.duration(picture.rows.longest as u128);
    message.text(", ");
    message.duration(picture.rows.total_length);
    message.text(" in total");
    message
}
