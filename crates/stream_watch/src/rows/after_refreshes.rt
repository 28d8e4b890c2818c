//! Tells a line after the refreshes that were not told yet.

ghost use Rattle.term_words.specs.MessageTexts.{HasText};
ghost use Rattle.stream_watch.specs.AfterRefreshes.{told_after_refreshes};
ghost use Rattle.stream_watch.specs.State.{Tells, looks_of, state_of};

use crate::mark::Mark;
use crate::watcher::Watcher;
use term_words::MessageText;

impl Watcher {
    /// Tells how many refreshes ended since that was told last, where some did. Then tells a text
    /// with the time of the stream.
    pub(crate) fn line_after_refreshes(&mut self, mark: Mark, text: &MessageText)
        ensures { (words : _) → HasText text.now words
            → Tells self.old self.new (told_after_refreshes (looks_of self.old) mark words (state_of self.old)) }
    {
        self.report_refreshes();
        self.line(mark, text);
    }
}
