//! Tells the verdict.

ghost use Rattle.std.specs.Prelude.{◌≡◌};
ghost use Rattle.stream_watch.specs.State.{Tells, looks_of, state_of};
ghost use Rattle.stream_watch.specs.VerdictRow.{verdict_front, verdict_mark, verdict_told, verdict_words, whole_mark};
ghost use Rattle.term_words.specs.MessageTexts.{AppendsText};

use crate::mark::Mark;
use crate::watcher::Watcher;
use stream_check::{Finding, Verdict, Whole};
use term_words::MessageText;

impl Watcher {
    /// Tells the verdict.
    pub fn verdict(&mut self, verdict: &Verdict)
        ensures { Tells self.old self.new (verdict_told (looks_of self.old) (state_of self.old) verdict.now) }
    {
        let mut text = MessageText::new(self.alloc);
        push_verdict(&mut text, verdict.answer, verdict.text.as_str());
        self.line(verdict_mark(verdict.answer), &text);
    }
}

/// Adds what `check` reports. Where the stream is not whole, that is said first.
fn push_verdict(text: &mut MessageText, answer: Result<Whole, Finding>, report: &str)
    ensures { AppendsText text.old text.new (verdict_words answer report.now) }
{
    text.text(verdict_front(answer));
    text.escaped(report.as_bytes());
}

/// Returns what is said before the report of `check`.
fn verdict_front(answer: Result<Whole, Finding>) -> &'static str
    ensures { result.now ≡ verdict_front answer }
{
    match answer {
        Ok(_) => "",
        Err(_) => "the stream is not whole: ",
    }
}

/// Returns the mark of the verdict.
fn verdict_mark(answer: Result<Whole, Finding>) -> Mark
    ensures { result ≡ verdict_mark answer }
{
    match answer {
        Ok(whole) => whole_mark(whole.has_errors),
        Err(_) => Mark::Failed,
    }
}

/// Returns the mark of a whole stream.
fn whole_mark(has_errors: bool) -> Mark
    ensures { result ≡ whole_mark has_errors }
{
    if has_errors {
        Mark::Failed
    } else {
        Mark::Whole
    }
}
