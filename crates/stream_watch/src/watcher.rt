//! The state of an apply, and the lines that tell of it.

ghost use Rattle.std.specs.Prelude.{◌≡◌, ◌&&◌, []};
ghost use Rattle.stream_watch.specs.Marks.{is_in_panel};
ghost use Rattle.stream_watch.specs.Printed.{HasPrinted};
ghost use Rattle.stream_watch.specs.State.{Tells, beginning, further_told, line_told, looks_of, state_of};
ghost use Rattle.stream_watch.specs.RefreshRow.{refreshed_words, reported_told};
ghost use Rattle.term_words.specs.MessageTexts.{AppendsText, HasText};

use crate::clock::Clock;
use crate::counts::Counts;
use crate::lengths::Lengths;
use crate::looks::Looks;
use crate::mark::Mark;
use crate::printer::Printer;
use crate::refreshes::Refreshes;
use crate::steps::OpenSteps;
use crate::words::{push_length, widened};
use apply_json::Scratch;
use std::alloc::Global;
use term_words::MessageText;

/// The state of an apply, and the lines that tell of it. It grows with the number of open steps,
/// and with the longest line.
#[derive(Drop)]
pub struct Watcher {
    pub(crate) alloc: Global,
    pub(crate) clock: Clock,
    pub(crate) steps: OpenSteps,
    pub(crate) counts: Counts,
    pub(crate) refreshes: Refreshes,
    pub(crate) lengths: Lengths,
    /// How many marks had passed when the steps under way were last told.
    pub(crate) marks: u64,
    pub(crate) printer: Printer,
    /// Whether a panel shows what is under way.
    pub(crate) has_panel: bool,
    /// Whether messages are found in the lines of a log.
    pub(crate) find: bool,
    // Stored between lines, so that a line needs no memory of its own.
    pub(crate) scratch: Scratch,
}

impl Watcher {
    /// The state before the first line.
    pub fn new(alloc: Global, find: bool, looks: Looks) -> Watcher
        ensures find { result.find ≡ find }
        ensures looks { looks_of result ≡ looks }
        ensures state { state_of result ≡ beginning }
        ensures printed { HasPrinted result.printer [] }
    {
        Watcher {
            alloc,
            clock: Clock::new(),
            steps: OpenSteps::new(alloc),
            counts: Counts::new(),
            refreshes: Refreshes::new(),
            lengths: Lengths::new(alloc),
            marks: 0,
            printer: Printer::new(alloc, looks.width, looks.has_colour),
            has_panel: looks.has_panel,
            find,
            scratch: Scratch::new(alloc),
        }
    }

    /// Tells a text with the time of the stream, unless the panel shows what it tells.
    pub fn line(&mut self, mark: Mark, text: &MessageText)
        ensures { (words : _) → HasText text.now words
            → Tells self.old self.new (line_told (looks_of self.old) (state_of self.old) mark words) }
    {
        if !self.hides(mark) {
            self.printer.line(self.clock.elapsed(), mark, text);
        }
    }

    /// Whether the panel shows what lines with the mark tell.
    fn hides(&self, mark: Mark) -> bool
        ensures { result ≡ (looks_of self.now).has_panel && is_in_panel mark }
    {
        self.has_panel && mark.is_in_panel()
    }

    /// Tells a text that belongs to the line before it, which has this mark.
    pub fn further(&mut self, mark: Mark, text: &MessageText)
        ensures { (words : _) → HasText text.now words
            → Tells self.old self.new (further_told (looks_of self.old) (state_of self.old) mark words) }
    {
        self.printer.further(mark, text);
    }

    /// Tells how many refreshes ended since that was told last, where some did.
    pub fn report_refreshes(&mut self)
        ensures { Tells self.old self.new (reported_told (looks_of self.old) (state_of self.old)) }
    {
        let refreshes = self.refreshes;
        if refreshes.unreported > 0 {
            self.refreshes = refreshes.reported();
            let mut text = MessageText::new(self.alloc);
            push_refreshes(&mut text, refreshes);
            self.line(Mark::Done, &text);
        }
    }
}

/// Adds how many refreshes ended, and how long they took.
fn push_refreshes(text: &mut MessageText, refreshes: Refreshes)
    ensures { AppendsText text.old text.new (refreshed_words refreshes) }
{
    text.text("refreshed ");
    text.things(refreshes.unreported, "object");
    push_length(text, " in ", widened(refreshes.length()));
}
