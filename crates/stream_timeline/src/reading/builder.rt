//! Builds a time line from the lines of a stream.

ghost use Rattle.std.specs.Prelude.{◌≡◌, ◌<◌, ◌^◌, ◌↔◌, ℕ, List, None, IfErr, IfOk, false};

use crate::reading::content::Content;
use crate::reading::details::is_blank_line;
use crate::reading::limits::MAX_LINES;
use crate::reading::open_places::OpenPlaces;
use crate::reading::time_lines::time_in;
use crate::reading::timeline::Timeline;
use crate::reading::timeline_fault::TimelineFault;
use apply_json::{JsonFault, Scratch};
use std::alloc::Global;
use stream_message::{LineSlots, Selection, read_line, take_scratch};

/// The members that a time line needs.
const SELECTION: Selection = Selection {
    version: true,
    hook: true,
    change: false,
    changes: true,
    diagnostic: true,
    diagnostic_texts: true,
};

/// Builds a time line from the lines of a stream, one line after another. It stores the time line
/// so far and an index of the open steps.
#[derive(Drop)]
pub struct TimelineBuilder {
    pub(crate) timeline: Timeline,
    pub(crate) opened: OpenPlaces,
    // Stored between lines, so that a line needs no memory of its own. It is boxed because reading
    // a line takes it out.
    scratch: Option<Box<Scratch>>,
}

impl TimelineBuilder {
    ghost use Rattle.stream_timeline.specs.Messages.{message_of};
    ghost use Rattle.stream_timeline.specs.TimelineRead.{max_lines, counted_line, empty_timeline, with_line, with_message_or_passed_over, with_content};
    ghost use Rattle.stream_timeline.specs.Building.{ReadsMore, HasRead, IsReadingLine};
    ghost use Rattle.stream_timeline.specs.ContentViews.{content_view};
    ghost use Rattle.stream_timeline.specs.SlotContents.{message_in};
    ghost use Rattle.stream_timeline.specs.declared.reading.timeline_fault.TimelineFault.TheVariants.{NoMessage};

    /// A builder that has read no line.
    pub fn new(alloc: Global) -> TimelineBuilder
        ensures { HasRead result empty_timeline }
    {
        TimelineBuilder {
            timeline: Timeline::new(alloc),
            opened: OpenPlaces::new(alloc),
            scratch: None,
        }
    }

    /// Whether the builder has read 4,294,967,296 lines, and accepts no more.
    pub fn is_full(&self) -> bool
        ensures { result ≡ false ↔ self.now.timeline.lines < max_lines }
    {
        self.timeline.lines() >= MAX_LINES
    }

    /// Reads the next line, without its line feed.
    ///
    /// `TimelineFault::TooManySteps` if a step or a provisioner begins after 100,000 others.
    /// `TimelineFault::Memory` if memory is refused. After an `Err` the time line is no longer
    /// defined.
    pub fn line(&mut self, alloc: Global, line: &[u8]) -> Result<(), TimelineFault>
        requires { self.old.timeline.lines < max_lines }
        ensures { ReadsMore (HasRead self.old) self.new (with_line line.now) result }
    {
        if is_blank_line(line) {
            self.timeline.count_line(false);
            return Ok(());
        }
        // A message borrows from the scratch while it is applied to the builder.
        let mut scratch = take_scratch(alloc, &mut self.scratch)?;
        let result = self.line_with(alloc, &mut *scratch, line);
        self.scratch = Some(scratch);
        result
    }

    /// Reads a line that is not blank. The errors are those of `line`.
    fn line_with(
        &mut self,
        alloc: Global,
        scratch: &mut Scratch,
        line: &[u8],
    ) -> Result<(), TimelineFault>
        requires { self.old.timeline.lines < max_lines }
        ensures { ReadsMore (HasRead self.old) self.new (λ timeline. with_message_or_passed_over (message_of line.now) (counted_line line.now timeline)) result }
    {
        match time_in(alloc, scratch, line) {
            Some(time) => {
                self.timeline.count_line(false);
                self.timeline.add_time(time);
                Ok(())
            }
            None => self.whole_line(alloc, scratch, line),
        }
    }

    /// Reads a line with all members that a time line needs. A line that is no JSON is passed over.
    /// The errors are those of `line`.
    fn whole_line(
        &mut self,
        alloc: Global,
        scratch: &mut Scratch,
        line: &[u8],
    ) -> Result<(), TimelineFault>
        requires { self.old.timeline.lines < max_lines }
        ensures { ReadsMore (HasRead self.old) self.new (λ timeline. with_message_or_passed_over (message_of line.now) (counted_line line.now timeline)) result }
    {
        let mut slots = LineSlots::new(SELECTION);
        match read_line(alloc, scratch, line, &mut slots) {
            Ok(()) => {
                self.timeline.count_line(slots.head.is_version());
                self.message(alloc, &slots)
            }
            Err(JsonFault::Memory) => Err(TimelineFault::Memory),
            Err(JsonFault::TooLarge | JsonFault::NotJson) => {
                self.timeline.count_line(false);
                self.timeline.pass_over();
                Ok(())
            }
        }
    }

    /// The time line of the lines that were read. `TimelineFault::NoMessage` if no line was a
    /// message.
    pub fn end(self) -> Result<Timeline, TimelineFault>
        ensures timeline { IfOk result (λ timeline. timeline ≡ self.timeline) }
        ensures none { IfErr result (λ fault. (fault ≡ NoMessage) × (self.timeline.time_range ≡ None)) }
    {
        if self.timeline.time_range().is_none() {
            return Err(TimelineFault::NoMessage);
        }
        Ok(self.timeline)
    }

    /// Reads the members of a line. A line without a text `type` or without a valid `@timestamp` is
    /// passed over.
    fn message(&mut self, alloc: Global, line: &LineSlots<'_>) -> Result<(), TimelineFault>
        ensures { ReadsMore (IsReadingLine self.old) self.new (with_message_or_passed_over (message_in line.now)) result }
    {
        let Some(kind) = line.head.kind() else {
            self.timeline.pass_over();
            return Ok(());
        };
        let Some(time) = line.head.time() else {
            self.timeline.pass_over();
            return Ok(());
        };
        self.timeline.add_time(time);
        self.take(alloc, time, Content::of(kind, line))
    }

    /// Applies what a message states to the time line.
    fn take(&mut self, alloc: Global, time: i64, content: Content<'_>) -> Result<(), TimelineFault>
        ensures { ReadsMore (IsReadingLine self.old) self.new (with_content time (content_view content.entry)) result }
    {
        match content {
            Content::Begins { address, action } => self.begin(alloc, address, action, time),
            Content::Ends {
                address,
                action,
                failed,
            } => {
                self.finish(address, action, failed, time);
                Ok(())
            }
            Content::BeginsProvisioner { address, name } => {
                self.begin_provisioner(alloc, address, name, time)
            }
            Content::EndsProvisioner { address, failed } => {
                self.end_provisioner(address, failed, time);
                Ok(())
            }
            Content::Error { diagnostic } => self.error(alloc, &diagnostic),
            Content::Warning { diagnostic } => {
                self.timeline.add_warning(alloc, &diagnostic)?;
                Ok(())
            }
            Content::Version { text } => {
                self.timeline.set_version(alloc, text)?;
                Ok(())
            }
            Content::PlanSummary { totals } => {
                self.timeline.set_plan_totals(totals);
                Ok(())
            }
            Content::Summary { totals } => {
                self.timeline.set_totals(totals);
                Ok(())
            }
            Content::Other => Ok(()),
            Content::Unusable => {
                self.timeline.pass_over();
                Ok(())
            }
        }
    }
}
