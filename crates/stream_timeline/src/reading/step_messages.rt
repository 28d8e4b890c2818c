//! Applies what a message states about a step, a provisioner or an error to the time line.
//!
//! `TimelineFault::Memory` means that memory was refused.

ghost use Rattle.std.specs.Prelude.{◌≡◌};
ghost use Rattle.stream_message.specs.SlotValues.{diagnostic_address_in};

use crate::reading::builder::TimelineBuilder;
use crate::reading::timeline_fault::TimelineFault;
use std::alloc::Global;
use stream_message::DiagnosticSlots;

impl TimelineBuilder {
    ghost use Rattle.stream_timeline.specs.SlotContents.{diagnostic_in};
    ghost use Rattle.stream_timeline.specs.Steps.{first_of, is_open_at, is_open_with, last_of, places};
    ghost use Rattle.stream_timeline.specs.TimelineRead.{TimelineRead, with_begin, with_end, with_error, with_provisioner_begin, with_provisioner_end};
    ghost use Rattle.stream_timeline.specs.Building.{ReadsMore, HasRead, IsReadingLine};

    /// Begins a step. `TimelineFault::TooManySteps` after 100,000 others.
    pub(crate) fn begin(
        &mut self,
        alloc: Global,
        address: &str,
        action: &str,
        time: i64,
    ) -> Result<(), TimelineFault>
        ensures { ReadsMore (IsReadingLine self.old) self.new (with_begin address.now action.now time) result }
    {
        if self.timeline.is_full() {
            return Err(TimelineFault::TooManySteps);
        }
        let place = self.timeline.steps().len();
        self.timeline.begin(alloc, address, action, time)?;
        self.opened.add(alloc, address, place)?;
        Ok(())
    }

    /// Ends the oldest open step with this address and action. If there is none, the line counts as
    /// passed over.
    pub(crate) fn finish(&mut self, address: &str, action: &str, failed: bool, time: i64)
        ensures { (timeline : TimelineRead) → IsReadingLine self.old timeline
            → HasRead self.new (with_end address.now action.now failed time timeline) }
    {
        match self.first_open(address, action) {
            Some(place) => {
                self.timeline.end(place, failed, time);
                self.opened.take(address, place);
            }
            None => self.timeline.pass_over(),
        }
    }

    /// The index of the oldest open step with this address and action.
    fn first_open(&self, address: &str, action: &str) -> Option<usize>
        ensures { (timeline : TimelineRead) → IsReadingLine self.now timeline → result
            ≡ first_of (places (is_open_with address.now action.now) timeline.steps) }
    {
        for place in self.opened.at(address) {
            if self.timeline.has_action(*place, action) {
                return Some(*place);
            }
        }
        None
    }

    /// The index of the newest open step at this address.
    fn last_open(&self, address: &str) -> Option<usize>
        ensures { (timeline : TimelineRead) → IsReadingLine self.now timeline → result
            ≡ last_of (places (is_open_at address.now) timeline.steps) }
    {
        let places = self.opened.at(address);
        let count = places.len();
        if count == 0 {
            return None;
        }
        Some(places[count - 1])
    }

    /// Begins a provisioner in the newest open step at this address. If there is none, the line
    /// counts as passed over.
    pub(crate) fn begin_provisioner(
        &mut self,
        alloc: Global,
        address: &str,
        name: &str,
        time: i64,
    ) -> Result<(), TimelineFault>
        ensures { ReadsMore (IsReadingLine self.old) self.new (with_provisioner_begin address.now name.now time) result }
    {
        let Some(place) = self.last_open(address) else {
            self.timeline.pass_over();
            return Ok(());
        };
        if self.timeline.is_full() {
            return Err(TimelineFault::TooManySteps);
        }
        self.timeline.begin_provisioner(alloc, place, name, time)?;
        Ok(())
    }

    /// Ends the newest provisioner of the newest open step at this address. If none is open, the
    /// line counts as passed over.
    pub(crate) fn end_provisioner(&mut self, address: &str, failed: bool, time: i64)
        ensures { (timeline : TimelineRead) → IsReadingLine self.old timeline
            → HasRead self.new (with_provisioner_end address.now failed time timeline) }
    {
        match self.last_open(address) {
            Some(place) => if self.timeline.has_open_provisioner(place) {
                self.timeline.end_provisioner(place, failed, time);
            } else {
                self.timeline.pass_over();
            },
            None => self.timeline.pass_over(),
        }
    }

    /// Stores an error, and marks the steps that are open at its address as failed.
    pub(crate) fn error(
        &mut self,
        alloc: Global,
        slots: &DiagnosticSlots<'_>,
    ) -> Result<(), TimelineFault>
        ensures { ReadsMore (IsReadingLine self.old) self.new (with_error (diagnostic_address_in slots.now) (diagnostic_in slots.now)) result }
    {
        self.timeline.add_error(alloc, slots)?;
        if let Some(address) = slots.address() {
            self.timeline.mark_all(self.opened.at(address));
        }
        Ok(())
    }
}
