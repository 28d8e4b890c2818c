//! A step of a stream.

ghost use Rattle.std.specs.Prelude.{◌≡◌, IfOk, OnErr, OnOk, map};
ghost use Rattle.stream_timeline.specs.Intervals.{is_counted, length_of, until_of};
ghost use Rattle.stream_timeline.specs.Numbers.{is_completed};
ghost use Rattle.stream_timeline.specs.Rows.{is_marked};
ghost use Rattle.stream_timeline.specs.Steps.{begun_step, ended, ended_with_step, last_is_open, marked, has_open_provisioner, with_provisioner, with_provisioner_ended};

use crate::reading::provisioner::Provisioner;
use crate::reading::time_range::{TimeRange, gap};
use std::alloc::{AllocError, Global};
use std::marker::Model;

/// A step of a stream: an action on a resource. Contracts see the line that begins the step, its
/// address and action, its begin and end, whether it failed, and its provisioners.
#[derive(Drop)]
pub struct Step {
    line: u64,
    address: String,
    action: String,
    begin: i64,
    end: Option<i64>,
    failed: bool,
    provisioners: Vec<Provisioner>,
}

// The memory bound of the crate counts 64 bytes for a step next to its texts and provisioners.
const _: () = prove!(size_of::<Step>() == 2 * size_of::<String>() + 64);

impl Model for Step {
    ghost use Rattle.std.specs.Prelude.{string_bytes};
    ghost use Rattle.stream_timeline.specs.Steps.{StepRead};

    ghost Value = { StepRead };

    ghost view = { λ s. record {
      line = s.line;
      address = string_bytes s.address;
      action = string_bytes s.action;
      begin = s.begin;
      end = s.end;
      failed = s.failed;
      provisioners = s.provisioners.items;
    } };
}

impl Step {
    /// A step that the line `line` begins at `time`. `Err` means that memory was refused.
    pub(crate) fn begun(
        alloc: Global,
        line: u64,
        address: &str,
        action: &str,
        time: i64,
    ) -> Result<Step, AllocError>
        ensures { IfOk result (λ step. step ≡ begun_step line address.now action.now time) }
    {
        Ok(Step {
            line,
            address: String::from_str(alloc, address)?,
            action: String::from_str(alloc, action)?,
            begin: time,
            end: None,
            failed: false,
            provisioners: Vec::new(alloc),
        })
    }

    /// Ends the step and its open provisioners at `time`, but not before the begin of the step.
    pub(crate) fn end_at(&mut self, time: i64, failed: bool)
        ensures { self.new ≡ ended time failed self.old }
    {
        let end = self.begin.max(time);
        end_all(&mut self.provisioners, end);
        self.end = Some(end);
        self.failed = failed;
    }

    /// Begins a provisioner in the step. `Err` means that memory was refused; then nothing is
    /// changed.
    pub(crate) fn begin_provisioner(
        &mut self,
        alloc: Global,
        name: &str,
        time: i64,
    ) -> Result<(), AllocError>
        ensures ok { OnOk result (self.new ≡ with_provisioner name.now time self.old) }
        ensures err { OnErr result (self.new ≡ self.old) }
    {
        let provisioner = Provisioner::begun(alloc, name, time)?;
        self.provisioners.push(provisioner)?;
        Ok(())
    }

    /// Whether the newest provisioner has no end.
    pub(crate) fn has_open_provisioner(&self) -> bool
        ensures { result ≡ has_open_provisioner self.now }
    {
        last_is_open(&self.provisioners)
    }

    /// Ends the newest provisioner.
    #[tactic(auto, using(crate::proofs::LastOne::last_ended_set, crate::proofs::LastOne::last_ended_none))]
    pub(crate) fn end_provisioner(&mut self, time: i64, failed: bool)
        ensures { self.new ≡ with_provisioner_ended time failed self.old }
    {
        let count = self.provisioners.len();
        if count > 0 {
            self.provisioners[count - 1].end_at(time, failed);
        }
    }

    /// Marks the step as failed.
    pub(crate) fn mark(&mut self)
        ensures { self.new ≡ marked self.old }
    {
        self.failed = true;
    }

    /// The number of the line that begins the step, from 1.
    pub fn line(&self) -> u64
        ensures { result ≡ self.now.line }
    {
        self.line
    }

    /// The address of the resource.
    pub fn address(&self) -> &str
        ensures { result.now ≡ self.now.address }
    {
        self.address.as_str()
    }

    /// The action, as the stream names it. It is `refresh` for a refresh.
    pub fn action(&self) -> &str
        ensures { result.now ≡ self.now.action }
    {
        self.action.as_str()
    }

    /// The begin, in microseconds since the start of 1970.
    pub fn begin(&self) -> i64
        ensures { result ≡ self.now.begin }
    {
        self.begin
    }

    /// The end, in microseconds since the start of 1970. `None` if the stream states none.
    pub fn end(&self) -> Option<i64>
        ensures { result ≡ self.now.end }
    {
        self.end
    }

    /// Whether the step failed: its end says so, or it has no end and an error has its address.
    pub fn has_failed(&self) -> bool
        ensures { result ≡ self.now.failed }
    {
        self.failed
    }

    /// The provisioners, in the order of the lines that begin them.
    pub fn provisioners(&self) -> &[Provisioner]
        ensures { result.now ≡ self.now.provisioners }
    {
        self.provisioners.as_slice()
    }

    /// The end of the step, or the last time of the stream if the step has no end. It is never
    /// before the begin. In microseconds since the start of 1970.
    pub fn until(&self, time_range: TimeRange) -> i64
        ensures { result ≡ until_of time_range self.now }
    {
        self.begin.max(self.end.unwrap_or(time_range.last))
    }

    /// How long the step took until then, in microseconds.
    pub fn length(&self, time_range: TimeRange) -> u64
        ensures { result ≡ length_of time_range self.now }
    {
        gap(self.begin, self.until(time_range))
    }

    /// Whether the step is counted in the figures of the stream. A step that failed and has no end
    /// is not, because nobody knows when it failed.
    pub fn is_counted(&self) -> bool
        ensures { result ≡ is_counted self.now }
    {
        !(self.failed && self.end.is_none())
    }

    /// Whether the step failed or has no end.
    pub fn is_marked(&self) -> bool
        ensures { result ≡ is_marked self.now }
    {
        self.failed || self.end.is_none()
    }

    /// Whether the step has this action and completed.
    pub fn is_completed(&self, action: &str) -> bool
        ensures { result ≡ is_completed action.now self.now }
    {
        self.action() == action && self.end.is_some() && !self.failed
    }
}

/// Whether the last provisioner has no end.
#[tactic(auto, using(crate::proofs::LastOne::last_open_is, crate::proofs::LastOne::last_open_none))]
fn last_is_open(provisioners: &[Provisioner]) -> bool
    ensures { result ≡ last_is_open provisioners.now }
{
    let count = provisioners.len();
    if count == 0 {
        return false;
    }
    provisioners[count - 1].end().is_none()
}

/// Ends all provisioners without an end, together with their step.
#[tactic(auto, using(crate::proofs::LastOne::ended_more))]
fn end_all(provisioners: &mut [Provisioner], end: i64)
    ensures { provisioners.new ≡ map (ended_with_step end) provisioners.old }
{
    for place in 0..provisioners.len() {
        provisioners[place].end_with_step(end);
    }
}
