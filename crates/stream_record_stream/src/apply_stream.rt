//! What the stream of an apply states, as far as it was read. Every `Err` means that memory was
//! refused.

ghost use Rattle.std.specs.Prelude.{◌≡◌, IfOk, OnOk};
ghost use Rattle.std.specs.Option.{option_copied};
ghost use Rattle.stream_record_stream.specs.Streams.{is_default_version};

use apply_json::is_text;
use apply_model::{Note, Plan, Severity, Text};
use std::alloc::{AllocError, Global};
use std::marker::Model;
use std::mem;
use stream_record_lines::{Event, Outputs, StatedMessage, Summary};
use stream_record_steps::{BegunSteps, Tally};

/// What the stream of an apply states. The summary of a plan ends the planning, and what stands
/// before it is passed over.
#[derive(Drop)]
pub struct ApplyStream<'p> {
    /// The steps of the plan that began.
    pub begun: BegunSteps<'p>,
    /// The errors and warnings, in their order.
    pub notes: Vec<Note>,
    /// The outputs of the last message that has some.
    pub outputs: Outputs,
    /// The lines that are no message, also those before a plan's summary.
    pub no_message: Tally,
    /// The line of the first message about an ephemeral resource.
    pub ephemeral: Option<u64>,
    /// The last summary of an apply or a destroy.
    pub summary: Option<Summary>,
    /// Whether the version of the interface is `1.0`, which the default form states.
    pub is_default_form: bool,
    /// The second of the last message, counted from the start of 1970.
    pub last_second: i64,
}

impl<'p> Model for ApplyStream<'p> {
    ghost use Rattle.stream_record_stream.specs.Streams.{StreamRead};

    ghost Value = { StreamRead };

    ghost view = { λ stream. record {
      begun = stream.begun;
      notes = stream.notes.items;
      outputs = stream.outputs;
      no_message = stream.no_message;
      ephemeral = stream.ephemeral;
      summary = stream.summary;
      is_default_form = stream.is_default_form;
      last_second = stream.last_second;
    } };
}

impl<'p> ApplyStream<'p> {
    ghost use Rattle.stream_record_steps.specs.Tallies.{with_line};
    ghost use Rattle.stream_record_stream.specs.Streams.{after_message, cut_off_at, has_error, no_stream, passed_over, with_event, with_summary};
    ghost use Rattle.stream_record_stream.specs.Reading.{is_of_another_plan};

    /// Before the first line.
    pub(crate) fn new(alloc: Global, plan: &'p Plan) -> Result<ApplyStream<'p>, AllocError>
        ensures { IfOk result (λ stream. stream ≡ no_stream plan.now) }
    {
        let begun = BegunSteps::new(alloc, plan)?;
        Ok(ApplyStream {
            begun,
            notes: Vec::new(alloc),
            outputs: Outputs::new(Vec::new(alloc)),
            no_message: Tally {
                first: None,
                count: 0,
            },
            ephemeral: None,
            summary: None,
            is_default_form: false,
            last_second: 0,
        })
    }

    /// Counts a line that is no message.
    pub(crate) fn count_no_message(&mut self, line: u64)
        ensures { self.new ≡ record self.old { no_message = with_line line self.old.no_message } }
    {
        self.no_message = Tally {
            first: self.no_message.first.or(Some(line)),
            count: self.no_message.count.saturating_add(1),
        };
    }

    /// Takes the message of a line.
    pub(crate) fn message(
        &mut self,
        alloc: Global,
        plan: &'p Plan,
        line: u64,
        message: StatedMessage,
    ) -> Result<(), AllocError>
        ensures { OnOk result (self.new ≡ after_message plan.now line message self.old) }
    {
        if let Some(second) = message.second {
            self.last_second = second;
        }
        self.event(alloc, plan, line, message.event)
    }

    /// Takes what a message states, whose second is the last one.
    fn event(
        &mut self,
        alloc: Global,
        plan: &'p Plan,
        line: u64,
        event: Event,
    ) -> Result<(), AllocError>
        ensures { OnOk result (self.new ≡ with_event plan.now line event self.old) }
    {
        match event {
            Event::Version { ui } => {
                self.is_default_form = is_default_version(ui.as_ref());
                Ok(())
            }
            Event::Step(step) => self.begun.take_step(line, self.last_second, step),
            Event::Provisioner(provisioner) => {
                self.begun
                    .take_provisioner(line, self.last_second, provisioner)
            }
            Event::Ephemeral => {
                self.ephemeral = self.ephemeral.or(Some(line));
                Ok(())
            }
            Event::Diagnostic(note) => {
                self.notes.push(note)?;
                Ok(())
            }
            Event::Summary(summary) => self.summary(alloc, plan, summary),
            Event::Outputs(outputs) => {
                self.outputs = outputs;
                Ok(())
            }
            Event::Malformed => {
                self.begun.take_malformed(line);
                Ok(())
            }
            Event::Other => Ok(()),
        }
    }

    /// Takes a summary. That of a plan starts anew.
    fn summary(&mut self, alloc: Global, plan: &'p Plan, summary: Summary) -> Result<(), AllocError>
        ensures { OnOk result (self.new ≡ with_summary plan.now summary self.old) }
    {
        match summary {
            Summary::Plan => self.pass_over(alloc, plan),
            Summary::Apply | Summary::Destroy => {
                self.summary = Some(summary);
                Ok(())
            }
        }
    }

    /// Passes over what was read, but for the lines that are no message, the version and the second.
    fn pass_over(&mut self, alloc: Global, plan: &'p Plan) -> Result<(), AllocError>
        ensures { OnOk result (self.new ≡ passed_over plan.now self.old) }
    {
        let mut begun = BegunSteps::new(alloc, plan)?;
        mem::swap(&mut self.begun, &mut begun);
        self.notes.clear();
        self.outputs = Outputs::new(Vec::new(alloc));
        self.ephemeral = None;
        self.summary = None;
        Ok(())
    }

    /// Whether steps begin in the stream, and none of them is of the plan.
    pub(crate) fn is_of_another_plan(&self) -> bool
        ensures { result ≡ is_of_another_plan self.now.begun }
    {
        self.begun.has_starts() && self.begun.begins().is_empty()
    }

    /// The second of the last message, if the stream was cut off: it has no summary of an apply or a
    /// destroy, and no error.
    pub fn cut_off_at(&self) -> Option<i64>
        ensures { result ≡ cut_off_at self.now }
    {
        if self.summary.is_some() || self.has_error() {
            None
        } else {
            Some(self.last_second)
        }
    }

    /// Whether there is an error.
    fn has_error(&self) -> bool
        ensures { result ≡ has_error self.now.notes }
    {
        self.notes
            .iter()
            .any(|note| note.severity == Severity::Error)
    }
}

/// Whether the version of the interface is the one that the default form states.
fn is_default_version(ui: Option<&Text>) -> bool
    ensures { result ≡ is_default_version (option_copied ui.entry) }
{
    match ui {
        Some(version) => is_text(version.as_str(), "1.0"),
        None => false,
    }
}
