//! The writer of a stream: its lines, and the totals of its events.

ghost use Rattle.std.specs.Prelude.{◌≡◌, ◌<◌, ◌≤◌, ◌+◌, ◌-◌, ◌^◌, ◌∷◌, ◌++◌, ℕ, List, [], All, Option, IfErr, IfOk, OnOk, length};
ghost use Rattle.apply_events.specs.declared.event.Event.{Event};
ghost use Rattle.std.specs.Prelude.{slice_index_or};
ghost use Rattle.apply_writer.specs.Stream.Form.{lines_in, stream_in};
ghost use Rattle.apply_text.specs.Order.{as_written, hook_messages_of};
ghost use Rattle.apply_events.specs.Fits.{latest_second};
ghost use Rattle.apply_writer.specs.Stream.Ended.{IsCutOff, IsFaulted, IsWhole};
ghost use Rattle.apply_writer.specs.Stream.Outlet.{HasWritten, IsRefused, Writes, failed_writes, outlet_of};
ghost use Rattle.apply_writer.specs.Stream.Counting.{CountsFit, IsNew, MayWrite, max_events};
ghost use Rattle.apply_events.specs.Fits.{IsOfPlan};
ghost use Rattle.apply_writer.specs.Stream.WriterState.{HasLines, HasAccepted, IsSameStream, HasAcceptedSince, writer_state};

pub mod output;

use crate::fault::Fault;
use crate::forms::form_lines::FormLines;
use crate::report::Report;
use crate::sinks::sink::Sink;
use crate::stream::output::{Output, WriteState};
use crate::why::Why;
use apply_events::{Counts, Event, totals_of_joined_lists_add_up};
use std::alloc::{AllocError, Global};

/// Writes a stream into a sink. Each accepted event is counted. The line of a hook message is
/// written at once; diagnostics are stored, and their lines are written at the end.
#[derive(Drop)]
pub struct StreamWriter<S: Drop, F: Drop> {
    /// Builds the lines, in the form that was asked for.
    pub lines: F,
    /// The sink, and whether it is still written to.
    pub output: Output<S>,
    /// The totals of the accepted events.
    pub counts: Counts,
    /// How many events were accepted.
    pub taken: u64,
    /// The latest timestamp of a line so far, in seconds after the start.
    pub latest: u64,
    /// The diagnostics accepted so far, in their order. Complete only while the writing has not
    /// stopped.
    pub notes: Vec<Event>,
}

impl<S: Sink + Drop, F: FormLines> StreamWriter<S, F> {
    /// Makes a writer that has accepted and written nothing. Takes no memory.
    pub fn new(alloc: Global, lines: F, sink: S) -> StreamWriter<S, F>
        requires { S.failed sink < 2 ^ 64 - 1 }
        ensures is_new { IsNew (writer_state S.bytes S.failed result) }
        ensures lines { result.lines ≡ lines }
        ensures sink { result.output.sink ≡ sink }
    {
        StreamWriter {
            lines,
            output: Output::new(sink),
            counts: Counts::new(),
            taken: 0,
            latest: 0,
            notes: Vec::new(alloc),
        }
    }

    /// Writes the head of the stream, chunk by chunk, until the writing stops. Call it first, once.
    pub fn write_head(&mut self)
        requires { IsNew (writer_state S.bytes S.failed self.old) }
        ensures accepted { HasAcceptedSince S.bytes S.failed F.form self.old [] self.new }
        ensures counts_fit { CountsFit (F.form self.new.lines).plan (writer_state S.bytes S.failed self.new) }
        ensures none { self.new.taken ≡ 0 }
        ensures same { IsSameStream F.form self.old self.new }
    {
        for place in 0..self.lines.head_chunk_count() {
            self.write_head_chunk(place);
        }
    }

    /// Writes a chunk of the head, unless the writing has stopped.
    fn write_head_chunk(&mut self, place: u32)
        requires place { place < length (F.head_chunks self.old.lines) }
        requires open { self.old.output.state ≡ WriteState.Open → S.failed self.old.output.sink < 2 ^ 64 - 1 }
        requires few { self.old.output.written ≤ 2 ^ 127 }
        ensures written { Writes (outlet_of S.bytes S.failed self.old.output) (outlet_of S.bytes S.failed self.new.output)
            (slice_index_or (F.head_chunks self.old.lines) place []) }
        ensures open { self.new.output.state ≡ WriteState.Open → S.failed self.new.output.sink < 2 ^ 64 - 1 }
        ensures more { self.new.output.written ≤ self.old.output.written + 2 ^ 64 }
        ensures accepted { (self.new.counts ≡ self.old.counts) × (self.new.taken ≡ self.old.taken)
            × (self.new.latest ≡ self.old.latest) × (self.new.notes ≡ self.old.notes) }
        ensures same { IsSameStream F.form self.old self.new }
        ensures head_chunks { F.head_chunks self.new.lines ≡ F.head_chunks self.old.lines }
    {
        if let WriteState::Open = self.output.state {
            let built = self.lines.build_head_chunk(place);
            self.write_built(built);
        }
    }

    /// Accepts an event of the plan: counts it, then writes its line or stores it if it is a
    /// diagnostic. Once the writing has stopped, events are only counted.
    pub fn accept(&mut self, event: &Event)
        requires event { IsOfPlan (F.form self.old.lines).plan event.now }
        requires counts_fit { CountsFit (F.form self.old.lines).plan (writer_state S.bytes S.failed self.old) }
        requires few { self.old.taken < max_events }
        ensures accepted { (before : Option (List ℕ)) (failures : ℕ) (events : List Event)
            → HasAccepted (F.form self.old.lines) before failures events
            (writer_state S.bytes S.failed self.old)
            → HasAccepted (F.form self.old.lines) before failures (events ++ event.now ∷ [])
            (writer_state S.bytes S.failed self.new) }
        ensures counts_fit { CountsFit (F.form self.new.lines).plan (writer_state S.bytes S.failed self.new) }
        ensures one_event { self.new.taken ≡ self.old.taken + 1 }
        ensures same { IsSameStream F.form self.old self.new }
    {
        totals_of_joined_lists_add_up();
        self.counts.count(self.lines.plan(), event);
        self.taken += 1;
        if event.is_note() {
            self.store_note(event);
        } else {
            self.write_event(event);
        }
    }

    /// Writes the diagnostics and the tail, unless the writing has stopped, and returns the sink.
    ///
    /// `Err` with `Why::Write` if a write failed, now or before. `Err` with `Why::Memory` if memory
    /// was refused for a line or to store a diagnostic. In both cases the sink has a prefix of the
    /// stream; after `Why::Memory` it has nothing of the tail.
    pub fn end(mut self) -> (S, Result<Report, Fault>)
        requires { CountsFit (F.form self.lines).plan (writer_state S.bytes S.failed self) }
        ensures ok { IfOk result.1 (λ report. (before : Option (List ℕ)) (failures : ℕ) (events : List Event)
            → HasAccepted (F.form self.lines) before failures events
            (writer_state S.bytes S.failed self)
            → IsWhole (F.form self.lines).plan events
            (stream_in (F.form self.lines) events)
            report before (S.bytes result.0) failures (S.failed result.0)) }
        ensures err { IfErr result.1 (λ fault. (before : Option (List ℕ)) (failures : ℕ) (events : List Event)
            → HasAccepted (F.form self.lines) before failures events
            (writer_state S.bytes S.failed self)
            → IsFaulted (F.form self.lines) events
            fault before (S.bytes result.0) failures (S.failed result.0)) }
    {
        self.write_rest();
        let report = self.report();
        let result = match self.output.state {
            WriteState::Open => Ok(report),
            WriteState::Failed => Err(Fault {
                why: Why::Write,
                report,
            }),
            WriteState::OutOfMemory => Err(Fault {
                why: Why::Memory,
                report,
            }),
        };
        (self.into_sink(), result)
    }

    /// Returns the sink without writing diagnostics or the tail, and an error with that cause.
    pub fn give_up(self, why: Why) -> (S, Fault)
        ensures why { result.1.why ≡ why }
        ensures part { (before : Option (List ℕ)) (failures : ℕ) (events : List Event)
            → HasAccepted (F.form self.lines) before failures events
            (writer_state S.bytes S.failed self)
            → IsCutOff (F.form self.lines).plan events
            (lines_in (F.form self.lines) (hook_messages_of events))
            result.1.report before (S.bytes result.0)
            (failures + failed_writes self.output.state) (S.failed result.0) }
    {
        let report = self.report();
        (self.into_sink(), Fault { why, report })
    }

    /// Stores a diagnostic until the end. If memory is refused for it, nothing more is written.
    fn store_note(&mut self, note: &Event)
        ensures written { (events : List Event) (before : Option (List ℕ)) (failures : ℕ)
            → HasLines (F.form self.old.lines) before failures events
            (writer_state S.bytes S.failed self.old)
            → HasLines (F.form self.old.lines) before failures events
            (writer_state S.bytes S.failed self.new) }
        ensures stored { self.new.output.state ≡ WriteState.Open → (self.old.output.state ≡ WriteState.Open)
            × (self.new.notes.items ≡ self.old.notes.items ++ note.now ∷ []) }
        ensures fits { All (IsOfPlan (F.form self.old.lines).plan) self.old.notes.items → IsOfPlan (F.form self.old.lines).plan note.now
            → All (IsOfPlan (F.form self.old.lines).plan) self.new.notes.items }
        ensures few { length self.new.notes.items ≤ length self.old.notes.items + 1 }
        ensures output { (self.new.output.sink ≡ self.old.output.sink)
            × (self.new.output.written ≡ self.old.output.written) }
        ensures accepted { (self.new.counts ≡ self.old.counts) × (self.new.taken ≡ self.old.taken)
            × (self.new.latest ≡ self.old.latest) }
        ensures same { IsSameStream F.form self.old self.new }
    {
        if let WriteState::Open = self.output.state {
            if self.notes.push(*note).is_err() {
                self.output.stop_for_memory();
            }
        }
    }

    /// Writes the line of an event of the plan, unless the writing has stopped. No line is built
    /// that would not be written.
    fn write_event(&mut self, event: &Event)
        requires event { IsOfPlan (F.form self.old.lines).plan event.now }
        requires may_write { MayWrite (writer_state S.bytes S.failed self.old) }
        ensures written { (before : Option (List ℕ)) (failures : ℕ) (events : List Event)
            → HasLines (F.form self.old.lines) before failures events
            (writer_state S.bytes S.failed self.old)
            → HasLines (F.form self.old.lines) before failures (events ++ event.now ∷ [])
            (writer_state S.bytes S.failed self.new) }
        ensures in_time { self.new.latest ≤ latest_second }
        ensures more { self.new.output.written ≤ self.old.output.written + 2 ^ 64 }
        ensures may_fail { self.new.output.state ≡ WriteState.Open → S.failed self.new.output.sink < 2 ^ 64 - 1 }
        ensures goes { self.new.output.state ≡ WriteState.Open → self.old.output.state ≡ WriteState.Open }
        ensures accepted { (self.new.counts ≡ self.old.counts) × (self.new.taken ≡ self.old.taken)
            × (self.new.notes.items ≡ self.old.notes.items) }
        ensures same { IsSameStream F.form self.old self.new }
    {
        self.latest = self.latest.max(event.at);
        if let WriteState::Open = self.output.state {
            let built = self.lines.build_line(self.latest, event);
            self.write_built(built);
        }
    }

    /// Writes the diagnostics and the tail, unless the writing has stopped.
    fn write_rest(&mut self)
        requires { CountsFit (F.form self.old.lines).plan (writer_state S.bytes S.failed self.old) }
        ensures written { (before : Option (List ℕ)) (failures : ℕ) (events : List Event)
            → HasAccepted (F.form self.old.lines) before failures events
            (writer_state S.bytes S.failed self.old)
            → HasWritten before failures
            (stream_in (F.form self.old.lines) events)
            (outlet_of S.bytes S.failed self.new.output) }
        ensures memory { self.new.output.state ≡ WriteState.OutOfMemory
            → (before : Option (List ℕ)) (failures : ℕ) (events : List Event)
            → HasAccepted (F.form self.old.lines) before failures events
            (writer_state S.bytes S.failed self.old)
            → HasWritten before failures
            (lines_in (F.form self.old.lines) (as_written events))
            (outlet_of S.bytes S.failed self.new.output) }
        ensures accepted { (self.new.counts ≡ self.old.counts) × (self.new.taken ≡ self.old.taken) }
    {
        if let WriteState::Open = self.output.state {
            self.write_notes();
            self.write_tail();
        }
    }

    /// Writes the lines of the stored diagnostics, in their order, until the writing stops.
    fn write_notes(&mut self)
        requires { CountsFit (F.form self.old.lines).plan (writer_state S.bytes S.failed self.old) }
        ensures written { (before : Option (List ℕ)) (failures : ℕ) (events : List Event)
            → HasLines (F.form self.old.lines) before failures events
            (writer_state S.bytes S.failed self.old)
            → HasLines (F.form self.old.lines) before failures
            (events ++ self.old.notes.items) (writer_state S.bytes S.failed self.new) }
        ensures may_write { MayWrite (writer_state S.bytes S.failed self.new) }
        ensures accepted { (self.new.counts ≡ self.old.counts) × (self.new.taken ≡ self.old.taken) }
        ensures same { IsSameStream F.form self.old self.new }
    {
        for place in 0..self.notes.len() {
            let note = self.notes[place];
            self.write_event(&note);
        }
    }

    /// Writes the tail, unless the writing has stopped.
    fn write_tail(&mut self)
        requires { MayWrite (writer_state S.bytes S.failed self.old) }
        ensures written { Writes (outlet_of S.bytes S.failed self.old.output) (outlet_of S.bytes S.failed self.new.output)
            ((F.form self.old.lines).tail self.old.latest self.old.counts) }
        ensures memory { self.new.output.state ≡ WriteState.OutOfMemory
            → IsRefused (outlet_of S.bytes S.failed self.old.output) (outlet_of S.bytes S.failed self.new.output) }
        ensures accepted { (self.new.counts ≡ self.old.counts) × (self.new.taken ≡ self.old.taken) }
    {
        if let WriteState::Open = self.output.state {
            let built = self.lines.build_tail(self.latest, &self.counts);
            self.write_built(built);
        }
    }

    /// The report so far.
    fn report(&self) -> Report
        ensures { result ≡ record { counts = self.now.counts; taken = self.now.taken; written = self.now.output.written } }
    {
        Report {
            counts: self.counts,
            taken: self.taken,
            written: self.output.written,
        }
    }

    /// Returns the sink. Nothing more is written.
    pub fn into_sink(self) -> S
        ensures { result ≡ self.output.sink }
    {
        self.output.sink
    }

    /// Writes the line that was built. If memory was refused for the line, nothing more is written.
    fn write_built(&mut self, built: Result<(), AllocError>)
        requires open { self.old.output.state ≡ WriteState.Open → S.failed self.old.output.sink < 2 ^ 64 - 1 }
        requires few { self.old.output.written ≤ 2 ^ 127 }
        ensures written { (line : List ℕ) → OnOk built (F.built self.old.lines ≡ line)
            → Writes (outlet_of S.bytes S.failed self.old.output) (outlet_of S.bytes S.failed self.new.output) line }
        ensures open { self.new.output.state ≡ WriteState.Open → S.failed self.new.output.sink < 2 ^ 64 - 1 }
        ensures more { self.new.output.written ≤ self.old.output.written + 2 ^ 64 }
        ensures memory { self.new.output.state ≡ WriteState.OutOfMemory
            → IsRefused (outlet_of S.bytes S.failed self.old.output) (outlet_of S.bytes S.failed self.new.output) }
        ensures accepted { (self.new.counts ≡ self.old.counts) × (self.new.taken ≡ self.old.taken)
            × (self.new.latest ≡ self.old.latest) × (self.new.notes ≡ self.old.notes) }
        ensures lines { self.new.lines ≡ self.old.lines }
    {
        match built {
            Ok(()) => self.output.write(self.lines.as_bytes()),
            Err(_) => self.output.stop_for_memory(),
        }
    }
}
