//! A sink over any writer of the standard library.

ghost use Rattle.std.specs.Prelude.{◌≡◌, ◌<◌, ◌≤◌, ◌+◌, ◌-◌, ◌^◌, ◌||◌, IfOk, OnErr, OnOk, false, length, take, true};
ghost use Rattle.std.specs.Io.KnownBytes.{Appends, Keeps};

use crate::sinks::sink::{Sink, SinkFault};
use std::io::{ErrorKind, Write};
use std::marker::Model;

/// A sink over any writer. Its bytes are known where the writer's bytes are. A write that accepts
/// nothing counts as failed.
///
/// Contracts see the writer, the number of failed writes and flushes, and whether one of them
/// failed because the reader of a pipe is gone.
#[derive(Drop)]
pub struct StdSink<W: Drop> {
    writer: W,
    failures: u64,
    is_reader_gone: bool,
}

impl<W: Drop> Model for StdSink<W> {
    ghost use Rattle.apply_writer.specs.Sinks.{OverWriter};

    ghost Value = { OverWriter W };

    ghost view = { λ sink. record {
      writer = sink.writer;
      failures = sink.failures;
      is_reader_gone = sink.is_reader_gone;
    } };
}

impl<W: Write + Drop> StdSink<W> {
    /// Wraps the writer. No write has failed yet.
    pub fn new(writer: W) -> StdSink<W>
        ensures { result ≡ record { writer = writer; failures = 0; is_reader_gone = false } }
    {
        StdSink {
            writer,
            failures: 0,
            is_reader_gone: false,
        }
    }

    /// Whether a write or a flush failed because the reader of the pipe is gone
    /// (`ErrorKind::BrokenPipe`).
    pub fn is_reader_gone(&self) -> bool
        ensures { result ≡ self.now.is_reader_gone }
    {
        self.is_reader_gone
    }

    /// Flushes the writer.
    ///
    /// `Err` if the flush failed. It counts as a failed write, and the writer has the same bytes as
    /// before.
    pub fn flush(&mut self) -> Result<(), SinkFault>
        requires { self.old.failures < 2 ^ 64 - 1 }
        ensures bytes { Keeps (W.contents self.old.writer) (W.contents self.new.writer) }
        ensures ok { OnOk result (self.new.failures ≡ self.old.failures) }
        ensures err { OnErr result (self.new.failures ≡ self.old.failures + 1) }
        ensures here { OnOk result (self.new.is_reader_gone ≡ self.old.is_reader_gone) }
        ensures gone { self.old.is_reader_gone ≡ true → self.new.is_reader_gone ≡ true }
    {
        match self.writer.flush() {
            Ok(()) => Ok(()),
            Err(error) => Err(self.fail(error.kind() == ErrorKind::BrokenPipe)),
        }
    }

    /// Counts a failed write or flush, and records whether the reader of the pipe is gone.
    fn fail(&mut self, is_reader_gone: bool) -> SinkFault
        requires { self.old.failures < 2 ^ 64 - 1 }
        ensures { self.new ≡ record {
          writer = self.old.writer;
          failures = self.old.failures + 1;
          is_reader_gone = self.old.is_reader_gone || is_reader_gone;
        } }
    {
        self.failures += 1;
        self.is_reader_gone = self.is_reader_gone || is_reader_gone;
        SinkFault
    }

    /// Returns the writer.
    pub fn into_inner(self) -> W
        ensures { result ≡ self.writer }
    {
        self.writer
    }
}

impl<W: Write + Drop> Sink for StdSink<W> {
    ghost bytes = { λ sink. W.contents sink.writer };

    ghost failed = { λ sink. sink.failures };

    /// Writes what the writer accepts; an empty slice never reaches the writer.
    ///
    /// `Err` for a slice with bytes if the writer fails or accepts none of them. Then the writer
    /// has the same bytes as before, and one more write has failed.
    fn write(&mut self, slice: &[u8]) -> Result<usize, SinkFault>
        requires { self.old.failures < 2 ^ 64 - 1 }
        ensures ok { IfOk result (λ taken. (taken ≤ length slice.now) × (0 < length slice.now → 0 < taken)
            × Appends (W.contents self.old.writer) (W.contents self.new.writer) (take taken slice.now)
            × (self.new.failures ≡ self.old.failures)) }
        ensures err { OnErr result ((0 < length slice.now)
            × Keeps (W.contents self.old.writer) (W.contents self.new.writer)
            × (self.new.failures ≡ self.old.failures + 1)) }
        ensures here { OnOk result (self.new.is_reader_gone ≡ self.old.is_reader_gone) }
        ensures gone { self.old.is_reader_gone ≡ true → self.new.is_reader_gone ≡ true }
    {
        if slice.is_empty() {
            return Ok(0);
        }
        match self.writer.write(slice) {
            Ok(0) => Err(self.fail(false)),
            Ok(taken) => Ok(taken),
            Err(error) => Err(self.fail(error.kind() == ErrorKind::BrokenPipe)),
        }
    }

    fn failures(&self) -> u64 {
        self.failures
    }
}
