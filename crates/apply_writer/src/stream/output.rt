//! A sink that is written to until a write fails or memory is refused.

ghost use Rattle.std.specs.Prelude.{◌≡◌, ◌<◌, ◌≤◌, ◌+◌, ◌-◌, ◌^◌, ℕ, List, length};
ghost use Rattle.apply_writer.specs.Stream.Outlet.{outlet_of, stop_for_memory, Writes};

use crate::sinks::sink::{Sink, write_all};

/// Whether an output is still written to, and if not, why.
#[derive(Clone, Copy, Debug, PartialEq, Eq)]
pub enum WriteState {
    /// Bytes are still written.
    Open,
    /// A write failed.
    Failed,
    /// Memory was refused, for a line or to store a diagnostic.
    OutOfMemory,
}

/// A sink, whether it is still written to, and how many bytes it has received.
#[derive(Drop)]
pub struct Output<S: Drop> {
    /// The sink.
    pub sink: S,
    /// Whether an output is still written to, and if not, why.
    pub state: WriteState,
    /// How many bytes were written to the sink.
    pub written: u128,
}

impl<S: Sink + Drop> Output<S> {
    /// Wraps a sink to which nothing was written yet.
    pub fn new(sink: S) -> Output<S>
        ensures { result ≡ record { sink = sink; state = WriteState.Open; written = 0 } }
    {
        Output {
            sink,
            state: WriteState::Open,
            written: 0,
        }
    }

    /// Writes the bytes, unless the writing has stopped. A failed write stops the writing.
    pub fn write(&mut self, bytes: &[u8])
        requires open { self.old.state ≡ WriteState.Open → S.failed self.old.sink < 2 ^ 64 - 1 }
        requires few { self.old.written ≤ 2 ^ 127 }
        ensures written { Writes (outlet_of S.bytes S.failed self.old) (outlet_of S.bytes S.failed self.new) bytes.now }
        ensures open { self.new.state ≡ WriteState.Open → S.failed self.new.sink < 2 ^ 64 - 1 }
        ensures more { self.new.written ≤ self.old.written + length bytes.now }
        ensures memory { self.new.state ≡ WriteState.OutOfMemory → self.new ≡ self.old }
    {
        if let WriteState::Open = self.state {
            let taken = write_all(&mut self.sink, bytes);
            self.written += taken as u128;
            if taken < bytes.len() {
                self.state = WriteState::Failed;
            }
        }
    }

    /// Nothing more is written, since memory was refused.
    pub fn stop_for_memory(&mut self)
        ensures written { (bytes : List ℕ)
            → Writes (outlet_of S.bytes S.failed self.old) (outlet_of S.bytes S.failed self.new) bytes }
        ensures state { self.new.state ≡ stop_for_memory self.old.state }
        ensures same { (self.new.sink ≡ self.old.sink) × (self.new.written ≡ self.old.written) }
    {
        if let WriteState::Open = self.state {
            self.state = WriteState::OutOfMemory;
        }
    }
}
