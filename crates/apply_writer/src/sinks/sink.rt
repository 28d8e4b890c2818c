//! The trait of sinks, which receive the bytes of a stream.

ghost use Rattle.std.specs.Prelude.{◌≡◌, ◌<◌, ◌≤◌, ◌+◌, ◌-◌, ◌^◌, ℕ, List, Option, IfOk, OnErr, length, take, nat_lt, if◌then◌else◌};
ghost use Rattle.std.specs.Io.KnownBytes.{Appends, Keeps};

use thiserror::Error;

/// A write or a flush failed.
#[derive(Clone, Copy, Debug, Drop, Error, PartialEq, Eq)]
#[error("the sink failed")]
pub struct SinkFault;

/// Receives the bytes of a stream. Contracts see the bytes, if the sink reveals them, and the
/// number of failed writes.
pub trait Sink {
    /// The bytes of the sink, if it reveals them.
    ghost bytes: { Self → Option (List ℕ) };
    /// The number of failed writes.
    ghost failed: { Self → ℕ };

    /// Writes the first bytes of the slice, at least one unless it is empty, and returns how many.
    ///
    /// `Err` if none was written. Then the sink has the same bytes as before, and one more write
    /// has failed.
    fn write(&mut self, slice: &[u8]) -> Result<usize, SinkFault>
        requires { failed self.old < 2 ^ 64 - 1 }
        ensures ok { IfOk result (λ taken. (taken ≤ length slice.now) × (0 < length slice.now → 0 < taken)
            × Appends (bytes self.old) (bytes self.new) (take taken slice.now)
            × (failed self.new ≡ failed self.old)) }
        ensures err { OnErr result (Keeps (bytes self.old) (bytes self.new)
            × (failed self.new ≡ failed self.old + 1)) };

    /// The number of failed writes.
    fn failures(&self) -> u64
        ensures { result ≡ failed self.now };
}

/// Writes all of the bytes, in as many writes as needed, and returns how many were written. The
/// number is smaller only after a failed write.
pub fn write_all<S: Sink>(sink: &mut S, bytes: &[u8]) -> usize
    requires { S.failed sink.old < 2 ^ 64 - 1 }
    ensures few { result ≤ length bytes.now }
    ensures appends { Appends (S.bytes sink.old) (S.bytes sink.new) (take result bytes.now) }
    ensures failed { S.failed sink.new ≡ S.failed sink.old + (if nat_lt result (length bytes.now) then 1 else 0) }
{
    let mut taken = 0;
    while taken < bytes.len() {
        match sink.write(&bytes[taken..]) {
            Ok(more) => taken += more,
            Err(_) => return taken,
        }
    }
    taken
}
