//! A sink in memory, for tests.

ghost use Rattle.std.specs.Prelude.{◌≡◌, ◌<◌, ◌≤◌, ◌+◌, ◌-◌, ◌^◌, ◌++◌, ◌⊎◌, [], Some, IfOk, OnErr, length, take};
ghost use Rattle.apply_writer.specs.Sinks.{max_accepted};

use crate::sinks::sink::{Sink, SinkFault};
use std::alloc::Global;
use std::marker::Model;

/// A sink that stores its bytes in memory. A test can compare them, and can make writes short or
/// let them fail.
///
/// Contracts see the bytes, the room left before the sink has to grow, its two limits, and the
/// number of failed writes.
#[derive(Drop)]
pub struct MemorySink {
    taken: Vec<u8>,
    per_write: usize,
    fail_after: Option<usize>,
    failures: u64,
}

impl Model for MemorySink {
    ghost use Rattle.apply_writer.specs.Sinks.{InMemory};

    ghost Value = { InMemory };

    ghost use Rattle.std.specs.Prelude.{◌≤◌, vec_capacity};

    ghost view = { λ sink. record {
      taken = sink.taken.items;
      room = vec_capacity sink.taken;
      per_write = sink.per_write;
      fail_after = sink.fail_after;
      failures = sink.failures;
    } };

    ghost invariant = { λ sink. 1 ≤ sink.per_write };
}

impl MemorySink {
    /// Makes an empty sink. Each write accepts at most `per_write` bytes. `fail_after` limits the
    /// bytes in all; `None` sets no limit.
    pub fn new(alloc: Global, per_write: usize, fail_after: Option<usize>) -> MemorySink
        requires { 1 ≤ per_write }
        ensures { result
            ≡ record { taken = []; room = 0; per_write = per_write; fail_after = fail_after; failures = 0 } }
    {
        MemorySink {
            taken: Vec::new(alloc),
            per_write,
            fail_after,
            failures: 0,
        }
    }

    /// Returns all bytes that were written to the sink.
    pub fn bytes(&self) -> &[u8]
        ensures { result.now ≡ self.now.taken }
    {
        self.taken.as_slice()
    }

    /// How many bytes of a slice of that length the sink accepts, if memory is not refused.
    fn max_accepted(&self, len: usize) -> usize
        ensures { result ≡ max_accepted self.now.per_write self.now.fail_after (length self.now.taken) len }
    {
        let most = self.per_write.min(len);
        match self.fail_after {
            Some(fail_after) => most.min(fail_after.saturating_sub(self.taken.len())),
            None => most,
        }
    }
}

impl Sink for MemorySink {
    ghost use Rattle.std.specs.Prelude.{Some};

    ghost bytes = { λ sink. Some sink.taken };

    ghost failed = { λ sink. sink.failures };

    /// Accepts as many of the first bytes as `per_write` and the rest of `fail_after` allow.
    ///
    /// `Err` for a slice with bytes if nothing is left of `fail_after`, or if memory is refused.
    /// Then the sink has the same bytes as before, and counts one more failed write.
    fn write(&mut self, slice: &[u8]) -> Result<usize, SinkFault>
        requires { self.old.failures < 2 ^ 64 - 1 }
        ensures ok { IfOk result (λ taken.
            (taken ≡ max_accepted self.old.per_write self.old.fail_after (length self.old.taken) (length slice.now))
            × (0 < length slice.now → 0 < taken)
            × (self.new.taken ≡ self.old.taken ++ take taken slice.now)
            × (self.new.failures ≡ self.old.failures)) }
        ensures err { OnErr result ((0 < length slice.now) × (self.new.taken ≡ self.old.taken)
            × (self.new.failures ≡ self.old.failures + 1)) }

        // An error means that the sink is full, or would have to grow.
        ensures full { let most = max_accepted self.old.per_write self.old.fail_after (length self.old.taken) (length slice.now) in
            OnErr result ((most ≡ 0) ⊎ (self.old.room < length self.old.taken + most)) }

        ensures limits { (self.new.per_write ≡ self.old.per_write) × (self.new.fail_after ≡ self.old.fail_after) }
    {
        let count = self.max_accepted(slice.len());
        if count == 0 && !slice.is_empty()
            || self.taken.extend_from_slice(&slice[..count]).is_err()
        {
            self.failures += 1;
            return Err(SinkFault);
        }
        Ok(count)
    }

    fn failures(&self) -> u64 {
        self.failures
    }
}
