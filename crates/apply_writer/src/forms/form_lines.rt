//! The trait of a form: it builds the lines of a stream, one at a time.

ghost use Rattle.std.specs.Prelude.{◌≡◌, ◌<◌, ◌≤◌, ◌^◌, [], length, slice_index_or, OnOk};
ghost use Rattle.std.specs.List.{concat};
ghost use Rattle.apply_events.specs.Fits.{IsOfPlan, latest_second};
ghost use Rattle.apply_writer.specs.Stream.Counting.{max_head_chunks};

use apply_events::{Counts, Event};
use apply_model::Plan;
use std::alloc::AllocError;

/// Builds the lines of a stream in one form. Each line takes the place of the one before. Contracts
/// see the form, the chunks of the head, and the line that was built last.
///
/// Every `Err` means that memory was refused.
pub trait FormLines: Drop {
    ghost use Rattle.std.specs.Prelude.{ℕ, List};
    ghost use Rattle.apply_writer.specs.Stream.Form.{StreamForm};

    /// The plan, and the bytes of each part of its stream.
    ghost form: { Self → StreamForm };
    /// The head, in the chunks in which it is built.
    ghost head_chunks: { Self → List (List ℕ) };
    /// The line or chunk that was built last.
    ghost built: { Self → List ℕ };

    /// The plan whose events the stream reports.
    fn plan(&self) -> &Plan
        ensures { result.now ≡ (form self.now).plan };

    /// The number of chunks of the head.
    fn head_chunk_count(&self) -> u32
        ensures count { result ≡ length (head_chunks self.now) }
        ensures few { result ≤ max_head_chunks }
        ensures whole { concat (head_chunks self.now) ≡ (form self.now).head };

    /// Builds a chunk of the head; `place` counts from 0.
    fn build_head_chunk(&mut self, place: u32) -> Result<(), AllocError>
        requires { place < length (head_chunks self.old) }
        ensures ok { OnOk result (built self.new ≡ slice_index_or (head_chunks self.old) place []) }
        ensures form { form self.new ≡ form self.old }
        ensures head_chunks { head_chunks self.new ≡ head_chunks self.old };

    /// Builds the line of an event of the plan, with the timestamp `latest` seconds after the
    /// start. The line is empty if the form has none for this event.
    fn build_line(&mut self, latest: u64, event: &Event) -> Result<(), AllocError>
        requires event { IsOfPlan (form self.old).plan event.now }
        requires in_time { latest ≤ latest_second }
        ensures ok { OnOk result (built self.new ≡ (form self.old).line latest event.now) }
        ensures form { form self.new ≡ form self.old };

    /// Builds the tail from the totals of the events, with the timestamp `latest` seconds after the
    /// start.
    fn build_tail(&mut self, latest: u64, counts: &Counts) -> Result<(), AllocError>
        requires { latest ≤ latest_second }
        ensures ok { OnOk result (built self.new ≡ (form self.old).tail latest counts.now) }
        ensures form { form self.new ≡ form self.old };

    /// The line or chunk that was built last.
    fn as_bytes(&self) -> &[u8]
        ensures { result.now ≡ built self.now };
}
