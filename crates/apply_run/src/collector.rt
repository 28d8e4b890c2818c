//! The collector: it takes events from a bus and writes them into the stream.

ghost use Rattle.std.specs.Prelude.{◌≡◌, ◌<◌, ◌≤◌, ◌+◌, ◌∷◌, ◌++◌, ℕ, List, [], All, Option, false, length};
ghost use Rattle.apply_events.specs.declared.event.Event.{Event};
ghost use Rattle.apply_bus.specs.Bus.{NamesWorkersBelow};
ghost use Rattle.apply_bus.specs.Items.{closes, events};
ghost use Rattle.apply_writer.specs.Stream.Counting.{CountsFit, IsNew, max_events};
ghost use Rattle.apply_events.specs.Fits.{IsOfPlan};
ghost use Rattle.apply_writer.specs.Stream.WriterState.{HasAccepted, IsSameStream, HasAcceptedSince, writer_state};

use apply_bus::{Item, Rx, Taken};
use apply_events::is_of_plan;
use apply_writer::{FormLines, Sink, StreamWriter};
use std::sync::Wait;

/// What a collector returns: the stream, the bus's account of what was taken, and whether a take
/// failed.
#[derive(Drop)]
pub struct Collected<S: Drop, F: Drop> {
    /// The stream, without its diagnostics and its tail.
    pub stream: StreamWriter<S, F>,
    /// What was taken from the bus.
    pub taken: Taken,
    /// Whether a take failed. The items taken cannot show that: a later take may have delivered the
    /// missing one.
    pub lost: bool,
}

/// The number of failed takes after which the collector gives up.
const MAX_LOST: u32 = 1_000;

/// Writes the head of the stream, and takes events until each worker has closed its sender. Each
/// event of the plan is accepted when it is taken: hook messages are written at once, diagnostics
/// are stored.
///
/// A failed take is repeated, up to 1,000 times in all, and sets `lost`. After a failed write the
/// collector still takes all events, so that no worker is blocked.
pub fn collect<S: Sink + Drop, F: FormLines, R: Wait>(
    rt: &R,
    mut rx: Rx,
    mut stream: StreamWriter<S, F>,
) -> Collected<S, F>
    requires none { rx.taken ≡ [] }
    requires is_new { IsNew (writer_state S.bytes S.failed stream) }
    ensures bus { (result.taken.bus ≡ rx.bus) × (result.taken.workers ≡ rx.workers) × (result.taken.sent_lists ≡ []) }
    ensures named { NamesWorkersBelow rx.workers result.taken.taken }
    ensures same { IsSameStream F.form stream result.stream }
    ensures accepted { All (IsOfPlan (F.form stream.lines).plan) (events result.taken.taken)
        → HasAcceptedSince S.bytes S.failed F.form stream (events result.taken.taken) result.stream }
    ensures counts_fit { CountsFit (F.form result.stream.lines).plan (writer_state S.bytes S.failed result.stream) }
    ensures lost { result.lost ≡ false → closes result.taken.taken ≡ rx.workers }
{
    stream.write_head();
    let mut lost_takes = 0;
    while rx.open_left() > 0 && lost_takes < MAX_LOST {
        match rx.take(rt) {
            Ok(item) => note(&mut stream, &item),
            Err(_) => lost_takes += 1,
        }
    }
    let left = rx.open_left();
    // Nothing else ends the loop: no failed write does.
    prove!(left == 0 || lost_takes == MAX_LOST);
    Collected {
        stream,
        taken: rx.give_up(),
        lost: lost_takes > 0,
    }
}

/// Accepts the item if it is an event of the plan.
fn note<S: Sink + Drop, F: FormLines>(stream: &mut StreamWriter<S, F>, item: &Item)
    requires counts_fit { CountsFit (F.form stream.old.lines).plan (writer_state S.bytes S.failed stream.old) }
    requires few { stream.old.taken < max_events }
    ensures accepted { (before : Option (List ℕ)) (failures : ℕ) (so_far : List Event)
        → All (IsOfPlan (F.form stream.old.lines).plan) (events (item.now ∷ []))
        → HasAccepted (F.form stream.old.lines) before failures so_far
        (writer_state S.bytes S.failed stream.old)
        → HasAccepted (F.form stream.old.lines) before failures
        (so_far ++ events (item.now ∷ [])) (writer_state S.bytes S.failed stream.new) }
    ensures counts_fit { CountsFit (F.form stream.new.lines).plan (writer_state S.bytes S.failed stream.new) }
    ensures one_event { stream.new.taken ≤ stream.old.taken + 1 }
    ensures same { IsSameStream F.form stream.old stream.new }
{
    match item {
        Item::Event(event) => {
            if is_of_plan(stream.lines.plan(), event) {
                stream.accept(event);
            }
        }
        Item::Close(_) => {}
    }
}
