//! A law about the memory of `TimelineBuilder`, whose fields only this crate sees. `laws_timeline`
//! has the other laws. The function does nothing; its contract is the law.

ghost use Rattle.std.specs.Prelude.{◌≤◌};
ghost use Rattle.stream_timeline.specs.Memory.{stored_bytes, builder_bytes};
ghost use Rattle.stream_timeline.specs.TimelineRead.{TimelineRead};
ghost use Rattle.stream_timeline.specs.Building.{HasRead};
ghost use Rattle.stream_timeline.specs.declared.reading.builder.TimelineBuilder.{TimelineBuilder as builder};

/// A builder stores no more bytes than `stored_bytes` allows for the lines that it has read. The
/// reserve of vectors and maps and the current line are not counted.
pub fn a_builder_stores_what_is_defined()
    ensures { (builder : builder) (timeline : TimelineRead) → HasRead builder timeline → builder_bytes builder ≤ stored_bytes timeline }
{}
