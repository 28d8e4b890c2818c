//! The axis of the SVG.

ghost use Rattle.std.specs.Prelude.{◌≡◌, ◌-◌, IfOk};
ghost use Rattle.stream_view.specs.Axes.{axis_in};
ghost use Rattle.stream_view.specs.Markup.{axis_of, x_at};

use crate::column::{Column, LABEL, widest};
use crate::picture::Picture;
use crate::svg::dimensions::{CHARACTER, EDGE, LEAST_LABEL, WIDTH};
use crate::words::tick_interval::tick_interval;
use std::alloc::{AllocError, Global};
use stream_timeline::place_on;

/// The gap between the labels and the axis, and the room after the axis for durations. In tenths of
/// a pixel.
const BEFORE_AXIS: u64 = 120;

const AFTER_AXIS: u64 = 560;

/// The greatest number of ticks, besides that at 0.
const TICKS: u64 = 8;

/// The axis: its ends in tenths of a pixel, and what it spans.
#[derive(Clone, Copy)]
pub struct Scale {
    pub left: u64,
    pub right: u64,
    /// The length of the stream in microseconds, at least 1.
    pub span: u64,
    /// The distance of two ticks, in microseconds.
    pub step: u64,
}

impl Scale {
    /// The axis for the picture's rows, right of their labels. `Err` means that memory was refused.
    pub fn of(alloc: Global, picture: &Picture<'_>) -> Result<Scale, AllocError>
        ensures { IfOk result (λ scale. axis_in scale ≡ axis_of picture.now) }
    {
        let widest = widest(alloc, picture, Column::Label)?;
        let columns = widest.max(LEAST_LABEL).min(LABEL) as u64;
        let span = picture.span().max(1);
        Ok(Scale {
            left: EDGE * 10 + (columns + 2) * CHARACTER + BEFORE_AXIS,
            right: (WIDTH - EDGE) * 10 - AFTER_AXIS,
            span,
            step: tick_interval(span, TICKS),
        })
    }

    /// The length of the axis, in tenths of a pixel.
    pub fn width(self) -> u64
        ensures { result ≡ self.right - self.left }
    {
        self.right.saturating_sub(self.left)
    }

    /// The place of a time on the axis, in tenths of a pixel. `offset` is the time in microseconds
    /// since the start of the stream.
    pub fn x_of(self, offset: u64) -> u64 {
        self.x_in(self.span, offset)
    }

    /// The place of a time on the axis of a stream that is `span` microseconds long.
    pub fn x_in(self, span: u64, offset: u64) -> u64
        ensures { result ≡ x_at (axis_in self) span offset }
    {
        let place = place_on(self.width(), span, offset);
        let x = (self.left as u128).saturating_add(place);
        x.min(u64::MAX as u128) as u64
    }

    /// The number of ticks, with that at 0.
    pub fn ticks(self) -> u64 {
        (self.span / self.step.max(1)).saturating_add(1)
    }
}
