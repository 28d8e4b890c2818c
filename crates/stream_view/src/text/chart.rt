//! The columns of the rows.

ghost use Rattle.std.specs.Prelude.{◌≡◌, ◌≤◌, ◌+◌, IfOk};
ghost use Rattle.stream_view.specs.Rows.{layout_of};

use crate::column::{Column, widest};
use crate::picture::Picture;
use crate::words::tick_interval::tick_interval;
use std::alloc::{AllocError, Global};
use stream_timeline::place_on;

/// The greatest width of an action.
const MOST_ACTION: usize = 8;

/// The least width of an address: that of `at once`, which stands in the same column.
const LEAST_LABEL: usize = 7;

/// The columns of a row that hold neither the action, the address nor the bar: three blanks, a mark
/// and a duration.
const FIXED_COLUMNS: usize = 12;

/// The greatest number of cells: no line has more columns.
const MOST_CELLS: usize = 400;

/// The least distance of two ticks, in columns.
const TICK_COLUMNS: u64 = 9;

/// The width of a duration.
pub const DURATION: usize = 8;

/// The widths of the columns of rows: the action, the address (`label`) and the bar (`cells`, at
/// least 1).
#[derive(Clone, Copy)]
pub struct Chart {
    pub action: usize,
    pub label: usize,
    pub cells: u32,
    /// The distance of two ticks, in microseconds.
    pub step: u64,
    /// The length of the stream in microseconds, at least 1.
    pub span: u64,
    ghost short: { action ≤ 8 },
    ghost some: { 1 ≤ cells },
    ghost few: { cells ≤ 400 },
}

impl Chart {
    ghost use Rattle.stream_view.specs.Charts.{layout_in};

    /// The columns of the picture's rows in lines of `width` columns, at least 60. `Err` means that
    /// memory was refused.
    pub fn of(alloc: Global, picture: &Picture<'_>, width: usize) -> Result<Chart, AllocError>
        ensures { IfOk result (λ chart. layout_in chart ≡ layout_of width picture.now) }
    {
        let action = widest(alloc, picture, Column::Action)?.min(MOST_ACTION);
        let address = widest(alloc, picture, Column::Address)?.max(LEAST_LABEL);
        let room = width.saturating_sub(action + FIXED_COLUMNS);
        let label = address.min(room / 20 * 11 + room % 20 * 11 / 20);
        let cells = room.saturating_sub(label).min(MOST_CELLS).max(1) as u32;
        let span = picture.span().max(1);
        Ok(Chart {
            action,
            label,
            cells,
            step: tick_interval(span, (cells as u64 / TICK_COLUMNS).max(1)),
            span,
        })
    }

    /// The indent of the lines below the rows, in columns.
    pub fn indent(&self) -> usize
        ensures { result ≡ self.now.action + 1 }
    {
        self.action + 1
    }

    /// How many columns stand before the bars.
    pub fn front(&self) -> usize {
        self.action
            .saturating_add(self.label)
            .saturating_add(FIXED_COLUMNS)
    }

    /// The cell of a time, if it lies on the axis. `offset` is the time in microseconds since the
    /// start of the stream.
    pub fn cell_of(&self, offset: u64) -> Option<usize> {
        let cell = place_on(self.cells as u64, self.span, offset);
        if cell < self.cells as u128 {
            Some(cell as usize)
        } else {
            None
        }
    }
}
