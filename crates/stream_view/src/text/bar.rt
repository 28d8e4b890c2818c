//! The bar of a row.

ghost use Rattle.std.specs.Prelude.{◌≡◌, ◌<◌, ◌≤◌, ◌+◌, ◌-◌, ◌/◌, map, min};
ghost use Rattle.std.specs.List.{range_with_len};
ghost use Rattle.stream_view.specs.Growth.{GrewTo};
ghost use Rattle.stream_view.specs.Lines.{with_characters};
ghost use Rattle.stream_view.specs.Rows.{bar_character};

use crate::text::line::Line;
use stream_timeline::Halves;

/// How the bar of a step looks.
#[derive(Clone, Copy)]
pub struct Bar {
    pub halves: Halves,
    pub has_failed: bool,
    /// Whether the step has an end.
    pub has_ended: bool,
}

impl Bar {
    /// The first cell that the bar covers at least half of.
    pub fn first_cell(self, cells: u32) -> u32
        ensures { result ≡ min cells (self.halves.first / 2) }
    {
        (self.halves.first / 2).min(cells as u128) as u32
    }

    /// The cell after the last that the bar covers at least half of.
    pub fn end_cell(self, cells: u32) -> u32
        ensures { result ≡ min cells ((self.halves.end + 1) / 2) }
    {
        let end = self.halves.end / 2 + self.halves.end % 2;
        end.min(cells as u128) as u32
    }

    /// Adds the characters of the bar in the cells from `first`, up to but not including `end`.
    pub fn push_to(self, line: &mut Line, first: u32, end: u32)
        requires { end ≤ 400 }
        ensures width { line.new.width ≡ line.old.width }
        ensures pieces { GrewTo line.old line.new (with_characters line.old.width line.old.pieces.items
            (map (bar_character self.has_failed self.has_ended self.halves.first self.halves.end) (range_with_len first (end - first)))) }
    {
        for cell in first..end {
            line.push(self.character(cell));
        }
    }

    /// The character in a cell that the bar covers at least half of.
    fn character(self, cell: u32) -> char
        requires { cell < 400 }
        ensures { result ≡ bar_character self.has_failed self.has_ended self.halves.first self.halves.end cell }
    {
        let (left, right) = (cell * 2, cell * 2 + 1);
        if self.has_failed && !self.halves.covers(right + 1) {
            '✗'
        } else if !self.has_ended {
            '░'
        } else if self.halves.covers(left) && self.halves.covers(right) {
            '▄'
        } else if self.halves.covers(left) {
            '▖'
        } else {
            '▗'
        }
    }
}
