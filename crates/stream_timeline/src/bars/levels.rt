//! How many steps ran at once, cell by cell.

ghost use Rattle.std.specs.Prelude.{◌≡◌, ◌<◌, ◌≤◌, ◌^◌, ℕ, IfOk, drop, get_or, length, max};
ghost use Rattle.stream_timeline.specs.Bars.{cell_begin, level_in, levels_of};
ghost use Rattle.stream_timeline.specs.Stretches.{AreInOrder};
ghost use Rattle.stream_timeline.specs.declared.numbers.stretch.Stretch.{Stretch as stretch};

use crate::bars::scale::place_on;
use crate::numbers::stretch::Stretch;
use std::alloc::{AllocError, Global};

/// For each of `cells` cells, the greatest number of steps that ran at once in its part of the
/// span. The cells share `span` microseconds. Each cell has at least one microsecond of its own, so
/// cells of a short stream overlap.
///
/// `stretches` have to be in order, as `Numbers::stretches` are. `Err` means that memory was
/// refused.
pub fn levels_of(
    alloc: Global,
    stretches: &[Stretch],
    span: u64,
    cells: u32,
) -> Result<Vec<usize>, AllocError>
    ensures { IfOk result (λ levels. AreInOrder stretches.now → levels.items ≡ levels_of stretches.now cells span) }
{
    let mut levels = Vec::new(alloc);
    let mut passed_over = 0;
    for cell in 0..cells {
        let begin = cell_begin(cells, span, cell as u64);
        let end = cell_begin(cells, span, cell as u64 + 1).max(begin + 1);
        passed_over = skipped(stretches, passed_over, begin);
        levels.push(level_in(stretches, passed_over, begin, end))?;
    }
    Ok(levels)
}

/// Where the part of a cell begins, in microseconds since the start of the stream.
fn cell_begin(cells: u32, span: u64, cell: u64) -> u128
    requires { cell ≤ cells }
    ensures value { 1 ≤ cells → result ≡ cell_begin cells span cell }
    ensures bound { result < 2 ^ 64 }
{
    place_on(span.max(1), cells as u64, cell)
}

/// The number of stretches at the front of the list that end no later than `begin`. The first
/// `passed_over` are known to.
fn skipped(stretches: &[Stretch], passed_over: usize, begin: u128) -> usize
    requires { passed_over ≤ length stretches.now }
    ensures bound { result ≤ length stretches.now }
    ensures past { (place : ℕ) (d : stretch) → passed_over ≤ place → place < result
        → (get_or stretches.now place d).end ≤ begin }
{
    let mut passed_over = passed_over;
    'skips: while passed_over < stretches.len() && stretches[passed_over].end as u128 <= begin {
        passed_over += 1;
    }
    passed_over
}

/// The greatest number of steps in a stretch that reaches into the range from `begin` to `end`. The
/// search starts at the stretch `from`.
fn level_in(stretches: &[Stretch], from: usize, begin: u128, end: u128) -> usize
    ensures { AreInOrder stretches.now → result ≡ level_in begin end (drop from stretches.now) }
{
    let mut level = 0;
    let mut place = from;
    'reach: while place < stretches.len() && (stretches[place].begin as u128) < end {
        if begin < stretches[place].end as u128 {
            level = level.max(stretches[place].number);
        }
        place += 1;
    }
    level
}
