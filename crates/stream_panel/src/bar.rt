//! The bar that shows how far the changes are.

ghost use Rattle.std.specs.Prelude.{◌≡◌, ◌^◌, ◌<◌, ◌≤◌};
ghost use Rattle.stream_panel.specs.Bar.{bar, bar_up_to, full_cells, reached_cells};
ghost use Rattle.stream_panel.specs.Canvases.{Draws};

use crate::canvas::Canvas;
use crate::stretch::push_copies;
use stream_watch::Counts;
use term_text::Rendition;

/// Adds a bar of so many cells. `open` changes are under way.
pub(crate) fn push_bar(
    out: &mut Canvas,
    has_colour: bool,
    counts: Counts,
    running: u64,
    cells: usize,
)
    requires planned { 0 < counts.planned }
    requires few { cells ≤ 20 }
    ensures { Draws out.old out.new has_colour (bar counts running cells) }
{
    let done = u128::from(counts.done);
    let ended = done + u128::from(counts.failed);
    let begun = ended + u128::from(running);
    let total = u128::from(counts.planned).max(begun);
    push_cells(
        out,
        has_colour,
        full_cells(done, total, cells),
        full_cells(ended, total, cells),
        reached_cells(begun, total, cells),
        cells,
    );
}

/// Adds the cells up to `done`, `ended` and `begun`, and the others.
fn push_cells(
    out: &mut Canvas,
    has_colour: bool,
    done: usize,
    ended: usize,
    begun: usize,
    cells: usize,
)
    ensures { Draws out.old out.new has_colour (bar_up_to done ended begun cells) }
{
    push_copies(out, has_colour, Some(Rendition::Green), '█', done);
    push_copies(
        out,
        has_colour,
        Some(Rendition::Red),
        '▓',
        ended.saturating_sub(done),
    );
    push_copies(out, has_colour, None, '▒', begun.saturating_sub(ended));
    push_copies(
        out,
        has_colour,
        Some(Rendition::Dim),
        '░',
        cells.saturating_sub(begun),
    );
}

/// How many cells a part of all changes fills to their ends.
fn full_cells(part: u128, total: u128, cells: usize) -> usize
    requires some { 0 < total }
    requires within { part ≤ total }
    requires small { total < 2 ^ 66 }
    requires few { cells ≤ 20 }
    ensures { result ≡ full_cells part total cells }
{
    (part * cells as u128 / total) as usize
}

/// How many cells a part of all changes reaches.
fn reached_cells(part: u128, total: u128, cells: usize) -> usize
    requires some { 0 < total }
    requires within { part ≤ total }
    requires small { total < 2 ^ 66 }
    requires few { cells ≤ 20 }
    ensures { result ≡ reached_cells part total cells }
{
    ((part * cells as u128 + (total - 1)) / total) as usize
}
