//! A panel: how far the apply is, and a row for each open step, as far as there is room.

ghost use Rattle.std.specs.Prelude.{◌≡◌, ◌≤◌};
ghost use Rattle.stream_watch.specs.State.{state_of};
ghost use Rattle.stream_panel.specs.Canvases.{DrawsLines};
ghost use Rattle.stream_panel.specs.Panel.{panel_lines, shown_rows};

use crate::canvas::Canvas;
use crate::row::{push_more, push_rows};
use crate::size::{Size, most_lines};
use crate::status::push_status_line;
use crate::view::View;
use stream_watch::Watcher;

/// Adds the lines of the panel for a terminal with room for it (see [`has_room`](crate::has_room)).
pub fn push_panel(out: &mut Canvas, watcher: &Watcher, view: View)
    ensures { DrawsLines out.old out.new view.has_colour (panel_lines view (state_of watcher.now)) }
{
    let steps = watcher.steps_under_way();
    let shown = shown_rows(view.size, steps.len());
    let more = steps.len() - shown;
    push_status_line(out, watcher, view);
    push_rows(out, watcher, view, &steps[..shown]);
    push_more(out, view, more);
}

/// How many of so many steps have a row. Where not all have one, a line is left to say how many
/// have none.
fn shown_rows(size: Size, steps: usize) -> usize
    ensures rows { result ≡ shown_rows size steps }
    ensures within { result ≤ steps }
{
    let most = most_lines(size);
    if steps < most { steps } else { most - 2 }
}
