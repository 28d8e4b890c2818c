//! The axis above the bars.

ghost use Rattle.std.specs.Prelude.{◌≡◌, All, IfOk, length};
ghost use Rattle.stream_view.specs.Growth.{HasMoreLines};
ghost use Rattle.stream_view.specs.Rows.{IsTick};

use crate::picture::Picture;
use crate::text::chart::Chart;
use crate::text::line::Line;
use crate::text::line_buffer::LineBuffer;
use std::alloc::{AllocError, Global};
use term_text::without_blanks;
use term_words::MessageText;

/// How many ticks an axis has at most.
const MOST_TICKS: u64 = 1_000;

/// Adds an empty line and the axis with the text of each tick that has room. Adds nothing if no
/// step has a row.
pub fn push_axis(line_buffer: &mut LineBuffer, picture: &Picture<'_>, chart: &Chart)
    ensures style { line_buffer.new.style ≡ line_buffer.old.style }
    ensures more { HasMoreLines line_buffer.old line_buffer.new }
{
    if picture.rows.places.is_empty() {
        return;
    }
    let mut line = line_buffer.line();
    push_cells(line_buffer.alloc(), &mut line, chart);
    line_buffer.push_empty();
    line_buffer.push(line);
}

/// Adds the characters of the axis, without the blanks at their end.
fn push_cells(alloc: Global, line: &mut Line, chart: &Chart)
    ensures { line.new.width ≡ line.old.width }
{
    line.push_blanks(chart.front());
    match axis_cells(alloc, chart) {
        Ok(cells) => line.push_all(without_blanks(&cells)),
        Err(_) => line.refuse(),
    }
}

/// The characters of the axis. `Err` means that memory was refused.
fn axis_cells(alloc: Global, chart: &Chart) -> Result<Vec<char>, AllocError> {
    let mut cells = vec![in alloc; ' '; chart.cells as usize]?;
    for count in 0..MOST_TICKS {
        let offset = chart.step.saturating_mul(count);
        let Some(cell) = chart.cell_of(offset) else {
            break;
        };
        let mut tick = MessageText::new(alloc);
        tick.tick(offset / 1_000);
        put(&mut cells, cell, tick.shown()?.characters());
    }
    Ok(cells)
}

/// Writes a text into the cells from `from` on, if all of it has room.
fn put(cells: &mut [char], from: usize, text: &[char]) {
    if from > cells.len() || text.len() > cells.len() - from {
        return;
    }
    for (place, character) in text.iter().enumerate() {
        cells[from + place] = *character;
    }
}

/// The background of the rows: `┊` in a cell with a tick, else a blank. `Err` means that memory was
/// refused.
pub fn tick_cells(alloc: Global, chart: &Chart) -> Result<Vec<char>, AllocError>
    ensures cells { IfOk result (λ ticks. length ticks.items ≡ chart.now.cells) }
    ensures each { IfOk result (λ ticks. All IsTick ticks.items) }
{
    let mut ticks = vec![in alloc; ' '; chart.cells as usize]?;
    for count in 0..MOST_TICKS {
        let Some(cell) = chart.cell_of(chart.step.saturating_mul(count)) else {
            break;
        };
        if cell < ticks.len() {
            ticks[cell] = '┊';
        }
    }
    Ok(ticks)
}
