//! The line that shows how many steps ran at once.

ghost use Rattle.std.specs.Prelude.{◌≡◌};

use crate::picture::Picture;
use crate::text::chart::{Chart, DURATION};
use crate::text::line::Line;
use crate::text::line_buffer::LineBuffer;
use std::alloc::{AllocError, Global};
use stream_timeline::levels_of;
use term_text::without_blanks;
use term_words::MessageText;

/// The characters for 0 to 8 eighths of a cell.
const LEVEL_EIGHTHS: [char; 9] = [' ', '▁', '▂', '▃', '▄', '▅', '▆', '▇', '█'];

/// The label of the line.
const NAME: [char; 7] = ['a', 't', ' ', 'o', 'n', 'c', 'e'];

/// Adds the line that shows how many steps ran at once. Each cell shows its number in eighths of
/// the peak, rounded up. Adds nothing if steps ran one at a time.
pub fn push_concurrency(line_buffer: &mut LineBuffer, picture: &Picture<'_>, chart: &Chart)
    ensures { line_buffer.new.style ≡ line_buffer.old.style }
{
    if picture.numbers.peak <= 1 {
        return;
    }
    let mut line = line_buffer.line();
    push_header(line_buffer.alloc(), &mut line, picture, chart);
    push_levels(line_buffer.alloc(), &mut line, picture, chart);
    line_buffer.push(line);
}

/// Adds the label and the peak before the cells.
fn push_header(alloc: Global, line: &mut Line, picture: &Picture<'_>, chart: &Chart)
    ensures { line.new.width ≡ line.old.width }
{
    line.push_blanks(chart.indent());
    line.push_all(&NAME);
    line.push_blanks(chart.label.saturating_sub(NAME.len()).saturating_add(2));
    push_peak(alloc, line, picture);
    line.push(' ');
}

/// Adds the peak.
fn push_peak(alloc: Global, line: &mut Line, picture: &Picture<'_>)
    ensures { line.new.width ≡ line.old.width }
{
    let mut peak = MessageText::new(alloc);
    peak.count(picture.numbers.peak as u64);
    match peak.within(DURATION) {
        Ok(text) => line.push_right(&text, DURATION),
        Err(_) => line.refuse(),
    }
}

/// Adds the cells, without the blanks at their end.
fn push_levels(alloc: Global, line: &mut Line, picture: &Picture<'_>, chart: &Chart)
    ensures { line.new.width ≡ line.old.width }
{
    match level_cells(alloc, picture, chart) {
        Ok(cells) => line.push_all(without_blanks(&cells)),
        Err(_) => line.refuse(),
    }
}

/// The cells of the line. `Err` means that memory was refused.
fn level_cells(
    alloc: Global,
    picture: &Picture<'_>,
    chart: &Chart,
) -> Result<Vec<char>, AllocError> {
    let levels = levels_of(alloc, &picture.numbers.stretches, chart.span, chart.cells)?;
    let mut cells = Vec::new(alloc);
    for level in &levels {
        cells.push(eighths(*level, picture.numbers.peak))?;
    }
    Ok(cells)
}

/// The character for `level` in eighths of `peak`, rounded up.
fn eighths(level: usize, peak: usize) -> char {
    let peak = peak.max(1) as u128;
    let count = (level as u128 * 8 + (peak - 1)) / peak;
    match LEVEL_EIGHTHS.get(count.min(8) as usize) {
        Some(character) => *character,
        None => ' ',
    }
}
