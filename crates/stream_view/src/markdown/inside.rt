//! The text that stands in the fence.

ghost use Rattle.std.specs.Prelude.{IfOk, OnOk};
ghost use Rattle.stream_view.specs.Lines.{LinesWritten};
ghost use Rattle.stream_view.specs.Markdown.{InsideWritten, IsInside};

use crate::draw_fault::DrawFault;
use crate::picture::Picture;
use crate::text::axis::push_axis;
use crate::text::chart::Chart;
use crate::text::drawing::{draw_left_out, draw_rows, draw_tail, push_overlap};
use crate::text::line_buffer::{LineBuffer, Style};
use std::alloc::{AllocError, Global};
use std::io::Write;

/// The columns of the text.
const WIDTH: usize = 100;

/// The text of a picture after its heading, with the longest steps before the diagnostics. `Err` if
/// memory is refused, for then alone a write into memory fails.
pub fn inside_of(alloc: Global, picture: &Picture<'_>) -> Result<Vec<u8>, AllocError>
    ensures { IfOk result (λ inside. IsInside picture.now inside.items) }
{
    let mut inside = Vec::new(alloc);
    match draw_inside(alloc, picture, &mut inside) {
        Ok(()) => Ok(inside),
        Err(_) => Err(AllocError),
    }
}

/// Writes the text of a picture after its heading.
fn draw_inside<W: Write>(alloc: Global, picture: &Picture<'_>, out: &mut W) -> Result<(), DrawFault>
    ensures { OnOk result (InsideWritten picture.now (W.contents out.old) (W.contents out.new)) }
{
    let style = Style {
        width: WIDTH,
        has_colour: false,
    };
    let chart = Chart::of(alloc, picture, style.width)?;
    draw_above(alloc, picture, &chart, style, out)?;
    draw_rows(alloc, picture, &chart, style, out)?;
    draw_left_out(alloc, picture, &chart, style, out)?;
    draw_tail(alloc, picture, &chart, style, true, out)
}

/// Writes the lines above the rows.
fn draw_above<W: Write>(
    alloc: Global,
    picture: &Picture<'_>,
    chart: &Chart,
    style: Style,
    out: &mut W,
) -> Result<(), DrawFault>
    ensures { OnOk result (LinesWritten style.width style.has_colour (W.contents out.old) (W.contents out.new)) }
{
    let mut line_buffer = LineBuffer::new(alloc, style);
    push_overlap(&mut line_buffer, picture);
    push_axis(&mut line_buffer, picture, chart);
    line_buffer.send(out)
}
