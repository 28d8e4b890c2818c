//! Writes the whole object.

ghost use Rattle.std.specs.Prelude.{OnOk};
ghost use Rattle.std.specs.Io.KnownBytes.{Appends};
ghost use Rattle.stream_view.specs.Json.{JsonWritten, StepsWritten, figures_text, listed_text};

use crate::draw_fault::DrawFault;
use crate::json::objects::{push_figures, push_step};
use crate::picture::Picture;
use crate::writing::{flush, write_message, write_text};
use std::alloc::Global;
use std::io::Write;
use stream_timeline::Step;
use term_words::MessageText;

/// Writes the time line of the picture as one JSON object, and a line feed. The object has the
/// figures of the stream and all of its steps, in the order of their lines. Times are in
/// microseconds. Memory is needed for one step at a time.
///
/// `DrawFault::Memory` if memory is refused. `DrawFault::Gone` or `DrawFault::Unwritten` if a write
/// or a flush fails. After an `Err`, `out` may have the first bytes of the object.
pub fn draw_json<W: Write>(
    alloc: Global,
    picture: &Picture<'_>,
    out: &mut W,
) -> Result<(), DrawFault>
    ensures { OnOk result (JsonWritten picture.now (W.contents out.old) (W.contents out.new)) }
{
    draw_figures(alloc, picture, out)?;
    draw_steps(alloc, picture, out)?;
    write_text("]}\n", out)?;
    flush(out)?;
    Ok(())
}

/// Writes the front of the object: all before its steps.
fn draw_figures<W: Write>(
    alloc: Global,
    picture: &Picture<'_>,
    out: &mut W,
) -> Result<(), DrawFault>
    ensures { OnOk result (Appends (W.contents out.old) (W.contents out.new) (figures_text picture.now)) }
{
    let mut text = MessageText::new(alloc);
    push_figures(&mut text, picture);
    write_message(&text, out)
}

/// Writes the objects of the steps, with a comma between two of them.
fn draw_steps<W: Write>(alloc: Global, picture: &Picture<'_>, out: &mut W) -> Result<(), DrawFault>
    ensures { OnOk result (StepsWritten picture.now (W.contents out.old) (W.contents out.new)) }
{
    for (place, step) in picture.timeline.steps().iter().enumerate() {
        draw_step(alloc, picture, place, step, out)?;
    }
    Ok(())
}

/// Writes the object of the step at index `place`, after a comma unless it is the first.
fn draw_step<W: Write>(
    alloc: Global,
    picture: &Picture<'_>,
    place: usize,
    step: &Step,
    out: &mut W,
) -> Result<(), DrawFault>
    ensures { OnOk result (Appends (W.contents out.old) (W.contents out.new) (listed_text picture.now place step.now)) }
{
    let mut text = MessageText::new(alloc);
    text.text(if place > 0 { "," } else { "" });
    push_step(&mut text, picture, place, step);
    write_message(&text, out)
}
