//! The rows of the SVG. Each `Err` is `DrawFault::Memory` if memory is refused, and
//! `DrawFault::Gone` or `DrawFault::Unwritten` if a write fails.

ghost use Rattle.std.specs.Prelude.{◌≡◌, ◌∷◌, ◌++◌, [], List, OnOk};
ghost use Rattle.stream_view.specs.Axes.{axis_in};
ghost use Rattle.stream_view.specs.Markup.{GroupWritten, GroupsWritten, IsGroupOf, MarkupWritten, PartsWritten, bar_parts, title_parts};
ghost use Rattle.stream_view.specs.declared.svg.markup_part.MarkupPart.{MarkupPart as markup_part};
ghost use Rattle.stream_view.specs.declared.svg.markup_part.MarkupPart.TheVariants.{Fixed};
ghost use Rattle.stream_view.specs.declared.svg.fragment.Fragment.TheVariants.{GroupEnd};

use crate::draw_fault::DrawFault;
use crate::picture::Picture;
use crate::svg::dimensions::ROW;
use crate::svg::fragment::Fragment;
use crate::svg::markup::Markup;
use crate::svg::row::{Place, begin_row, place_of, push_after_bar, push_bar, push_before_bar};
use crate::svg::scale::Scale;
use crate::writing::write_text;
use std::alloc::Global;
use std::io::Write;
use stream_timeline::Step;

/// Writes the rows from the height `top` on, one group each.
pub fn draw_rows<W: Write>(
    alloc: Global,
    picture: &Picture<'_>,
    scale: Scale,
    top: u64,
    out: &mut W,
) -> Result<(), DrawFault>
    ensures { OnOk result (GroupsWritten (axis_in scale) picture.now picture.now.rows.places.items (W.contents out.old) (W.contents out.new)) }
{
    let mut y = top;
    for place in &picture.rows.places {
        draw_row(alloc, picture, scale, *place, y, out)?;
        y = y.saturating_add(ROW);
    }
    Ok(())
}

/// Writes the row of the step at index `place` at the height `y`; an empty group if there is no
/// such step.
fn draw_row<W: Write>(
    alloc: Global,
    picture: &Picture<'_>,
    scale: Scale,
    place: usize,
    y: u64,
    out: &mut W,
) -> Result<(), DrawFault>
    ensures { OnOk result (GroupWritten (axis_in scale) picture.now place (W.contents out.old) (W.contents out.new)) }
{
    match picture.timeline.steps().get(place) {
        Some(step) => draw_step(alloc, picture, scale, place, step, y, out),
        None => write_text("<g></g>\n", out),
    }
}

/// Writes the row of a step at the height `y`.
fn draw_step<W: Write>(
    alloc: Global,
    picture: &Picture<'_>,
    scale: Scale,
    place: usize,
    step: &Step,
    y: u64,
    out: &mut W,
) -> Result<(), DrawFault>
    ensures { OnOk result ((group : List markup_part) × IsGroupOf (axis_in scale) picture.now.time_range group step.now
        × PartsWritten group (W.contents out.old) (W.contents out.new)) }
{
    let bar = place_of(picture, scale, step, y);
    draw_begin(alloc, step, out)?;
    draw_before_bar(alloc, picture, place, step, y, out)?;
    draw_bar(alloc, step, bar, out)?;
    draw_after_bar(alloc, picture, scale, step, bar, y, out)
}

/// Writes the begin of a row.
fn draw_begin<W: Write>(alloc: Global, step: &Step, out: &mut W) -> Result<(), DrawFault>
    ensures { OnOk result (PartsWritten (title_parts step.now) (W.contents out.old) (W.contents out.new)) }
{
    let mut markup = Markup::new(alloc);
    begin_row(&mut markup, step);
    markup.send(out)
}

/// Writes the markup before the bar.
fn draw_before_bar<W: Write>(
    alloc: Global,
    picture: &Picture<'_>,
    place: usize,
    step: &Step,
    y: u64,
    out: &mut W,
) -> Result<(), DrawFault>
    ensures { OnOk result (MarkupWritten (W.contents out.old) (W.contents out.new)) }
{
    let mut markup = Markup::new(alloc);
    push_before_bar(&mut markup, picture, place, step, y);
    markup.send(out)
}

/// Writes the bar.
fn draw_bar<W: Write>(alloc: Global, step: &Step, bar: Place, out: &mut W) -> Result<(), DrawFault>
    ensures { OnOk result (PartsWritten (bar_parts bar.left bar.width bar.top step.now) (W.contents out.old) (W.contents out.new)) }
{
    let mut markup = Markup::new(alloc);
    push_bar(&mut markup, step, bar);
    markup.send(out)
}

/// Writes the markup after the bar, and the end of the row.
fn draw_after_bar<W: Write>(
    alloc: Global,
    picture: &Picture<'_>,
    scale: Scale,
    step: &Step,
    bar: Place,
    y: u64,
    out: &mut W,
) -> Result<(), DrawFault>
    ensures { OnOk result ((back : List markup_part) × PartsWritten (back ++ Fixed GroupEnd ∷ []) (W.contents out.old) (W.contents out.new)) }
{
    let mut markup = Markup::new(alloc);
    push_after_bar(&mut markup, picture, scale, step, bar, y);
    markup.fixed(Fragment::GroupEnd);
    markup.send(out)
}
