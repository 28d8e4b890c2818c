//! Draws the whole SVG.

ghost use Rattle.std.specs.Prelude.{◌≡◌, List, OnOk, true};
ghost use Rattle.stream_view.specs.Axes.{axis_in};
ghost use Rattle.stream_view.specs.Growth.{HasParts};
ghost use Rattle.stream_view.specs.LeftOut.{left_out_shown};
ghost use Rattle.stream_view.specs.Markup.{HeadWritten, IsLeftOutIn, MarkupWritten, SomeSvgWritten, SvgWritten, axis_of, whole_title};
ghost use Rattle.stream_view.specs.declared.svg.markup_part.MarkupPart.{MarkupPart as markup_part};

use crate::captions::heading::heading;
use crate::draw_fault::DrawFault;
use crate::picture::Picture;
use crate::svg::dimensions::{EDGE, ROW, WIDTH};
use crate::svg::footer::Footer;
use crate::svg::fragment::Fragment;
use crate::svg::header::{push_grid, push_header};
use crate::svg::markup::Markup;
use crate::svg::markup_part::MarkupPart;
use crate::svg::rows::draw_rows;
use crate::svg::scale::Scale;
use crate::writing::{flush, write_text};
use std::alloc::Global;
use std::io::Write;
use term_text::ShownText;

/// Writes the picture as one SVG without scripts and outside files. Memory is needed for one row at
/// a time.
///
/// `DrawFault::Memory` if memory is refused. `DrawFault::Gone` or `DrawFault::Unwritten` if a write
/// or a flush fails. After an `Err`, `out` may have the first bytes of the SVG.
pub fn draw_svg<W: Write>(
    alloc: Global,
    picture: &Picture<'_>,
    out: &mut W,
) -> Result<(), DrawFault>
    ensures rows { OnOk result (SvgWritten picture.now (W.contents out.old) (W.contents out.new)) }
    ensures svg { OnOk result (SomeSvgWritten (W.contents out.old) (W.contents out.new)) }
{
    let scale = Scale::of(alloc, picture)?;
    let mut front = Markup::new(alloc);
    let top = push_header(&mut front, picture, scale);
    let bottom = y_of(top, picture.rows.places.len() as u64);
    let mut back = Footer::of(alloc, picture, scale, bottom);
    let heights = Heights {
        top,
        bottom,
        height: back.height,
    };
    draw_parts(alloc, picture, scale, heights, &mut front, &mut back, out)
}

/// Writes the SVG with the markup above and below the rows. The errors are those of `draw_svg`.
fn draw_parts<W: Write>(
    alloc: Global,
    picture: &Picture<'_>,
    scale: Scale,
    heights: Heights,
    front: &mut Markup,
    back: &mut Footer,
    out: &mut W,
) -> Result<(), DrawFault>
    requires axis { axis_in scale ≡ axis_of picture.now }
    requires left_out { back.old.left_out.is_whole ≡ true → IsLeftOutIn (left_out_shown picture.now.rows) back.old.left_out.parts.items }
    ensures { OnOk result (SvgWritten picture.now (W.contents out.old) (W.contents out.new)) }
{
    draw_head(alloc, picture, heights.height, out)?;
    front.send(out)?;
    draw_grid(alloc, picture, scale, heights.top, heights.bottom, out)?;
    draw_rows(alloc, picture, scale, heights.top, out)?;
    back.send(out)?;
    write_text("</svg>\n", out)?;
    flush(out)?;
    Ok(())
}

/// Where the rows begin and end, and the height of the SVG, in pixels.
#[derive(Clone, Copy)]
struct Heights {
    top: u64,
    bottom: u64,
    height: u64,
}

/// Writes the begin of an SVG of the height `height`.
fn draw_head<W: Write>(
    alloc: Global,
    picture: &Picture<'_>,
    height: u64,
    out: &mut W,
) -> Result<(), DrawFault>
    ensures { OnOk result (HeadWritten picture.now (W.contents out.old) (W.contents out.new)) }
{
    let what = heading(alloc, picture).shown()?;
    let mut markup = Markup::new(alloc);
    push_opening(&mut markup, &what, height);
    push_title(&mut markup, &what);
    push_style(&mut markup, height);
    markup.send(out)
}

/// Adds the markup before the title.
fn push_opening(markup: &mut Markup, title: &ShownText, height: u64)
    ensures { (parts : List markup_part) × HasParts markup.old markup.new parts }
{
    markup.add(&[
        MarkupPart::Fixed(Fragment::SvgBegin),
        MarkupPart::Number(WIDTH),
        MarkupPart::Fixed(Fragment::Height),
        MarkupPart::Number(height),
        MarkupPart::Fixed(Fragment::ViewBox),
        MarkupPart::Number(WIDTH),
        MarkupPart::Fixed(Fragment::Space),
        MarkupPart::Number(height),
        MarkupPart::Fixed(Fragment::AriaLabel),
    ]);
    markup.text(title);
    markup.fixed(Fragment::SvgTagEnd);
}

/// Adds the title of the SVG.
fn push_title(markup: &mut Markup, title: &ShownText)
    ensures { HasParts markup.old markup.new (whole_title title.now) }
{
    markup.fixed(Fragment::TitleBegin);
    markup.text(title);
    markup.fixed(Fragment::TitleEnd);
}

/// Adds the styles.
fn push_style(markup: &mut Markup, height: u64)
    ensures { (parts : List markup_part) × HasParts markup.old markup.new parts }
{
    markup.add(&[
        MarkupPart::Fixed(Fragment::Style),
        MarkupPart::Number(WIDTH),
        MarkupPart::Fixed(Fragment::Height),
        MarkupPart::Number(height),
        MarkupPart::Fixed(Fragment::GroundEnd),
    ]);
}

/// Writes the background of the rows between the heights `top` and `bottom`, if there are rows.
fn draw_grid<W: Write>(
    alloc: Global,
    picture: &Picture<'_>,
    scale: Scale,
    top: u64,
    bottom: u64,
    out: &mut W,
) -> Result<(), DrawFault>
    ensures { OnOk result (MarkupWritten (W.contents out.old) (W.contents out.new)) }
{
    if picture.rows.places.is_empty() {
        return Ok(());
    }
    draw_bands(alloc, picture.rows.places.len(), top, out)?;
    let mut markup = Markup::new(alloc);
    push_grid(&mut markup, scale, top, bottom);
    markup.send(out)
}

/// Writes a band behind every second row.
fn draw_bands<W: Write>(alloc: Global, count: usize, top: u64, out: &mut W) -> Result<(), DrawFault>
    ensures { OnOk result (MarkupWritten (W.contents out.old) (W.contents out.new)) }
{
    let mut markup = Markup::new(alloc);
    for pair in 0..count / 2 {
        push_band(&mut markup, y_of(top, pair as u64 * 2 + 1));
        markup.send(out)?;
    }
    Ok(())
}

/// The height at which a row begins, in pixels from the top.
fn y_of(top: u64, row: u64) -> u64 {
    top.saturating_add(row.saturating_mul(ROW))
}

/// Adds the band behind a row.
fn push_band(markup: &mut Markup, y: u64) {
    markup.begin_box((EDGE - 6) * 10, y, (WIDTH - 2 * EDGE + 12) * 10, ROW);
    markup.fixed(Fragment::BandEnd);
}
