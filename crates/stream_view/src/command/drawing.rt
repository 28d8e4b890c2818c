//! Draws a stream as the settings state.

ghost use Rattle.std.specs.Prelude.{◌≡◌, ◌≢◌, Err, IfOk, IfSome, OnOk};
ghost use Rattle.stream_lines.specs.Cut.{cut_lines};
ghost use Rattle.stream_runs.specs.Counted.{runs_in};
ghost use Rattle.stream_runs.specs.declared.fault.MissingRun.{MissingRun as missing_run};
ghost use Rattle.stream_timeline.specs.declared.reading.timeline_fault.TimelineFault.{TimelineFault as timeline_fault};
ghost use Rattle.stream_view.specs.Viewed.{IsDrawnOf, IsOfStream, WasDrawn};
ghost use Rattle.stream_view.specs.declared.command.picture_fault.PictureFault.TheVariants.{NoRun, NoTimeline};

use crate::command::picture_fault::PictureFault;
use crate::command::settings::Form;
use crate::draw_fault::DrawFault;
use crate::json::drawing::draw_json;
use crate::markdown::drawing::draw_markdown;
use crate::picture::Picture;
use crate::row_choice::RowChoice;
use crate::svg::drawing::draw_svg;
use crate::text::drawing::draw_text;
use std::alloc::Global;
use std::io::{BufRead, Write};
use stream_timeline::{Timeline, read};

/// Reads and draws the stream of the reader. With `find` its lines are those of a log.
/// `lines_before` lines of the input stand before it. The whole stream is read before anything is
/// written. Returns how many runs of Terraform begin in the stream.
///
/// `Err` with `PictureFault::NoTimeline` where it can't be read, and with `PictureFault::Undrawn`
/// where it can't be drawn.
pub fn draw_stream<R: BufRead, W: Write>(
    alloc: Global,
    form: Form,
    rows: RowChoice,
    find: bool,
    lines_before: u64,
    is_colour_wanted: bool,
    reader: &mut R,
    out: &mut W,
) -> Result<u64, PictureFault>
    ensures drawn { WasDrawn form is_colour_wanted (W.contents out.old) (W.contents out.new) result }
    ensures stream { IfSome (R.remaining reader.old) (λ bytes. IsOfStream find bytes lines_before rows form is_colour_wanted
        (W.contents out.old) (W.contents out.new) result) }
    ensures runs { IfSome (R.remaining reader.old) (λ bytes. IfOk result (λ runs. runs ≡ runs_in find (cut_lines bytes))) }
{
    let timeline = match read(alloc, find, reader) {
        Ok(timeline) => timeline,
        Err(fault) => return Err(PictureFault::NoTimeline(fault)),
    };
    match draw(
        alloc,
        form,
        rows,
        lines_before,
        is_colour_wanted,
        &timeline,
        out,
    ) {
        Ok(()) => Ok(timeline.runs()),
        Err(fault) => Err(fault),
    }
}

/// Draws a time line. `Err` with `PictureFault::Undrawn` where memory is refused or `out` can't be
/// written.
fn draw<W: Write>(
    alloc: Global,
    form: Form,
    rows: RowChoice,
    lines_before: u64,
    is_colour_wanted: bool,
    timeline: &Timeline,
    out: &mut W,
) -> Result<(), PictureFault>
    ensures drawn { WasDrawn form is_colour_wanted (W.contents out.old) (W.contents out.new) result }
    ensures rows { OnOk result (IsDrawnOf timeline.now lines_before rows form is_colour_wanted (W.contents out.old) (W.contents out.new)) }
    ensures read { (why : timeline_fault) → result ≢ Err (NoTimeline why) }
    ensures there { (missing : missing_run) → result ≢ Err (NoRun missing) }
{
    let Ok(picture) = Picture::of(alloc, timeline, lines_before, rows) else {
        return Err(PictureFault::Undrawn(DrawFault::Memory));
    };
    let drawn = match form {
        Form::Text { width, colour } => {
            draw_text(alloc, &picture, width, colour.is_on(is_colour_wanted), out)
        }
        Form::Svg => draw_svg(alloc, &picture, out),
        Form::Json => draw_json(alloc, &picture, out),
        Form::Markdown => draw_markdown(alloc, &picture, out),
    };
    match drawn {
        Ok(()) => Ok(()),
        Err(fault) => Err(PictureFault::Undrawn(fault)),
    }
}
