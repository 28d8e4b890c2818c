//! Draws an input, or a run of it.

ghost use Rattle.std.specs.Prelude.{◌≡◌, IfOk, None, Ok, Some};
ghost use Rattle.stream_view.specs.Viewed.{AreRunsOf, IsOfInput, IsOfStream, WasDrawn};

use crate::command::drawing::draw_stream;
use crate::command::drawn::Drawn;
use crate::command::picture_fault::PictureFault;
use crate::command::settings::Settings;
use std::alloc::Global;
use std::io::{BufRead, Write};
use stream_runs::{Run, RunChoice, select_run};

/// Draws the stream of the reader, or the run of it that the settings choose. `Err` as for
/// `draw_stream`, and with `PictureFault::NoRun` where the run is not there.
pub fn draw_input<R: BufRead, W: Write>(
    alloc: Global,
    settings: &Settings,
    is_colour_wanted: bool,
    reader: &mut R,
    out: &mut W,
) -> Result<Drawn, PictureFault>
    ensures drawn { WasDrawn settings.now.form is_colour_wanted (W.contents out.old) (W.contents out.new) result }
    ensures stream { IsOfInput settings.now.run settings.now.find (R.remaining reader.old) settings.now.rows settings.now.form is_colour_wanted
        (W.contents out.old) (W.contents out.new) result }
    ensures runs { IfOk result (AreRunsOf settings.now.run settings.now.find (R.remaining reader.old)) }
{
    match settings.run {
        None => draw_whole(alloc, settings, is_colour_wanted, reader, out),
        Some(choice) => draw_choice(alloc, settings, choice, is_colour_wanted, reader, out),
    }
}

/// Draws the whole stream of the reader, and counts its runs. `Err` as for `draw_stream`.
fn draw_whole<R: BufRead, W: Write>(
    alloc: Global,
    settings: &Settings,
    is_colour_wanted: bool,
    reader: &mut R,
    out: &mut W,
) -> Result<Drawn, PictureFault>
    ensures drawn { WasDrawn settings.now.form is_colour_wanted (W.contents out.old) (W.contents out.new) result }
    ensures stream { IsOfInput None settings.now.find (R.remaining reader.old) settings.now.rows settings.now.form is_colour_wanted
        (W.contents out.old) (W.contents out.new) result }
    ensures runs { IfOk result (AreRunsOf None settings.now.find (R.remaining reader.old)) }
{
    let Settings {
        form,
        rows,
        find,
        ..
    } = *settings;
    match draw_stream(alloc, form, rows, find, 0, is_colour_wanted, reader, out) {
        Ok(runs) => Ok(Drawn { runs: Some(runs) }),
        Err(fault) => Err(fault),
    }
}

/// Reads the input to its end, and draws the chosen run. `Err` as for `draw_input`.
fn draw_choice<R: BufRead, W: Write>(
    alloc: Global,
    settings: &Settings,
    choice: RunChoice,
    is_colour_wanted: bool,
    reader: &mut R,
    out: &mut W,
) -> Result<Drawn, PictureFault>
    ensures drawn { WasDrawn settings.now.form is_colour_wanted (W.contents out.old) (W.contents out.new) result }
    ensures stream { IsOfInput (Some choice) settings.now.find (R.remaining reader.old) settings.now.rows settings.now.form is_colour_wanted
        (W.contents out.old) (W.contents out.new) result }
    ensures runs { IfOk result (λ drawn. drawn.runs ≡ None) }
{
    match select_run(alloc, settings.find, choice, reader) {
        Ok(selected) => draw_run(alloc, settings, &selected, is_colour_wanted, out),
        Err(fault) => Err(PictureFault::from(fault)),
    }
}

/// Draws a run. `Err` as for `draw_stream`.
fn draw_run<W: Write>(
    alloc: Global,
    settings: &Settings,
    run: &Run,
    is_colour_wanted: bool,
    out: &mut W,
) -> Result<Drawn, PictureFault>
    ensures drawn { WasDrawn settings.now.form is_colour_wanted (W.contents out.old) (W.contents out.new) result }
    ensures stream { IsOfStream settings.now.find run.now.bytes.items run.now.lines_before settings.now.rows settings.now.form is_colour_wanted
        (W.contents out.old) (W.contents out.new) result }
    ensures runs { IfOk result (λ drawn. drawn.runs ≡ None) }
{
    let mut bytes = run.bytes.as_slice();
    match draw_stream(
        alloc,
        settings.form,
        settings.rows,
        settings.find,
        run.lines_before,
        is_colour_wanted,
        &mut bytes,
        out,
    ) {
        Ok(_) => Ok(Drawn { runs: None }),
        Err(fault) => Err(fault),
    }
}
