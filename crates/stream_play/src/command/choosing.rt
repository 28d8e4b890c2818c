//! Plays an input, or a run of it.

ghost use Rattle.std.specs.Prelude.{Some};
ghost use Rattle.std.specs.Io.Buffered.{reader_remaining};
ghost use Rattle.stream_play.specs.CommandLine.{HasPlayedChoice};
ghost use Rattle.stream_play.specs.Played.{IsPlayed};

use crate::command::settings::Settings;
use crate::play_fault::PlayFault;
use crate::playing::play;
use std::alloc::Global;
use std::io::{BufReader, Read, Write};
use std::time::Clock;
use stream_runs::{Run, RunChoice, select_run};

/// How many bytes of a run one read copies.
const BUFFER_LEN: usize = 65_536;

/// Plays the stream of the reader, or the run of it that the settings choose. `Err` as for `play`,
/// and with `PlayFault::NoRun` where the run is not there: nothing is written then.
pub fn play_input<R: Read, W: Write, C: Clock>(
    alloc: Global,
    clock: &C,
    settings: &Settings,
    reader: &mut BufReader<R>,
    out: &mut W,
) -> Result<(), PlayFault>
    ensures { HasPlayedChoice settings.now.run settings.now.find (reader_remaining R.remaining reader.old) (W.contents out.old) (W.contents out.new) result }
{
    match settings.run {
        None => play(alloc, clock, settings.speed, settings.find, reader, out),
        Some(choice) => play_choice(alloc, clock, settings, choice, reader, out),
    }
}

/// Reads the input to its end, and plays the chosen run. `Err` as for `play_input`.
fn play_choice<R: Read, W: Write, C: Clock>(
    alloc: Global,
    clock: &C,
    settings: &Settings,
    choice: RunChoice,
    reader: &mut BufReader<R>,
    out: &mut W,
) -> Result<(), PlayFault>
    ensures { HasPlayedChoice (Some choice) settings.now.find (reader_remaining R.remaining reader.old) (W.contents out.old) (W.contents out.new) result }
{
    match select_run(alloc, settings.find, choice, reader) {
        Ok(run) => play_run(alloc, clock, settings, &run, out),
        Err(fault) => Err(PlayFault::from(fault)),
    }
}

/// Plays a run. `Err` as for `play`.
fn play_run<W: Write, C: Clock>(
    alloc: Global,
    clock: &C,
    settings: &Settings,
    run: &Run,
    out: &mut W,
) -> Result<(), PlayFault>
    ensures { IsPlayed settings.now.find run.now.bytes.items (W.contents out.old) (W.contents out.new) result }
{
    let Ok(mut reader) = BufReader::with_capacity(alloc, BUFFER_LEN, run.bytes.as_slice()) else {
        return Err(PlayFault::Memory);
    };
    play(
        alloc,
        clock,
        settings.speed,
        settings.find,
        &mut reader,
        out,
    )
}
