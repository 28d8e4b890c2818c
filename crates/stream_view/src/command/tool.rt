//! The tool `view`.

ghost use Rattle.std.specs.Prelude.{is_err};
ghost use Rattle.stream_view.specs.CommandLine.{arguments};
ghost use Rattle.stream_view.specs.Viewed.{HasViewed, IsQuiet};

use crate::command::arguments::{command, settings_of};
use crate::command::choosing::draw_input;
use crate::command::conflicts::conflict;
use crate::command::drawn::Drawn;
use crate::command::picture_fault::PictureFault;
use crate::command::refusals::refuse;
use crate::command::settings::Settings;
use crate::command::suggesting::suggest;
use clap::{ArgMatches, Command};
use std::alloc::{AllocError, Global};
use std::io::{BufReader, Read, Write};
use std::rt::Files;
use stream_timeline::TimelineFault;
use stream_tool::{Report, Tool, Usage};

/// The tool `view`.
///
/// Its exit status is:
///
/// - 0: the picture was written, or help was printed.
/// - 2: the arguments are wrong, or the file can't be opened. The run is not there, a read failed,
///   the stream has no message, a line is too long, or there are too many lines or steps.
/// - 3: memory was refused, or the output could not be written.
///
/// An error is reported at once on standard error. Nothing is reported where the reader of the
/// output is gone. After an error, the rest of the input is read, so that SIGPIPE does not stop its
/// writer.
///
/// Where several runs were drawn as one, their number is reported after the picture, with the option
/// that takes one of them.
#[derive(Clone, Copy)]
pub struct View {
    /// Whether the output is a terminal that should show colours.
    pub is_colour_wanted: bool,
}

impl Tool for View {
    type Settings = Settings;

    type Answer = Result<Drawn, PictureFault>;

    ghost arguments = { arguments };

    ghost gives = { λ view _ _. HasViewed view.is_colour_wanted };

    ghost reads_on = { is_err };

    ghost is_quiet = { IsQuiet };

    ghost most_status = { 3 };

    fn command<'a>(alloc: Global) -> Result<Command<'a>, AllocError> {
        command(alloc)
    }

    fn conflict(alloc: Global, words: &[String], matches: &ArgMatches<'_>) -> Option<Usage> {
        conflict(alloc, words, matches)
    }

    fn settings_of(alloc: Global, matches: &ArgMatches<'_>) -> Result<Settings, AllocError> {
        settings_of(alloc, matches)
    }

    fn file(settings: &Settings) -> Option<&str> {
        settings.file()
    }

    fn reads_on(answer: Result<Drawn, PictureFault>) -> bool {
        answer.is_err()
    }

    fn without_memory<F: Files>(&self, _files: &F) -> Result<Drawn, PictureFault> {
        Err(PictureFault::NoTimeline(TimelineFault::Memory))
    }

    fn run<F: Files, R: Read, W: Write, E: Write>(
        &self,
        _files: &F,
        alloc: Global,
        settings: &Settings,
        reader: &mut BufReader<R>,
        out: &mut W,
        faults: &mut E,
    ) -> Report<Result<Drawn, PictureFault>> {
        match draw_input(alloc, settings, self.is_colour_wanted, reader, out) {
            Ok(drawn) => {
                suggest(faults, drawn);
                Report {
                    status: 0,
                    answer: Ok(drawn),
                }
            }
            Err(fault) => Report {
                status: refuse(alloc, faults, settings, fault),
                answer: Err(fault),
            },
        }
    }
}
