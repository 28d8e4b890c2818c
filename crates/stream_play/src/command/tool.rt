//! The tool `play`.

ghost use Rattle.stream_play.specs.CommandLine.{HasPlayed, IsQuiet, arguments, is_fault};

use crate::command::arguments::{command, settings_of};
use crate::command::choosing::play_input;
use crate::command::refusals::{refuse, send_on};
use crate::command::settings::Settings;
use crate::play_fault::PlayFault;
use clap::{ArgMatches, Command};
use std::alloc::{AllocError, Global};
use std::io::{BufReader, Read, Write};
use std::rt::Files;
use std::time::Clock;
use stream_runs::run_refusal;
use stream_tool::{Report, Tool, Usage};

/// The tool `play`, which waits by this clock.
///
/// Its exit status is:
///
/// - 0: the whole stream was written, or help was printed.
/// - 2: the arguments are refused, the file can't be opened, the run is not there, a read failed, or
///   a line is too long.
/// - 3: memory was refused, or the output could not be written.
///
/// A fault is reported at once on standard error. Lines before the fault are flushed first. Nothing
/// is reported where the reader of the output is gone.
#[derive(Clone, Copy)]
pub struct Play<'a, C> {
    pub clock: &'a C,
}

impl<C: Clock> Tool for Play<'_, C> {
    type Settings = Settings;

    type Answer = Result<(), PlayFault>;

    ghost arguments = { arguments };

    ghost gives = { λ _ _ _. HasPlayed };

    ghost reads_on = { is_fault };

    ghost is_quiet = { IsQuiet };

    ghost most_status = { 3 };

    fn command<'a>(alloc: Global) -> Result<Command<'a>, AllocError> {
        command(alloc)
    }

    fn conflict(alloc: Global, _words: &[String], matches: &ArgMatches<'_>) -> Option<Usage> {
        run_refusal(alloc, matches)
    }

    fn settings_of(alloc: Global, matches: &ArgMatches<'_>) -> Result<Settings, AllocError> {
        settings_of(alloc, matches)
    }

    fn file(settings: &Settings) -> Option<&str> {
        settings.file()
    }

    fn reads_on(answer: Result<(), PlayFault>) -> bool {
        answer.is_err()
    }

    fn without_memory<F: Files>(&self, _files: &F) -> Result<(), PlayFault> {
        Err(PlayFault::Memory)
    }

    fn run<F: Files, R: Read, W: Write, E: Write>(
        &self,
        _files: &F,
        alloc: Global,
        settings: &Settings,
        reader: &mut BufReader<R>,
        out: &mut W,
        faults: &mut E,
    ) -> Report<Result<(), PlayFault>> {
        match play_input(alloc, self.clock, settings, reader, out) {
            Ok(()) => Report {
                status: 0,
                answer: Ok(()),
            },
            Err(fault) => {
                send_on(out, fault);
                Report {
                    status: refuse(alloc, faults, settings.file(), fault),
                    answer: Err(fault),
                }
            }
        }
    }
}
