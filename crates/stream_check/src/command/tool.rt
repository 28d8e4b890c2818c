//! The tool `check`.

ghost use Rattle.stream_check.specs.CommandLine.{HasChecked, IsQuiet, arguments, is_fault};

use crate::command::arguments::{command, conflict, settings_of};
use crate::command::checked::Checked;
use crate::command::keeping::check_and_keep;
use crate::command::settings::Settings;
use crate::command::status::exit_status;
use crate::verdict::read_fault::ReadFault;
use clap::{ArgMatches, Command};
use std::alloc::{AllocError, Global};
use std::io::{BufReader, Read, Write};
use std::rt::Files;
use stream_tool::{Report, Tool, Usage};

/// The tool `check`.
///
/// Its exit status is:
///
/// - 0: the stream is whole and reports no error, or help was printed.
/// - 1: the stream is whole and reports an error.
/// - 2: the arguments are refused, the file can't be opened, the run is not there, or the stream has
///   too many lines or could not be read.
/// - 3: memory was refused, or the output could not be written.
/// - 4: the stream is not whole.
///
/// The totals of a whole stream go to the output. So does a finding as an object; as a text it goes
/// to standard error. Nothing is reported where the reader of the output is gone.
#[derive(Clone, Copy)]
pub struct Check;

impl Tool for Check {
    type Settings = Settings;

    type Answer = Checked;

    ghost arguments = { arguments };

    ghost gives = { λ _ _ _. HasChecked };

    ghost reads_on = { is_fault };

    ghost is_quiet = { IsQuiet };

    ghost most_status = { 4 };

    fn command<'a>(alloc: Global) -> Result<Command<'a>, AllocError> {
        command(alloc)
    }

    fn conflict(alloc: Global, words: &[String], matches: &ArgMatches<'_>) -> Option<Usage> {
        conflict(alloc, words, matches)
    }

    fn settings_of(alloc: Global, matches: &ArgMatches<'_>) -> Result<Settings, AllocError> {
        settings_of(alloc, matches)
    }

    fn file(settings: &Settings) -> Option<&str> {
        settings.file()
    }

    fn reads_on(answer: Checked) -> bool {
        answer.verdict.is_err()
    }

    fn without_memory<F: Files>(&self, _files: &F) -> Checked {
        Checked {
            verdict: Err(ReadFault::Memory),
            reported: Ok(()),
        }
    }

    fn run<F: Files, R: Read, W: Write, E: Write>(
        &self,
        files: &F,
        alloc: Global,
        settings: &Settings,
        reader: &mut BufReader<R>,
        out: &mut W,
        faults: &mut E,
    ) -> Report<Checked> {
        let answer = check_and_keep(files, alloc, settings, reader, out, faults);
        Report {
            status: exit_status(answer.verdict, answer.reported),
            answer,
        }
    }
}
