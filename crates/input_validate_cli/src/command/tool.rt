//! `validate` as a tool.

ghost use Rattle.std.specs.Prelude.{false};
ghost use Rattle.input_validate_cli.specs.CommandLine.{arguments};
ghost use Rattle.input_validate_cli.specs.Validated.{HasValidated, IsQuiet};

use crate::command::arguments::{Settings, command, settings_of};
use crate::command::conflicts::conflict;
use crate::command::inputs::read_inputs;
use crate::command::refusals::refuse_input;
use crate::command::validate_fault::ValidateFault;
use crate::command::validating::validate;
use clap::{ArgMatches, Command};
use std::alloc::{AllocError, Global};
use std::io::{BufReader, Read, Write};
use std::rt::Files;
use stream_tool::{Report, Tool, Usage};

/// The tool `validate`: lists the errors of a plan and a script. The plan is read from standard
/// input.
///
/// The exit status is:
/// - 0 without findings.
/// - 1 where there are only warnings.
/// - 2 where a run with these options refuses the plan or the script, or an input can't be read.
/// - 3 where memory is refused, or the output can't be written.
#[derive(Clone, Copy)]
pub struct Validate;

impl Tool for Validate {
    type Settings = Settings;

    type Answer = Result<(), ValidateFault>;

    ghost arguments = { arguments };

    ghost gives = { λ tool File remaining. HasValidated remaining };

    ghost reads_on = { λ answer. false };

    ghost is_quiet = { IsQuiet };

    ghost most_status = { 3 };

    fn command<'a>(alloc: Global) -> Result<Command<'a>, AllocError> {
        command(alloc)
    }

    fn conflict(alloc: Global, _words: &[String], matches: &ArgMatches<'_>) -> Option<Usage> {
        conflict(alloc, matches)
    }

    fn settings_of(alloc: Global, matches: &ArgMatches<'_>) -> Result<Settings, AllocError> {
        settings_of(alloc, matches)
    }

    fn file(_settings: &Settings) -> Option<&str> {
        None
    }

    fn reads_on(_answer: Result<(), ValidateFault>) -> bool {
        false
    }

    fn without_memory<F: Files>(&self, _files: &F) -> Result<(), ValidateFault> {
        Err(ValidateFault::Memory)
    }

    fn run<F: Files, R: Read, W: Write, E: Write>(
        &self,
        files: &F,
        alloc: Global,
        settings: &Settings,
        reader: &mut BufReader<R>,
        out: &mut W,
        faults: &mut E,
    ) -> Report<Result<(), ValidateFault>> {
        match read_inputs(files, alloc, settings, reader) {
            Ok(inputs) => validate(
                alloc,
                settings.form,
                settings.lanes,
                &inputs.plan.bytes,
                inputs.script_bytes(),
                inputs.sizes(),
                out,
                faults,
            ),
            Err(fault) => refuse_input(alloc, faults, settings.script_name(), fault),
        }
    }
}
