//! `record` as a tool.

ghost use Rattle.std.specs.Prelude.{◌≡◌, ◌≤◌, ◌⊎◌, Err, false};
ghost use Rattle.std.specs.Io.Buffered.{reader_remaining};
ghost use Rattle.std.specs.Io.KnownBytes.{Keeps};
ghost use Rattle.stream_record_cli.specs.CommandLine.{arguments};
ghost use Rattle.stream_record_cli.specs.Tools.{HasRecorded, HasRecordedStream, IsQuiet};

use crate::command::arguments::{command, settings_of};
use crate::command::conflicts::conflict;
use crate::command::inputs::{Inputs, read_inputs};
use crate::command::plan_alone::record_plan;
use crate::command::recording::record_stream;
use crate::command::refusals::refuse_input;
use crate::command::settings::Settings;
use crate::record_fault::RecordFault;
use clap::{ArgMatches, Command};
use input_files::InputFault;
use std::alloc::{AllocError, Global};
use std::fs;
use std::io::{BufReader, Read, Write};
use std::rt::Files;
use stream_tool::{Report, Tool, Usage, flush_and_drain, refuse_memory};

/// How many bytes one read of the stream's file asks for.
const BUFFER_LEN: usize = 65_536;

/// The tool `record`: writes the script of an apply's stream, or of a plan alone.
///
/// The exit status is:
/// - 0 where the script was written, or help was printed.
/// - 1 where the script was written, and warnings were printed.
/// - 2 where the arguments, the plan, the graph or the stream are refused, an input can't be read,
///   or the script would be too large.
/// - 3 where memory is refused, or the output can't be written.
#[derive(Clone, Copy)]
pub struct Record {
    /// Whether standard input is a terminal, where nobody waits for it to be read to its end.
    pub is_terminal: bool,
}

impl Tool for Record {
    type Settings = Settings;

    type Answer = Result<(), RecordFault>;

    ghost arguments = { arguments };

    ghost gives = { λ tool File remaining. HasRecorded remaining };

    ghost reads_on = { λ answer. false };

    ghost is_quiet = { IsQuiet };

    ghost most_status = { 3 };

    fn command<'a>(alloc: Global) -> Result<Command<'a>, AllocError> {
        command(alloc)
    }

    fn conflict(alloc: Global, words: &[String], matches: &ArgMatches<'_>) -> Option<Usage> {
        conflict(alloc, words, matches)
    }

    fn settings_of(alloc: Global, matches: &ArgMatches<'_>) -> Result<Settings, AllocError> {
        settings_of(alloc, matches)
    }

    fn file(_settings: &Settings) -> Option<&str> {
        None
    }

    fn reads_on(_answer: Result<(), RecordFault>) -> bool {
        false
    }

    fn without_memory<F: Files>(&self, _files: &F) -> Result<(), RecordFault> {
        Err(RecordFault::Memory)
    }

    fn run<F: Files, R: Read, W: Write, E: Write>(
        &self,
        files: &F,
        alloc: Global,
        settings: &Settings,
        reader: &mut BufReader<R>,
        out: &mut W,
        faults: &mut E,
    ) -> Report<Result<(), RecordFault>> {
        let report = record_inputs(files, alloc, settings, reader, out, faults);
        // Who writes the stream is never stopped.
        let is_awaited = report.answer.is_err()
            && settings.reads_stream_from_input()
            && !self.is_terminal;
        let _ = flush_and_drain(is_awaited, reader, faults);
        report
    }
}

/// Reads the plan, the graph and the stream, and writes the script.
fn record_inputs<F: Files, R: Read, W: Write, E: Write>(
    files: &F,
    alloc: Global,
    settings: &Settings,
    reader: &mut BufReader<R>,
    out: &mut W,
    faults: &mut E,
) -> Report<Result<(), RecordFault>>
    ensures gives { HasRecorded F.File.remaining settings.now (reader_remaining R.remaining reader.old)
        (W.contents out.old) (W.contents out.new) result.answer result.status }
    ensures quiet { IsQuiet result.answer result.status → Keeps (E.contents faults.old) (E.contents faults.new) }
    ensures statuses { result.status ≤ 3 }
{
    match read_inputs(files, alloc, settings, reader) {
        Ok(inputs) => if settings.only_plan {
            record_plan(alloc, &inputs.plan.bytes, inputs.graph_bytes(), out, faults)
        } else {
            record_apply(files, alloc, settings, &inputs, reader, out, faults)
        },
        Err(unread) => {
            let name = settings.name_of(unread.is_graph);
            unread_input(alloc, name, unread.fault, faults)
        }
    }
}

/// Reads the stream, and writes its script.
fn record_apply<F: Files, R: Read, W: Write, E: Write>(
    files: &F,
    alloc: Global,
    settings: &Settings,
    inputs: &Inputs,
    reader: &mut BufReader<R>,
    out: &mut W,
    faults: &mut E,
) -> Report<Result<(), RecordFault>>
    ensures gives { HasRecordedStream F.File.remaining settings.now inputs.now (reader_remaining R.remaining reader.old)
        (W.contents out.old) (W.contents out.new) result.answer result.status }
    ensures quiet { IsQuiet result.answer result.status → Keeps (E.contents faults.old) (E.contents faults.new) }
    ensures statuses { result.status ≤ 3 }
{
    let Some(name) = settings.file_name() else {
        return record_stream(
            alloc,
            &inputs.plan.bytes,
            inputs.graph_bytes(),
            settings.choice(),
            None,
            reader,
            out,
            faults,
        );
    };
    match fs::open(files, name) {
        Ok(file) => {
            let Ok(mut reader) = BufReader::with_capacity(alloc, BUFFER_LEN, file) else {
                return Report {
                    status: refuse_memory(faults),
                    answer: Err(RecordFault::Memory),
                };
            };
            let report = record_stream(
                alloc,
                &inputs.plan.bytes,
                inputs.graph_bytes(),
                settings.choice(),
                Some(name),
                &mut reader,
                out,
                faults,
            );
            let _ = flush_and_drain(report.answer.is_err(), &mut reader, faults);
            report
        }
        Err(error) => unread_input(alloc, name, InputFault::Unopened(error), faults),
    }
}

/// Prints why the input of that name was not read.
fn unread_input<E: Write>(
    alloc: Global,
    name: &str,
    fault: InputFault,
    faults: &mut E,
) -> Report<Result<(), RecordFault>>
    ensures answer { result.answer ≡ Err (RecordFault.Input fault) }
    ensures status { (result.status ≡ 2) ⊎ (result.status ≡ 3) }
{
    Report {
        status: refuse_input(alloc, faults, name, fault),
        answer: Err(RecordFault::Input(fault)),
    }
}
