//! The arguments of the command.

ghost use Rattle.std.specs.Prelude.{◌≡◌, Some, IfOk, codes, false, option_map, string_bytes};
ghost use Rattle.clap.specs.Matches.{found_of};
ghost use Rattle.clap.specs.Simple.{app_of};
ghost use Rattle.clap.specs.Walk.{first_of, one_of, rows_of, rule_of};
ghost use Rattle.stream_check.specs.CommandLine.{AreStated, command_line, are_conflicting, is_write_alone, write_rule};
ghost use Rattle.stream_tool.specs.Refused.{IsConflict, IsRefusal};
ghost use Rattle.stream_check.specs.declared.command.settings.Form.TheVariants as forms;

use crate::command::settings::{Form, Settings};
use crate::rules::mode::Mode;
use clap::{Arg, ArgMatches, Command};
use std::alloc::{AllocError, Global};
use stream_runs::{run_of, run_option, run_refusal};
use stream_tool::{FIND, Usage, file, file_of, flag, is_given, matches_of, with_option};

const ABOUT: &str =
    "Reports whether a stream of `terraform apply -json` is whole: each step starts and ends once, in order, and the totals agree.

Standard input: the stream, one JSON object a line, unless FILE is named. It is read to its end, so that the program that writes it is never stopped.
Standard output: the totals of a whole stream; with --json the verdict.
Standard error: the first line that is wrong, and why; with --json only why there is no verdict.";

const AFTER: &str = r#"Example, while Terraform writes the stream, at a terminal or in a job:
  terraform apply -json tfplan | (trap '' INT; tee -p stream.jsonl | applystream check)

Example of a job's log:
  applystream check --find job.log

Example of a job's log, whose messages go into a file too:
  applystream check --find --write stream.jsonl job.log

Example of the last of several runs in a log:
  applystream check --find --run last job.log

Example of a stream that was cut off:
  $ applystream check stream.jsonl
  applystream: line 4 comes before all has ended and each failure is explained: create of null_resource.a since line 2

Exit status:
  0  the stream is whole and reports no error; or help was printed
  1  the stream is whole and reports an error
  2  the stream was not checked: wrong options, no such run, a file or a stream that can't be read, or a file that can't be created
  3  out of memory, or the output or the file of --write could not be written
  4  the stream is not whole"#;

const JSON: &str = "Print the verdict as a JSON object, on standard output";

const PLAN: &str =
    "Accept a stream of `terraform plan -json` too, which ends with the plan's summary";

/// Defines the options and their help. `Err` where memory is refused.
pub(crate) fn command<'a>(alloc: Global) -> Result<Command<'a>, AllocError>
    ensures { IfOk result (λ command. app_of command ≡ command_line) }
{
    command_of(alloc, write_option(alloc))
}

/// The command with this option `--write` and the others. `Err` where memory is refused.
fn command_of<'a>(alloc: Global, write: Arg<'a>) -> Result<Command<'a>, AllocError>
    ensures { rule_of write.entry ≡ write_rule → write.entry.global ≡ false
        → IfOk result (λ command. app_of command ≡ command_line) }
{
    let line = Ok(
        Command::new(alloc, "applystream check")
            .no_binary_name(true)
            .about(ABOUT)
            .after_help(AFTER),
    );
    let line = with_option(line, flag(alloc, "json", JSON));
    let line = with_option(line, flag(alloc, "find", FIND));
    let line = with_option(line, write);
    let line = with_option(line, flag(alloc, "plan", PLAN));
    let line = with_option(line, run_option(alloc));
    with_option(line, file(alloc))
}

/// Returns the settings of parsed arguments. `Err` where memory is refused.
pub(crate) fn settings_of(alloc: Global, matches: &ArgMatches<'_>) -> Result<Settings, AllocError>
    ensures { IfOk result (AreStated (rows_of (found_of matches.now))) }
{
    let file = file_of(alloc, matches)?;
    Ok(Settings {
        mode: Mode {
            find: is_given(matches, "find"),
            plan: is_given(matches, "plan"),
            lines_before: 0,
        },
        run: run_of(matches),
        write: write_of(alloc, matches)?,
        form: form_of(matches),
        file,
    })
}

/// Defines `--write FILE`.
fn write_option<'a>(alloc: Global) -> Arg<'a>
    ensures { (rule_of result ≡ write_rule) × (result.global ≡ false) }
{
    Arg::new(alloc, "write")
        .long("write")
        .value_name("NEW")
        .help("With --find: write all messages that are found into the new file NEW, a line each")
}

/// Returns the file for the messages. `Err` where memory is refused.
fn write_of(alloc: Global, matches: &ArgMatches<'_>) -> Result<Option<String>, AllocError>
    ensures { IfOk result (λ write. option_map string_bytes write ≡ first_of (codes "write") (rows_of (found_of matches.now))) }
{
    match matches.get_str("write") {
        Some(name) => Ok(Some(String::from_str(alloc, name)?)),
        None => Ok(None),
    }
}

/// Returns why accepted arguments are refused: `--write` stands without `--find`, or the value of
/// `--run` names no run.
pub(crate) fn conflict(alloc: Global, words: &[String], matches: &ArgMatches<'_>) -> Option<Usage>
    ensures { IsConflict (are_conflicting (rows_of (found_of matches.now))) result }
{
    if is_write_alone(matches) {
        Some(write_refusal(alloc, words))
    } else {
        run_refusal(alloc, matches)
    }
}

/// Whether `--write` is given without `--find`.
fn is_write_alone(matches: &ArgMatches<'_>) -> bool
    ensures { result ≡ is_write_alone (rows_of (found_of matches.now)) }
{
    match (matches.get_str("write"), matches.get_str("find")) {
        (Some(_), Some(word)) => word != "true",
        (Some(_), None) => true,
        _ => false,
    }
}

/// The message about `--write` without `--find`. A second parser, with a rule for this, makes it.
/// `clap` states the result of parsing only for commands without such rules, so the first parser has
/// none.
fn write_refusal(alloc: Global, words: &[String]) -> Usage
    ensures { IsRefusal result }
{
    let Ok(command) = strict_command(alloc) else {
        return Usage::Memory;
    };
    match matches_of(alloc, command, words) {
        Err(Usage::Words(text)) => Usage::Words(text),
        _ => Usage::Memory,
    }
}

/// The command with a rule for `--write`. `Err` where memory is refused.
fn strict_command<'a>(alloc: Global) -> Result<Command<'a>, AllocError> {
    command_of(alloc, write_option(alloc).requires_arg("find")?)
}

/// Returns the form of the verdict.
fn form_of(matches: &ArgMatches<'_>) -> Form
    ensures json { one_of (codes "json") (rows_of (found_of matches.now)) ≡ Some (codes "true") → result ≡ forms.Json }
    ensures text { one_of (codes "json") (rows_of (found_of matches.now)) ≡ Some (codes "false") → result ≡ forms.Text }
{
    if is_given(matches, "json") {
        Form::Json
    } else {
        Form::Text
    }
}
