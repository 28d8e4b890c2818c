//! The arguments of the command.

ghost use Rattle.std.specs.Prelude.{◌≡◌, false, IfOk, IfSome, codes};
ghost use Rattle.clap.specs.Matches.{found_of};
ghost use Rattle.clap.specs.Simple.{app_of};
ghost use Rattle.clap.specs.Walk.{one_of, rows_of, rule_of};
ghost use Rattle.stream_play.specs.CommandLine.{AreStated, IsSpeed, command_line, speed_rule};

use crate::command::settings::Settings;
use crate::speed::Speed;
use clap::{Arg, ArgMatches, Command, value_parser};
use std::alloc::{AllocError, Global};
use stream_runs::{run_of, run_option};
use stream_tool::{FIND, file, file_of, flag, is_given, with_option};

const ABOUT: &str =
    "Writes a stream of `terraform apply -json` line by line, unchanged, each line at its own time.

Standard input: the stream, unless FILE is named. It is read to its end, so that the program that writes it is never stopped.
Standard output: the same bytes; with --find the messages, a line each.
Standard error: errors.";

const AFTER: &str = r#"Example of a stream in its own time:
  applystream --parallelism 10 --script script.json < plan.json | applystream play | my-dashboard

Example of an hour in a minute:
  applystream play --speed 60 stream.jsonl | my-dashboard

Example of the messages in a job's log, at once:
  applystream play --find --speed 86400 job.log > stream.jsonl

Exit status:
  0  the whole stream was written; or help was printed
  2  wrong options, no such run, a file or a stream that can't be read, or a line that is too long
  3  out of memory, or the output could not be written"#;

/// Defines the options and their help. `Err` where memory is refused.
pub(crate) fn command<'a>(alloc: Global) -> Result<Command<'a>, AllocError>
    ensures { IfOk result (λ command. app_of command ≡ command_line) }
{
    let line = Ok(
        Command::new(alloc, "applystream play")
            .no_binary_name(true)
            .about(ABOUT)
            .after_help(AFTER),
    );
    let line = with_option(line, speed(alloc));
    let line = with_option(line, flag(alloc, "find", FIND));
    let line = with_option(line, run_option(alloc));
    with_option(line, file(alloc))
}

/// Defines `--speed N`.
fn speed<'a>(alloc: Global) -> Arg<'a>
    ensures { (rule_of result ≡ speed_rule) × (result.global ≡ false) }
{
    Arg::new(alloc, "speed")
        .long("speed")
        .value_name("N")
        .value_parser(value_parser!(u32).range(1..=86400))
        .default_value("1")
        .help("How many times as fast, 1 to 86400")
}

/// Returns the settings of parsed arguments. `Err` where memory is refused.
pub(crate) fn settings_of(alloc: Global, matches: &ArgMatches<'_>) -> Result<Settings, AllocError>
    ensures { IfOk result (AreStated (rows_of (found_of matches.now))) }
{
    let file = file_of(alloc, matches)?;
    Ok(Settings {
        speed: speed_of(matches),
        find: is_given(matches, "find"),
        run: run_of(matches),
        file,
    })
}

/// Returns the speed. The parser has checked the range, so `Speed::new` does not change the number.
fn speed_of(matches: &ArgMatches<'_>) -> Speed
    ensures { IfSome (one_of (codes "speed") (rows_of (found_of matches.now))) (λ text. IsSpeed text result) }
{
    Speed::new(matches.get_one::<u32>("speed").unwrap_or(1))
}
