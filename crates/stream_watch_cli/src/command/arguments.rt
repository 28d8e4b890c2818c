//! The arguments of the command.

ghost use Rattle.std.specs.Prelude.{◌≡◌, None, Some, false, true, IfOk, IfSome, codes};
ghost use Rattle.clap.specs.Faults.{is_simple_and_free};
ghost use Rattle.clap.specs.Matches.{found_of};
ghost use Rattle.clap.specs.Simple.{app_of, is_simple};
ghost use Rattle.clap.specs.Walk.{one_of, rows_of, rule_of};
ghost use Rattle.stream_watch_cli.specs.CommandLine.{AreStated, IsCommand, IsWidth, TakesWhens, stated_when, when_of_word, when_rule, width_rule};

use crate::command::settings::Settings;
use crate::command::when::When;
use clap::{Arg, ArgMatches, Command, value_parser};
use std::alloc::{AllocError, Global};
use stream_check::Mode;
use stream_tool::{FIND, file, file_of, flag, is_given, with_option};

/// The values of `--color` and `--panel`.
static WHENS: [&str; 3] = ["auto", "always", "never"];

const ABOUT: &str =
    "Shows an apply to people while it is under way: a line for each begin, end and diagnostic, and at its end whether the stream is whole.

Standard input: the stream of `terraform apply -json`, unless FILE is named. It is read to its end, so that the program that writes it is never stopped.
Standard output: the lines, and the verdict of `applystream check` as the last one.
Standard error: only why there is no verdict.";

const AFTER: &str = r#"Example in a job:
  terraform apply -json tfplan | tee -p stream.jsonl | applystream watch

Example at a terminal, where Ctrl-C stops Terraform alone:
  terraform apply -json tfplan | (trap '' INT; tee -p stream.jsonl | applystream watch)

Example of a stream that was kept:
  applystream watch stream.jsonl

Exit status:
  0  the stream is whole and reports no error; or help was printed
  1  the stream is whole and reports an error
  2  the stream was not watched to its end: wrong options, or a file or a stream that can't be read
  3  out of memory, or the output could not be written
  4  the stream is not whole"#;

const PLAN: &str =
    "Accept a stream of `terraform plan -json` too, which ends with the plan's summary";

/// Defines the options and their help. `Err` where memory is refused.
pub(crate) fn command<'a>(alloc: Global) -> Result<Command<'a>, AllocError>
    ensures is { IfOk result (λ command. IsCommand (app_of command)) }
    ensures simple { IfOk result (λ command. is_simple (app_of command) ≡ true) }
    ensures free { IfOk result (λ command. is_simple_and_free (app_of command) ≡ true) }
{
    let line = Ok(
        Command::new(alloc, "applystream watch")
            .no_binary_name(true)
            .about(ABOUT)
            .after_help(AFTER),
    );
    let line = with_option(line, flag(alloc, "find", FIND));
    let line = with_option(line, flag(alloc, "plan", PLAN));
    let line = with_option(line, width(alloc));
    let line = with_option(line, color(alloc));
    let line = with_option(line, panel(alloc));
    with_option(line, file(alloc))
}

/// Defines `--width N`.
fn width<'a>(alloc: Global) -> Arg<'a>
    ensures { (rule_of result ≡ width_rule) × (result.global ≡ false) }
{
    Arg::new(alloc, "width")
        .long("width")
        .value_name("N")
        .value_parser(value_parser!(u32).range(60..=400))
        .help("The most columns of a line, 60 to 400 [default: a line is as long as it is]")
}

/// Defines `--color WHEN`.
fn color<'a>(alloc: Global) -> Arg<'a>
    ensures { (words : _) × TakesWhens words × (rule_of result ≡ when_rule (codes "color") words) × (result.global ≡ false) }
{
    Arg::new(alloc, "color")
        .long("color")
        .value_name("WHEN")
        .value_parser(WHENS.as_slice())
        .default_value("auto")
        .help(
            "When the lines have colours; auto: on a terminal, unless NO_COLOR has a value or TERM is dumb",
        )
}

/// Defines `--panel WHEN`.
fn panel<'a>(alloc: Global) -> Arg<'a>
    ensures { (words : _) × TakesWhens words × (rule_of result ≡ when_rule (codes "panel") words) × (result.global ≡ false) }
{
    Arg::new(alloc, "panel")
        .long("panel")
        .value_name("WHEN")
        .value_parser(WHENS.as_slice())
        .default_value("auto")
        .help(
            "When a panel below the lines shows what is under way; auto: on a terminal, unless TERM is absent, empty or dumb. It needs 40 columns and 8 rows",
        )
}

/// Returns the settings of parsed arguments. `Err` where memory is refused.
pub(crate) fn settings_of(alloc: Global, matches: &ArgMatches<'_>) -> Result<Settings, AllocError>
    ensures { IfOk result (AreStated (rows_of (found_of matches.now))) }
{
    let file = file_of(alloc, matches)?;
    Ok(Settings {
        mode: Mode {
            find: is_given(matches, "find"),
            plan: is_given(matches, "plan"),
            lines_before: 0,
        },
        width: width_of(matches),
        colour: when_of(matches, "color"),
        panel: when_of(matches, "panel"),
        file,
    })
}

/// Returns the greatest number of columns, where one is given. The parser has checked the number,
/// so the bounds here don't change it.
fn width_of(matches: &ArgMatches<'_>) -> Option<usize>
    ensures stated { IfSome (one_of (codes "width") (rows_of (found_of matches.now))) (λ text. IsWidth text result) }
    ensures none { one_of (codes "width") (rows_of (found_of matches.now)) ≡ None → result ≡ None }
{
    match matches.get_one::<u32>("width") {
        Some(width) => Some(width.clamp(60, 400) as usize),
        None => None,
    }
}

/// Returns what the option of that name chooses.
fn when_of(matches: &ArgMatches<'_>, option: &str) -> When
    ensures { result ≡ stated_when option.now (rows_of (found_of matches.now)) }
{
    match matches.get_str(option) {
        Some(choice) => when_named(choice),
        None => When::Auto,
    }
}

/// The meaning of a value of `--color` or `--panel`. The parser accepts only three values.
fn when_named(choice: &str) -> When
    ensures { result ≡ when_of_word choice.now }
{
    match choice {
        "always" => When::Always,
        "never" => When::Never,
        _ => When::Auto,
    }
}
