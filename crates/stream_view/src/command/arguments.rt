//! The arguments of the command line.

ghost use Rattle.std.specs.Prelude.{◌≡◌, None, Some, false, true, IfOk, IfSome, codes};
ghost use Rattle.clap.specs.Faults.{is_simple_and_free};
ghost use Rattle.clap.specs.Matches.{found_of};
ghost use Rattle.clap.specs.Simple.{app_of, is_simple};
ghost use Rattle.clap.specs.Walk.{one_of, rows_of as matched_rows, rule_of};
ghost use Rattle.stream_view.specs.CommandLine.{AreRowsStated, AreStated, IsCommand, IsFormButSvg, IsFormForPeople, IsNumber, TakesColours, TakesSorts, colour_of_word, colour_rule, sort_of_word, sort_rule, stated_colour, stated_sort, number_named, option_named, rows_of_form, width_rule};
ghost use Rattle.stream_tool.specs.Words.{flag_rule};
ghost use Rattle.stream_view.specs.declared.command.settings.Form.TheVariants as form;

use crate::command::form::form_of;
use crate::command::settings::{Form, Settings};
use crate::row_choice::{RowChoice, Sort};
use clap::{Arg, ArgMatches, Command, value_parser};
use std::alloc::{AllocError, Global};
use stream_runs::{run_of, run_option};
use stream_tool::{FIND, file, file_of, flag, is_given, with_option};

/// The values of `--color`.
static COLOURS: [&str; 3] = ["auto", "always", "never"];

/// The values of `--sort`.
static SORTS: [&str; 2] = ["begin", "length"];

/// How many steps get a row by default, in a text and in an SVG.
const TEXT_ROWS: u32 = 40;

const SVG_ROWS: u32 = 200;

const ABOUT: &str =
    "Draws where the time of an apply went: which steps ran when, which ran at once, and what failed.

Standard input: the stream of `terraform apply -json`, whole or cut off, unless FILE is named. It is read to its end.
Standard output: the picture, as text, or as SVG with --svg. One JSON object with --json, Markdown with --markdown.
Standard error: errors, and a line where several runs were drawn as one.";

const AFTER: &str = r#"Example:
  applystream view stream.jsonl

Example of a picture to keep with the stream:
  applystream view --svg stream.jsonl > stream.svg

Example of a comment on a pull request:
  applystream view --markdown stream.jsonl | gh pr comment --body-file -

Example of what a program compares:
  applystream view --json stream.jsonl | jq '.steps | max_by(.length)'

Example of a job's log:
  applystream view --find job.log

Exit status:
  0  the picture was written; or help was printed
  2  wrong options, no such run, a file or a stream that can't be read, or a stream without a message
  3  out of memory, or the output could not be written"#;

/// Defines the options and their help. `Err` where memory is refused.
pub(crate) fn command<'a>(alloc: Global) -> Result<Command<'a>, AllocError>
    ensures is { IfOk result (λ command. IsCommand (app_of command)) }
    ensures simple { IfOk result (λ command. is_simple (app_of command) ≡ true) }
    ensures free { IfOk result (λ command. is_simple_and_free (app_of command) ≡ true) }
{
    command_of(alloc, svg(alloc), json(alloc), markdown(alloc), all(alloc))
}

/// The command with these options and the others. `Err` where memory is refused.
pub(crate) fn command_of<'a>(
    alloc: Global,
    svg: Arg<'a>,
    json: Arg<'a>,
    markdown: Arg<'a>,
    all: Arg<'a>,
) -> Result<Command<'a>, AllocError>
    ensures { rule_of svg.entry ≡ flag_rule (codes "svg") → svg.entry.global ≡ false
        → rule_of json.entry ≡ flag_rule (codes "json") → json.entry.global ≡ false
        → rule_of markdown.entry ≡ flag_rule (codes "markdown") → markdown.entry.global ≡ false
        → rule_of all.entry ≡ flag_rule (codes "all") → all.entry.global ≡ false
        → IfOk result (λ command. IsCommand (app_of command)) }
{
    let line = Ok(
        Command::new(alloc, "applystream view")
            .no_binary_name(true)
            .about(ABOUT)
            .after_help(AFTER),
    );
    let line = with_option(line, svg);
    let line = with_option(line, json);
    let line = with_option(line, markdown);
    let line = with_option(line, rows(alloc));
    let line = with_option(line, all);
    let line = with_option(line, sort(alloc));
    let line = with_option(line, width(alloc));
    let line = with_option(line, color(alloc));
    let line = with_option(line, flag(alloc, "find", FIND));
    let line = with_option(line, run_option(alloc));
    with_option(line, file(alloc))
}

/// The option `--NAME VALUE` with its help.
fn option<'a>(alloc: Global, name: &'a str, value: &'a str, help: &'a str) -> Arg<'a>
    ensures { (rule_of result ≡ option_named name.entry.now) × (result.global ≡ false) }
{
    Arg::new(alloc, name)
        .long(name)
        .value_name(value)
        .help(help)
}

pub(crate) fn svg<'a>(alloc: Global) -> Arg<'a>
    ensures { (rule_of result ≡ flag_rule (codes "svg")) × (result.global ≡ false) }
{
    flag(alloc, "svg", "Draw an SVG in place of text")
}

pub(crate) fn json<'a>(alloc: Global) -> Arg<'a>
    ensures { (rule_of result ≡ flag_rule (codes "json")) × (result.global ≡ false) }
{
    flag(
        alloc,
        "json",
        "Print one JSON object of the time line in place of text",
    )
}

pub(crate) fn markdown<'a>(alloc: Global) -> Arg<'a>
    ensures { (rule_of result ≡ flag_rule (codes "markdown")) × (result.global ≡ false) }
{
    flag(
        alloc,
        "markdown",
        "Print the comment of a pull request in place of text",
    )
}

pub(crate) fn all<'a>(alloc: Global) -> Arg<'a>
    ensures { (rule_of result ≡ flag_rule (codes "all")) × (result.global ≡ false) }
{
    flag(alloc, "all", "Give every step a row")
}

fn rows<'a>(alloc: Global) -> Arg<'a>
    ensures { (rule_of result ≡ number_named (codes "rows") 1 100000) × (result.global ≡ false) }
{
    let help = "The most steps that get a row, 1 to 100000 [default: 40, with --svg 200]";
    option(alloc, "rows", "N", help).value_parser(value_parser!(u32).range(1..=100000))
}

fn sort<'a>(alloc: Global) -> Arg<'a>
    ensures { (sorts : _) × TakesSorts sorts × (rule_of result ≡ sort_rule sorts) × (result.global ≡ false) }
{
    let help = "The order of the rows; length: the longest steps get them, the longest first";
    option(alloc, "sort", "ORDER", help)
        .value_parser(SORTS.as_slice())
        .default_value("begin")
}

fn width<'a>(alloc: Global) -> Arg<'a>
    ensures { (rule_of result ≡ width_rule) × (result.global ≡ false) }
{
    let help = "The width of the text in columns, 60 to 400";
    option(alloc, "width", "N", help)
        .value_parser(value_parser!(u32).range(60..=400))
        .default_value("120")
}

fn color<'a>(alloc: Global) -> Arg<'a>
    ensures { (colours : _) × TakesColours colours × (rule_of result ≡ colour_rule colours) × (result.global ≡ false) }
{
    let help = "When the text has colours; auto: on a terminal, unless NO_COLOR has a value";
    option(alloc, "color", "WHEN", help)
        .value_parser(COLOURS.as_slice())
        .default_value("auto")
}

/// Returns the settings of parsed arguments. `Err` where memory is refused.
pub(crate) fn settings_of(alloc: Global, matches: &ArgMatches<'_>) -> Result<Settings, AllocError>
    ensures { IfOk result (AreStated (matched_rows (found_of matches.now))) }
{
    let file = file_of(alloc, matches)?;
    let form = form_of(matches);
    Ok(Settings {
        form,
        rows: RowChoice {
            sort: sort_of(matches),
            limit: rows_of(matches, form),
        },
        find: is_given(matches, "find"),
        run: run_of(matches),
        file,
    })
}

/// The order of the rows.
fn sort_of(matches: &ArgMatches<'_>) -> Sort
    ensures { result ≡ stated_sort (matched_rows (found_of matches.now)) }
{
    match matches.get_str("sort") {
        Some(choice) => sort_named(choice),
        None => Sort::Begin,
    }
}

/// The meaning of a value of `--sort`. The parser accepts only two values.
fn sort_named(choice: &str) -> Sort
    ensures { result ≡ sort_of_word choice.now }
{
    match choice {
        "length" => Sort::Length,
        _ => Sort::Begin,
    }
}

/// The greatest number of rows; `None` if all steps get one.
fn rows_of(matches: &ArgMatches<'_>, form: Form) -> Option<usize>
    ensures all { one_of (codes "all") (matched_rows (found_of matches.now)) ≡ Some (codes "true") → result ≡ None }
    ensures limit { one_of (codes "all") (matched_rows (found_of matches.now)) ≡ Some (codes "false")
        → AreRowsStated (matched_rows (found_of matches.now)) form result }
{
    if is_given(matches, "all") {
        None
    } else {
        Some(count_of(matches, form) as usize)
    }
}

/// The greatest number of rows, given or by default. The parser has checked the number, so the
/// bounds here don't change it.
fn count_of(matches: &ArgMatches<'_>, form: Form) -> u32
    ensures stated { IfSome (one_of (codes "rows") (matched_rows (found_of matches.now))) (λ text. IsNumber 1 100000 text result) }
    ensures none { one_of (codes "rows") (matched_rows (found_of matches.now)) ≡ None → result ≡ rows_of_form form }
{
    matches
        .get_one::<u32>("rows")
        .unwrap_or(rows_in(form))
        .clamp(1, 100_000)
}

/// The greatest number of rows by default.
fn rows_in(form: Form) -> u32
    ensures { result ≡ rows_of_form form }
{
    match form {
        Form::Text { .. } | Form::Json | Form::Markdown => TEXT_ROWS,
        Form::Svg => SVG_ROWS,
    }
}
