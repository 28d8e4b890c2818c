//! Options that exclude each other.

ghost use Rattle.std.specs.Prelude.{◌≡◌};
ghost use Rattle.clap.specs.Matches.{found_of};
ghost use Rattle.clap.specs.Walk.{rows_of as matched_rows};
ghost use Rattle.stream_tool.specs.Refused.{IsConflict, IsRefusal};
ghost use Rattle.stream_view.specs.CommandLine.{are_conflicting, are_exclusive, is_given, is_json_conflicting, is_markdown_conflicting};

use crate::command::arguments::{all, command_of, json, markdown, svg};
use clap::parser::ValueSource;
use clap::{ArgMatches, Command};
use std::alloc::{AllocError, Global};
use stream_runs::run_refusal;
use stream_tool::{Usage, matches_of};

/// Returns why the arguments are refused, where options were given that exclude each other, or the
/// value of `--run` names no run.
pub(crate) fn conflict(alloc: Global, words: &[String], matches: &ArgMatches<'_>) -> Option<Usage>
    ensures { IsConflict (are_conflicting (matched_rows (found_of matches.now))) result }
{
    if are_exclusive(matches) {
        Some(conflict_usage(alloc, words))
    } else {
        run_refusal(alloc, matches)
    }
}

/// The message about options that exclude each other. A second parser, with rules for such
/// conflicts, makes it. `clap` states the result of parsing only for commands without such rules,
/// so the first parser has none.
fn conflict_usage(alloc: Global, words: &[String]) -> Usage
    ensures { IsRefusal result }
{
    let Ok(command) = strict_command(alloc) else {
        return Usage::Memory;
    };
    match matches_of(alloc, command, words) {
        Err(Usage::Words(text)) => Usage::Words(text),
        _ => Usage::Memory,
    }
}

/// The command with rules for options that exclude each other. `Err` where memory is refused.
fn strict_command<'a>(alloc: Global) -> Result<Command<'a>, AllocError> {
    let svg = svg(alloc).conflicts_with("width")?.conflicts_with("color")?;
    let json = json(alloc)
        .conflicts_with("svg")?
        .conflicts_with("rows")?
        .conflicts_with("all")?
        .conflicts_with("sort")?
        .conflicts_with("width")?
        .conflicts_with("color")?;
    let markdown = markdown(alloc)
        .conflicts_with("svg")?
        .conflicts_with("json")?
        .conflicts_with("width")?
        .conflicts_with("color")?;
    let all = all(alloc).conflicts_with("rows")?;
    command_of(alloc, svg, json, markdown, all)
}

/// Whether options were given that exclude each other.
fn are_exclusive(matches: &ArgMatches<'_>) -> bool
    ensures { result ≡ are_exclusive (matched_rows (found_of matches.now)) }
{
    stands(matches, "svg") && (stands(matches, "width") || stands(matches, "color"))
        || is_json_conflicting(matches)
        || is_markdown_conflicting(matches)
        || stands(matches, "all") && stands(matches, "rows")
}

/// Whether an object was asked for, and an option of pictures was given.
fn is_json_conflicting(matches: &ArgMatches<'_>) -> bool
    ensures { result ≡ is_json_conflicting (matched_rows (found_of matches.now)) }
{
    stands(matches, "json")
        && (stands(matches, "svg")
            || stands(matches, "rows")
            || stands(matches, "all")
            || stands(matches, "sort")
            || stands(matches, "width")
            || stands(matches, "color"))
}

/// Whether Markdown was asked for, and another output or an option for texts only was given.
fn is_markdown_conflicting(matches: &ArgMatches<'_>) -> bool
    ensures { result ≡ is_markdown_conflicting (matched_rows (found_of matches.now)) }
{
    stands(matches, "markdown")
        && (stands(matches, "svg")
            || stands(matches, "json")
            || stands(matches, "width")
            || stands(matches, "color"))
}

/// Whether the option was given on the command line.
fn stands(matches: &ArgMatches<'_>, option: &str) -> bool
    ensures { result ≡ is_given option.now (matched_rows (found_of matches.now)) }
{
    match matches.value_source(option) {
        Some(ValueSource::CommandLine) => true,
        Some(ValueSource::DefaultValue) => false,
        None => false,
    }
}
