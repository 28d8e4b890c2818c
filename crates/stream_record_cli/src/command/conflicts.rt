//! Options of `record` that exclude each other.

ghost use Rattle.std.specs.Prelude.{◌≡◌, codes};
ghost use Rattle.clap.specs.Matches.{found_of};
ghost use Rattle.clap.specs.Walk.{rows_of};
ghost use Rattle.stream_record_cli.specs.CommandLine.{are_conflicting, are_exclusive, has_value, is_named, is_stream_standard, share_standard_input};
ghost use Rattle.stream_tool.specs.Refused.{IsConflict, IsRefusal};

use crate::command::arguments::{begins, command_of, only_plan};
use clap::{ArgMatches, Command};
use std::alloc::{AllocError, Global};
use stream_runs::run_refusal;
use stream_tool::{Usage, matches_of};

/// Printed where two inputs are standard input.
const SHARED: &str =
    "error: standard input is given twice: only one of the plan, the graph and the stream can be read from it\n\nFor more information, try '--help'.\n";

/// Returns why the arguments are refused, where options were given that exclude each other, two
/// inputs are standard input, or the value of `--run` names no run.
pub(crate) fn conflict(alloc: Global, words: &[String], matches: &ArgMatches<'_>) -> Option<Usage>
    ensures { IsConflict (are_conflicting (rows_of (found_of matches.now))) result }
{
    if are_exclusive(matches) {
        Some(conflict_usage(alloc, words))
    } else if share_standard_input(matches) {
        Some(shared(alloc))
    } else {
        run_refusal(alloc, matches)
    }
}

/// The message about options that exclude each other. A second parser, with rules for such
/// conflicts, makes it. `clap` states the result of parsing only for commands without such rules,
/// so the first parser has none.
fn conflict_usage(alloc: Global, words: &[String]) -> Usage
    ensures { IsRefusal result }
{
    let Ok(command) = strict_command(alloc) else {
        return Usage::Memory;
    };
    match matches_of(alloc, command, words) {
        Err(Usage::Words(text)) => Usage::Words(text),
        _ => Usage::Memory,
    }
}

/// The command with rules for options that exclude each other. `Err` where memory is refused.
fn strict_command<'a>(alloc: Global) -> Result<Command<'a>, AllocError> {
    let begins = begins(alloc).requires_arg("graph")?;
    let only_plan = only_plan(alloc)
        .conflicts_with("begins")?
        .conflicts_with("find")?
        .conflicts_with("run")?
        .conflicts_with("file")?;
    command_of(alloc, begins, only_plan)
}

/// The message about two inputs that are standard input.
fn shared(alloc: Global) -> Usage
    ensures { IsRefusal result }
{
    match String::from_str(alloc, SHARED) {
        Ok(text) => Usage::Words(text),
        Err(_) => Usage::Memory,
    }
}

/// Whether options were given that exclude each other.
fn are_exclusive(matches: &ArgMatches<'_>) -> bool
    ensures { result ≡ are_exclusive (rows_of (found_of matches.now)) }
{
    is_set(matches, "begins") && !is_named(matches, "graph")
        || is_set(matches, "only-plan")
            && (is_set(matches, "begins")
                || is_set(matches, "find")
                || is_named(matches, "run")
                || is_named(matches, "file"))
}

/// Whether two inputs are standard input.
fn share_standard_input(matches: &ArgMatches<'_>) -> bool
    ensures { result ≡ share_standard_input (rows_of (found_of matches.now)) }
{
    let plan = is_standard(matches, "plan");
    let graph = is_standard(matches, "graph");
    plan && graph || is_stream_standard(matches) && (plan || graph)
}

/// Whether the stream is read from standard input.
fn is_stream_standard(matches: &ArgMatches<'_>) -> bool
    ensures { result ≡ is_stream_standard (rows_of (found_of matches.now)) }
{
    !is_set(matches, "only-plan") && (!is_named(matches, "file") || is_standard(matches, "file"))
}

/// Whether the option has a value.
fn is_named(matches: &ArgMatches<'_>, option: &str) -> bool
    ensures { result ≡ is_named option.now (rows_of (found_of matches.now)) }
{
    match matches.get_str(option) {
        Some(_) => true,
        None => false,
    }
}

/// Whether a flag is set.
fn is_set(matches: &ArgMatches<'_>, option: &str) -> bool
    ensures { result ≡ has_value option.now (codes "true") (rows_of (found_of matches.now)) }
{
    has_value(matches, option, "true")
}

/// Whether an option names standard input.
fn is_standard(matches: &ArgMatches<'_>, option: &str) -> bool
    ensures { result ≡ has_value option.now (codes "-") (rows_of (found_of matches.now)) }
{
    has_value(matches, option, "-")
}

/// Whether the option has that value.
fn has_value(matches: &ArgMatches<'_>, option: &str, value: &str) -> bool
    ensures { result ≡ has_value option.now value.now (rows_of (found_of matches.now)) }
{
    match matches.get_str(option) {
        Some(given) => given == value,
        None => false,
    }
}
