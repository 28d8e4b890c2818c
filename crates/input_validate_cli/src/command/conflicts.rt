//! Options of `validate` that do not go with the command.

ghost use Rattle.std.specs.Prelude.{◌≡◌, codes, is_some};
ghost use Rattle.std.specs.Option.{option_map_or};
ghost use Rattle.clap.specs.Matches.{found_of};
ghost use Rattle.clap.specs.Walk.{first_of, rows_of};
ghost use Rattle.stream_tool.specs.Refused.{IsConflict, IsRefusal};
ghost use Rattle.input_validate_cli.specs.CommandLine.{are_conflicting, names_own_form};

use crate::command::arguments::planned_form;
use clap::ArgMatches;
use std::alloc::Global;
use stream_tool::Usage;

/// Printed where `--form applystream` is given with `--command` `plan`, `apply` or `destroy`.
const FORM: &str = "applystream: --command takes --form terraform\n";

/// Printed where `--refresh` is given without one of these commands.
const REFRESH: &str = "applystream: --refresh takes --command plan, apply or destroy\n";

/// Returns why accepted arguments are refused: an option does not go with the command. The texts
/// are those of a run.
pub(crate) fn conflict(alloc: Global, matches: &ArgMatches<'_>) -> Option<Usage>
    ensures { IsConflict (are_conflicting (rows_of (found_of matches.now))) result }
{
    if planned_form(matches).is_some() {
        if names_own_form(matches) {
            return Some(refusal(alloc, FORM));
        }
    } else if names_refresh(matches) {
        return Some(refusal(alloc, REFRESH));
    }
    None
}

/// Whether `--form applystream` is given.
fn names_own_form(matches: &ArgMatches<'_>) -> bool
    ensures { result ≡ names_own_form (rows_of (found_of matches.now)) }
{
    match matches.get_str("form") {
        Some(word) => word == "applystream",
        None => false,
    }
}

/// Whether `--refresh` is given.
fn names_refresh(matches: &ArgMatches<'_>) -> bool
    ensures { result ≡ is_some (first_of (codes "refresh") (rows_of (found_of matches.now))) }
{
    match matches.get_str("refresh") {
        Some(_) => true,
        None => false,
    }
}

/// The refusal with this text.
fn refusal(alloc: Global, text: &str) -> Usage
    ensures { IsRefusal result }
{
    match String::from_str(alloc, text) {
        Ok(text) => Usage::Words(text),
        Err(_) => Usage::Memory,
    }
}
