//! Options of a command.

ghost use Rattle.std.specs.Prelude.{◌≡◌, Some, false, true, IfOk, codes};
ghost use Rattle.clap.specs.Matches.{found_of};
ghost use Rattle.clap.specs.Simple.{App, app_of, with_rule};
ghost use Rattle.clap.specs.Walk.{Rule, one_of, rows_of, rule_of};
ghost use Rattle.stream_tool.specs.Words.{flag_rule};

use clap::{Arg, ArgAction, ArgMatches, Command};
use std::alloc::{AllocError, Global};

/// The help text of `--find`, which every tool that reads a stream has.
pub const FIND: &str = "Find the messages in the lines of a log, and ignore the other lines";

/// Adds an option to the command. Taking a `Result` lets a list of options
/// return once, and not once for each option.
///
/// `Err` where memory is refused, or was refused before.
pub fn with_option<'a>(
    command: Result<Command<'a>, AllocError>,
    option: Arg<'a>,
) -> Result<Command<'a>, AllocError>
    ensures { (app : App) (rule : Rule) → IfOk command.entry (λ without. app_of without ≡ app)
        → rule_of option.entry ≡ rule → option.entry.global ≡ false
        → IfOk result (λ with. app_of with ≡ with_rule app rule) }
{
    match command {
        Ok(command) => command.arg(option),
        Err(refused) => Err(refused),
    }
}

/// Defines `--NAME`, an option without a value, with its help text.
pub fn flag<'a>(alloc: Global, name: &'a str, help: &'a str) -> Arg<'a>
    ensures { (rule_of result ≡ flag_rule name.entry.now) × (result.global ≡ false) }
{
    Arg::new(alloc, name)
        .long(name)
        .action(ArgAction::SetTrue)
        .help(help)
}

/// Whether the option `--NAME` is given.
pub fn is_given(matches: &ArgMatches<'_>, name: &str) -> bool
    ensures yes { one_of name.now (rows_of (found_of matches.now)) ≡ Some (codes "true") → result ≡ true }
    ensures no { one_of name.now (rows_of (found_of matches.now)) ≡ Some (codes "false") → result ≡ false }
{
    matches.get_flag(name)
}
