//! The options that name the command of Terraform, and what goes with it.

ghost use Rattle.std.specs.Prelude.{◌≡◌, false};
ghost use Rattle.clap.specs.Matches.{found_of};
ghost use Rattle.clap.specs.Walk.{rows_of, rule_of};
ghost use Rattle.apply_cli_args.specs.CommandLine.{IsOneOf, command_rule, command_words, refresh_rule, refresh_words};
ghost use Rattle.apply_cli_args.specs.Given.{command_of_word, form_of_word, misplaced_with, stated_command, stated_form, stated_refresh};

use crate::arguments::{is_given, option_named};
use crate::misplaced::Misplaced;
use apply_text_terraform::{Command, Form};
use clap::{Arg, ArgMatches};
use std::alloc::Global;

/// The names of the commands.
static COMMANDS: [&str; 4] = ["saved", "plan", "apply", "destroy"];

/// The values of `--refresh`.
static REFRESHES: [&str; 2] = ["true", "false"];

pub(crate) fn command_option<'a>(alloc: Global) -> Arg<'a>
    ensures { (commands : _) × IsOneOf command_words commands
        × (rule_of result ≡ command_rule commands)
        × (result.global ≡ false) }
{
    let help =
        "The command of Terraform: saved applies a saved plan; plan, apply and destroy make their plan first, and imply --form terraform";
    option_named(alloc, "command", "COMMAND", help)
        .value_parser(COMMANDS.as_slice())
        .default_value("saved")
}

pub(crate) fn refresh_option<'a>(alloc: Global) -> Arg<'a>
    ensures { (refreshes : _) × IsOneOf refresh_words refreshes
        × (rule_of result ≡ refresh_rule refreshes)
        × (result.global ≡ false) }
{
    let help =
        "Whether the plan is made with a refresh: false as with `terraform plan -refresh=false`. Only with --command plan, apply or destroy";
    option_named(alloc, "refresh", "WHETHER", help)
        .value_parser(REFRESHES.as_slice())
        .default_value("true")
}

/// Returns the command that is stated, or `Command::Saved`.
pub(crate) fn command_of(matches: &ArgMatches<'_>) -> Command
    ensures { result ≡ stated_command (rows_of (found_of matches.now)) }
{
    match matches.get_str("command") {
        Some(word) => command_named(word),
        None => Command::Saved,
    }
}

/// Returns the command with that name. The parser accepts only four names.
fn command_named(word: &str) -> Command
    ensures { result ≡ command_of_word word.now }
{
    match word {
        "plan" => Command::Plan,
        "apply" => Command::Apply,
        "destroy" => Command::Destroy,
        _ => Command::Saved,
    }
}

/// Whether objects are refreshed; `true` if nothing is stated.
pub(crate) fn refresh_of(matches: &ArgMatches<'_>) -> bool
    ensures { result ≡ stated_refresh (rows_of (found_of matches.now)) }
{
    match matches.get_str("refresh") {
        Some(word) => word == "true",
        None => true,
    }
}

/// Returns the form of the command's stream: that of Terraform, or for a saved plan the form that
/// is stated, `Form::Applystream` if none is.
pub(crate) fn form_of(command: Command, matches: &ArgMatches<'_>) -> Form
    ensures { result ≡ stated_form command (rows_of (found_of matches.now)) }
{
    match command {
        Command::Saved => match matches.get_str("form") {
            Some(word) => form_named(word),
            None => Form::Applystream,
        },
        _ => Form::Terraform,
    }
}

/// Returns the form with that name. The parser accepts only two names.
fn form_named(word: &str) -> Form
    ensures { result ≡ form_of_word word.now }
{
    match word {
        "terraform" => Form::Terraform,
        _ => Form::Applystream,
    }
}

/// Returns the first option that does not go with the command.
pub(crate) fn misplaced_with(command: Command, matches: &ArgMatches<'_>) -> Option<Misplaced>
    ensures { result ≡ misplaced_with command (rows_of (found_of matches.now)) }
{
    if command == Command::Saved {
        if is_given(matches, "refresh") {
            Some(Misplaced::Refresh)
        } else {
            None
        }
    } else if is_given(matches, "form") && form_of(Command::Saved, matches) == Form::Applystream {
        Some(Misplaced::Form)
    } else if is_given(matches, "destroy") {
        Some(Misplaced::Destroy)
    } else {
        None
    }
}
