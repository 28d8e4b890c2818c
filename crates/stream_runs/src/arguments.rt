//! The option `--run`, which takes one run of an input.

ghost use Rattle.std.specs.Prelude.{◌≡◌, false};
ghost use Rattle.clap.specs.Matches.{found_of};
ghost use Rattle.clap.specs.Walk.{rows_of, rule_of};
ghost use Rattle.stream_runs.specs.Arguments.{is_run_wrong, run_rule, stated_run};
ghost use Rattle.stream_tool.specs.Refused.{IsConflict, IsRefusal};

use crate::choice::{RunChoice, run_named};
use clap::{Arg, ArgMatches};
use std::alloc::{AllocError, Global};
use stream_tool::Usage;
use term_text::escape_controls;

/// Defines `--run RUN`.
pub fn run_option<'a>(alloc: Global) -> Arg<'a>
    ensures { (rule_of result ≡ run_rule) × (result.global ≡ false) }
{
    Arg::new(alloc, "run").long("run").value_name("RUN").help(
        "Take one run of Terraform of several in the input: its number, or last",
    )
}

/// Returns the run that the arguments state. `None` if they state none.
pub fn run_of(matches: &ArgMatches<'_>) -> Option<RunChoice>
    ensures { result ≡ stated_run (rows_of (found_of matches.now)) }
{
    match matches.get_str("run") {
        Some(word) => run_named(word),
        None => None,
    }
}

/// Returns why the arguments are refused, where the value of `--run` names no run.
pub fn run_refusal(alloc: Global, matches: &ArgMatches<'_>) -> Option<Usage>
    ensures { IsConflict (is_run_wrong (rows_of (found_of matches.now))) result }
{
    match matches.get_str("run") {
        Some(word) => match run_named(word) {
            Some(_) => None,
            None => Some(wrong_run(alloc, word)),
        },
        None => None,
    }
}

/// The message about a word that names no run.
fn wrong_run(alloc: Global, word: &str) -> Usage
    ensures { IsRefusal result }
{
    match wrong_run_text(alloc, word) {
        Ok(text) => Usage::Words(text),
        Err(_) => Usage::Memory,
    }
}

/// The text about a word that names no run. `Err` where memory is refused.
fn wrong_run_text(alloc: Global, word: &str) -> Result<String, AllocError> {
    let word = escape_controls(alloc, word.as_bytes())?;
    format!(in alloc;
        "error: invalid value '{word}' for '--run <RUN>': it is neither a number from 1 nor last\n\nFor more information, try '--help'.\n"
    )
}
