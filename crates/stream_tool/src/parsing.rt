//! Parses arguments.

ghost use Rattle.std.specs.Prelude.{◌≡◌, [], true, IfErr, IfOk, map, string_bytes};
ghost use Rattle.clap.specs.Faults.{fault_of, is_simple_and_free};
ghost use Rattle.clap.specs.Matches.{found_of};
ghost use Rattle.clap.specs.Simple.{App, app_of, is_simple, matches_of};
ghost use Rattle.clap.specs.Values.{kind_of};
ghost use Rattle.clap.specs.Walk.{rows_of};
ghost use Rattle.stream_tool.specs.Words.{Answers, WereRefused};

use crate::usage::Usage;
use clap::error::ErrorKind;
use clap::{ArgMatches, Command};
use std::alloc::{AllocError, Global};

/// Parses the arguments by the options of the command.
///
/// `Err` with `Usage::Help` where they ask for help, with `Usage::Words` where they do not fit, and
/// with `Usage::Memory` where memory is refused.
pub fn matches_of<'a>(
    alloc: Global,
    command: Command<'a>,
    words: &'a [String],
) -> Result<ArgMatches<'a>, Usage>
    ensures stated { (app : App) → app_of command.entry ≡ app → is_simple app ≡ true → is_simple_and_free app ≡ true
        → IfOk result (λ matches. (fault_of app (map string_bytes words.entry.now) ≡ [])
        × (rows_of (found_of matches) ≡ matches_of app (map string_bytes words.entry.now))) }
    ensures refused { (app : App) → app_of command.entry ≡ app → is_simple_and_free app ≡ true
        → IfErr result (WereRefused app (map string_bytes words.entry.now)) }
{
    match command.try_get_matches_from(words) {
        Ok(matches) => Ok(matches),
        Err(error) => Err(usage_of(alloc, &error)?),
    }
}

/// Turns an error of the parser into an answer. `Err` where memory is refused.
fn usage_of(alloc: Global, error: &clap::Error) -> Result<Usage, AllocError>
    ensures { IfOk result (Answers (kind_of error.now)) }
{
    if error.kind() == ErrorKind::OutOfMemory {
        return Ok(Usage::Memory);
    }
    let text = format!(in alloc; "{error}")?;
    if error.kind() == ErrorKind::DisplayHelp {
        Ok(Usage::Help(text))
    } else {
        Ok(Usage::Words(text))
    }
}
