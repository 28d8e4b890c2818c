//! Reads the whole command line.

ghost use Rattle.std.specs.Prelude.{◌≡◌, IfOk, IfErr, IfSome, None, map, string_bytes, true};
ghost use Rattle.clap.specs.Matches.{found_of};
ghost use Rattle.clap.specs.Walk.{rows_of};
ghost use Rattle.apply_events.specs.Lanes.{AreLanes};
ghost use Rattle.apply_cli_args.specs.CommandLine.{asks_for_now, IsParallelism, IsNoInvocation, WereRefused};
ghost use Rattle.apply_cli_args.specs.Invocation.{HaveInvoked, IsInRange, IsInvoked};

use crate::arguments::{asks_for_now, command, is_conflict, settings_of, usage_of};
use crate::present::present_start;
use crate::settings::Settings;
use crate::terraform_command::{command_of, form_of, misplaced_with, refresh_of};
use crate::usage::Usage;
use apply_events::MAX_LANES;
use apply_text::Start;
use apply_text_terraform::{Command, Form};
use clap::ArgMatches;
use std::alloc::Global;
use std::time::Clock;

/// All that the command line asks for.
#[derive(Debug, Drop)]
pub struct Invocation {
    /// The settings of the apply.
    pub settings: Settings,
    /// How many changes run at once in the stream's own time, 1 to 64. If it is given, the
    /// settings' workers and queue are ignored.
    pub parallelism: Option<u8>,
    /// The form of the stream. If none is given, it is `Form::Applystream` for a saved plan, else
    /// `Form::Terraform`.
    pub form: Form,
    /// The command of Terraform whose stream is printed; `Command::Saved` if none is given. For
    /// each other command the form is `Form::Terraform`.
    pub command: Command,
    /// Whether objects are refreshed while the plan is made; `true` for a saved plan.
    pub refresh: bool,
}

/// Reads the arguments after the program's name. The clock is read only for `--at now`.
///
/// `Err` with `Usage::Help` if help is asked for, and with `Usage::Version` if the version is. Else
/// `Err` with `Usage::Words` if an argument is not one of this program. Else `Err` with
/// `Usage::Conflict` if `--parallelism` is given with `--workers` or `--queue`. Else `Err` with
/// `Usage::Misplaced` if an option does not go with the command. Else `Err` with `Usage::Clock` if
/// the start is `now` and the clock gives none. Else `Err` with `Usage::Moment` if the start is not
/// a timestamp. Else `Err` with `Usage::Hooks` if there are more than 32 halts.
///
/// `Err` with `Usage::Memory` if memory is refused.
pub fn read_invocation<C: Clock>(
    clock: &C,
    alloc: Global,
    words: &[String],
) -> Result<Invocation, Usage>
    ensures in_range { IfOk result IsInRange }
    ensures stated { IfOk result (HaveInvoked (map string_bytes words.now)) }
    ensures refused { IfErr result (WereRefused (map string_bytes words.now)) }
{
    let command = command(alloc)?;
    match command.try_get_matches_from(words) {
        Ok(matches) => invocation_of(clock, alloc, &matches),
        Err(error) => Err(usage_of(alloc, words, &error)?),
    }
}

/// Returns the invocation that the matches state.
fn invocation_of<C: Clock>(
    clock: &C,
    alloc: Global,
    matches: &ArgMatches<'_>,
) -> Result<Invocation, Usage>
    ensures in_range { IfOk result IsInRange }
    ensures stated { IfOk result (IsInvoked (rows_of (found_of matches.now))) }
    ensures refused { IfErr result (IsNoInvocation (rows_of (found_of matches.now))) }
{
    if is_conflict(matches) {
        return Err(Usage::Conflict);
    }
    let command = command_of(matches);
    if let Some(misplaced) = misplaced_with(command, matches) {
        return Err(Usage::Misplaced(misplaced));
    }
    let Some(now) = now_for(clock, matches) else {
        return Err(Usage::Clock);
    };
    match settings_of(alloc, Some(now), command, matches) {
        Ok(settings) => Ok(Invocation {
            settings,
            parallelism: parallelism_of(matches),
            form: form_of(command, matches),
            command,
            refresh: refresh_of(matches),
        }),
        Err(usage) => Err(usage),
    }
}

/// Returns the start for which `now` stands: the present if the matches ask for it, and any start
/// otherwise. `None` if they ask for it and the clock gives none.
fn now_for<C: Clock>(clock: &C, matches: &ArgMatches<'_>) -> Option<Start>
    ensures { result ≡ None → asks_for_now (rows_of (found_of matches.now)) ≡ true }
{
    if asks_for_now(matches) {
        present_start(clock)
    } else {
        Some(Start::zero())
    }
}

/// Returns how many changes run at once, if `--parallelism` is given. The parser has tested the
/// number, so clamping does not change it.
fn parallelism_of(matches: &ArgMatches<'_>) -> Option<u8>
    ensures in_range { IfSome result AreLanes }
    ensures stated { IsParallelism (rows_of (found_of matches.now)) result }
{
    match matches.get_one::<u8>("parallelism") {
        Some(lanes) => Some(lanes.clamp(1, MAX_LANES)),
        None => None,
    }
}
