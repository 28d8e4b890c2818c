//! The options of the command line, and the settings that they state.

ghost use Rattle.std.specs.Prelude.{◌≡◌, ◌≤◌, ◌∷◌, [], Some, false, Ok, IfOk, IfErr, IfSome, codes, map, string_bytes};
ghost use Rattle.clap.specs.Matches.{found_of};
ghost use Rattle.clap.specs.Simple.{App, app_of, with_rule};
ghost use Rattle.clap.specs.Values.{kind_of};
ghost use Rattle.clap.specs.Walk.{Rule, first_of, one_of, rows_of, rule_of};
ghost use Rattle.apply_cli_args.specs.CommandLine as spec;
ghost use Rattle.apply_cli_args.specs.CommandLine.{Answers, AreStatedSettings, HaveStatedSettings, IsNumber, IsOneOf, AreNoSettings, StateNoSettings};
ghost use Rattle.apply_cli_args.specs.CommandLine.{start_read, stated_halts, stated_start, kind_of_word};
ghost use Rattle.apply_cli_args.specs.Given.{is_conflict, is_given, operation_of};
ghost use Rattle.apply_cli_args.specs.Settings.{AreInRange};

use crate::halt::Halt;
use crate::settings::Settings;
use crate::terraform_command::{command_option, refresh_option};
use crate::tips::push_tip;
use crate::usage::Usage;
use crate::version::VERSION;
use apply_hooks::MAX_HOOKS;
use apply_model::{StepKind, Text};
use apply_text::{MomentError, Operation, Start};
use apply_text_terraform::Command as TerraformCommand;
use clap::error::ErrorKind;
use clap::parser::ValueSource;
use clap::{Arg, ArgAction, ArgMatches, Command, value_parser};
use std::alloc::{AllocError, Global};

/// The names of the kinds of steps.
static KINDS: [&str; 4] = ["create", "update", "delete", "read"];

/// The names of the forms.
static FORMS: [&str; 2] = ["applystream", "terraform"];

const ABOUT: &str =
    "Prints the messages of `terraform apply -json` for a saved plan, or those of `plan`, `apply` or `destroy` without one. Nothing is applied.

Standard input: the plan, as `terraform show -json PLANFILE` prints it: at most 10,000 changes and 64 MiB.
Standard output: the messages, one JSON object a line.
Standard error: errors.

Tools for a stream of such messages, each with its own --help:
  applystream check     reports whether a stream is whole
  applystream watch     shows an apply to people while it is under way
  applystream view      draws a stream, as text or SVG
  applystream play      writes a stream in its own time, or faster
  applystream record    makes a script of a real apply, to tell it again
And for a plan and a script:
  applystream validate  lists every error of both";

const AFTER: &str = r#"Example, with ten changes at once, a start time and a script:
  terraform show -json tfplan | applystream --parallelism 10 --at 2024-05-01T12:00:00Z --script script.json

Example of a script: a takes 12 seconds and gets an id, b starts after a and fails after 4 seconds, every other step succeeds at once:
  {"changes":[{"address":"null_resource.a","steps":[{"seconds":12,"id":"7"}]},
              {"address":"null_resource.b","steps":[{"seconds":4,"after":["null_resource.a"],"failed":{"summary":"boom"}}]}]}

Exit status:
  0  all messages were written, and no step failed or was halted; or help or the version was printed
  1  all messages were written, and a step failed or was halted; with --form terraform also where they report an error of no step
  2  the options, the plan or the script were refused or could not be read: no message was written
  3  out of memory, no thread, no clock, or the output could not be written: some messages may have been written"#;

/// Reads the arguments after the program's name, without `--parallelism`, `--form`, `--command` and
/// `--refresh`: the part of `read_invocation` that knows workers only. It reads no clock, so
/// `--at now` is no timestamp.
///
/// `Err` with `Usage::Help` if help is asked for, and with `Usage::Version` if the version is. Else
/// `Err` with `Usage::Words` if an argument is not one of these options. Else `Err` with
/// `Usage::Moment` if the start is not a timestamp. Else `Err` with `Usage::Hooks` if there are
/// more than 32 halts.
///
/// `Err` with `Usage::Memory` if memory is refused.
pub fn read_words(alloc: Global, words: &[String]) -> Result<Settings, Usage>
    ensures in_range { IfOk result AreInRange }
    ensures stated { IfOk result (HaveStatedSettings (map string_bytes words.now)) }
    ensures refused { IfErr result (StateNoSettings (map string_bytes words.now)) }
{
    let command = settings_command(alloc)?;
    match command.try_get_matches_from(words) {
        Ok(matches) => settings_of(alloc, None, TerraformCommand::Saved, &matches),
        Err(error) => Err(usage_of(alloc, words, &error)?),
    }
}

/// All options, with their help. `Err` if memory is refused.
pub(crate) fn command<'a>(alloc: Global) -> Result<Command<'a>, AllocError>
    ensures { (choices : spec.Choices) × spec.AreChoices choices
        × IfOk result (λ command. app_of command ≡ spec.command_line choices) }
{
    let settings = settings_command(alloc);
    let lanes = add(settings, parallelism(alloc));
    let forms = add(lanes, form(alloc));
    let commands = add(forms, command_option(alloc));
    add(commands, refresh_option(alloc))
}

/// The options of the settings, with their help. `Err` if memory is refused.
fn settings_command<'a>(alloc: Global) -> Result<Command<'a>, AllocError>
    ensures { (kinds : _) × IsOneOf spec.kind_words kinds
        × IfOk result (λ command. app_of command ≡ spec.settings_line kinds) }
{
    let line = Ok(
        Command::new(alloc, "applystream")
            .no_binary_name(true)
            .about(ABOUT)
            .version(VERSION)
            .after_help(AFTER),
    );
    let line = add(line, at(alloc));
    let line = add(line, script(alloc));
    let line = add(line, workers(alloc));
    let line = add(line, queue(alloc));
    let line = add(line, destroy(alloc));
    let line = add(line, halt_before(alloc));
    add(line, halt_in(alloc))
}

/// Adds an option to the command, unless memory was refused before. A list of options built with
/// this function has one way out, not one for each option.
fn add<'a>(
    command: Result<Command<'a>, AllocError>,
    option: Arg<'a>,
) -> Result<Command<'a>, AllocError>
    ensures { (app : App) (rule : Rule) → IfOk command.entry (λ without. app_of without ≡ app)
        → rule_of option.entry ≡ rule → option.entry.global ≡ false
        → IfOk result (λ with. app_of with ≡ with_rule app rule) }
{
    match command {
        Ok(command) => command.arg(option),
        Err(refused) => Err(refused),
    }
}

/// An option `--NAME VALUE` with its help.
pub(crate) fn option_named<'a>(
    alloc: Global,
    name: &'a str,
    value: &'a str,
    help: &'a str,
) -> Arg<'a>
    ensures { (rule_of result ≡ spec.option_named name.entry.now) × (result.global ≡ false) }
{
    Arg::new(alloc, name)
        .long(name)
        .value_name(value)
        .help(help)
}

fn at<'a>(alloc: Global) -> Arg<'a>
    ensures { (rule_of result ≡ record (spec.option_named (codes "at")) { defaults = codes "1970-01-01T00:00:00Z" ∷ [] }) × (result.global ≡ false) }
{
    let help =
        "When the first steps start, in whole seconds: 1970-01-01T00:00:00Z to 8999-12-31T23:59:59Z, with any offset, or now";
    option_named(alloc, "at", "MOMENT", help).default_value("1970-01-01T00:00:00Z")
}

fn script<'a>(alloc: Global) -> Arg<'a>
    ensures { (rule_of result ≡ spec.option_named (codes "script")) × (result.global ≡ false) }
{
    let help =
        "A JSON file that says how long each step takes, how it ends and what it waits for, at most 64 MiB. Without it every step succeeds at once";
    option_named(alloc, "script", "FILE", help)
}

fn workers<'a>(alloc: Global) -> Arg<'a>
    ensures { (rule_of result ≡ spec.number_named (codes "workers") 8 (codes "1")) × (result.global ≡ false) }
{
    let help =
        "How many threads apply the changes, 1 to 8. They race: the order between changes may differ from run to run";
    option_named(alloc, "workers", "N", help)
        .value_parser(value_parser!(u8).range(1..=8))
        .default_value("1")
}

fn queue<'a>(alloc: Global) -> Arg<'a>
    ensures { (rule_of result ≡ spec.number_named (codes "queue") 1024 (codes "64")) × (result.global ≡ false) }
{
    let help = "How many messages may wait to be written, 1 to 1024";
    option_named(alloc, "queue", "N", help)
        .value_parser(value_parser!(u16).range(1..=1024))
        .default_value("64")
}

fn destroy<'a>(alloc: Global) -> Arg<'a>
    ensures { (rule_of result ≡ spec.flag_named (codes "destroy")) × (result.global ≡ false) }
{
    Arg::new(alloc, "destroy")
        .long("destroy")
        .action(ArgAction::SetTrue)
        .help("The summary is that of `terraform destroy`")
}

fn halt_before<'a>(alloc: Global) -> Arg<'a>
    ensures { (kinds : _) × IsOneOf spec.kind_words kinds
        × (rule_of result ≡ record (spec.list_named (codes "halt-before")) { parser = Some kinds })
        × (result.global ≡ false) }
{
    let help =
        "Stops every step of this kind before it starts, with a diagnostic, as a hook of Terraform can: to see how a reader takes a step that never starts. Repeatable, 32 halts at most";
    option_named(alloc, "halt-before", "KIND", help)
        .action(ArgAction::Append)
        .value_parser(KINDS.as_slice())
}

fn halt_in<'a>(alloc: Global) -> Arg<'a>
    ensures { (rule_of result ≡ spec.list_named (codes "halt-in")) × (result.global ≡ false) }
{
    let help =
        "Stops every step whose address begins with PREFIX, as module.a, before it starts. Repeatable, 32 halts at most";
    option_named(alloc, "halt-in", "PREFIX", help).action(ArgAction::Append)
}

fn parallelism<'a>(alloc: Global) -> Arg<'a>
    ensures { (rule_of result ≡ spec.parallelism_rule) × (result.global ≡ false) }
{
    let help =
        "How many changes run at once in the stream's own time, 1 to 64, as with `terraform apply -parallelism=N`. The same input gives the same bytes. Not together with --workers or --queue";
    option_named(alloc, "parallelism", "N", help).value_parser(value_parser!(u8).range(1..=64))
}

fn form<'a>(alloc: Global) -> Arg<'a>
    ensures { (forms : _) × IsOneOf spec.form_words forms
        × (rule_of result ≡ spec.form_rule forms)
        × (result.global ≡ false) }
{
    let help =
        "The form of the messages: applystream, or terraform for the bytes of Terraform 1.11";
    option_named(alloc, "form", "FORM", help)
        .value_parser(FORMS.as_slice())
        .default_value("applystream")
}

/// Whether `--parallelism` is given together with `--workers` or `--queue`.
pub(crate) fn is_conflict(matches: &ArgMatches<'_>) -> bool
    ensures { result ≡ is_conflict (rows_of (found_of matches.now)) }
{
    is_given(matches, "parallelism") && (is_given(matches, "workers") || is_given(matches, "queue"))
}

/// Whether the option stands on the command line, so that its value is not the default.
pub(crate) fn is_given(matches: &ArgMatches<'_>, option: &str) -> bool
    ensures { result ≡ is_given option.now (rows_of (found_of matches.now)) }
{
    match matches.value_source(option) {
        Some(ValueSource::CommandLine) => true,
        Some(ValueSource::DefaultValue) => false,
        None => false,
    }
}

/// Returns the settings that the matches state for the command. `now` is the start for which
/// `--at now` stands; without it, `now` is no timestamp. `Err` as `read_words` gives it.
pub(crate) fn settings_of(
    alloc: Global,
    now: Option<Start>,
    command: TerraformCommand,
    matches: &ArgMatches<'_>,
) -> Result<Settings, Usage>
    ensures in_range { IfOk result AreInRange }
    ensures stated { IfOk result (AreStatedSettings now command (rows_of (found_of matches.now))) }
    ensures refused { IfErr result (AreNoSettings now (rows_of (found_of matches.now))) }
{
    let at = match start_of(now, matches) {
        Ok(start) => start,
        Err(error) => return Err(Usage::Moment(error)),
    };
    let halts = halts_of(alloc, matches)?;
    if halts.len() > MAX_HOOKS {
        return Err(Usage::Hooks);
    }
    Ok(Settings {
        at,
        script: script_of(alloc, matches)?,
        workers: workers_of(matches),
        queue: queue_of(matches),
        operation: operation_of(command, matches),
        halts,
    })
}

/// Returns the start that is stated, or the start of 1970. `Err` if the text is not a timestamp.
fn start_of(now: Option<Start>, matches: &ArgMatches<'_>) -> Result<Start, MomentError>
    ensures { result ≡ stated_start now (rows_of (found_of matches.now)) }
{
    match matches.get_str("at") {
        Some(moment) => read_start(now, moment),
        None => Ok(Start::zero()),
    }
}

/// Reads a start, which the text `now` names too if there is a present. `Err` if the text is not a
/// timestamp.
fn read_start(now: Option<Start>, text: &str) -> Result<Start, MomentError>
    ensures { result ≡ start_read now text.now }
{
    match now {
        Some(present) => if text == "now" {
            Ok(present)
        } else {
            Start::read(text)
        },
        None => Start::read(text),
    }
}

/// Whether the start is `now`.
pub(crate) fn asks_for_now(matches: &ArgMatches<'_>) -> bool
    ensures { result ≡ spec.asks_for_now (rows_of (found_of matches.now)) }
{
    match matches.get_str("at") {
        Some(moment) => moment == "now",
        None => false,
    }
}

/// Returns the name of the script's file, if one is given. `Err` if memory is refused.
fn script_of(alloc: Global, matches: &ArgMatches<'_>) -> Result<Option<Text>, AllocError>
    ensures { IfOk result (λ script. script ≡ first_of (codes "script") (rows_of (found_of matches.now))) }
{
    match matches.get_str("script") {
        Some(file) => Ok(Some(Text::new(alloc, file)?)),
        None => Ok(None),
    }
}

/// Returns the number of workers. The parser has tested it, so clamping does not change it.
fn workers_of(matches: &ArgMatches<'_>) -> u8
    ensures in_range { (1 ≤ result) × (result ≤ 8) }
    ensures stated { IfSome (one_of (codes "workers") (rows_of (found_of matches.now)))
        (λ text. IsNumber 8 text result) }
{
    matches.get_one::<u8>("workers").unwrap_or(1).clamp(1, 8)
}

/// Returns how many events may wait. The parser has tested the number, so clamping does not change
/// it.
fn queue_of(matches: &ArgMatches<'_>) -> u16
    ensures in_range { (1 ≤ result) × (result ≤ 1024) }
    ensures stated { IfSome (one_of (codes "queue") (rows_of (found_of matches.now)))
        (λ text. IsNumber 1024 text result) }
{
    matches.get_one::<u16>("queue").unwrap_or(64).clamp(1, 1024)
}

/// Returns what the apply is for: `Destroy` with `--destroy` or the command of that name, else
/// `Apply`.
fn operation_of(command: TerraformCommand, matches: &ArgMatches<'_>) -> Operation
    ensures destroy { one_of (codes "destroy") (rows_of (found_of matches.now)) ≡ Some (codes "true")
        → result ≡ Operation.Destroy }
    ensures otherwise { one_of (codes "destroy") (rows_of (found_of matches.now)) ≡ Some (codes "false")
        → result ≡ operation_of command }
{
    if matches.get_flag("destroy") {
        Operation::Destroy
    } else if command == TerraformCommand::Destroy {
        Operation::Destroy
    } else {
        Operation::Apply
    }
}

/// Returns the halts before kinds of steps, then the halts inside prefixes, both in the order of
/// the command line. `Err` if memory is refused.
fn halts_of(alloc: Global, matches: &ArgMatches<'_>) -> Result<Vec<Halt>, AllocError>
    ensures { IfOk result (λ halts. halts.items ≡ stated_halts (rows_of (found_of matches.now))) }
{
    let mut halts = Vec::new(alloc);
    for kind in matches.get_strs("halt-before").unwrap_or(&[]) {
        halts.push(Halt::Before(step_kind(kind)))?;
    }
    for prefix in matches.get_strs("halt-in").unwrap_or(&[]) {
        halts.push(Halt::Inside(Text::new(alloc, prefix)?))?;
    }
    Ok(halts)
}

/// Returns the kind with that name. The parser accepts only four names.
fn step_kind(word: &str) -> StepKind
    ensures { result ≡ kind_of_word word.now }
{
    match word {
        "create" => StepKind::Create,
        "update" => StepKind::Update,
        "delete" => StepKind::Delete,
        _ => StepKind::Read,
    }
}

/// Returns the usage for an error of the parser. `Err` if memory is refused.
pub(crate) fn usage_of(
    alloc: Global,
    words: &[String],
    error: &clap::Error,
) -> Result<Usage, AllocError>
    ensures { IfOk result (Answers (kind_of error.now)) }
{
    if error.kind() == ErrorKind::OutOfMemory {
        return Ok(Usage::Memory);
    }
    if error.kind() == ErrorKind::DisplayVersion {
        return Ok(Usage::Version);
    }
    let mut text = format!(in alloc; "{error}")?;
    if error.kind() == ErrorKind::DisplayHelp {
        return Ok(Usage::Help(Text::new(alloc, text.as_str())?));
    }
    push_tip(alloc, &mut text, error.kind(), words)?;
    Ok(Usage::Words(Text::new(alloc, text.as_str())?))
}
