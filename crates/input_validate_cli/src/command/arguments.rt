//! The arguments of `validate`.

ghost use Rattle.std.specs.Prelude.{◌≡◌, IfOk, false, true, codes, is_some, option_map, string_bytes};
ghost use Rattle.std.specs.Option.{option_copied};
ghost use Rattle.clap.specs.Faults.{is_simple_and_free};
ghost use Rattle.clap.specs.Matches.{found_of};
ghost use Rattle.clap.specs.Simple.{app_of, is_simple};
ghost use Rattle.clap.specs.Walk.{first_of, rows_of, rule_of};
ghost use Rattle.input_validate_cli.specs.CommandLine.{AreStated, IsCommand, IsOneOf, command_rule, command_words, form_of_command, form_of_word, form_rule, form_stated, form_words, named_form, parallelism_rule, planned_form, refresh_rule, refresh_words, script_rule};

use clap::{Arg, ArgMatches, Command, value_parser};
use input_validate::Form;
use std::alloc::{AllocError, Global};
use stream_tool::with_option;

/// The values of `--form`.
static FORMS: [&str; 2] = ["applystream", "terraform"];

/// The values of `--command`.
static COMMANDS: [&str; 4] = ["saved", "plan", "apply", "destroy"];

/// The values of `--refresh`.
static REFRESHES: [&str; 2] = ["true", "false"];

const ABOUT: &str =
    "Lists every error of a plan and a script at once, each with its place in the syntax of jq.

Standard input: the plan, as `terraform show -json` prints it.
Standard output: the findings, one a line, the first 1,000 of them; or that both are accepted.
Standard error: why nothing was validated.";

const AFTER: &str = r#"Example:
  applystream validate --script script.json < plan.json

Exit status:
  0  nothing was found; or help was printed
  1  only warnings: members of the script that no run reads, and likely mistakes
  2  a run with these options refuses the plan or the script; or wrong options, or a file or a plan that can't be read
  3  out of memory, or the output could not be written"#;

/// What the arguments state.
#[derive(Debug, Drop)]
pub struct Settings {
    /// The name of the script's file, if one is given.
    pub script: Option<String>,
    /// Whether `--parallelism` is given.
    pub lanes: bool,
    /// The form of the run's stream. Without `--form` it is this program's own, and with `--command`
    /// `plan`, `apply` or `destroy` it is Terraform's.
    pub form: Form,
}

impl Settings {
    /// Returns the name of the script's file, if one is given.
    pub(crate) fn script_name(&self) -> Option<&str>
        ensures { option_copied result ≡ option_map string_bytes self.now.script }
    {
        match &self.script {
            Some(name) => Some(name.as_str()),
            None => None,
        }
    }
}

/// Defines the options and their help. `Err` where memory is refused.
pub fn command<'a>(alloc: Global) -> Result<Command<'a>, AllocError>
    ensures is { IfOk result (λ command. IsCommand (app_of command)) }
    ensures simple { IfOk result (λ command. is_simple (app_of command) ≡ true) }
    ensures free { IfOk result (λ command. is_simple_and_free (app_of command) ≡ true) }
{
    let line = Ok(
        Command::new(alloc, "applystream validate")
            .no_binary_name(true)
            .about(ABOUT)
            .after_help(AFTER),
    );
    let line = with_option(line, script(alloc));
    let line = with_option(line, parallelism(alloc));
    let line = with_option(line, form(alloc));
    let line = with_option(line, command_option(alloc));
    with_option(line, refresh_option(alloc))
}

fn script<'a>(alloc: Global) -> Arg<'a>
    ensures { (rule_of result ≡ script_rule) × (result.global ≡ false) }
{
    Arg::new(alloc, "script")
        .long("script")
        .value_name("FILE")
        .help("The script to validate with the plan")
}

fn parallelism<'a>(alloc: Global) -> Arg<'a>
    ensures { (rule_of result ≡ parallelism_rule) × (result.global ≡ false) }
{
    Arg::new(alloc, "parallelism")
        .long("parallelism")
        .value_name("N")
        .value_parser(value_parser!(u8).range(1..=64))
        .help(
            "Validate for a run with --parallelism N, 1 to 64. Without it no step of a script may wait for others",
        )
}

fn form<'a>(alloc: Global) -> Arg<'a>
    ensures { (forms : _) × IsOneOf form_words forms × (rule_of result ≡ form_rule forms) × (result.global ≡ false) }
{
    Arg::new(alloc, "form")
        .long("form")
        .value_name("FORM")
        .value_parser(FORMS.as_slice())
        .help(
            "Validate for a run with this form: terraform also reads `outputs` and `diagnostics` at the top of the script. Without it the form is applystream",
        )
}

fn command_option<'a>(alloc: Global) -> Arg<'a>
    ensures { (commands : _) × IsOneOf command_words commands × (rule_of result ≡ command_rule commands) × (result.global ≡ false) }
{
    Arg::new(alloc, "command")
        .long("command")
        .value_name("COMMAND")
        .value_parser(COMMANDS.as_slice())
        .help(
            "Validate for a run with this command: plan, apply and destroy also read `planning` at the top of the script, and imply --form terraform. Without it the command is saved",
        )
}

fn refresh_option<'a>(alloc: Global) -> Arg<'a>
    ensures { (refreshes : _) × IsOneOf refresh_words refreshes × (rule_of result ≡ refresh_rule refreshes) × (result.global ≡ false) }
{
    Arg::new(alloc, "refresh")
        .long("refresh")
        .value_name("WHETHER")
        .value_parser(REFRESHES.as_slice())
        .help(
            "Validate for a run with this option, which changes no finding. Only with --command plan, apply or destroy",
        )
}

/// Returns the settings of parsed arguments. `Err` where memory is refused.
pub fn settings_of(alloc: Global, matches: &ArgMatches<'_>) -> Result<Settings, AllocError>
    ensures { IfOk result (AreStated (rows_of (found_of matches.now))) }
{
    let script = script_of(alloc, matches)?;
    Ok(Settings {
        script,
        lanes: has_parallelism(matches),
        form: form_of(matches),
    })
}

/// Returns the name of the script's file. `Err` where memory is refused.
fn script_of(alloc: Global, matches: &ArgMatches<'_>) -> Result<Option<String>, AllocError>
    ensures { IfOk result (λ script. option_map string_bytes script ≡ first_of (codes "script") (rows_of (found_of matches.now))) }
{
    match matches.get_str("script") {
        Some(file) => Ok(Some(String::from_str(alloc, file)?)),
        None => Ok(None),
    }
}

/// Returns whether `--parallelism` is given.
fn has_parallelism(matches: &ArgMatches<'_>) -> bool
    ensures { result ≡ is_some (first_of (codes "parallelism") (rows_of (found_of matches.now))) }
{
    match matches.get_str("parallelism") {
        Some(_) => true,
        None => false,
    }
}

/// Returns the form: that of the command, else the one that `--form` names.
fn form_of(matches: &ArgMatches<'_>) -> Form
    ensures { result ≡ form_stated (rows_of (found_of matches.now)) }
{
    match planned_form(matches) {
        Some(form) => form,
        None => named_form(matches),
    }
}

/// Returns the form that `--form` names. Without it, the form is this program's own.
fn named_form(matches: &ArgMatches<'_>) -> Form
    ensures { result ≡ named_form (rows_of (found_of matches.now)) }
{
    match matches.get_str("form") {
        Some(word) => form_named(word),
        None => Form::Applystream,
    }
}

/// Returns the form of a command that makes its plan. `None` for an apply of a saved plan.
pub(crate) fn planned_form(matches: &ArgMatches<'_>) -> Option<Form>
    ensures { result ≡ planned_form (rows_of (found_of matches.now)) }
{
    match matches.get_str("command") {
        Some(word) => form_of_command(word),
        None => None,
    }
}

/// Returns the form of the command with this name. The parser accepts only four names.
fn form_of_command(word: &str) -> Option<Form>
    ensures { result ≡ form_of_command word.now }
{
    match word {
        "plan" => Some(Form::TerraformPlan),
        "apply" => Some(Form::TerraformApply),
        "destroy" => Some(Form::TerraformApply),
        _ => None,
    }
}

/// Returns the form with this name. The parser accepts only the two names.
fn form_named(word: &str) -> Form
    ensures { result ≡ form_of_word word.now }
{
    match word {
        "terraform" => Form::Terraform,
        _ => Form::Applystream,
    }
}
