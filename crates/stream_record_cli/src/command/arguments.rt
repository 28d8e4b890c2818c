//! The arguments of `record`.

ghost use Rattle.std.specs.Prelude.{◌≡◌, [], None, Some, IfOk, IfSome, codes, false, option_map, string_bytes, true, unwrap_or};
ghost use Rattle.clap.specs.Faults.{is_simple_and_free};
ghost use Rattle.clap.specs.Matches.{found_of};
ghost use Rattle.clap.specs.Simple.{app_of, is_simple};
ghost use Rattle.clap.specs.Walk.{first_of, one_of, rows_of, rule_of};
ghost use Rattle.stream_record_cli.specs.CommandLine.{AreStated, IsLanes, command_line, graph_rule, lanes_rule, plan_rule};
ghost use Rattle.stream_tool.specs.Words.{file_rule, flag_rule};

use crate::command::settings::Settings;
use clap::{Arg, ArgMatches, Command, value_parser};
use std::alloc::{AllocError, Global};
use stream_runs::{run_of, run_option};
use stream_tool::{FIND, file_of, flag, is_given, with_option};

/// The lanes by default: as many changes as Terraform applies at once.
const LANES: u8 = 10;

const ABOUT: &str =
    "Makes a script of a stream: with it a run of the plan tells the apply of the stream again.

Standard input: the stream of `terraform apply -json`, whole or cut off, unless STREAM is named. It is read to its end.
Standard output: the script, on one line.
Standard error: what the script does not say, a line each; or why there is no script.";

const AFTER: &str = r#"Example:
  terraform plan -out=tfplan && terraform show -json tfplan > plan.json && terraform graph -plan=tfplan > graph.dot
  terraform apply -json tfplan | tee -p stream.jsonl | applystream check
  applystream record --plan plan.json --graph graph.dot stream.jsonl > script.json
  applystream --form terraform --parallelism 10 --script script.json < plan.json

Example of a plan that was not applied:
  applystream record --plan plan.json --graph graph.dot --only-plan > script.json

Exit status:
  0  the script was written; or help was printed
  1  the script was written, and standard error has what it does not say
  2  wrong options, a file that can't be read, a plan that a run refuses, a graph or a stream that is not of the plan, or no such run
  3  out of memory, or the output could not be written"#;

/// Defines the options and their help. `Err` where memory is refused.
pub fn command<'a>(alloc: Global) -> Result<Command<'a>, AllocError>
    ensures is { IfOk result (λ command. app_of command ≡ command_line) }
    ensures simple { IfOk result (λ command. is_simple (app_of command) ≡ true) }
    ensures free { IfOk result (λ command. is_simple_and_free (app_of command) ≡ true) }
{
    command_of(alloc, begins(alloc), only_plan(alloc))
}

/// The command with these options `--begins` and `--only-plan`, and the others. `Err` where memory
/// is refused.
pub(crate) fn command_of<'a>(
    alloc: Global,
    begins: Arg<'a>,
    only_plan: Arg<'a>,
) -> Result<Command<'a>, AllocError>
    ensures { rule_of begins.entry ≡ flag_rule (codes "begins") → begins.entry.global ≡ false
        → rule_of only_plan.entry ≡ flag_rule (codes "only-plan") → only_plan.entry.global ≡ false
        → IfOk result (λ command. app_of command ≡ command_line) }
{
    let line = Ok(
        Command::new(alloc, "applystream record")
            .no_binary_name(true)
            .about(ABOUT)
            .after_help(AFTER),
    );
    let line = with_option(line, plan(alloc));
    let line = with_option(line, graph(alloc));
    let line = with_option(line, begins);
    let line = with_option(line, lanes(alloc));
    let line = with_option(line, only_plan);
    let line = with_option(line, flag(alloc, "find", FIND));
    let line = with_option(line, run_option(alloc));
    with_option(line, stream(alloc))
}

/// Defines `--plan PLAN`.
fn plan<'a>(alloc: Global) -> Arg<'a>
    ensures { (rule_of result ≡ plan_rule) × (result.global ≡ false) }
{
    Arg::new(alloc, "plan")
        .long("plan")
        .value_name("PLAN")
        .required(true)
        .help("The plan, as `terraform show -json` prints it; `-` is standard input")
}

/// Defines `--graph GRAPH`.
fn graph<'a>(alloc: Global) -> Arg<'a>
    ensures { (rule_of result ≡ graph_rule) × (result.global ≡ false) }
{
    Arg::new(alloc, "graph")
        .long("graph")
        .value_name("GRAPH")
        .help(
            "The graph, as `terraform graph -plan=FILE` prints it before the apply: steps wait as it states. `-` is standard input",
        )
}

/// Defines `--begins`.
pub(crate) fn begins<'a>(alloc: Global) -> Arg<'a>
    ensures { (rule_of result ≡ flag_rule (codes "begins")) × (result.global ≡ false) }
{
    flag(
        alloc,
        "begins",
        "With a graph and a stream: let steps also wait so that they begin as in the stream",
    )
}

/// Defines `--parallelism N`.
fn lanes<'a>(alloc: Global) -> Arg<'a>
    ensures { (rule_of result ≡ lanes_rule) × (result.global ≡ false) }
{
    Arg::new(alloc, "parallelism")
        .long("parallelism")
        .value_name("N")
        .help("The lanes in which the script is to be told, 1 to 64: the parallelism of the apply")
        .value_parser(value_parser!(u8).range(1..=64))
        .default_value("10")
}

/// Defines `--only-plan`.
pub(crate) fn only_plan<'a>(alloc: Global) -> Arg<'a>
    ensures { (rule_of result ≡ flag_rule (codes "only-plan")) × (result.global ≡ false) }
{
    flag(
        alloc,
        "only-plan",
        "Make the script of the plan alone, in which each step takes a second: no stream is read",
    )
}

/// Defines the argument `STREAM`.
fn stream<'a>(alloc: Global) -> Arg<'a>
    ensures { (rule_of result ≡ file_rule) × (result.global ≡ false) }
{
    Arg::new(alloc, "file")
        .value_name("STREAM")
        .help("The file with the stream; `-` is standard input")
}

/// Returns the settings of parsed arguments. `Err` where memory is refused.
pub fn settings_of(alloc: Global, matches: &ArgMatches<'_>) -> Result<Settings, AllocError>
    ensures { IfOk result (AreStated (rows_of (found_of matches.now))) }
{
    let plan = plan_name(alloc, matches)?;
    let graph = value_of(alloc, matches, "graph")?;
    let file = file_of(alloc, matches)?;
    Ok(Settings {
        plan,
        graph,
        begins: is_given(matches, "begins"),
        lanes: lanes_of(matches),
        only_plan: is_given(matches, "only-plan"),
        find: is_given(matches, "find"),
        run: run_of(matches),
        file,
    })
}

/// Returns the name of the plan's file. `Err` where memory is refused.
fn plan_name(alloc: Global, matches: &ArgMatches<'_>) -> Result<String, AllocError>
    ensures { IfOk result (λ name. string_bytes name ≡ unwrap_or (first_of (codes "plan") (rows_of (found_of matches.now))) []) }
{
    match value_of(alloc, matches, "plan")? {
        Some(name) => Ok(name),
        // The parser refuses arguments without a plan.
        None => Ok(String::new(alloc)),
    }
}

/// Returns the number of lanes. The parser has tested it, so clamping does not change it.
fn lanes_of(matches: &ArgMatches<'_>) -> u8
    ensures { IfSome (one_of (codes "parallelism") (rows_of (found_of matches.now))) (λ text. IsLanes text result) }
{
    matches
        .get_one::<u8>("parallelism")
        .unwrap_or(LANES)
        .clamp(1, 64)
}

/// Returns the value of an option. `Err` where memory is refused.
fn value_of(
    alloc: Global,
    matches: &ArgMatches<'_>,
    option: &str,
) -> Result<Option<String>, AllocError>
    ensures { IfOk result (λ value. option_map string_bytes value ≡ first_of option.now (rows_of (found_of matches.now))) }
{
    match matches.get_str(option) {
        Some(value) => Ok(Some(String::from_str(alloc, value)?)),
        None => Ok(None),
    }
}
