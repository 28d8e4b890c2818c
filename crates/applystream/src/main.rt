//! The program `applystream`: starts the main command or the tool that its first argument names.
#![tactic(auto)]

use apply_cli::{PromptingReader, Usage, follow_standard, given_words, refuse_standard};
use input_validate_cli::Validate;
use std::alloc::{AllocError, Global};
use std::env;
use std::io::{BufWriter, IsTerminal, Read, Stderr};
use std::process::ExitCode;
use std::sync::Wait;
use std::thread::Threads;
use std::time::Clock;
use stream_ahead::{NoPace, read_ahead};
use stream_check::Check;
use stream_panel::Size;
use stream_play::Play;
use stream_record_cli::Record;
use stream_tool::{Tool, read_words, run_tool};
use stream_view::View;
use stream_watch_cli::{Terminal, Watch, has_panel};

/// Printed when somebody types `applystream check` alone.
const NO_STREAM: &str =
    "a stream is awaited from this terminal: name its file, as in applystream check stream.jsonl";

/// Printed when somebody types `applystream play` alone.
const NO_STREAM_TO_PLAY: &str =
    "a stream is awaited from this terminal: name its file, as in applystream play stream.jsonl";

/// Printed when somebody types `applystream view` alone.
const NO_STREAM_TO_VIEW: &str =
    "a stream is awaited from this terminal: name its file, as in applystream view stream.jsonl";

/// Printed when somebody types `applystream watch` alone.
const NO_STREAM_TO_WATCH: &str =
    "a stream is awaited from this terminal: name its file, as in applystream watch stream.jsonl";

/// Printed when somebody types `applystream record` with a plan alone.
const NO_STREAM_TO_RECORD: &str =
    "a stream is awaited from this terminal: name its file, as in applystream record --plan plan.json stream.jsonl";

/// Printed when somebody types `applystream validate` alone.
const NO_PLAN: &str =
    "a plan is awaited from this terminal: give it, as in applystream validate < plan.json";

/// How many bytes of output are buffered before a write.
const OUTPUT_ROOM: usize = 65_536;

fn main(rt: HostRuntime) -> ExitCode {
    let status = match given_words(&rt) {
        Ok(words) => match use_tool(&rt, &rt, &words) {
            Some(status) => status,
            None => follow_main(&rt, &rt, words.get(1..).unwrap_or(&[])),
        },
        Err(usage) => refuse_standard(&rt, &usage),
    };
    ExitCode::from(status)
}

/// Runs the tool that the first argument names, and returns its exit status. `None` if it names no
/// tool.
fn use_tool<T: Threads + Wait + Clock + Sync>(
    rt: &HostRuntime,
    threads: &T,
    words: &[String],
) -> Option<u8> {
    match words.get(1)?.as_str() {
        "check" => Some(run(rt, &Check, words, NO_STREAM)),
        "play" => Some(run(rt, &Play { clock: rt }, words, NO_STREAM_TO_PLAY)),
        "record" => {
            let tool = Record {
                is_terminal: rt.stdin().is_terminal(),
            };
            Some(run(rt, &tool, words, NO_STREAM_TO_RECORD))
        }
        "view" => {
            let is_colour_wanted = rt.stdout().is_terminal() && wants_colour(rt);
            let tool = View { is_colour_wanted };
            Some(run(rt, &tool, words, NO_STREAM_TO_VIEW))
        }
        "watch" => Some(watch(rt, threads, words)),
        "validate" => Some(run(rt, &Validate, words, NO_PLAN)),
        _ => None,
    }
}

/// Runs the main command with these arguments, and returns the exit status. The one argument `help`
/// stands for `--help`.
fn follow_main<T: Threads + Wait + Sync>(rt: &HostRuntime, threads: &T, words: &[String]) -> u8 {
    if words.len() != 1 || words[0].as_str() != "help" {
        return follow_standard(rt, threads, words);
    }
    match help_words(rt.alloc()) {
        Ok(words) => follow_standard(rt, threads, &words),
        Err(_) => refuse_standard(rt, &Usage::Memory),
    }
}

/// Returns the argument that asks for help. `Err` if memory is refused.
fn help_words(alloc: Global) -> Result<Vec<String>, AllocError> {
    let word = String::from_str(alloc, "--help")?;
    let mut words = Vec::new(alloc);
    words.push(word)?;
    Ok(words)
}

/// Runs `watch`, and returns the exit status. Where it shows a panel, the input is read in a thread.
fn watch<T: Threads + Wait + Clock + Sync>(rt: &HostRuntime, threads: &T, words: &[String]) -> u8 {
    let terminal = terminal_of(rt);
    let mut input = standard_input(rt, NO_STREAM_TO_WATCH);
    if !shows_panel(rt.alloc(), words, terminal) {
        let tool = Watch {
            clock: rt,
            pace: &NoPace,
            screen: &terminal,
            terminal,
        };
        return run_on(rt, &tool, words, &mut input);
    }
    let status = read_ahead(threads, rt.alloc(), input, |reader, pace| {
        let tool = Watch {
            clock: rt,
            pace,
            screen: &terminal,
            terminal,
        };
        run_on(rt, &tool, words, reader)
    });
    match status {
        Ok(status) => status,
        Err(_) => refuse_standard(rt, &Usage::Memory),
    }
}

/// Whether the arguments of `watch` ask for a panel.
fn shows_panel(alloc: Global, words: &[String], terminal: Terminal) -> bool {
    match read_words::<Watch<'_, HostRuntime, NoPace, Terminal>>(
        alloc,
        words.get(2..).unwrap_or(&[]),
    ) {
        Ok(settings) => has_panel(&settings, terminal),
        Err(_) => false,
    }
}

/// Runs the tool with the arguments after its name on standard input, and returns the exit status.
/// `prompt` is what a terminal is told where an input is awaited from it.
fn run<T: Tool>(rt: &HostRuntime, tool: &T, words: &[String], prompt: &'static str) -> u8 {
    run_on(rt, tool, words, &mut standard_input(rt, prompt))
}

/// Returns standard input. A terminal is told `prompt` before the first read.
fn standard_input(
    rt: &HostRuntime,
    prompt: &'static str,
) -> PromptingReader<<HostRuntime as Input>::Reader, Stderr> {
    let prompt = rt.stdin().is_terminal().then_some(prompt);
    PromptingReader::new(rt.reader(), rt.stderr(), prompt)
}

/// Runs the tool with the arguments after its name on this input, and returns the exit status.
fn run_on<T: Tool, R: Read>(rt: &HostRuntime, tool: &T, words: &[String], input: &mut R) -> u8 {
    let words = words.get(2..).unwrap_or(&[]);
    let Ok(mut output) = BufWriter::with_capacity(rt.alloc(), OUTPUT_ROOM, rt.stdout()) else {
        return refuse_standard(rt, &Usage::Memory);
    };
    let outcome = run_tool(
        tool,
        rt,
        rt.alloc(),
        words,
        rt.stdin().is_terminal(),
        input,
        &mut output,
        &mut rt.stderr(),
    );
    // Bytes that a failed write left in the buffer are given up: a drop would write them once more,
    // after the error was reported.
    let (_stdout, _unwritten) = output.into_parts();
    outcome.status
}

/// Returns what is known of the terminal. Its size is that of `COLUMNS` and `LINES`, or 80 and 24.
fn terminal_of(rt: &HostRuntime) -> Terminal {
    let is_terminal = rt.stdout().is_terminal();
    let name = env::var(rt, "TERM");
    let is_dumb = matches!(&name, Ok(name) if name.as_str() == "dumb");
    let has_name = matches!(&name, Ok(name) if !name.is_empty());
    Terminal {
        is_colour_wanted: is_terminal && !is_dumb && wants_colour(rt),
        is_panel_wanted: is_terminal && has_name && !is_dumb,
        size: Size {
            columns: length_of(rt, "COLUMNS", 80),
            rows: length_of(rt, "LINES", 24),
        },
    }
}

/// Returns the number from 1 to 9999 that the variable has, or `otherwise`.
fn length_of(rt: &HostRuntime, name: &str, otherwise: usize) -> usize {
    let Ok(text) = env::var(rt, name) else {
        return otherwise;
    };
    match text.parse::<usize>() {
        Ok(length) if 1 <= length && length <= 9999 => length,
        _ => otherwise,
    }
}

/// Whether `NO_COLOR` is absent or empty.
fn wants_colour(rt: &HostRuntime) -> bool {
    match env::var(rt, "NO_COLOR") {
        Ok(text) => text.is_empty(),
        Err(error) => matches!(error, env::VarError::NotPresent),
    }
}
