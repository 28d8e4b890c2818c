//! Runs a tool, from its arguments to its exit status, over any files and streams.

ghost use Rattle.std.specs.Prelude.{◌≡◌, ◌≤◌, ◌⊎◌, ◌∷◌, [], ℕ, List, IfErr, IfOk, IfSome, None, OnOk, map, string_bytes, true, false};
ghost use Rattle.std.specs.Io.KnownBytes.{IsAtEnd, Keeps};
ghost use Rattle.clap.specs.Faults.{fault_of};
ghost use Rattle.clap.specs.Simple.{App};
ghost use Rattle.clap.specs.declared.error.kind.ErrorKind.TheVariants.{DisplayHelp};
ghost use Rattle.stream_tool.specs.Arguments.{State, StateNone};
ghost use Rattle.stream_tool.specs.Running.{HasNotRun, HasRun, OnValue};

use crate::dash_tip::with_dash_tip;
use crate::draining::flush_and_drain;
use crate::outcome::{Outcome, Report};
use crate::parsing::matches_of;
use crate::refusals::{answer_usage, refuse_file, refuse_memory};
use crate::tool::Tool;
use crate::usage::Usage;
use std::alloc::Global;
use std::fs;
use std::io::{BufReader, Read, Write};
use std::rt::Files;

/// How many bytes one read asks for.
const BUFFER_LEN: usize = 65_536;

/// Parses the arguments of a tool.
///
/// `Err` with `Usage::Help` where they ask for help, with `Usage::Words` where they do not fit or
/// exclude each other, and with `Usage::Memory` where memory is refused. A tip ends the text of
/// `Usage::Words` if an option of several letters has one dash.
pub fn read_words<T: Tool>(alloc: Global, words: &[String]) -> Result<T::Settings, Usage>
    ensures stated { IfOk result (State T.arguments (map string_bytes words.now)) }
    ensures refused { IfErr result (StateNone T.arguments (map string_bytes words.now)) }
{
    let command = T::command(alloc)?;
    match matches_of(alloc, command, words) {
        Ok(matches) => match T::conflict(alloc, words, &matches) {
            None => Ok(T::settings_of(alloc, &matches)?),
            Some(usage) => Err(usage),
        },
        Err(Usage::Words(text)) => Err(Usage::Words(with_dash_tip::<T>(alloc, text, words)?)),
        Err(usage) => Err(usage),
    }
}

/// Runs the tool with these arguments, and returns what became of it.
///
/// The tool reads the file that the arguments name, else `input`. It does not run where help is
/// asked for (status 0), the arguments are wrong or their file can't be opened (2), or memory is
/// refused (3). Then the input is read to its end, unless it is a terminal, where nobody waits, and
/// help leaves it alone.
pub fn run_tool<T: Tool, F: Files, R: Read, W: Write, E: Write>(
    tool: &T,
    files: &F,
    alloc: Global,
    words: &[String],
    is_terminal: bool,
    input: &mut R,
    out: &mut W,
    faults: &mut E,
) -> Outcome<T::Answer>
    ensures ran { IfSome result.answer (HasRun T.arguments (T.gives tool.now F.File F.File.remaining) T.reads_on F.File.remaining
        (map string_bytes words.now) (R.remaining input.old) (R.remaining input.new) (W.contents out.old) (W.contents out.new) result) }
    ensures ended { result.answer ≡ None
        → HasNotRun T.arguments (map string_bytes words.now) (W.contents out.old) (W.contents out.new) result.status }
    ensures help { ((app : App) → T.arguments.IsCommand app → fault_of app (map string_bytes words.now) ≡ DisplayHelp ∷ [])
        → (result.status ≡ 0) ⊎ (result.status ≡ 3) }
    ensures quiet { IfSome result.answer (λ answer. T.is_quiet answer result.status → Keeps (E.contents faults.old) (E.contents faults.new)) }
    ensures unrun { result.answer ≡ None → result.status ≤ 1 → Keeps (E.contents faults.old) (E.contents faults.new) }
    ensures statuses { (result.status ≤ 3) ⊎ (result.status ≤ T.most_status) }
    ensures read { result.answer ≡ None → 1 ≤ result.status → is_terminal ≡ false → OnOk result.rest (IsAtEnd (R.remaining input.new)) }
{
    match read_words::<T>(alloc, words) {
        Ok(settings) => run_settings(
            tool,
            files,
            alloc,
            &settings,
            is_terminal,
            input,
            out,
            faults,
        ),
        Err(usage) => {
            let status = answer_usage(&usage, out, faults);
            let is_awaited = status > 0 && !is_terminal;
            Outcome {
                status,
                answer: None,
                rest: flush_and_drain(is_awaited, input, faults),
            }
        }
    }
}

/// Runs the tool with these settings. The rules of `run_tool` hold here too.
fn run_settings<T: Tool, F: Files, R: Read, W: Write, E: Write>(
    tool: &T,
    files: &F,
    alloc: Global,
    settings: &T::Settings,
    is_terminal: bool,
    input: &mut R,
    out: &mut W,
    faults: &mut E,
) -> Outcome<T::Answer>
    ensures ran { (words : List (List ℕ)) → State T.arguments words settings.now
        → IfSome result.answer (HasRun T.arguments (T.gives tool.now F.File F.File.remaining) T.reads_on F.File.remaining
        words (R.remaining input.old) (R.remaining input.new) (W.contents out.old) (W.contents out.new) result) }
    ensures ended { (words : List (List ℕ)) → State T.arguments words settings.now → result.answer ≡ None
        → HasNotRun T.arguments words (W.contents out.old) (W.contents out.new) result.status }
    ensures quiet { IfSome result.answer (λ answer. T.is_quiet answer result.status → Keeps (E.contents faults.old) (E.contents faults.new)) }
    ensures unrun { result.answer ≡ None → result.status ≤ 1 → Keeps (E.contents faults.old) (E.contents faults.new) }
    ensures statuses { (result.status ≤ 3) ⊎ (result.status ≤ T.most_status) }
    ensures read { result.answer ≡ None → is_terminal ≡ false → OnOk result.rest (IsAtEnd (R.remaining input.new)) }
{
    let Some(name) = T::file(settings) else {
        return run_input(tool, files, alloc, settings, input, out, faults);
    };
    match fs::open(files, name) {
        Ok(mut file) => run_input(tool, files, alloc, settings, &mut file, out, faults),
        Err(error) => {
            let status = refuse_file(alloc, faults, name, "opened", Some(&error));
            Outcome {
                status,
                answer: None,
                rest: flush_and_drain(!is_terminal, input, faults),
            }
        }
    }
}

/// Runs the tool on the bytes of the input. Where the answer demands it, the rest of the input is
/// read to its end. `Outcome::answer` is never `None`.
pub fn run_input<T: Tool, F: Files, R: Read, W: Write, E: Write>(
    tool: &T,
    files: &F,
    alloc: Global,
    settings: &T::Settings,
    input: &mut R,
    out: &mut W,
    faults: &mut E,
) -> Outcome<T::Answer>
    ensures gives { OnValue result.answer (λ answer. T.gives tool.now F.File F.File.remaining settings.now (R.remaining input.old)
        (W.contents out.old) (W.contents out.new) answer result.status) }
    ensures quiet { IfSome result.answer (λ answer. T.is_quiet answer result.status → Keeps (E.contents faults.old) (E.contents faults.new)) }
    ensures statuses { (result.status ≤ 3) ⊎ (result.status ≤ T.most_status) }
    ensures read { IfSome result.answer (λ answer. T.reads_on answer ≡ true → OnOk result.rest (IsAtEnd (R.remaining input.new))) }
{
    let Ok(mut reader) = BufReader::with_capacity(alloc, BUFFER_LEN, &mut *input) else {
        let status = refuse_memory(faults);
        let answer = tool.without_memory(files);
        return Outcome {
            status,
            answer: Some(answer),
            rest: flush_and_drain(T::reads_on(answer), input, faults),
        };
    };
    let report = tool.run(files, alloc, settings, &mut reader, out, faults);
    // Dropping the buffer drops its bytes.
    drop(reader);
    let Report { status, answer } = report;
    let rest = flush_and_drain(T::reads_on(answer), input, faults);
    Outcome {
        status,
        answer: Some(answer),
        rest,
    }
}
