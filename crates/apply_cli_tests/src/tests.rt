//! Tests what no clause states: whole lines as bytes, the texts of errors, readers and writers that
//! fail, and that runs succeed with ample memory.

ghost use Rattle.std.specs.Prelude.{◌≡◌, ◌<◌, ◌-◌, ◌^◌};

mod answers;
mod failing_outputs;
mod faults;
mod following;
mod forms;
mod lanes;
mod rests;
mod unwritten_errors;
mod words;

use apply_cli::{
    Halt, InputFault, Invocation, Job, Misplaced, PromptingReader, Settings, Usage, VERSION,
    answer_usage, follow, follow_invocation, read_all, read_invocation, read_words, refusal_status,
    run_command, run_input,
};
use apply_hooks::Registry;
use apply_plan::{PlanError, ScriptError, StepKind, Text};
use apply_run::{MAX_LANES, Options, Refusal, StdSink};
use apply_text::{MomentError, Operation, Start};
use apply_text_terraform::{Command, Form};
use std::alloc::Global;
use std::fmt::Debug;
use std::io;
use std::io::{ErrorKind, Read, Write};
use std::process::Abort;
use std::rt::Files;
use std::sync::Wait;
use std::thread::Threads;
use std::time::{Clock, Duration};

/// Stands for an absent script.
const NO_SCRIPT: &str = "no script";

/// The bytes of a script, if there is one.
fn script_bytes(script: &str) -> Option<&[u8]> {
    if script == NO_SCRIPT {
        None
    } else {
        Some(script.as_bytes())
    }
}

/// The default settings.
fn defaults(alloc: Global) -> Settings {
    with_sizes(alloc, 1, 64)
}

/// The default settings, with other workers and another queue.
fn with_sizes(alloc: Global, workers: u8, queue: u16) -> Settings {
    Settings {
        at: Start::zero(),
        script: None,
        workers,
        queue,
        operation: Operation::Apply,
        halts: Vec::new(alloc),
    }
}

/// Leaks the value: a proof grows with each place at which something must be dropped.
fn leaked<'a, T: Drop + 'a>(rt: &impl Abort, alloc: Global, value: T) -> &'a T {
    let leaked = Box::new(alloc, value).expect(rt, "memory");
    &*Box::leak(leaked)
}

/// No hooks.
fn no_hooks(rt: &impl Abort, alloc: Global) -> &'static Registry {
    leaked(rt, alloc, Registry::new(alloc))
}

/// Leaks a text.
fn leaked_text(rt: &impl Abort, alloc: Global, text: String) -> &'static str {
    leaked(rt, alloc, text).as_str()
}

/// Leaks bytes that must be text.
fn leaked_bytes(rt: &impl Abort, alloc: Global, bytes: Vec<u8>) -> &'static str {
    text_of(rt, leaked(rt, alloc, bytes).as_slice())
}

/// Returns what `Debug` prints.
fn shown(rt: &impl Abort, alloc: Global, value: &impl Debug) -> &'static str {
    leaked_text(
        rt,
        alloc,
        format!(in alloc; "{value:?}").expect(rt, "memory"),
    )
}

/// What the program has done: its exit status, its output and its errors.
#[derive(Clone, Copy)]
struct Outcome {
    status: u8,
    printed: &'static str,
    errors: &'static str,
}

/// Returns what the program has done, if both outputs were memory. Both must be text.
fn outcome_of(
    rt: &impl Abort,
    alloc: Global,
    status: u8,
    printed: Vec<u8>,
    errors: Vec<u8>,
) -> Outcome {
    Outcome {
        status,
        printed: leaked_bytes(rt, alloc, printed),
        errors: leaked_bytes(rt, alloc, errors),
    }
}

/// Runs the command, without hooks: the output and the status. The contract of a run is long, so it
/// is called here alone.
fn command<R: Read + Drop, W: Write + Drop, E: Write, T: Threads + Wait + Sync + Abort>(
    rt: &T,
    alloc: Global,
    settings: &Settings,
    script: Option<&[u8]>,
    input: R,
    output: W,
    errors: &mut E,
) -> (W, u8) {
    let (registry, sink) = (no_hooks(rt, alloc), StdSink::new(output));
    let (sink, status) = run_command(rt, alloc, settings, registry, script, input, sink, errors);
    (sink.into_inner(), status)
}

/// Runs an input with these settings, without a script, and with its output in memory.
fn run_with<R: Read + Drop, T: Threads + Wait + Sync + Abort>(
    rt: &T,
    alloc: Global,
    settings: &Settings,
    input: R,
) -> Outcome {
    let (output, mut errors) = (Vec::new(alloc), Vec::new(alloc));
    let (printed, status) = command(rt, alloc, settings, None, input, output, &mut errors);
    outcome_of(rt, alloc, status, printed, errors)
}

/// Runs an input with the settings that no options give.
fn run<R: Read + Drop, T: Threads + Wait + Sync + Abort>(
    rt: &T,
    alloc: Global,
    input: R,
) -> Outcome {
    let settings = leaked(rt, alloc, defaults(alloc));
    run_with(rt, alloc, settings, input)
}

/// So many blanks.
fn blanks_of(rt: &impl Abort, alloc: Global, count: usize) -> &'static [u8] {
    let blanks = vec![in alloc; b' '; count].expect(rt, "memory");
    leaked(rt, alloc, blanks).as_slice()
}

/// Bytes that must be text.
fn text_of<'a>(rt: &impl Abort, bytes: &'a [u8]) -> &'a str {
    str::from_utf8(bytes).ok().expect(rt, "a text")
}

/// The first bytes of a text, so many.
fn front_of<'a>(rt: &impl Abort, text: &'a str, room: usize) -> &'a str {
    text_of(rt, text.as_bytes().get(..room).expect(rt, "so many bytes"))
}

/// Fails unless the fact holds.
fn holds(rt: &impl Abort, case: &str, is_so: bool) {
    assert!(rt; is_so, "{case}");
}

/// Fails if the number differs.
fn number_is(rt: &impl Abort, case: &str, actual: usize, wanted: usize) {
    holds(rt, case, actual == wanted);
}

/// Fails if the text differs.
fn text_is(rt: &impl Abort, case: &str, actual: &str, wanted: &str) {
    assert!(rt; actual == wanted, "{case}: {actual}");
}

/// Fails if the status differs.
fn status_is(rt: &impl Abort, case: &str, actual: u8, wanted: u8) {
    holds(rt, case, actual == wanted);
}

/// Fails if the status, the output or the errors differ.
fn outcome_is(
    rt: &impl Abort,
    case: &str,
    outcome: Outcome,
    status: u8,
    printed: &str,
    errors: &str,
) {
    status_is(rt, case, outcome.status, status);
    text_is(rt, case, outcome.printed, printed);
    text_is(rt, case, outcome.errors, errors);
}

/// Fails if the status or the error differs, or anything was printed.
fn outcome_fails(rt: &impl Abort, case: &str, outcome: Outcome, status: u8, fault: &str) {
    status_is(rt, case, outcome.status, status);
    text_is(rt, case, outcome.printed, "");
    reports(rt, case, outcome.errors, fault);
}

/// Fails unless the text is the line of this error; for a plan or a script, a line that names
/// `validate` must follow.
fn reports(rt: &impl Abort, case: &str, errors: &str, fault: &str) {
    line_is(rt, case, errors, fault, end_of(fault));
}

/// Fails if the text is not the line of this fault with that end.
fn line_is(rt: &impl Abort, case: &str, errors: &str, fault: &str, end: &str) {
    let line = errors.strip_prefix("applystream: ").expect(rt, case);
    text_is(rt, case, line.strip_suffix(end).expect(rt, case), fault);
}

/// The line after an error of one worker: for a plan or a script it names `validate`.
fn end_of(fault: &str) -> &'static str {
    if fault.starts_with("the plan is ") || fault.starts_with("the script is ") {
        "\napplystream: applystream validate says where and what\n"
    } else {
        "\n"
    }
}

/// The text before the first mark, and the text after it.
fn parted<'a>(rt: &impl Abort, text: &'a str, mark: &str) -> (&'a str, &'a str) {
    text.split_once(mark).expect(rt, text)
}

/// Adds a word.
fn push_word(rt: &impl Abort, words: &mut Vec<String>, word: String) {
    words.push(word).expect(rt, "memory");
}

/// The words of a text.
fn words_of(rt: &impl Abort, alloc: Global, text: &str) -> &'static [String] {
    let mut words = Vec::new(alloc);
    for word in text.split_whitespace() {
        let word = String::from_str(alloc, word).expect(rt, "memory");
        push_word(rt, &mut words, word);
    }
    leaked(rt, alloc, words).as_slice()
}

/// A clock that stands still, or cannot be read.
#[derive(Clone, Copy)]
struct Still {
    since_1970: Option<Duration>,
}

impl Clock for Still {
    fn monotonic(&self) -> io::Result<Duration> {
        Err(io::Error::from(ErrorKind::Unsupported))
    }

    fn since_1970(&self) -> io::Result<Duration> {
        match self.since_1970 {
            Some(time) => Ok(time),
            None => Err(io::Error::from(ErrorKind::Unsupported)),
        }
    }
}

/// A clock that cannot be read.
const NO_CLOCK: Still = Still { since_1970: None };

/// The answer to the words of a text, with no clock.
fn read_of(rt: &impl Abort, alloc: Global, text: &str) -> &'static Result<Invocation, Usage> {
    let words = words_of(rt, alloc, text);
    leaked(rt, alloc, read_invocation(&NO_CLOCK, alloc, words))
}

/// The name of a usage.
fn name_of(usage: &Usage) -> &'static str {
    match usage {
        Usage::Help(_) => "Help",
        Usage::Version => "Version",
        Usage::Words(_) => "Words",
        Usage::Conflict => "Beside",
        Usage::Misplaced(_) => "Misplaced",
        Usage::Clock => "Clock",
        Usage::Moment(_) => "Moment",
        Usage::Hooks => "Hooks",
        Usage::Memory => "Memory",
    }
}

/// The line of the version.
fn version_of(rt: &impl Abort, alloc: Global) -> &'static str {
    let line = format!(in alloc; "applystream {VERSION}\n");
    leaked_text(rt, alloc, line.expect(rt, "memory"))
}

/// A sink over memory.
fn empty(alloc: Global) -> StdSink<Vec<u8>>
    ensures { result.failures ≡ 0 }
{
    StdSink::new(Vec::new(alloc))
}

/// Gives one byte a call, and fails after `before` bytes.
#[derive(Drop)]
struct FailingReader {
    bytes: &'static [u8],
    before: usize,
    fault: ErrorKind,
}

impl Read for FailingReader {
    fn read(&mut self, buffer: &mut [u8]) -> io::Result<usize> {
        if self.before == 0 {
            self.before = usize::MAX;
            return Err(io::Error::from(self.fault));
        }
        if self.bytes.is_empty() || buffer.is_empty() {
            return Ok(0);
        }
        self.before -= 1;
        buffer[0] = self.bytes[0];
        self.bytes = &self.bytes[1..];
        Ok(1)
    }
}

/// Accepts at most `per_write` bytes a call and `room` bytes in all, and fails from then on. Its
/// flush may fail too.
#[derive(Drop)]
struct FailingWriter {
    taken: Vec<u8>,
    per_write: usize,
    room: usize,
    fails_to_flush: bool,
    error: ErrorKind,
}

impl Write for FailingWriter {
    fn write(&mut self, bytes: &[u8]) -> io::Result<usize> {
        let count = bytes.len().min(self.per_write).min(self.room);
        if count == 0 && !bytes.is_empty() {
            return Err(io::Error::from(self.error));
        }
        self.taken.extend_from_slice(&bytes[..count])?;
        self.room -= count;
        Ok(count)
    }

    fn flush(&mut self) -> io::Result<()> {
        if self.fails_to_flush {
            return Err(io::Error::from(self.error));
        }
        Ok(())
    }
}

/// A writer that accepts so many bytes a call, and so many in all.
fn with_room(alloc: Global, per_write: usize, room: usize) -> FailingWriter {
    FailingWriter {
        taken: Vec::new(alloc),
        per_write,
        room,
        fails_to_flush: false,
        error: ErrorKind::StorageFull,
    }
}

/// A writer that has room for so many bytes, and fails to flush, with that error.
fn unflushed(alloc: Global, room: usize, error: ErrorKind) -> FailingWriter {
    FailingWriter {
        taken: Vec::new(alloc),
        per_write: 7,
        room,
        fails_to_flush: true,
        error,
    }
}

/// The error of an output that fails.
const UNWRITTEN: &str = "applystream: the output could not be written\n";
