//! The main command, from its arguments to the exit status.

use super::*;

/// A replacement that destroys first.
const REPLACEMENT: &str =
    r#"{"format_version":"1.2","terraform_version":"1.9.0","resource_changes":[{"address":"null_resource.a","mode":"managed","type":"null_resource","name":"a","change":{"actions":["delete","create"],"before":{"id":"41"}}}]}"#;

/// The stream of the replacement if the second hook halts it.
const HALTED: &str =
    r#"{"@level":"info","@message":"Terraform 1.9.0","@module":"terraform.ui","@timestamp":"1970-01-01T00:00:00Z","terraform":"1.9.0","type":"version","ui":"1.0"}
{"@level":"error","@message":"Error: execution halted","@module":"terraform.ui","@timestamp":"1970-01-01T00:00:00Z","diagnostic":{"address":"null_resource.a","detail":"Hook 1 answered Halt before delete.","severity":"error","summary":"execution halted"},"type":"diagnostic"}
{"@level":"info","@message":"Apply complete! Resources: 0 added, 0 changed, 0 destroyed.","@module":"terraform.ui","@timestamp":"1970-01-01T00:00:00Z","changes":{"add":0,"change":0,"operation":"apply","remove":0},"type":"change_summary"}
"#;

/// Halts of which the second one halts the replacement.
const HALTS: &str = "--halt-in c --halt-in null --halt-in \u{1b}b --halt-in c";

/// The same in lanes.
const HALTS_IN_LANES: &str =
    "--parallelism 2 --halt-in c --halt-in null --halt-in \u{1b}b --halt-in c";

/// What is reported of these halts.
const UNMATCHED: &str = "applystream: --halt-in c: no address of the plan begins with it
applystream: --halt-in \\u001bb: no address of the plan begins with it
";

/// Fails if the command, with these arguments and the replacement as input, has another status or
/// prints other texts.
fn follows_so<T: Threads + Wait + Sync + Abort + Files>(
    rt: &T,
    alloc: Global,
    words: &str,
    output: FailingWriter,
    status: u8,
    printed: &str,
    errors: &str,
) {
    let words = words_of(rt, alloc, words);
    let (input, mut actual) = (REPLACEMENT.as_bytes(), Vec::new(alloc));
    let (output, ended) = follow(rt, rt, &NO_CLOCK, alloc, words, input, output, &mut actual);
    let outcome = outcome_of(rt, alloc, ended, output.into_inner().taken, actual);
    outcome_is(rt, printed, outcome, status, printed, errors);
}

#[test]
fn the_version_is_printed(rt: HostRuntime) {
    let alloc = rt.alloc();
    let line = version_of(&rt, alloc);
    let room = line.len();
    for words in ["--version", "-V", "--destroy -V"] {
        follows_so(&rt, alloc, words, with_room(alloc, 7, room), 0, line, "");
        let output = unflushed(alloc, room, ErrorKind::StorageFull);
        follows_so(&rt, alloc, words, output, 3, line, UNWRITTEN);
    }
}

#[test]
fn prefixes_that_no_address_begins_with_are_reported(rt: HostRuntime) {
    let alloc = rt.alloc();
    for words in [HALTS, HALTS_IN_LANES] {
        let output = with_room(alloc, 4_096, HALTED.len());
        follows_so(&rt, alloc, words, output, 1, HALTED, UNMATCHED);
        let output = unflushed(alloc, HALTED.len(), ErrorKind::StorageFull);
        follows_so(&rt, alloc, words, output, 3, HALTED, UNWRITTEN);
        let output = unflushed(alloc, HALTED.len(), ErrorKind::BrokenPipe);
        follows_so(&rt, alloc, words, output, 3, HALTED, "");
    }
}

/// Runs the command with the halts, if standard error has room for so many bytes.
fn halted_with_room<T: Threads + Wait + Sync + Abort + Files>(
    rt: &T,
    alloc: Global,
    room: usize,
) -> Outcome {
    let words = words_of(rt, alloc, HALTS);
    let (input, mut errors) = (REPLACEMENT.as_bytes(), with_room(alloc, 7, room));
    let output = Vec::new(alloc);
    let (output, status) = follow(rt, rt, &NO_CLOCK, alloc, words, input, output, &mut errors);
    outcome_of(rt, alloc, status, output.into_inner(), errors.taken)
}

#[test]
fn a_report_that_cannot_be_written_is_cut(rt: HostRuntime) {
    let alloc = rt.alloc();
    for room in 0..UNMATCHED.len() {
        let outcome = halted_with_room(&rt, alloc, room);
        let errors = front_of(&rt, UNMATCHED, room);
        outcome_is(&rt, "a cut report", outcome, 1, HALTED, errors);
    }
}

/// Runs the command for an invocation, with the replacement as input.
fn invoked<T: Threads + Wait + Sync + Abort + Files>(
    rt: &T,
    alloc: Global,
    invocation: &Invocation,
) -> Outcome {
    let mut errors = Vec::new(alloc);
    let (input, output) = (REPLACEMENT.as_bytes(), empty(alloc));
    let (output, status) = follow_invocation(rt, rt, alloc, invocation, input, output, &mut errors);
    outcome_of(rt, alloc, status, output.into_inner(), errors)
}

/// An invocation that no arguments state: one halt more than hooks are allowed.
fn with_33_halts(rt: &impl Abort, alloc: Global) -> &'static Invocation {
    let mut settings = defaults(alloc);
    for _ in 0..33 {
        let halt = Halt::Before(StepKind::Read);
        settings.halts.push(halt).expect(rt, "memory");
    }
    let (parallelism, form) = (None, Form::Applystream);
    leaked(
        rt,
        alloc,
        Invocation {
            settings,
            parallelism,
            form,
            command: Command::Saved,
            refresh: true,
        },
    )
}

#[test]
fn more_halts_than_hooks_are_refused(rt: HostRuntime) {
    let alloc = rt.alloc();
    let outcome = invoked(&rt, alloc, with_33_halts(&rt, alloc));
    outcome_fails(&rt, "33 halts", outcome, 2, "more than 32 hooks");
}
