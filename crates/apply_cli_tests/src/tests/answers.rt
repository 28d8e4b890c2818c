//! Answers to arguments that state no settings.

use super::*;

/// Fails if the usage has another status or prints other texts.
fn answer_is(
    rt: &impl Abort,
    alloc: Global,
    usage: Usage,
    status: u8,
    printed: &str,
    errors: &str,
) {
    let usage = leaked(rt, alloc, usage);
    let (mut out, mut faults) = (Vec::new(alloc), Vec::new(alloc));
    let actual = answer_usage(usage, &mut out, &mut faults);
    let outcome = outcome_of(rt, alloc, actual, out, faults);
    outcome_is(rt, name_of(usage), outcome, status, printed, errors);
}

/// A usage that asks for help, with that text.
fn help_with(rt: &impl Abort, alloc: Global, text: &str) -> Usage {
    Usage::Help(Text::new(alloc, text).expect(rt, "memory"))
}

/// A usage of words that are refused with that text.
fn words_with(rt: &impl Abort, alloc: Global, text: &str) -> Usage {
    Usage::Words(Text::new(alloc, text).expect(rt, "memory"))
}

/// Help, refused arguments and conflicts with a parallelism are tested on the built program.
#[test]
fn each_usage_has_its_answer(rt: HostRuntime) {
    let alloc = rt.alloc();
    let line = version_of(&rt, alloc);
    answer_is(&rt, alloc, Usage::Version, 0, line, "");
    let errors = "applystream: out of memory\n";
    answer_is(&rt, alloc, Usage::Memory, 3, "", errors);
    let errors = "applystream: the clock could not be read\n";
    answer_is(&rt, alloc, Usage::Clock, 3, "", errors);
    let errors = "applystream: --command takes no --destroy beside it\n";
    let misplaced = Usage::Misplaced(Misplaced::Destroy);
    answer_is(&rt, alloc, misplaced, 2, "", errors);
}

/// Fails if the status differs when neither stream accepts anything.
fn is_dropped(rt: &impl Abort, alloc: Global, usage: Usage, status: u8) {
    let usage = leaked(rt, alloc, usage);
    let mut printed = unflushed(alloc, 0, ErrorKind::StorageFull);
    let mut errors = unflushed(alloc, 0, ErrorKind::StorageFull);
    let actual = answer_usage(usage, &mut printed, &mut errors);
    status_is(rt, name_of(usage), actual, status);
}

#[test]
fn an_answer_that_cannot_be_printed_is_dropped(rt: HostRuntime) {
    let alloc = rt.alloc();
    is_dropped(&rt, alloc, help_with(&rt, alloc, "how it goes\n"), 0);
    is_dropped(&rt, alloc, Usage::Version, 0);
    is_dropped(&rt, alloc, words_with(&rt, alloc, "error: no\n"), 2);
    is_dropped(&rt, alloc, Usage::Misplaced(Misplaced::Form), 2);
    is_dropped(&rt, alloc, Usage::Hooks, 2);
    is_dropped(&rt, alloc, Usage::Memory, 3);
}

/// Fails if the next byte of the input differs.
fn reads<R: Read>(rt: &impl Abort, input: &mut R, wanted: u8) {
    let mut bytes = [0u8; 1];
    let read = input.read(&mut bytes).ok().expect(rt, "a read");
    holds(rt, "a byte", read == 1 && bytes[0] == wanted);
}

/// What is printed when the input is read twice, if there is such a text.
fn errors_of_reads(rt: &impl Abort, alloc: Global, text: Option<&'static str>) -> &'static str {
    let mut errors = Vec::new(alloc);
    let mut input = PromptingReader::new(b"ab".as_slice(), &mut errors, text);
    reads(rt, &mut input, b'a');
    reads(rt, &mut input, b'b');
    leaked_bytes(rt, alloc, errors)
}

#[test]
fn what_is_awaited_is_printed_once(rt: HostRuntime) {
    let alloc = rt.alloc();
    let errors = errors_of_reads(&rt, alloc, Some("a plan"));
    text_is(&rt, "a text", errors, "applystream: a plan\n");
    text_is(&rt, "no text", errors_of_reads(&rt, alloc, None), "");
}
