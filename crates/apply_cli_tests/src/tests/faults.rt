//! Inputs and outputs that fail, and their errors.

use super::*;

/// A plan with one create.
const ONE_CREATE: &str =
    r#"{"format_version":"1.2","terraform_version":"1.9.0","resource_changes":[{"address":"random_pet.animal","mode":"managed","type":"random_pet","name":"animal","change":{"actions":["create"]}}]}"#;

/// Reads an input, which must succeed.
fn read_of_input<R: Read + Drop>(rt: &impl Abort, alloc: Global, input: R) -> &'static [u8] {
    let bytes = read_all(alloc, input).ok().expect(rt, "all bytes");
    leaked(rt, alloc, bytes).as_slice()
}

/// Fails unless a reader that fails after so many bytes gives this error.
fn is_unread(rt: &impl Abort, alloc: Global, before: usize, fault: ErrorKind) {
    let failing = FailingReader {
        bytes: b"ab",
        before,
        fault,
    };
    let fault = read_all(alloc, failing).err();
    holds(rt, "a fault", fault == Some(InputFault::Read));
}

#[test]
fn all_of_the_input_is_read(rt: HostRuntime) {
    let alloc = rt.alloc();
    let blanks = blanks_of(&rt, alloc, 67_108_866);
    let front = read_of_input(&rt, alloc, blanks);
    number_is(&rt, "what may be read", front.len(), 67_108_865);
    let bytes = read_of_input(&rt, alloc, b"ab".as_slice());
    text_is(&rt, "all bytes", text_of(&rt, bytes), "ab");
    for before in 0..3 {
        is_unread(&rt, alloc, before, ErrorKind::Interrupted);
        is_unread(&rt, alloc, before, ErrorKind::OutOfMemory);
        is_unread(&rt, alloc, before, ErrorKind::Other);
    }
}

/// Fails if settings with so many workers and such a queue, which no arguments state, are not
/// refused.
fn sizes_are_refused<T: Threads + Wait + Sync + Abort>(
    rt: &T,
    alloc: Global,
    case: &str,
    workers: u8,
    queue: u16,
) {
    let settings = leaked(rt, alloc, with_sizes(alloc, workers, queue));
    let outcome = run_with(rt, alloc, settings, ONE_CREATE.as_bytes());
    let fault = "the sizes are out of range";
    outcome_fails(rt, case, outcome, 2, fault);
}

#[test]
fn sizes_out_of_range_are_refused(rt: HostRuntime) {
    let alloc = rt.alloc();
    sizes_are_refused(&rt, alloc, "nine workers", 9, 64);
    sizes_are_refused(&rt, alloc, "a queue of no message", 1, 0);
    sizes_are_refused(&rt, alloc, "a queue of 1,025 messages", 1, 1_025);
}

/// Fails if an input that could not be read has another status, or another error.
fn input_fails<T: Threads + Wait + Sync + Abort>(
    rt: &T,
    alloc: Global,
    input: InputFault,
    status: u8,
    fault: &str,
) {
    let job = Job {
        settings: leaked(rt, alloc, defaults(alloc)),
        form: Form::Applystream,
        command: Command::Saved,
        refresh: true,
        registry: no_hooks(rt, alloc),
        script: None,
    };
    let (output, mut errors) = (empty(alloc), Vec::new(alloc));
    let (output, actual) = run_input(rt, alloc, &job, Err(input), output, &mut errors);
    let outcome = outcome_of(rt, alloc, actual, output.into_inner(), errors);
    outcome_fails(rt, fault, outcome, status, fault);
}

#[test]
fn each_answer_of_reading_has_its_status(rt: HostRuntime) {
    let alloc = rt.alloc();
    let unread = "the plan could not be read";
    input_fails(&rt, alloc, InputFault::Read, 2, unread);
    input_fails(&rt, alloc, InputFault::Memory, 3, "out of memory");
    let memory = Refusal::Plan(PlanError::Memory);
    holds(&rt, "no memory for a plan", refusal_status(memory) == 3);
    let memory = Refusal::Script(ScriptError::Memory);
    holds(&rt, "no memory for a script", refusal_status(memory) == 3);
}
