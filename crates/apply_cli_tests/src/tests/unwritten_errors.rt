//! Standard error that fails too: errors that cannot be written are dropped, and nothing else
//! changes.

use super::failing_outputs::{FAILED_DESTROY, FAILED_DESTROY_SCRIPT};
use super::*;

/// Runs: a plan, its script, and five words. These are the number of workers, how many bytes are
/// read before a read fails, how many the output has room for, whether it flushes or fails to, and
/// the exit status. `replacement` stands for a plan and a script of which the second step fails.
const ENDS: &str = r#"[ => no script => 1 any 0 flushes 2
{"format_version":"1.2","resource_changes":[{}]} => no script => 2 any 0 flushes 2
{"format_version":"1.2"} => {"changes":[{"address":"a_b.c"}]} => 8 any 0 flushes 2
{"format_version":"1.2"} => no script => 9 any 0 flushes 2
{"format_version":"1.2"} => no script => 1 3 0 flushes 2
{"format_version":"1.2"} => no script => 1 any 0 flushes 3
replacement => replacement => 8 any 1000 flushes 3
replacement => replacement => 2 any any fails 3
{"format_version":"1.2"} => no script => 8 any any flushes 0
replacement => replacement => 1 any any flushes 1"#;

/// The number at that place of a row, or the greatest number if there is none.
fn number_in(text: &str, place: usize) -> usize {
    let word = text.split_whitespace().nth(place).unwrap_or("");
    word.parse::<usize>().unwrap_or(usize::MAX)
}

/// The text of a row, or the one that it stands for.
fn text_in(text: &'static str, otherwise: &'static str) -> &'static str {
    if text == "replacement" {
        otherwise
    } else {
        text
    }
}

/// An output with the room that the row states; its flush may fail.
fn output_of(alloc: Global, row: &str) -> FailingWriter {
    let room = number_in(row, 2);
    if row.contains("fails") {
        unflushed(alloc, room, ErrorKind::StorageFull)
    } else {
        with_room(alloc, 7, room)
    }
}

/// Runs a row with these errors, and returns the status and the output.
fn ended<E: Write, T: Threads + Wait + Sync + Abort>(
    rt: &T,
    alloc: Global,
    row: &'static str,
    errors: &mut E,
) -> (u8, &'static str) {
    let (plan, rest) = parted(rt, row, " => ");
    let (script, sizes) = parted(rt, rest, " => ");
    let workers = u8::try_from(number_in(sizes, 0)).ok().expect(rt, row);
    let settings = leaked(rt, alloc, with_sizes(alloc, workers, 64));
    let input = FailingReader {
        bytes: text_in(plan, FAILED_DESTROY).as_bytes(),
        before: number_in(sizes, 1),
        fault: ErrorKind::Other,
    };
    let script = script_bytes(text_in(script, FAILED_DESTROY_SCRIPT));
    let output = output_of(alloc, sizes);
    let (output, status) = command(rt, alloc, settings, script, input, output, errors);
    (status, leaked_bytes(rt, alloc, output.taken))
}

/// Fails if a row ends otherwise when standard error accepts only so many bytes and fails to flush,
/// or if these are not the first bytes of the error.
fn ends_unwritten<T: Threads + Wait + Sync + Abort>(
    rt: &T,
    alloc: Global,
    row: &'static str,
    room: usize,
    status: u8,
    printed: &str,
    errors: &str,
) {
    let mut unwritten = unflushed(alloc, room, ErrorKind::StorageFull);
    let (actual, output) = ended(rt, alloc, row, &mut unwritten);
    status_is(rt, row, actual, status);
    text_is(rt, row, output, printed);
    let front = front_of(rt, errors, room.min(errors.len()));
    text_is(rt, row, leaked_bytes(rt, alloc, unwritten.taken), front);
}

/// Fails if a row has another status, with its error written or not, or another output if it is
/// not.
fn ends_as_if_written<T: Threads + Wait + Sync + Abort>(rt: &T, alloc: Global, row: &'static str) {
    let mut errors = Vec::new(alloc);
    let (status, printed) = ended(rt, alloc, row, &mut errors);
    let errors = leaked_bytes(rt, alloc, errors);
    let wanted = row.rsplit_once(" ").expect(rt, row).1;
    status_is(rt, row, status, wanted.parse::<u8>().ok().expect(rt, row));
    holds(rt, row, errors.is_empty() == (status < 2));
    for room in [0, 1, 20] {
        ends_unwritten(rt, alloc, row, room, status, printed, errors);
    }
}

#[test]
fn an_error_that_cannot_be_written_changes_neither_status_nor_output(rt: HostRuntime) {
    for row in ENDS.lines() {
        ends_as_if_written(&rt, rt.alloc(), row);
    }
}
