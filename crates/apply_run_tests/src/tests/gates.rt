//! Who passes the gate, and when: the worker that applies the change, before the step's first line
//! is sent.

use super::watching::{FOUR_CREATES, NO_STEP, Watch, passing, watched, word_is, worker_of};
use super::*;

/// The changes take 1, 2, 4 and 8 seconds: the timestamp of a start shows which changes its worker
/// has applied before.
const FOUR_SPANS: &str =
    r#"{"changes":[{"address":"null_resource.a","steps":[{"seconds":1}]},{"address":"null_resource.b","steps":[{"seconds":2}]},{"address":"null_resource.c","steps":[{"seconds":4}]},{"address":"null_resource.d","steps":[{"seconds":8}]}]}"#;

/// The changes, and the texts of their first lines.
const STARTS: &str = "0 null_resource.a: Creating...
1 null_resource.b: Creating...
2 null_resource.c: Creating...
3 null_resource.d: Creating...";

/// The timestamps of the first seconds of 1970.
const MOMENTS: &str = "1970-01-01T00:00:00Z
1970-01-01T00:00:01Z
1970-01-01T00:00:02Z
1970-01-01T00:00:03Z
1970-01-01T00:00:04Z
1970-01-01T00:00:05Z
1970-01-01T00:00:06Z
1970-01-01T00:00:07Z
1970-01-01T00:00:08Z
1970-01-01T00:00:09Z
1970-01-01T00:00:10Z
1970-01-01T00:00:11Z
1970-01-01T00:00:12Z
1970-01-01T00:00:13Z
1970-01-01T00:00:14Z
1970-01-01T00:00:15Z";

/// The seconds that the other change takes, where it stands before the change and the same worker
/// passed the gate of both.
fn span_of(passed: u64, change: u32, other: u32, seconds: usize) -> usize {
    if other < change && worker_of(passed, change) == worker_of(passed, other) {
        seconds
    } else {
        0
    }
}

/// The timestamp at which the worker of the change has ended the changes before it.
fn own_begin_of(passed: u64, change: u32) -> &'static str {
    let first = span_of(passed, change, 0, 1);
    let second = span_of(passed, change, 1, 2);
    let third = span_of(passed, change, 2, 4);
    cell(MOMENTS, first.saturating_add(second).saturating_add(third))
}

/// The text before the timestamp of a line.
const AT: &str = r#""@timestamp":""#;

/// The timestamp at the beginning of the text.
fn moment_of<'a>(rt: &impl Abort, text: &'a str) -> &'a str {
    parted(rt, text, r#"",""#).0
}

/// Fails if the change was not begun when the worker that passed its gate had ended the changes
/// before it, or at the timestamp of the line above where that is later; or where there is no such
/// worker among so many. A line has its timestamp after its message.
fn was_begun_by_its_worker(rt: &impl Abort, text: &str, passed: u64, workers: u8, row: &str) {
    let (change, message) = parted(rt, row, " ");
    let change = change.parse::<u32>().ok().expect(rt, row);
    let worker = worker_of(passed, change);
    holds(rt, row, 1 <= worker && worker <= u64::from(workers));
    let (above, line) = parted(rt, text, message);
    let above = moment_of(rt, above.rsplit_once(AT).expect(rt, row).1);
    holds(rt, row, MOMENTS.contains(above));
    let actual = moment_of(rt, parted(rt, line, AT).1);
    let own = own_begin_of(passed, change);
    let wanted = if own < above { above } else { own };
    text_is(rt, row, actual, wanted);
}

/// Fails if one of four changes was not begun by the worker that passed its gate. Where there are
/// several workers, the first change is held until the last has come. Who passed.
fn workers_pass<R: Threads + Wait + Sync + Abort>(rt: &R, alloc: Global, workers: u8) -> u64 {
    let passed = AtomicU64::new(0);
    let held = if workers > 1 { 0 } else { NO_STEP };
    let gate = Watch::new(&passed, &passed, 0x0100_0000, 0, held);
    let (options, sink) = (options(workers, 64), memory(alloc));
    let (sink, _counted) = apply_plan(rt, alloc, FOUR_CREATES, FOUR_SPANS, options, sink, &gate);
    word_is(rt, "missed", &gate.missed, 0);
    let text = str::from_utf8(sink.bytes()).ok().expect(rt, "a text");
    let noted = gate.workers.load(Ordering::SeqCst);
    for row in STARTS.lines() {
        was_begun_by_its_worker(rt, text, noted, workers, row);
    }
    noted
}

/// The only worker has the number 0.
#[test]
fn one_worker_passes_as_the_first(rt: HostRuntime) {
    let passed = workers_pass(&rt, rt.alloc(), 1);
    number_is(&rt, "workers", passed, 0x0101_0101);
}

/// The first change is held until all others have come, so that one worker of two applies these.
#[test]
fn each_worker_passes_as_itself(rt: HostRuntime) {
    let two = workers_pass(&rt, rt.alloc(), 2);
    holds(&rt, "two", two == 0x0202_0201 || two == 0x0101_0102);
    let eight = workers_pass(&rt, rt.alloc(), 8);
    holds(&rt, "eight", worker_of(eight, 0) != worker_of(eight, 1));
}

/// A start that was sent before its gate would be written while the step is held there.
#[test]
fn a_gate_is_passed_before_the_start_is_sent(rt: HostRuntime) {
    let (starts, alloc) = (AtomicU64::new(0), rt.alloc());
    let gate = passing(&starts, 100_000);
    let line = r#","type":"apply_start"}"#;
    let sink = watched(alloc, line, &starts, true, &starts, 0);
    let (plan, options) = (REPLACEMENT_AND_CREATE, options(1, 1));
    let (_sink, _counted) = apply_plan(&rt, alloc, plan, NO_SCRIPT, options, sink, &gate);
    word_is(&rt, "early", &gate.early, 0);
    word_is(&rt, "passed", &gate.count, 3);
    word_is(&rt, "starts", &starts, 3);
}
